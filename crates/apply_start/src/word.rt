//! Whether a word stands in a file between white space.

ghost use Rattle.std.specs.Prelude.{◌≡◌, ◌≤◌, ℕ, List, Some, IfOk, IfErr};
ghost use Rattle.line_store.specs.Store.{Keeps, HasCause, line_at};
ghost use Rattle.patch_header.specs.Values.{is_white};
ghost use Rattle.apply_start.specs.Start.{has_word, line_has_word};

use line_store::{Half, LineFault, LineStore};

/// Whether some run of bytes between white space is the word.
pub fn has_word<S: LineStore>(word: &[u8], store: &mut S) -> Result<bool, LineFault>
    ensures value { IfOk result (λ yes. (lines : List (List ℕ)) → (S.seen store.old).told ≡ Some lines → yes ≡ has_word word.now lines) }
    ensures keeps { Keeps (S.seen store.old) (S.seen store.new) }
    ensures cause { IfErr result (λ e. HasCause e (S.seen store.old) (S.seen store.new)) }
{
    let count = store.count();
    for k in 0..count {
        if has_word_at(word, k + 1, store)? {
            return Ok(true);
        }
    }
    Ok(false)
}

/// Whether the word stands in this line.
fn has_word_at<S: LineStore>(word: &[u8], k: u64, store: &mut S) -> Result<bool, LineFault>
    requires low { 1 ≤ k }
    requires high { k ≤ (S.seen store.old).count }
    ensures value { IfOk result (λ yes. (lines : List (List ℕ)) → (S.seen store.old).told ≡ Some lines → yes ≡ line_has_word word.now (line_at lines k)) }
    ensures keeps { Keeps (S.seen store.old) (S.seen store.new) }
    ensures cause { IfErr result (λ e. HasCause e (S.seen store.old) (S.seen store.new)) }
{
    store.load(k, Half::First)?;
    Ok(line_has_word(word, store.line(Half::First)))
}

fn line_has_word(word: &[u8], line: &[u8]) -> bool
    ensures { result ≡ line_has_word word.now line.now }
{
    line.split(|byte| is_white(*byte)).any(|run| run == word)
}

/// Space, tab, line feed, vertical tab, form feed or carriage return.
fn is_white(byte: u8) -> bool
    ensures { result ≡ is_white byte }
{
    matches!(byte, b' ' | b'\t' | b'\n' | 0x0b | 0x0c | b'\r')
}
