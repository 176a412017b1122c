//! Lines of a store that doesn't hold them side by side, gathered so that they are put at once.

ghost use Rattle.std.specs.Prelude.{◌≡◌, ◌+◌, ◌<◌, ◌≤◌, ◌++◌, ℕ, List, take, length, false, Some, None, IfOk, IfErr, IfSome};
ghost use Rattle.line_list.specs.Join.{lacks_feed};
ghost use Rattle.line_store.specs.Store.{Keeps, HasCause};
ghost use Rattle.hunk_apply.specs.Faults.{IsCounted};
ghost use Rattle.hunk_apply.specs.Gathering.{Gathers};

use crate::put::is_without_feed;
use line_store::{Half, LineFault, LineStore};

/// How many bytes are gathered at most.
pub const BLOCK: usize = 1024;

/// How many lines were gathered, and how many bytes they have.
#[derive(Clone, Copy)]
pub struct Gathered {
    pub bytes: usize,
    pub count: u64,
}

/// Gathers lines from line `q` on, at most `most` of them, as far as there is room for them and they have their line feeds. None
/// are gathered where the store lends them all side by side.
pub fn gather_lines<S: LineStore>(
    store: &mut S,
    q: u64,
    most: u64,
    block: &mut [u8],
) -> Result<Gathered, LineFault>
    requires counted { IsCounted (S.seen store.old) }
    requires low { 1 ≤ q }
    requires some { 1 ≤ most }
    requires high { q + most ≤ (S.seen store.old).count + 1 }
    ensures most { IfOk result (λ gathered. gathered.count ≤ most) }
    ensures room { IfOk result (λ gathered. gathered.bytes ≤ length block.new) }
    ensures lines { IfOk result (λ gathered. (lines : List (List ℕ)) → (S.seen store.old).told ≡ Some lines → Gathers lines q gathered.count (take gathered.bytes block.new)) }
    ensures keeps { Keeps (S.seen store.old) (S.seen store.new) }
    ensures cause { IfErr result (λ e. HasCause e (S.seen store.old) (S.seen store.new)) }
{
    let most = apart(store, q, most)?;
    let mut bytes = 0;
    let mut count = 0;
    while let Some(end) = gather_line(store, q, count, most, block, bytes)? {
        bytes = end;
        count += 1;
    }
    Ok(Gathered { bytes, count })
}

/// How many of so many lines from line `q` on are to be gathered: all, or none where the store lends them side by side.
fn apart<S: LineStore>(store: &mut S, q: u64, most: u64) -> Result<u64, LineFault>
    requires low { 1 ≤ q }
    requires some { 1 ≤ most }
    requires high { q + most ≤ (S.seen store.old).count + 1 }
    ensures most { IfOk result (λ count. count ≤ most) }
    ensures keeps { Keeps (S.seen store.old) (S.seen store.new) }
    ensures cause { IfErr result (λ e. HasCause e (S.seen store.old) (S.seen store.new)) }
{
    store.load(q, Half::First)?;
    if store.stretch(Half::First, most).count == most {
        Ok(0)
    } else {
        Ok(most)
    }
}

/// Gathers one line more behind `count` lines from line `q` on, if it is to be, there is room for it and it has its line feed.
fn gather_line<S: LineStore>(
    store: &mut S,
    q: u64,
    count: u64,
    most: u64,
    block: &mut [u8],
    bytes: usize,
) -> Result<Option<usize>, LineFault>
    requires counted { IsCounted (S.seen store.old) }
    requires low { 1 ≤ q }
    requires high { q + most ≤ (S.seen store.old).count + 1 }
    requires room { bytes ≤ length block.old }
    ensures length { length block.new ≡ length block.old }
    ensures more { IfOk result (λ next. IfSome next (λ end. count < most)) }
    ensures room { IfOk result (λ next. IfSome next (λ end. end ≤ length block.new)) }
    ensures lines { IfOk result (λ next. IfSome next (λ end. (lines : List (List ℕ)) → (S.seen store.old).told ≡ Some lines → Gathers lines q count (take bytes block.old) → Gathers lines q (count + 1) (take end block.new))) }
    ensures stays { IfOk result (λ next. next ≡ None → block.new ≡ block.old) }
    ensures keeps { Keeps (S.seen store.old) (S.seen store.new) }
    ensures cause { IfErr result (λ e. HasCause e (S.seen store.old) (S.seen store.new)) }
{
    if count >= most {
        return Ok(None);
    }
    store.load(q + count, Half::First)?;
    Ok(add_line(block, bytes, store.line(Half::First)))
}

/// Puts a line behind the bytes that were gathered, and says where it ends, if there is room for it and it has its line feed.
fn add_line(block: &mut [u8], bytes: usize, line: &[u8]) -> Option<usize>
    requires { bytes ≤ length block.old }
    ensures length { length block.new ≡ length block.old }
    ensures room { IfSome result (λ end. end ≤ length block.new) }
    ensures added { IfSome result (λ end. take end block.new ≡ take bytes block.old ++ line.now) }
    ensures fed { IfSome result (λ end. lacks_feed line.now ≡ false) }
    ensures stays { result ≡ None → block.new ≡ block.old }
{
    if is_without_feed(line) || line.len() > block.len() - bytes {
        return None;
    }
    let end = bytes + line.len();
    block[bytes..end].copy_from_slice(line);
    Some(end)
}
