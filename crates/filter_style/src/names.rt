//! The names of header lines and of the `diff` line.

ghost use Rattle.std.specs.Prelude.{◌≡◌, ◌<◌, ◌≤◌, ◌++◌, codes, length, unwrap_or, IfSome, OnOk};
ghost use Rattle.std.specs.List.{position, slice_split};
ghost use Rattle.patch_header.specs.Values.{first, is_white};
ghost use Rattle.cli_tool_words.specs.PlainJobs.{plain_style};
ghost use Rattle.filter_style.specs.Names.{diff_line, ends_name, header_line, is_blank, is_name, is_no_file, named, next_turn, prefix_in, quote_of, tail_line, turn_behind, unquoted, word_at, words};

use cli_tool_words::Style;
use read_file_patch::shortened;
use std::alloc::AllocError;

/// Which name of a line comes next.
#[derive(Clone, Copy)]
pub enum NextName {
    Old,
    New,
    /// None of them: the word is stripped alone.
    Other,
}

fn is_white(byte: u8) -> bool
    ensures { result ≡ is_white byte }
{
    (byte == b' ' || byte == b'\t')
        || (byte == b'\n' || (byte == 11 || (byte == 12 || byte == b'\r')))
}

fn first_white(bytes: &[u8]) -> Option<usize>
    ensures place { result ≡ position is_white bytes.now }
    ensures bound { IfSome result (λ n. n < length bytes.now) }
{
    bytes.iter().position(|byte| is_white(*byte))
}

/// How many bytes stand in front of the first white one.
fn white_at(bytes: &[u8]) -> usize
    ensures is { result ≡ first is_white bytes.now }
    ensures within { result ≤ length bytes.now }
{
    match first_white(bytes) {
        Some(place) => place,
        None => bytes.len(),
    }
}

fn ends_name(byte: u8) -> bool
    ensures { result ≡ ends_name byte }
{
    byte == b'\t' || byte == b'\n'
}

fn name_end(bytes: &[u8]) -> Option<usize>
    ensures place { result ≡ position ends_name bytes.now }
    ensures bound { IfSome result (λ n. n < length bytes.now) }
{
    bytes.iter().position(|byte| ends_name(*byte))
}

/// How long the name in front is.
fn name_length(bytes: &[u8]) -> usize
    ensures is { result ≡ first ends_name bytes.now }
    ensures within { result ≤ length bytes.now }
{
    match name_end(bytes) {
        Some(place) => place,
        None => bytes.len(),
    }
}

fn is_no_file(name: &[u8]) -> bool
    ensures { result ≡ is_no_file name.now }
{
    let word = &name[..white_at(name)];
    word == b"/dev/null".as_slice()
}

fn quote_of(name: &[u8]) -> &'static [u8]
    ensures { result.now ≡ quote_of name.now }
{
    if name.starts_with(b"\"") { b"\"" } else { b"" }
}

fn unquoted(name: &[u8]) -> &[u8]
    ensures { result.now ≡ unquoted name.now }
{
    match name.strip_prefix(b"\"") {
        Some(rest) => rest,
        None => name,
    }
}

/// Puts a name down, without its front and behind a prefix.
fn put_name(out: &mut Vec<u8>, strip: u32, prefix: &[u8], name: &[u8]) -> Result<(), AllocError>
    ensures { OnOk result (out.new.items ≡ out.old.items ++ named strip prefix.now name.now) }
{
    if is_no_file(name) {
        return put(out, name);
    }
    put(out, quote_of(name))?;
    put(out, prefix)?;
    put(out, shortened(strip, unquoted(name)))
}

/// Puts bytes down.
pub fn put(out: &mut Vec<u8>, bytes: &[u8]) -> Result<(), AllocError>
    ensures { OnOk result (out.new.items ≡ out.old.items ++ bytes.now) }
{
    out.extend_from_slice(bytes)
}

fn prefix_in<'a>(style: &'a Style, turn: NextName) -> &'a [u8]
    ensures { result.now ≡ prefix_in (plain_style style.now) turn }
{
    match turn {
        NextName::Old => &style.old_prefix,
        NextName::New => &style.new_prefix,
        NextName::Other => b"",
    }
}

/// What stands in front of a name of a header line.
fn header_prefix<'a>(style: &'a Style, turn: NextName) -> &'a [u8]
    ensures { result.now ≡ unwrap_or (plain_style style.now).prefix (prefix_in (plain_style style.now) turn) }
{
    match &style.prefix {
        Some(prefix) => prefix,
        None => prefix_in(style, turn),
    }
}

/// Puts down what stands behind the mark of a header line.
fn put_tail(out: &mut Vec<u8>, style: &Style, prefix: &[u8], tail: &[u8]) -> Result<(), AllocError>
    ensures { OnOk result (out.new.items ≡ out.old.items ++ tail_line (plain_style style.now) prefix.now tail.now) }
{
    let end = name_length(tail);
    put_name(out, style.strip, prefix, &tail[..end])?;
    if style.no_stamps {
        return put(out, b"\n");
    }
    put(out, &tail[end..])
}

/// Puts a header line down.
pub fn put_header_line(
    out: &mut Vec<u8>,
    style: &Style,
    turn: NextName,
    line: &[u8],
) -> Result<(), AllocError>
    ensures { OnOk result (out.new.items ≡ out.old.items ++ header_line (plain_style style.now) turn line.now) }
{
    let mark = usize::min(4, line.len());
    put(out, &line[..mark])?;
    put_tail(out, style, header_prefix(style, turn), &line[mark..])
}

fn is_name(word: &[u8]) -> bool
    ensures { result ≡ is_name word.now }
{
    match word {
        [first, ..] => *first != b'-' && !is_white(*first),
        [] => false,
    }
}

fn next_turn(turn: NextName) -> NextName
    ensures { result ≡ next_turn turn }
{
    match turn {
        NextName::Old => NextName::New,
        NextName::New | NextName::Other => NextName::Other,
    }
}

fn turn_behind(turn: NextName, word: &[u8]) -> NextName
    ensures { result ≡ turn_behind turn word.now }
{
    if is_name(word) { next_turn(turn) } else { turn }
}

/// Puts a word of a `diff` line down, behind a blank.
fn put_word(out: &mut Vec<u8>, style: &Style, turn: NextName, word: &[u8]) -> Result<(), AllocError>
    ensures { OnOk result (out.new.items ≡ out.old.items ++ (codes " " ++ word_at (plain_style style.now) turn word.now)) }
{
    put(out, b" ")?;
    if is_name(word) {
        return put_name(out, style.strip, prefix_in(style, turn), word);
    }
    put(out, word)
}

/// Puts words down.
fn put_words(out: &mut Vec<u8>, style: &Style, text: &[u8]) -> Result<(), AllocError>
    ensures { OnOk result (out.new.items ≡ out.old.items ++ words (plain_style style.now) NextName.Old (slice_split is_blank text.now)) }
{
    let mut turn = NextName::Old;
    for word in text.split(|byte| *byte == b' ') {
        put_word(out, style, turn, word)?;
        turn = turn_behind(turn, word);
    }
    Ok(())
}

/// Puts a `diff` line down.
pub fn put_diff_line(out: &mut Vec<u8>, style: &Style, line: &[u8]) -> Result<(), AllocError>
    ensures { OnOk result (out.new.items ≡ out.old.items ++ diff_line (plain_style style.now) line.now) }
{
    put(out, &line[..usize::min(4, line.len())])?;
    put_words(out, style, &line[usize::min(5, line.len())..])
}
