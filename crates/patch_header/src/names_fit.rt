//! Whether the names of header lines are those of the rename or copy in front of them.

ghost use Rattle.std.specs.Prelude.{◌≡◌, ◌≤◌, length, drop, is_some, slice_index};
ghost use Rattle.std.specs.List.{list_any};
ghost use Rattle.line_list.specs.Lines.{lines};
ghost use Rattle.hunk_core.specs.LineTests.{after};
ghost use Rattle.patch_header.specs.Content.{content};
ghost use Rattle.patch_header.specs.GitHeaders.{extended_run};
ghost use Rattle.patch_header.specs.NamesFit.{behind, name_in_front, all_in_front, ends_below, past_quote, is_given, gives, tells, is_free, fits, line_fits, old_fits, new_fits};
ghost use Rattle.patch_header.specs.Values.{unblanked};

use crate::content::content;
use crate::git_lines::is_extended;
use crate::values::{blanks, index_length, name_length};
use hunk_core::after_prefix;
use line_list::next_line;
use read_header_record::begins_quoted;

/// What stands in a line behind these bytes.
fn behind<'a>(mark: &[u8], line: &'a [u8]) -> &'a [u8]
    ensures { result.now ≡ behind mark.now line.now }
{
    let bytes = content(line);
    match after_prefix(bytes, mark) {
        None => &bytes[..0],
        Some(rest) => rest,
    }
}

/// What stands in a line behind these bytes and the blanks that follow them.
fn unblanked<'a>(mark: &[u8], line: &'a [u8]) -> &'a [u8]
    ensures { result.now ≡ unblanked (behind mark.now line.now) }
{
    let bytes = behind(mark, line);
    &bytes[blanks(bytes)..]
}

fn name_in_front(bytes: &[u8]) -> &[u8]
    ensures { result.now ≡ name_in_front bytes.now }
{
    &bytes[..name_length(bytes)]
}

fn all_in_front(bytes: &[u8]) -> &[u8]
    ensures { result.now ≡ all_in_front bytes.now }
{
    &bytes[..index_length(bytes)]
}

/// The byte at a place; past the end stands 0.
fn byte_at(bytes: &[u8], at: usize) -> u8
    ensures { result ≡ slice_index bytes.now at }
{
    if at < bytes.len() { bytes[at] } else { 0 }
}

/// Whether bytes end with a slash and the tail behind it.
fn ends_below(bytes: &[u8], tail: &[u8]) -> bool
    ensures { result ≡ ends_below bytes.now tail.now }
{
    if bytes.len() <= tail.len() {
        return false;
    }
    byte_at(bytes, bytes.len() - tail.len() - 1) == b'/' && bytes.ends_with(tail)
}

/// The bytes without the quote in front.
fn past_quote(bytes: &[u8]) -> &[u8]
    ensures { result.now ≡ past_quote bytes.now }
{
    if begins_quoted(bytes) {
        &bytes[1..]
    } else {
        bytes
    }
}

/// Whether a line that begins with the mark gives the name.
fn is_given(name: &[u8], mark: &[u8], line: &[u8]) -> bool
    ensures { result ≡ is_given name.now (after mark.now (content line.now)) }
{
    match after_prefix(content(line), mark) {
        None => false,
        Some(given) => name == given || ends_below(name, past_quote(given)),
    }
}

fn gives(name: &[u8], one: &[u8], two: &[u8], line: &[u8]) -> bool
    ensures { result ≡ gives name.now one.now two.now line.now }
{
    is_given(name, one, line) || is_given(name, two, line)
}

fn tells(one: &[u8], two: &[u8], line: &[u8]) -> bool
    ensures { result ≡ tells one.now two.now line.now }
{
    after_prefix(content(line), one).is_some() || after_prefix(content(line), two).is_some()
}

/// Whether an extended line from a place on gives the name.
fn run_gives(name: &[u8], one: &[u8], two: &[u8], text: &[u8], at: usize) -> bool
    requires { at ≤ length text.now }
    ensures { result ≡ list_any (gives name.now one.now two.now) (extended_run (lines (drop at text.now))) }
{
    let mut place = at;
    'lines: while let Some(end) = next_line(text, place) {
        if !is_extended(&text[place..end]) {
            return false;
        }
        if gives(name, one, two, &text[place..end]) {
            return true;
        }
        place = end;
    }
    false
}

/// Whether one of them gives any.
fn run_tells(one: &[u8], two: &[u8], text: &[u8], at: usize) -> bool
    requires { at ≤ length text.now }
    ensures { result ≡ list_any (tells one.now two.now) (extended_run (lines (drop at text.now))) }
{
    let mut place = at;
    'lines: while let Some(end) = next_line(text, place) {
        if !is_extended(&text[place..end]) {
            return false;
        }
        if tells(one, two, &text[place..end]) {
            return true;
        }
        place = end;
    }
    false
}

/// Whether there is nothing to compare.
fn is_free(name: &[u8]) -> bool
    ensures { result ≡ is_free name.now }
{
    name == b"".as_slice() || name == b"/dev/null".as_slice()
}

fn fits(name: &[u8], one: &[u8], two: &[u8], text: &[u8], at: usize) -> bool
    requires { at ≤ length text.now }
    ensures { result ≡ fits one.now two.now (extended_run (lines (drop at text.now))) name.now }
{
    !run_tells(one, two, text, at) || (is_free(name) || run_gives(name, one, two, text, at))
}

fn line_fits(mark: &[u8], one: &[u8], two: &[u8], text: &[u8], at: usize, line: &[u8]) -> bool
    requires { at ≤ length text.now }
    ensures { result ≡ line_fits mark.now one.now two.now (extended_run (lines (drop at text.now))) line.now }
{
    let bytes = unblanked(mark, line);
    fits(name_in_front(bytes), one, two, text, at) || fits(all_in_front(bytes), one, two, text, at)
}

/// Whether the name of a line `--- ` is the old one of a git header whose extended lines begin at a place.
#[tactic(auto, unfolding(crate::specs::NamesFit::old_fits))]
pub fn old_fits(text: &[u8], at: usize, line: &[u8]) -> bool
    requires { at ≤ length text.now }
    ensures { result ≡ old_fits (extended_run (lines (drop at text.now))) line.now }
{
    line_fits(b"--- ", b"rename from ", b"copy from ", text, at, line)
}

/// Whether the name of a line `+++ ` is the new one.
#[tactic(auto, unfolding(crate::specs::NamesFit::new_fits))]
pub fn new_fits(text: &[u8], at: usize, line: &[u8]) -> bool
    requires { at ≤ length text.now }
    ensures { result ≡ new_fits (extended_run (lines (drop at text.now))) line.now }
{
    line_fits(b"+++ ", b"rename to ", b"copy to ", text, at, line)
}
