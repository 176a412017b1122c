//! How the lines of all forms begin and end.

ghost use Rattle.std.specs.Prelude.{◌≡◌, ◌↔◌, ℕ, ◌+◌, List, [], ◌∷◌, ◌++◌, true, Some, ◌<◌, ◌≤◌, length, drop, IfSome, Option};
ghost use Rattle.line_list.specs.Lines.{lines};
ghost use Rattle.hunk_core.specs.PlainHunk.{marked_of};
ghost use Rattle.line_list.specs.Reader.{Reads};
ghost use Rattle.hunk_core.specs.LineTests.{after, is_backslash, after_backslash, ends_line, unended};

use crate::HunkLine;
use line_list::{Span, next_line};

/// What stands after a prefix.
pub fn after_prefix<'a>(bytes: &'a [u8], prefix: &[u8]) -> Option<&'a [u8]>
    ensures { Reads (λ x. x.now) result (after prefix.now bytes.now) }
{
    bytes.strip_prefix(prefix)
}

/// Whether a line has a line feed at its end.
pub fn has_feed(line: &[u8]) -> bool
    ensures { result ≡ ends_line line.now }
{
    match line.len() {
        0 => false,
        n => line[n - 1] == b'\n',
    }
}

/// Whether a line says that the one before it has no line feed.
pub fn begins_backslash(line: &[u8]) -> bool
    ensures { result ≡ is_backslash line.now }
{
    after_prefix(line, b"\\ ").is_some()
}

/// The place after the backslash line at `at`, if there is one.
pub fn backslash_end(text: &[u8], at: usize) -> Option<usize>
    requires { at ≤ length text.now }
    ensures range { IfSome result (λ e. at < e × e ≤ length text.now) }
    ensures exact { Reads (λ e. lines (drop e text.now)) result (after_backslash (lines (drop at text.now))) }
{
    // Tested first, so that the line is looked for only where it is one.
    if !begins_backslash(&text[at..]) {
        return None;
    }
    next_line(text, at)
}

/// The line without its line feed; an empty one stays as it is.
pub fn without_feed(line: HunkLine) -> HunkLine
    requires { line.span.start ≤ line.span.end }
    ensures order { result.span.start ≤ result.span.end }
    ensures end { result.span.end ≤ line.span.end }
    ensures unended { (text : List ℕ) → line.span.end ≤ length text → marked_of text result ≡ unended (marked_of text line) }
{
    if line.span.start == line.span.end {
        return line;
    }
    HunkLine {
        mark: line.mark,
        span: Span {
            start: line.span.start,
            end: line.span.end - 1,
        },
    }
}

/// The tests on a line, in the words of the diffutils manual.
pub fn line_tests_laws()
    ensures prefix { (prefix bytes rest : List ℕ) → after prefix bytes ≡ Some rest ↔ bytes ≡ prefix ++ rest }
    ensures backslash { (line : List ℕ) → is_backslash line ≡ true ↔ ((rest : List ℕ) × (line ≡ 92 ∷ 32 ∷ rest)) }
    ensures feed { (line : List ℕ) → ends_line line ≡ true ↔ ((front : List ℕ) × (line ≡ front ++ 10 ∷ [])) }
{}
