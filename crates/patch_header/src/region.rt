//! The last line of each kind in front of a file patch.

ghost use Rattle.std.specs.Prelude.{◌≡◌, ◌+◌, ◌<◌, ◌≤◌, ◌^◌, length, IfSome, is_some, slice_range, if◌then◌else◌, List, [], ◌∷◌, ◌++◌};
ghost use Rattle.line_list.specs.Lines.{IsLineAt};
ghost use Rattle.patch_header.specs.Region.{Row, row, tail_of, seen_in, LiesIn, AllLieIn};

use crate::content::content;
use hunk_core::after_prefix;

/// What stands in a line behind the bytes that tell its kind, without the line feed.
#[derive(Clone, Copy)]
pub struct Tail {
    pub number: u64,
    pub start: usize,
    pub end: usize,
}

/// The last line of each kind so far: `--- `, `+++ `, `*** `, `Index:`, `Prereq:` and `diff --git `.
#[derive(Clone, Copy)]
pub struct LastHeaderLines {
    pub minus: Option<Tail>,
    pub plus: Option<Tail>,
    pub stars: Option<Tail>,
    pub index: Option<Tail>,
    pub prereq: Option<Tail>,
    pub git: Option<Tail>,
}

/// No line so far.
pub fn nothing_seen() -> LastHeaderLines
    ensures { result ≡ seen_in [] }
{
    LastHeaderLines {
        minus: None,
        plus: None,
        stars: None,
        index: None,
        prereq: None,
        git: None,
    }
}

/// The line's tail, if it begins with the mark.
pub fn tail_of(mark: &[u8], number: u64, text: &[u8], at: usize, end: usize) -> Option<Tail>
    requires { IsLineAt text.now at end }
    ensures is { result ≡ tail_of mark.now (row number at (slice_range text.now at end)) }
    ensures lies { IfSome result (LiesIn text.now) }
{
    let bytes = content(&text[at..end]);
    match after_prefix(bytes, mark) {
        None => None,
        Some(_) => Some(Tail {
            number,
            start: at + mark.len(),
            end: at + bytes.len(),
        }),
    }
}

/// The tail of this line, or that of an earlier one.
pub fn later(last: Option<Tail>, new: Option<Tail>) -> Option<Tail>
    ensures { result ≡ (if is_some new then new else last) }
{
    match new {
        Some(_) => new,
        None => last,
    }
}

/// The last line of each kind, the line from `at` up to `end` with them.
pub fn passed(
    seen: LastHeaderLines,
    number: u64,
    text: &[u8],
    at: usize,
    end: usize,
) -> LastHeaderLines
    requires line { IsLineAt text.now at end }
    requires lies { AllLieIn text.now seen }
    ensures lies { AllLieIn text.now result }
    ensures is { (rs : List Row) → seen ≡ seen_in rs → result ≡ seen_in (rs ++ row number at (slice_range text.now at end) ∷ []) }
{
    LastHeaderLines {
        minus: later(seen.minus, tail_of(b"--- ", number, text, at, end)),
        plus: later(seen.plus, tail_of(b"+++ ", number, text, at, end)),
        stars: later(seen.stars, tail_of(b"*** ", number, text, at, end)),
        index: later(seen.index, tail_of(b"Index:", number, text, at, end)),
        prereq: later(seen.prereq, tail_of(b"Prereq:", number, text, at, end)),
        git: later(seen.git, tail_of(b"diff --git ", number, text, at, end)),
    }
}
