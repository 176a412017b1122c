//! The next header of a patch text.

ghost use Rattle.std.specs.Prelude.{◌≡◌, ◌↔◌, ◌<◌, ◌≤◌, ◌+◌, ◌^◌, ℕ, Option, Some, None, true, false, List, length, drop};
ghost use Rattle.line_list.specs.Lines.{lines, IsLineAt};
ghost use Rattle.patch_header.specs.Content.{has_dot};
ghost use Rattle.patch_header.specs.Openings.{stop_at};
ghost use Rattle.patch_header.specs.Steps.{Comes, IsFirstOpening, IsFirstBinary, IsEnd, next_step, Lies, KnowsNoDot};
ghost use Rattle.patch_header.specs.Searching.{HasPassed, IsLawful};
ghost use Rattle.patch_header.specs.Said.{TrailsWithin};
ghost use Rattle.patch_header.specs.Region.{AllLieIn};
ghost use Rattle.patch_header.specs.ReadOptions.{with_git};
ghost use Rattle.read_header_record.specs.declared.Header.{Header};
ghost use Rattle.patch_header.specs.declared.read_options.ReadOptions.{ReadOptions};

use crate::bare::bare_of;
use crate::git_trail::{GitTrail, leads_directly, led_by, no_trail, trail_behind};
use crate::header::{header_of, seen_by};
use crate::openings::{Stop, lacks_dot, stop_at};
use crate::read_options::{ReadOptions, with_git};
use crate::region::{LastHeaderLines, nothing_seen, passed};
use hunk_core::Form;
use line_list::next_line;
use read_header_record::Header;

/// What comes next in a patch text outside hunks.
#[derive(Clone, Copy, Debug)]
pub enum HeaderStep {
    Found(Header),
    /// A binary line comes before the first opening or bare git header.
    Binary { line: u64 },
    /// No opening, no bare git header and no binary line is left.
    End,
}

/// How far a search has come.
#[derive(Clone, Copy)]
pub struct Search {
    pub at: usize,
    pub number: u64,
    pub seen: LastHeaderLines,
    /// Right where git headers are read.
    pub trail: GitTrail,
}

/// What stands here, at the line up to `end`, comes next.
fn step_of(text: &[u8], ways: ReadOptions, stop: Stop, here: Search, end: usize) -> HeaderStep
    requires short { length text.now < 2 ^ 32 }
    requires lawful { IsLawful text.now here }
    requires line { IsLineAt text.now here.at end }
    ensures comes { (at line : ℕ) → HasPassed ways text.now at line here
        → stop_at ways (lines (drop here.at text.now)) ≡ Some stop → Comes ways text.now at line result }
    ensures lies { (at line : ℕ) → HasPassed ways text.now at line here
        → stop_at ways (lines (drop here.at text.now)) ≡ Some stop → Lies ways text.now at line result }
    ensures dots { has_dot (lines (drop here.at text.now)) ≡ false → KnowsNoDot text.now result }
{
    match stop {
        Stop::Opening(form) => {
            let led = led_by(ways, form, here.trail);
            let seen = seen_by(text, leads_directly(ways, form, here.trail), here.seen);
            HeaderStep::Found(header_of(text, form, here.at, here.number, seen, led))
        }
        Stop::Binary => HeaderStep::Binary { line: here.number },
        Stop::Bare => HeaderStep::Found(bare_of(text, here.at, end, here.number, here.seen)),
    }
}

/// The line up to `end` is passed.
fn advance(text: &[u8], git: bool, here: Search, end: usize) -> Search
    requires short { length text.now < 2 ^ 32 }
    requires lawful { IsLawful text.now here }
    requires line { IsLineAt text.now here.at end }
    ensures at { result.at ≡ end }
    ensures lawful { IsLawful text.now result }
    ensures passed { (ways : ReadOptions) (at line : ℕ) → ways.git ≡ git → HasPassed ways text.now at line here
        → stop_at ways (lines (drop here.at text.now)) ≡ None → HasPassed ways text.now at line result }
{
    Search {
        at: end,
        number: here.number + 1,
        seen: passed(here.seen, here.number, text, here.at, end),
        trail: trail_behind(git, here.trail, here.number, text, here.at, end),
    }
}

/// The search, where nothing is passed yet.
fn begin(at: usize, line: u64) -> Search
    ensures at { result.at ≡ at }
    ensures number { result.number ≡ line }
    ensures seen { (text : List ℕ) → AllLieIn text result.seen }
    ensures trail { (text : List ℕ) → TrailsWithin text result.trail }
    ensures passed { (ways : ReadOptions) (text : List ℕ) → HasPassed ways text at line result }
{
    Search {
        at,
        number: line,
        seen: nothing_seen(),
        trail: no_trail(),
    }
}

/// What comes next from `at` on, where a line begins, which has this number, as these ways have it, for
/// one who may know that no line from `at` on is `.`; and whether no line from what was found on is. A
/// line as `1a` sends the search ahead for a dot. Where one is found a script opens, which goes on up to
/// it at least; where none is found, none is looked for again. A git line sends it ahead over its own
/// extended lines. So a caller who hands on what it was told, and goes on behind a bare git header where
/// `bare_end` says, finds all headers of a text in linear time.
pub fn header_from(
    text: &[u8],
    at: usize,
    line: u64,
    ways: ReadOptions,
    dotless: bool,
) -> (HeaderStep, bool)
    requires short { length text.now < 2 ^ 32 }
    requires within { at ≤ length text.now }
    requires small { line < 2 ^ 32 }
    requires known { dotless ≡ true → has_dot (lines (drop at text.now)) ≡ false }
    ensures comes { Comes ways text.now at line result.0 }
    ensures exact { result.0 ≡ next_step ways text.now at line }
    ensures lies { Lies ways text.now at line result.0 }
    ensures known { result.1 ≡ true → KnowsNoDot text.now result.0 }
{
    let mut here = begin(at, line);
    let mut known = dotless;
    'lines: while let Some(end) = next_line(text, here.at) {
        let behind = lacks_dot(text, here.at, end, ways.only, known);
        if let Some(stop) = stop_at(text, here.at, end, ways, behind) {
            return (step_of(text, ways, stop, here, end), known);
        }
        here = advance(text, ways.git, here, end);
        known = behind;
    }
    (HeaderStep::End, known)
}

/// What comes next from `at` on, where a line begins, which has this number: the first line at which an
/// opening of a form stands (of this one form, where `only` names it), or with `git` a bare git header, or
/// that is a binary line. The lines from `at` up to it are read for names and stamps (POSIX `patch`,
/// "Filename Determination"), and with `git` for the git header that leads a unified opening directly.
/// Each line is passed once, and the lines behind are looked through for a dot once at most; where
/// headers follow one another in a text without a dot, `header_from` spares that look.
pub fn next_header(text: &[u8], at: usize, line: u64, only: Option<Form>, git: bool) -> HeaderStep
    requires short { length text.now < 2 ^ 32 }
    requires within { at ≤ length text.now }
    requires small { line < 2 ^ 32 }
    ensures found { (h : Header) → (result ≡ HeaderStep.Found h) ↔ IsFirstOpening (with_git only git) text.now at line h }
    ensures binary { (number : ℕ) → (result ≡ HeaderStep.Binary number) ↔ IsFirstBinary (with_git only git) text.now at line number }
    ensures end { (result ≡ HeaderStep.End) ↔ IsEnd (with_git only git) text.now at }
    // The same as a function.
    ensures exact { result ≡ next_step (with_git only git) text.now at line }
    ensures lies { Lies (with_git only git) text.now at line result }
{
    header_from(text, at, line, with_git(only, git), false).0
}
