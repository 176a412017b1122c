//! Bare git headers: file patches without a hunk.

ghost use Rattle.std.specs.Prelude.{◌≡◌, ℕ, ◌<◌, ◌≤◌, ◌+◌, ◌^◌, true, false, not, ◌&&◌, List, ◌++◌, length, drop, slice_range, sum_by, IfSome};
ghost use Rattle.line_list.specs.Lines.{lines, IsLineAt};
ghost use Rattle.patch_header.specs.Content.{has_dot};
ghost use Rattle.patch_header.specs.GitHeaders.{git_header, extended_run, behind_run, asks_alone, is_extended, is_range_like, begins_range, has_new_name, has_names, leads, begins_bare};
ghost use Rattle.patch_header.specs.Openings.{begins_binary, tells_binary};
ghost use Rattle.patch_header.specs.Said.{SaysWithin};
ghost use Rattle.patch_header.specs.Kept.{bare_said};
ghost use Rattle.patch_header.specs.Region.{LiesIn, Row, seen_in, AllLieIn};
ghost use Rattle.patch_header.specs.Scanning.{HasScanned, IsBlock};
ghost use Rattle.patch_header.specs.Steps.{bare_with, HasPieces};

use crate::content::is_binary;
use crate::git_lines::{
    GitLines, action_of, asks_alone, from_in, is_extended, is_git_line, no_git_lines, starts,
    to_in, with_line,
};
use crate::git_names::{new_half, old_half};
use crate::names_fit::{new_fits, old_fits};
use crate::region::{LastHeaderLines, Tail, tail_of};
use crate::values::{index_in, whole_in, word_in};
use hunk_core::{Form, after_prefix};
use line_list::next_line;
use read_header_record::Header;
use stamp::Stamp;

/// Extended lines up to a place, where the line has this number.
#[derive(Clone, Copy)]
pub struct Block {
    pub end: usize,
    pub number: u64,
    pub lines: GitLines,
}

/// The block, the line up to `end` with it.
fn block_passed(text: &[u8], here: Block, end: usize) -> Block
    requires line { IsLineAt text.now here.end end }
    requires lies { SaysWithin text.now here.lines }
    requires small { here.number < 2 ^ 63 }
    requires extended { is_extended (slice_range text.now here.end end) ≡ true }
    ensures end { result.end ≡ end }
    ensures scanned { (at number : ℕ) → HasScanned text.now at number here → HasScanned text.now at number result }
{
    Block {
        end,
        number: here.number + 1,
        lines: with_line(here.lines, here.number, text, here.end, end),
    }
}

/// The extended lines from a place on.
fn extended_from(text: &[u8], at: usize, number: u64) -> Block
    requires within { at ≤ length text.now }
    requires short { length text.now < 2 ^ 32 }
    requires small { number ≤ 2 ^ 32 + at }
    ensures { IsBlock text.now at number result }
{
    let mut here = Block {
        end: at,
        number,
        lines: no_git_lines(),
    };
    'lines: while let Some(end) = next_line(text, here.end) {
        if !is_extended(&text[here.end..end]) {
            return here;
        }
        here = block_passed(text, here, end);
    }
    here
}

/// Whether a line begins as the range line of a hunk does.
fn is_range_like(line: &[u8]) -> bool
    ensures { result ≡ is_range_like line.now }
{
    after_prefix(line, b"@@ -").is_some()
}

/// Whether a hunk stands here, damaged or not.
fn at_range(text: &[u8], at: usize) -> bool
    requires { at ≤ length text.now }
    ensures { result ≡ begins_range (lines (drop at text.now)) }
{
    match next_line(text, at) {
        None => false,
        Some(end) => is_range_like(&text[at..end]),
    }
}

/// Whether a line of the new name of a git header whose extended lines begin at `from` stands here, and a hunk,
/// damaged or not, directly behind it.
fn has_new_name(text: &[u8], from: usize, at: usize) -> bool
    requires from { from ≤ length text.now }
    requires within { at ≤ length text.now }
    ensures { result ≡ has_new_name (extended_run (lines (drop from text.now))) (lines (drop at text.now)) }
{
    match next_line(text, at) {
        None => false,
        Some(end) => {
            let line = &text[at..end];
            starts(line, b"+++ ") && (new_fits(text, from, line) && at_range(text, end))
        }
    }
}

/// Whether lines of both its names stand here, and such a hunk directly behind them.
fn has_names(text: &[u8], from: usize, at: usize) -> bool
    requires from { from ≤ length text.now }
    requires within { at ≤ length text.now }
    ensures { result ≡ has_names (extended_run (lines (drop from text.now))) (lines (drop at text.now)) }
{
    match next_line(text, at) {
        None => false,
        Some(end) => {
            let line = &text[at..end];
            starts(line, b"--- ") && (old_fits(text, from, line) && has_new_name(text, from, end))
        }
    }
}

/// Whether that git header leads what stands here: a hunk, damaged or not, or lines of both its names and such a hunk.
fn leads(text: &[u8], from: usize, at: usize) -> bool
    requires from { from ≤ length text.now }
    requires within { at ≤ length text.now }
    ensures { result ≡ leads (extended_run (lines (drop from text.now))) (lines (drop at text.now)) }
{
    at_range(text, at) || has_names(text, from, at)
}

/// Whether the git header whose extended lines begin at a place asks for something on its own, and leads nothing
/// behind them.
fn stands_alone(text: &[u8], at: usize) -> bool
    requires short { length text.now < 2 ^ 32 }
    requires within { at ≤ length text.now }
    ensures { result ≡ (not (leads (extended_run (lines (drop at text.now))) (behind_run (lines (drop at text.now)))) && asks_alone (extended_run (lines (drop at text.now)))) }
{
    let block = extended_from(text, at, 0);
    !leads(text, at, block.end) && asks_alone(block.lines)
}

/// Whether a bare git header begins with the line from `at` up to `end`. It looks ahead over its
/// extended lines and the three lines behind them.
#[tactic(auto, unfolding(crate::specs::GitHeaders::begins_bare))]
pub fn is_bare(text: &[u8], at: usize, end: usize) -> bool
    requires short { length text.now < 2 ^ 32 }
    requires line { IsLineAt text.now at end }
    ensures { result ≡ begins_bare (lines (drop at text.now)) }
{
    is_git_line(&text[at..end]) && stands_alone(text, end)
}

/// Whether the line directly behind the git header that begins with the line from `at` up to `end` is a binary line.
pub fn tells_binary(text: &[u8], at: usize, end: usize) -> bool
    requires short { length text.now < 2 ^ 32 }
    requires line { IsLineAt text.now at end }
    ensures { result ≡ tells_binary (lines (drop at text.now)) }
{
    is_binary_behind(text, end)
}

/// Whether the line directly behind the extended lines from a place on is a binary line.
fn is_binary_behind(text: &[u8], at: usize) -> bool
    requires short { length text.now < 2 ^ 32 }
    requires within { at ≤ length text.now }
    ensures { result ≡ begins_binary (behind_run (lines (drop at text.now))) }
{
    let block = extended_from(text, at, 0);
    stands_binary(text, block.end)
}

/// Whether a binary line stands here.
fn stands_binary(text: &[u8], at: usize) -> bool
    requires { at ≤ length text.now }
    ensures { result ≡ begins_binary (lines (drop at text.now)) }
{
    match next_line(text, at) {
        None => false,
        Some(end) => is_binary(&text[at..end]),
    }
}

/// A bare header with the rest of its git line and what its extended lines say.
fn bare_header(
    text: &[u8],
    at: usize,
    number: u64,
    seen: LastHeaderLines,
    rest: Option<Tail>,
    lines: GitLines,
) -> Header
    requires short { length text.now < 2 ^ 32 }
    requires seen { AllLieIn text.now seen }
    requires rest { IfSome rest (LiesIn text.now) }
    requires lines { SaysWithin text.now lines }
    ensures at { result.at ≡ at }
    ensures opening { result.opening ≡ number }
    ensures form { result.form ≡ Form.Unified }
    ensures bare { result.bare ≡ true }
    ensures says { (rs : List Row) → seen ≡ seen_in rs → result ≡ bare_said text.now at number rs rest lines }
    ensures pieces { HasPieces text.now result }
{
    Header {
        form: Form::Unified,
        at,
        opening: number,
        names_line: number,
        old_name: old_half(text, rest),
        new_name: new_half(text, rest),
        index: index_in(text, seen.index),
        prereq: word_in(text, seen.prereq),
        old_stamp: Stamp::Unknown,
        new_stamp: Stamp::Unknown,
        action: action_of(lines),
        bare: true,
        from: from_in(text, lines),
        to: to_in(text, lines),
        old_mode: whole_in(text, lines.old_mode),
        new_mode: whole_in(text, lines.new_mode),
    }
}

/// The header of the bare git header that begins with the line from `at` up to `end`, which has this number.
pub fn bare_of(text: &[u8], at: usize, end: usize, number: u64, seen: LastHeaderLines) -> Header
    requires short { length text.now < 2 ^ 32 }
    requires small { number ≤ 2 ^ 32 + at }
    requires line { IsLineAt text.now at end }
    requires lies { AllLieIn text.now seen }
    ensures at { result.at ≡ at }
    ensures opening { result.opening ≡ number }
    ensures form { result.form ≡ Form.Unified }
    ensures bare { result.bare ≡ true }
    ensures says { (rs : List Row) → seen ≡ seen_in rs → result ≡ bare_with text.now at number rs }
    ensures pieces { HasPieces text.now result }
{
    let rest = tail_of(b"diff --git ", number, text, at, end);
    let block = extended_from(text, end, number + 1);
    bare_header(text, at, number, seen, rest, block.lines)
}

/// Where a bare git header ends that begins at `at`, and the number of the line there, where the first
/// line has this number: behind its git line and the extended lines that follow it.
pub fn bare_end(text: &[u8], at: usize, line: u64) -> (usize, u64)
    requires short { length text.now < 2 ^ 32 }
    requires within { at ≤ length text.now }
    requires small { line ≤ 2 ^ 32 + at }
    ensures within { result.0 ≤ length text.now }
    ensures place { result.0 ≡ at + sum_by length (git_header (lines (drop at text.now))) }
    ensures number { result.1 ≡ line + length (git_header (lines (drop at text.now))) }
    // The lines of the text from there on are those behind the header.
    ensures rest { lines (drop at text.now) ≡ git_header (lines (drop at text.now)) ++ lines (drop result.0 text.now) }
    ensures count { result.1 + at ≤ line + result.0 }
    ensures on { at < length text.now → at < result.0 }
    // Where no line from the header on is `.`, none behind it is.
    ensures dots { has_dot (lines (drop at text.now)) ≡ false → has_dot (lines (drop result.0 text.now)) ≡ false }
{
    match next_line(text, at) {
        None => (at, line),
        Some(end) => {
            let block = extended_from(text, end, line + 1);
            (block.end, block.number)
        }
    }
}
