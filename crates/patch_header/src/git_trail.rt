//! What a search keeps of the git header that it has just passed.

ghost use Rattle.std.specs.Prelude.{◌≡◌, ◌&&◌, ℕ, true, List, [], slice_range, IfSome};
ghost use Rattle.std.specs.Option.{option_or};
ghost use Rattle.line_list.specs.Lines.{IsLineAt};
ghost use Rattle.patch_header.specs.Region.{row};
ghost use Rattle.patch_header.specs.GitRows.{is_unified};
ghost use Rattle.patch_header.specs.Said.{header_said, kept_if, trail_said, trail_in, led_in, led_said, leads_directly, SaysWithin, TrailsWithin};
ghost use Rattle.patch_header.specs.declared.read_options.ReadOptions.{ReadOptions};

use crate::git_lines::{GitLines, is_extended, is_git_line, no_git_lines, starts, with_line};
use crate::read_options::ReadOptions;
use hunk_core::Form;

/// The extended lines of the git header that the lines so far end with, or end with but for a line of the
/// old name, or but for lines of both names.
#[derive(Clone, Copy)]
pub struct GitTrail {
    pub header: Option<GitLines>,
    pub old_name: Option<GitLines>,
    pub new_name: Option<GitLines>,
}

/// No line so far.
#[tactic(auto, unfolding(crate::specs::GitRows::header_back, crate::specs::GitRows::old_name_back, crate::specs::GitRows::new_name_back))]
pub fn no_trail() -> GitTrail
    ensures is { result ≡ trail_in [] }
    ensures lies { (text : List ℕ) → TrailsWithin text result }
{
    GitTrail {
        header: None,
        old_name: None,
        new_name: None,
    }
}

/// The git header that goes on with the line, if there is one.
fn header_passed(
    header: Option<GitLines>,
    number: u64,
    text: &[u8],
    at: usize,
    end: usize,
) -> Option<GitLines>
    requires line { IsLineAt text.now at end }
    requires lies { IfSome header (SaysWithin text.now) }
    ensures lies { IfSome result (SaysWithin text.now) }
    ensures is { result ≡ header_said header (row number at (slice_range text.now at end)) }
{
    let line = &text[at..end];
    if is_git_line(line) {
        return Some(no_git_lines());
    }
    if !is_extended(line) {
        return None;
    }
    match header {
        None => None,
        Some(lines) => Some(with_line(lines, number, text, at, end)),
    }
}

/// The lines, where the test holds.
fn kept_if(holds: bool, lines: Option<GitLines>) -> Option<GitLines>
    ensures is { result ≡ kept_if holds lines }
    ensures lies { (text : List ℕ) → IfSome lines (SaysWithin text) → IfSome result (SaysWithin text) }
{
    if holds { lines } else { None }
}

/// The trail, the line from `at` up to `end` with it.
pub fn trail_passed(trail: GitTrail, number: u64, text: &[u8], at: usize, end: usize) -> GitTrail
    requires line { IsLineAt text.now at end }
    requires lies { TrailsWithin text.now trail }
    ensures lies { TrailsWithin text.now result }
    ensures is { result ≡ trail_said trail (row number at (slice_range text.now at end)) }
{
    let line = &text[at..end];
    GitTrail {
        header: header_passed(trail.header, number, text, at, end),
        old_name: kept_if(starts(line, b"--- "), trail.header),
        new_name: kept_if(starts(line, b"+++ "), trail.old_name),
    }
}

/// The trail with this line, where git headers are read.
pub fn trail_behind(
    git: bool,
    trail: GitTrail,
    number: u64,
    text: &[u8],
    at: usize,
    end: usize,
) -> GitTrail
    requires line { IsLineAt text.now at end }
    requires lies { TrailsWithin text.now trail }
    ensures lies { TrailsWithin text.now result }
    ensures is { git ≡ true → result ≡ trail_said trail (row number at (slice_range text.now at end)) }
{
    if git {
        trail_passed(trail, number, text, at, end)
    } else {
        trail
    }
}

/// The header that leads what follows: both names stand behind it, or nothing does.
fn leading(trail: GitTrail) -> Option<GitLines>
    ensures is { result ≡ option_or trail.new_name trail.header }
    ensures lies { (text : List ℕ) → TrailsWithin text trail → IfSome result (SaysWithin text) }
{
    match trail.new_name {
        None => trail.header,
        Some(_) => trail.new_name,
    }
}

/// Its extended lines.
fn led_lines(trail: GitTrail) -> GitLines
    ensures is { result ≡ led_in trail }
    ensures lies { (text : List ℕ) → TrailsWithin text trail → SaysWithin text result }
{
    match leading(trail) {
        None => no_git_lines(),
        Some(lines) => lines,
    }
}

fn is_unified(form: Form) -> bool
    ensures { result ≡ is_unified form }
{
    match form {
        Form::Unified => true,
        Form::Context | Form::Normal | Form::Ed => false,
    }
}

fn counts(ways: ReadOptions, form: Form) -> bool
    ensures { result ≡ (ways.git && is_unified form) }
{
    ways.git && is_unified(form)
}

/// The extended lines that count for an opening of this form.
pub fn led_by(ways: ReadOptions, form: Form, trail: GitTrail) -> GitLines
    ensures is { result ≡ led_said ways form trail }
    ensures lies { (text : List ℕ) → TrailsWithin text trail → SaysWithin text result }
{
    if counts(ways, form) {
        led_lines(trail)
    } else {
        no_git_lines()
    }
}

/// Whether a git header stands directly in front of an opening of this form, and leads it.
pub fn leads_directly(ways: ReadOptions, form: Form, trail: GitTrail) -> bool
    ensures { result ≡ leads_directly ways form trail }
{
    counts(ways, form) && trail.header.is_some()
}
