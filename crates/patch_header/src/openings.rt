//! What can stand at a line.

ghost use Rattle.std.specs.Prelude.{◌≡◌, ◌↔◌, ◌≤◌, ℕ, ◌<◌, ◌^◌, List, Option, Some, None, true, false, not, ◌&&◌, ◌||◌, length, drop, slice_range};
ghost use Rattle.line_list.specs.Lines.{lines, IsLineAt};
ghost use Rattle.hunk_core.specs.declared.Form.{Form};
ghost use Rattle.ed_form.specs.Commands.{is_command};
ghost use Rattle.patch_header.specs.Content.{has_dot};
ghost use Rattle.patch_header.specs.Openings.{admits, takes_text, asks_dot, begins, begins_binary, opens, stops_binary, tells_binary, is_passed_over, stops_bare, stop_at};
ghost use Rattle.patch_header.specs.GitHeaders.{begins_bare};
ghost use Rattle.patch_header.specs.declared.read_options.ReadOptions.{ReadOptions};

use crate::bare::{is_bare, tells_binary};
use crate::content::{has_dot, is_binary};
use crate::read_options::ReadOptions;
use ed_form::{Command, command_at, is_command_line};
use hunk_core::{Action, Form};

/// What ends the lines in front of a file patch.
#[derive(Clone, Copy)]
pub enum Stop {
    /// The first hunk of a form, or an ed script.
    Opening(Form),
    /// A line that says that a change is binary.
    Binary,
    /// A git header without a hunk that says more than modes.
    Bare,
}

/// Whether a form may open, where `only` is the one form that is asked for.
fn admits(only: Option<Form>, form: Form) -> bool
    ensures { result ≡ admits only form }
{
    match (only, form) {
        (None, _)
        | (Some(Form::Unified), Form::Unified)
        | (Some(Form::Context), Form::Context)
        | (Some(Form::Normal), Form::Normal)
        | (Some(Form::Ed), Form::Ed) => true,
        _ => false,
    }
}

/// Whether a line opens an ed script only before a line that is a dot.
fn asks_dot(only: Option<Form>, line: &[u8]) -> bool
    ensures { result ≡ asks_dot only line.now }
{
    match only {
        Some(_) => false,
        None => match command_at(line) {
            None => false,
            Some(command) => takes_text(command),
        },
    }
}

fn takes_text(command: Command) -> bool
    ensures { result ≡ takes_text (Some command) }
{
    match command.action {
        Action::Add | Action::Change => true,
        Action::Delete => false,
    }
}

/// Whether no line behind `end` is a dot, as far as the line from `at` up to there asks for it.
/// It is looked for only where it isn't known that there is none.
pub fn lacks_dot(text: &[u8], at: usize, end: usize, only: Option<Form>, dotless: bool) -> bool
    requires line { IsLineAt text.now at end }
    requires known { dotless ≡ true → has_dot (lines (drop at text.now)) ≡ false }
    ensures known { result ≡ true → has_dot (lines (drop end text.now)) ≡ false }
    ensures told { asks_dot only (slice_range text.now at end) ≡ true → result ≡ not (has_dot (lines (drop end text.now))) }
{
    dotless || (asks_dot(only, &text[at..end]) && !has_dot(text, end))
}

/// Whether an ed script opens at the line, where it is known whether a dot is lacked.
fn opens_script(line: &[u8], only: Option<Form>, dotless: bool) -> bool
    ensures { result ≡ (is_command line.now && (not (asks_dot only line.now) || not dotless)) }
{
    is_command_line(line) && (!asks_dot(only, line) || !dotless)
}

/// Whether a bare git header begins with the line from `at` up to `end` that isn't passed over with a
/// binary change. Where binary lines are passed over it looks ahead over the extended lines once more.
fn stops_bare(text: &[u8], at: usize, end: usize, ways: ReadOptions) -> bool
    requires short { length text.now < 2 ^ 32 }
    requires line { IsLineAt text.now at end }
    ensures { result ≡ stops_bare ways (lines (drop at text.now)) }
{
    ways.git && (is_bare(text, at, end) && !is_passed_over(text, at, end, ways))
}

/// Whether such a header is a part of a binary change that is passed over.
fn is_passed_over(text: &[u8], at: usize, end: usize, ways: ReadOptions) -> bool
    requires short { length text.now < 2 ^ 32 }
    requires line { IsLineAt text.now at end }
    ensures { result ≡ is_passed_over ways (lines (drop at text.now)) }
{
    ways.skip_binary && tells_binary(text, at, end)
}

/// What stands at the line from `at` up to `end`.
#[tactic(auto, unfolding(crate::specs::Openings::stop_at))]
pub fn stop_at(text: &[u8], at: usize, end: usize, ways: ReadOptions, dotless: bool) -> Option<Stop>
    requires short { length text.now < 2 ^ 32 }
    requires line { IsLineAt text.now at end }
    requires told { asks_dot ways.only (slice_range text.now at end) ≡ true → dotless ≡ not (has_dot (lines (drop end text.now))) }
    ensures { result ≡ stop_at ways (lines (drop at text.now)) }
{
    if admits(ways.only, Form::Unified) && unified_form::at_opening(text, at) {
        return Some(Stop::Opening(Form::Unified));
    }
    if admits(ways.only, Form::Context) && context_form::at_opening(text, at) {
        return Some(Stop::Opening(Form::Context));
    }
    if admits(ways.only, Form::Normal) && normal_form::at_opening(text, at) {
        return Some(Stop::Opening(Form::Normal));
    }
    if admits(ways.only, Form::Ed) && opens_script(&text[at..end], ways.only, dotless) {
        return Some(Stop::Opening(Form::Ed));
    }
    if !ways.skip_binary && is_binary(&text[at..end]) {
        return Some(Stop::Binary);
    }
    if stops_bare(text, at, end, ways) {
        return Some(Stop::Bare);
    }
    None
}

/// At most one thing stands at a line, whatever the order of the tests.
pub fn one_thing_stands()
    // The openings of two forms don't stand at one line.
    ensures alone { (only : Option Form) (f g : Form) (rest : List (List ℕ)) → begins only f rest ≡ true → begins only g rest ≡ true → f ≡ g }
    // No opening is a binary line.
    ensures text { (only : Option Form) (f : Form) (rest : List (List ℕ)) → begins only f rest ≡ true → begins_binary rest ≡ false }
    // No bare git header begins with an opening, nor with a binary line.
    ensures bare { (only : Option Form) (f : Form) (rest : List (List ℕ)) → begins_bare rest ≡ true → (begins only f rest ≡ false) × (begins_binary rest ≡ false) }
    // So what stands at a line is told by the test of its form, by that of binary lines, or by that of bare git headers.
    ensures opening { (ways : ReadOptions) (f : Form) (rest : List (List ℕ)) → stop_at ways rest ≡ Some (Stop.Opening f) ↔ opens ways.only f rest ≡ true }
    ensures binary { (ways : ReadOptions) (rest : List (List ℕ)) → stop_at ways rest ≡ Some Stop.Binary ↔ stops_binary ways rest ≡ true }
    ensures git { (ways : ReadOptions) (rest : List (List ℕ)) → stop_at ways rest ≡ Some Stop.Bare ↔ stops_bare ways rest ≡ true }
    // Where binary lines stop the search, each bare git header stands, whatever follows it.
    ensures plain { (ways : ReadOptions) (rest : List (List ℕ)) → ways.skip_binary ≡ false → stops_bare ways rest ≡ (ways.git && begins_bare rest) }
    // Where they are passed over, none does that a binary line follows directly.
    ensures skipped { (ways : ReadOptions) (rest : List (List ℕ)) → ways.skip_binary ≡ true → tells_binary rest ≡ true → stops_bare ways rest ≡ false }
    // Nothing stands where none of these tests holds.
    ensures nothing { (ways : ReadOptions) (rest : List (List ℕ)) → (stop_at ways rest ≡ None) ↔ (((f : Form) → opens ways.only f rest ≡ false) × (stops_binary ways rest ≡ false) × (stops_bare ways rest ≡ false)) }
{}
