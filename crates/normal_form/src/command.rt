//! The command of a hunk.

ghost use Rattle.std.specs.Prelude.{◌≡◌, ◌+◌, ◌≤◌, ◌^◌, IfOk, IfSome};
ghost use Rattle.num_text.specs.NumberRanges.{HasSmallEnds};
ghost use Rattle.normal_form.specs.Commands.{Fits, HaveSmallEnds, IsSmall, parts_at, takes_lines, is_bad_range, size, command, checked, opening, is_command};
ghost use Rattle.hunk_core.specs.Rules.{is_too_large};

use hunk_core::{Action, BadKind, Side, action_of, ends_here};
use num_text::{NumberRange, read_range};

/// A command as it is written.
#[derive(Clone, Copy)]
pub struct Parts {
    pub old: NumberRange,
    pub action: Action,
    pub new: NumberRange,
}

/// A command with its counts.
#[derive(Clone, Copy)]
pub struct Command {
    pub action: Action,
    pub old_start: u64,
    pub old_count: u64,
    pub new_start: u64,
    pub new_count: u64,
}

#[tactic(auto, unfolding(crate::specs::Commands::parts_at))]
fn parts_of(line: &[u8]) -> Option<Parts>
    ensures exact { result ≡ parts_at line.now }
    ensures small { IfSome result HaveSmallEnds }
{
    let (old, rest) = read_range(line)?;
    let (action, rest) = action_of(rest)?;
    match read_range(rest) {
        Some((new, rest)) if ends_here(rest) => Some(Parts { old, action, new }),
        _ => None,
    }
}

/// Whether a range speaks of lines, or of the place behind a line.
fn has_lines(action: Action, side: Side) -> bool
    ensures { result ≡ takes_lines action side }
{
    match (action, side) {
        (Action::Add, Side::Forward) | (Action::Delete, Side::Reversed) => false,
        (Action::Add, Side::Reversed) | (Action::Change, _) | (Action::Delete, Side::Forward) =>
            true,
    }
}

/// Whether a range is no lawful one: turned round, two numbers for a place, or lines from 0 on.
fn is_bad(range: NumberRange, lines: bool) -> bool
    ensures { result ≡ is_bad_range range lines }
{
    if lines {
        range.is_turned || range.first == 0
    } else {
        !range.is_single
    }
}

/// How many lines a range has.
fn size_of(range: NumberRange, lines: bool) -> u64
    requires { HasSmallEnds range }
    ensures small { result ≤ 2 ^ 32 + 1 }
    ensures is { result ≡ size range lines }
{
    if lines {
        range.last.saturating_sub(range.first) + 1
    } else {
        0
    }
}

const MAX: u64 = 4_294_967_295;

fn is_over(start: u64, count: u64) -> bool
    requires first { start ≤ 2 ^ 32 }
    requires second { count ≤ 2 ^ 32 + 1 }
    ensures { result ≡ is_too_large start count }
{
    start + count > MAX
}

fn command_of(parts: Parts) -> Command
    requires { HaveSmallEnds parts }
    ensures is { result ≡ command parts }
    ensures small { IsSmall result }
{
    Command {
        action: parts.action,
        old_start: parts.old.first,
        old_count: size_of(parts.old, has_lines(parts.action, Side::Forward)),
        new_start: parts.new.first,
        new_count: size_of(parts.new, has_lines(parts.action, Side::Reversed)),
    }
}

fn checked_command(parts: Parts, least: u64) -> Result<Command, BadKind>
    requires { HaveSmallEnds parts }
    ensures fits { IfOk result Fits }
    ensures exact { result ≡ checked least parts }
{
    if is_bad(parts.old, has_lines(parts.action, Side::Forward))
        || is_bad(parts.new, has_lines(parts.action, Side::Reversed))
    {
        return Err(BadKind::Range);
    }
    let command = command_of(parts);
    if is_over(command.old_start, command.old_count)
        || is_over(command.new_start, command.new_count)
    {
        return Err(BadKind::NumberTooLarge);
    }
    if command.old_start < least {
        return Err(BadKind::HunkOrder);
    }
    Ok(command)
}

/// The command of a hunk behind one that starts at `least`, or why it is none.
pub fn opening_of(line: &[u8], least: u64) -> Result<Command, BadKind>
    ensures fits { IfOk result Fits }
    ensures exact { result ≡ opening least line.now }
{
    match parts_of(line) {
        None => Err(BadKind::Range),
        Some(parts) => checked_command(parts, least),
    }
}

/// Whether a line is a command.
pub fn is_command_line(line: &[u8]) -> bool
    ensures { result ≡ is_command line.now }
{
    parts_of(line).is_some()
}
