//! The command at the front of an edit.

ghost use Rattle.std.specs.Prelude.{◌≡◌, IfOk, IfSome};
ghost use Rattle.num_text.specs.NumberRanges.{HasSmallEnds};
ghost use Rattle.ed_form.specs.Commands.{Fits, parts_at, is_command, is_bad_range, start, heading, is_too_large, checked, opening};

use hunk_core::{Action, BadKind, action_of, ends_here};
use num_text::{NumberRange, read_range};

/// A command as it is written: one address or two, and a letter.
#[derive(Clone, Copy)]
pub struct Command {
    pub range: NumberRange,
    pub action: Action,
}

/// What a command does, and the lines that it takes away: behind line N none, from N + 1 to N.
#[derive(Clone, Copy)]
pub struct Heading {
    pub action: Action,
    pub first: u64,
    pub last: u64,
}

/// The command that a line is.
#[tactic(auto, unfolding(crate::specs::Commands::parts_at))]
pub fn command_at(line: &[u8]) -> Option<Command>
    ensures exact { result ≡ parts_at line.now }
    ensures small { IfSome result (λ c. HasSmallEnds c.range) }
{
    let (range, rest) = read_range(line)?;
    let (action, rest) = action_of(rest)?;
    if ends_here(rest) {
        Some(Command { range, action })
    } else {
        None
    }
}

/// Whether a line is a command.
pub fn is_command_line(line: &[u8]) -> bool
    ensures { result ≡ is_command line.now }
{
    command_at(line).is_some()
}

/// Whether a range is no lawful one: two addresses for a place, turned round, or lines from 0 on.
fn is_bad(action: Action, range: NumberRange) -> bool
    ensures { result ≡ is_bad_range action range }
{
    match action {
        Action::Add => !range.is_single,
        Action::Change | Action::Delete => range.is_turned || range.first == 0,
    }
}

fn start_of(action: Action, range: NumberRange) -> u64
    requires { HasSmallEnds range }
    ensures { result ≡ start action range }
{
    match action {
        Action::Add => range.last + 1,
        Action::Change | Action::Delete => range.first,
    }
}

fn heading_of(command: Command) -> Heading
    requires { HasSmallEnds command.range }
    ensures { result ≡ heading command }
{
    Heading {
        action: command.action,
        first: start_of(command.action, command.range),
        last: command.range.last,
    }
}

const MAX: u64 = 4_294_967_295;

fn is_over(heading: Heading) -> bool
    ensures { result ≡ is_too_large heading }
{
    heading.first > MAX || heading.last > MAX
}

fn checked_command(command: Command, below: u64) -> Result<Heading, BadKind>
    requires { HasSmallEnds command.range }
    ensures fits { IfOk result Fits }
    ensures exact { result ≡ checked below command }
{
    if is_bad(command.action, command.range) {
        return Err(BadKind::Range);
    }
    let heading = heading_of(command);
    if is_over(heading) {
        return Err(BadKind::NumberTooLarge);
    }
    if heading.last < below {
        Ok(heading)
    } else {
        Err(BadKind::EdOrder)
    }
}

/// The command of an edit whose last address must be below `below`, or why it is none.
pub fn opening_of(line: &[u8], below: u64) -> Result<Heading, BadKind>
    ensures fits { IfOk result Fits }
    ensures exact { result ≡ opening below line.now }
{
    match command_at(line) {
        None => Err(BadKind::Range),
        Some(command) => checked_command(command, below),
    }
}
