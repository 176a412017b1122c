//! The numbers and the letter of a command.

ghost use Rattle.std.specs.Prelude.{◌≡◌, ◌+◌, ◌≤◌, ◌^◌, ◌++◌, ◌∷◌, [], length};
ghost use Rattle.num_text.specs.Numbers.{decimal};
ghost use Rattle.hunk_core.specs.Letters.{letter};
ghost use Rattle.normal_form.specs.Canonical.{action_for};
ghost use Rattle.hunk_core.specs.Spans.{span_text};
ghost use Rattle.format_convert.specs.Commands.{range_start};

use arrayvec::ArrayVec;
use hunk_core::{Action, add_piece, letter_of};
use num_text::put_number;

/// The text of a command, of which no part is long.
pub type Command = ArrayVec<u8, 128>;

fn add_number(command: &mut Command, value: u64)
    requires { length command.old.items + 20 ≤ 128 }
    ensures text { command.new.items ≡ command.old.items ++ decimal value }
    ensures few { length command.new.items ≤ length command.old.items + 20 }
{
    let mut digits = [0; 20];
    let len = put_number(value, &mut digits);
    add_piece(command, &digits[..len]);
}

/// The start of a range of so many lines from this line on; an empty one starts at the line in front of it.
pub fn range_start(first: u64, count: u64) -> u64
    ensures { result ≡ range_start first count }
{
    if count == 0 {
        first.saturating_sub(1)
    } else {
        first
    }
}

/// One number for at most one line, and two for more.
pub fn add_span(command: &mut Command, start: u64, count: u64)
    requires room { length command.old.items + 41 ≤ 128 }
    requires start { start ≤ 2 ^ 60 }
    requires count { count ≤ 2 ^ 60 }
    ensures text { command.new.items ≡ command.old.items ++ span_text start count }
    ensures few { length command.new.items ≤ length command.old.items + 41 }
{
    add_number(command, start);
    if count > 1 {
        add_piece(command, b",");
        add_number(command, start + count - 1);
    }
}

/// Without old lines `a`, without new ones `d`, else `c`.
pub fn action_for(old: u64, new: u64) -> Action
    ensures { result ≡ action_for old new }
{
    if old == 0 {
        Action::Add
    } else if new == 0 {
        Action::Delete
    } else {
        Action::Change
    }
}

pub fn add_letter(command: &mut Command, action: Action)
    requires { length command.old.items + 1 ≤ 128 }
    ensures { command.new.items ≡ command.old.items ++ letter action ∷ [] }
{
    add_piece(command, &[letter_of(action)]);
}
