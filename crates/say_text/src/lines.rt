//! Lines of words and numbers alone, gathered so that a sink is called once.

ghost use Rattle.std.specs.Prelude.{◌≡◌, ◌+◌, ◌≤◌, ◌++◌, length, codes};
ghost use Rattle.num_text.specs.Numbers.{decimal};
ghost use Rattle.say_text.specs.Messages.{signed, fuzz_part, offset_part, line_word, hunk_text, placed_line, failed_end, failed_line, no_file_lines, skipping_line, hunk_word, share};

use arrayvec::ArrayVec;
use hunk_core::add_piece;
use num_text::put_number;

/// The longest of these lines has fewer bytes.
pub type Line = ArrayVec<u8, 160>;

fn add_number(line: &mut Line, value: u64)
    requires { length line.old.items + 20 ≤ 160 }
    ensures text { line.new.items ≡ line.old.items ++ decimal value }
    ensures few { length line.new.items ≤ length line.old.items + 20 }
{
    let mut digits = [0; 20];
    let count = put_number(value, &mut digits);
    add_piece(line, &digits[..count]);
}

fn add_signed(line: &mut Line, value: i64)
    requires { length line.old.items + 21 ≤ 160 }
    ensures text { line.new.items ≡ line.old.items ++ signed value }
    ensures few { length line.new.items ≤ length line.old.items + 21 }
{
    if value < 0 {
        add_piece(line, b"-");
        add_number(line, value.unsigned_abs());
    } else {
        add_number(line, value.unsigned_abs());
    }
}

fn add_fuzz(line: &mut Line, fuzz: u32)
    requires { length line.old.items + 31 ≤ 160 }
    ensures text { line.new.items ≡ line.old.items ++ fuzz_part fuzz }
    ensures few { length line.new.items ≤ length line.old.items + 31 }
{
    if fuzz != 0 {
        add_piece(line, b" with fuzz ");
        add_number(line, u64::from(fuzz));
    }
}

fn line_word(offset: i64) -> &'static [u8]
    ensures text { result.now ≡ line_word offset }
    ensures few { length result.now ≤ 7 }
{
    if offset == 1 { b" line)" } else { b" lines)" }
}

fn add_offset(line: &mut Line, offset: i64)
    requires { length line.old.items + 37 ≤ 160 }
    ensures text { line.new.items ≡ line.old.items ++ offset_part offset }
    ensures few { length line.new.items ≤ length line.old.items + 37 }
{
    if offset != 0 {
        add_piece(line, b" (offset ");
        add_signed(line, offset);
        add_piece(line, line_word(offset));
    }
}

/// What came of a hunk, and at which line.
fn hunk_line(number: u32, what: &[u8], at: i64) -> Line
    requires { length what.now ≤ 14 }
    ensures text { result.items ≡ hunk_text number what.now at }
    ensures few { length result.items ≤ 61 }
{
    let mut line = ArrayVec::new();
    add_piece(&mut line, b"Hunk #");
    add_number(&mut line, u64::from(number));
    add_piece(&mut line, what);
    add_signed(&mut line, at);
    line
}

pub fn placed_line(number: u32, at: i64, fuzz: u32, offset: i64) -> Line
    ensures { result.items ≡ placed_line number at fuzz offset }
{
    let mut line = hunk_line(number, b" succeeded at ", at);
    add_fuzz(&mut line, fuzz);
    add_offset(&mut line, offset);
    add_piece(&mut line, b".\n");
    line
}

pub fn failed_line(number: u32, at: i64, ends_otherwise: bool) -> Line
    ensures { result.items ≡ failed_line number at ends_otherwise }
{
    let mut line = hunk_line(number, b" FAILED at ", at);
    add_piece(&mut line, failed_end(ends_otherwise));
    line
}

fn failed_end(ends_otherwise: bool) -> &'static [u8]
    ensures text { result.now ≡ failed_end ends_otherwise }
    ensures few { length result.now ≤ 27 }
{
    if ends_otherwise {
        b" (different line endings).\n"
    } else {
        b".\n"
    }
}

pub fn no_file_lines(number: u64) -> Line
    ensures { result.items ≡ no_file_lines number }
{
    let mut line = ArrayVec::new();
    add_piece(&mut line, b"can't find file to patch at input line ");
    add_number(&mut line, number);
    add_piece(&mut line, b"\nSkipping patch.\n");
    line
}

pub fn skipping_line(number: u64) -> Line
    ensures { result.items ≡ skipping_line number }
{
    let mut line = ArrayVec::new();
    add_piece(&mut line, b"Skipping a binary change at input line ");
    add_number(&mut line, number);
    add_piece(&mut line, b".\n");
    line
}

fn hunk_word(hunks: u32) -> &'static [u8]
    ensures text { result.now ≡ hunk_word hunks }
    ensures few { length result.now ≤ 6 }
{
    if hunks == 1 { b" hunk" } else { b" hunks" }
}

/// So many of a file's hunks, with `ending` behind them.
pub fn share_line(some: u32, hunks: u32, ending: &[u8]) -> Line
    requires { length ending.now ≤ 40 }
    ensures { result.items ≡ share some hunks ++ ending.now }
{
    let mut line = ArrayVec::new();
    add_number(&mut line, u64::from(some));
    add_piece(&mut line, b" out of ");
    add_number(&mut line, u64::from(hunks));
    add_piece(&mut line, hunk_word(hunks));
    add_piece(&mut line, ending);
    line
}
