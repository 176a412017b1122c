//! Hunks of which the lines of one side are written with numbers.

ghost use Rattle.std.specs.Prelude.{◌≡◌, ◌<◌, ◌^◌, ◌++◌, ◌||◌, ℕ, List, false, length, OnOk};
ghost use Rattle.hunk_core.specs.PlainHunk.{hunk_of, hunks_of, lines_on, new_lines, old_lines};
ghost use Rattle.hunk_core.specs.Turned.{IsLawful};
ghost use Rattle.read_file_patch.specs.PlainPatch.{AreLawfulHunks, row_count};
ghost use Rattle.patch_filters.specs.Told.{dots_if, is_set, left_out, line_if, next_if, numbered_from, numbered_hunks, numbered_if, numbered_line, side_of, start_on};
ghost use Rattle.patch_filters.specs.Rows.{IsRow};

use crate::appending::{put, put_decimal};
use crate::pieces::bytes_at;
use crate::row_parts::{Row, is_kept};
use crate::search::content;
use cli_tool_words::Numbered;
use hunk_core::{Hunk, Side, is_taken};
use std::alloc::AllocError;

fn side_of(side: Numbered) -> Side
    ensures { result ≡ side_of side }
{
    match side {
        Numbered::Before => Side::Forward,
        Numbered::After => Side::Reversed,
    }
}

/// Adds a line without its mark, behind its number.
fn put_numbered_line(out: &mut Vec<u8>, number: u64, line: &[u8]) -> Result<(), AllocError>
    ensures { OnOk result (out.new.items ≡ out.old.items ++ numbered_line number line.now) }
{
    put_decimal(out, number)?;
    put(out, b"\t:")?;
    put(out, content(line))?;
    put(out, b"\n")
}

/// Adds a line with this number, if it is on the side.
fn put_line_if(out: &mut Vec<u8>, is_on: bool, number: u64, line: &[u8]) -> Result<(), AllocError>
    ensures { OnOk result (out.new.items ≡ out.old.items ++ line_if is_on number line.now) }
{
    if is_on {
        put_numbered_line(out, number, line)
    } else {
        Ok(())
    }
}

fn next_if(is_on: bool, number: u64) -> u64
    requires { number < 2 ^ 63 }
    ensures { result ≡ next_if is_on number }
{
    if is_on { number + 1 } else { number }
}

/// Adds the lines of a side, the first with this number.
fn put_numbered_from(
    text: &[u8],
    side: Side,
    number: u64,
    hunk: &Hunk,
    out: &mut Vec<u8>,
) -> Result<(), AllocError>
    requires lawful { IsLawful text.now hunk.now }
    requires low { number < 2 ^ 34 }
    ensures { OnOk result (out.new.items ≡ out.old.items ++ numbered_from number (lines_on side (hunk_of text.now hunk.now).body)) }
{
    let mut number = number;
    for place in 0..hunk.body.len() {
        let line = hunk.body[place];
        let is_on = is_taken(line.mark, side);
        put_line_if(out, is_on, number, bytes_at(text, line.span))?;
        number = next_if(is_on, number);
    }
    Ok(())
}

/// Where a side of a hunk begins, behind hunks that are left out and take so many lines away and bring so many.
fn start_on(side: Numbered, gone: u64, come: u64, hunk: &Hunk) -> u64
    requires { gone < 2 ^ 32 }
    ensures start { (text : List ℕ) → result ≡ start_on side gone come (hunk_of text hunk.now) }
    ensures low { result < 2 ^ 34 }
{
    match side {
        Numbered::Before => u64::from(hunk.old_start),
        Numbered::After => (u64::from(hunk.new_start) + gone).saturating_sub(come),
    }
}

/// Adds a line of dots between hunks.
fn put_dots_if(out: &mut Vec<u8>, later: bool) -> Result<(), AllocError>
    ensures { OnOk result (out.new.items ≡ out.old.items ++ dots_if later) }
{
    if later { put(out, b"...\n") } else { Ok(()) }
}

/// What hunks come to that are left out in front of the next one.
#[derive(Clone, Copy)]
struct Passed {
    /// A hunk was kept.
    later: bool,
    gone: u64,
    come: u64,
}

/// Adds the lines of one side of a hunk, if it is kept.
fn put_numbered_if(
    text: &[u8],
    side: Numbered,
    is_kept: bool,
    passed: Passed,
    hunk: &Hunk,
    out: &mut Vec<u8>,
) -> Result<(), AllocError>
    requires lawful { IsLawful text.now hunk.now }
    requires gone { passed.gone < 2 ^ 32 }
    ensures { OnOk result (out.new.items ≡ out.old.items ++ numbered_if side is_kept passed.later passed.gone passed.come (hunk_of text.now hunk.now)) }
{
    if !is_kept {
        return Ok(());
    }
    put_dots_if(out, passed.later)?;
    let number = start_on(side, passed.gone, passed.come, hunk);
    put_numbered_from(text, side_of(side), number, hunk, out)
}

fn left_out(is_kept: bool, so_far: u64, count: u32) -> u64
    requires { so_far < 2 ^ 63 }
    ensures { result ≡ left_out is_kept so_far count }
{
    if is_kept {
        so_far
    } else {
        so_far + u64::from(count)
    }
}

/// What was passed, with one more hunk.
fn passed_by(is_kept: bool, passed: Passed, hunk: &Hunk) -> Passed
    requires few { length hunk.now.body.items < 2 ^ 32 }
    requires gone { passed.gone < 2 ^ 63 }
    requires come { passed.come < 2 ^ 63 }
    ensures later { result.later ≡ (passed.later || is_kept) }
    ensures gone { (text : List ℕ) → result.gone ≡ left_out is_kept passed.gone (length (old_lines (hunk_of text hunk.now).body)) }
    ensures come { (text : List ℕ) → result.come ≡ left_out is_kept passed.come (length (new_lines (hunk_of text hunk.now).body)) }
{
    Passed {
        later: passed.later || is_kept,
        gone: left_out(is_kept, passed.gone, hunk.count(Side::Forward)),
        come: left_out(is_kept, passed.come, hunk.count(Side::Reversed)),
    }
}

/// Adds the lines of one side of the hunks of a file patch that are kept.
pub fn put_numbered_hunks(
    row: &Row<'_>,
    side: Numbered,
    hunks: &[Hunk],
    out: &mut Vec<u8>,
) -> Result<(), AllocError>
    requires row { IsRow row.now }
    requires hunks { row_count row.now.row.now.change ≡ length hunks.now }
    requires lawful { AreLawfulHunks row.now.set.now.text hunks.now }
    ensures { OnOk result (out.new.items ≡ out.old.items ++ numbered_hunks side (is_set row.now.flags.now) false 0 0 0 (hunks_of row.now.set.now.text hunks.now)) }
{
    let mut passed = Passed {
        later: false,
        gone: 0,
        come: 0,
    };
    for place in 0..hunks.len() {
        let hunk = &hunks[place];
        let is_kept = is_kept(row, place as u32);
        put_numbered_if(row.set.text(), side, is_kept, passed, hunk, out)?;
        passed = passed_by(is_kept, passed, hunk);
    }
    Ok(())
}
