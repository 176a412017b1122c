//! Blocks as commands of an ed script, from the last one, so that none moves the lines of those behind it.

ghost use Rattle.std.specs.Prelude.{◌≡◌, ◌+◌, ◌-◌, ◌≤◌, ◌<◌, ◌^◌, ◌++◌, ℕ, List, [], true, codes, drop, get_or, length, IfOk, if◌then◌else◌};
ghost use Rattle.hunk_core.specs.PlainHunk.{bytes_at, body_of, hunk_of};
ghost use Rattle.hunk_core.specs.Sides.{is_on_side};
ghost use Rattle.hunk_core.specs.Turned.{LiesIn, base, is_keep};
ghost use Rattle.outside.specs.Puts.{Puts};
ghost use Rattle.ed_form.specs.Texts.{is_dot};
ghost use Rattle.format_convert.specs.Backward.{StandsBehind, closing_if, first_text, grown};
ghost use Rattle.format_convert.specs.Blocks.{blocks_of, body_edits, hunk_edits};
ghost use Rattle.format_convert.specs.Commands.{ed_head, ed_line, ed_lines, ed_text};
ghost use Rattle.format_convert.specs.Fronts.{front};
ghost use Rattle.format_convert.specs.Walk.{IsBlock, IsKept, edits_if, edits_left, edits_of, left_hunks, pair_left, pairs};

use crate::block::{Block, edit_in, gap_behind, next_block};
use crate::edits::hunk_start;
use crate::kept::{Kept, is_kept};
use crate::lines::{line_at, put_both};
use crate::numbers::{action_for, add_letter, add_span, range_start};
use crate::place::{EditCursor, LineEdit};
use arrayvec::ArrayVec;
use hunk_core::{Hunk, Mark, Side, after_prefix, ends_here, is_taken};
use outside::{Failed, Sink};

fn is_dot(line: &[u8]) -> bool
    ensures { result ≡ is_dot line.now }
{
    match after_prefix(line, b".") {
        Some(rest) => ends_here(rest),
        None => false,
    }
}

/// A line of a text, and its end where the text doesn't go on. A line that is a `.` is written as two of them, of which one
/// is taken off behind the end; `a` then opens what is left.
pub fn put_text_line<O: Sink>(line: &[u8], goes_on: bool, out: &mut O) -> Result<(), Failed>
    ensures { Puts O.view O.same_rest out.old out.new result (ed_line line.now goes_on) }
{
    if is_dot(line) {
        put_both(out, b"..\n.\ns/.//\n", append_if(goes_on))
    } else {
        put_both(out, line, dot_unless(goes_on))
    }
}

fn append_if(goes_on: bool) -> &'static [u8]
    ensures { result.now ≡ (if goes_on then codes "a\n" else []) }
{
    if goes_on { b"a\n" } else { b"" }
}

fn dot_unless(goes_on: bool) -> &'static [u8]
    ensures { result.now ≡ (if goes_on then [] else codes ".\n") }
{
    if goes_on { b"" } else { b".\n" }
}

/// The addresses and the letter of a command.
pub fn put_head<O: Sink>(first: u64, drops: u64, adds: u64, out: &mut O) -> Result<(), Failed>
    requires first { first ≤ 2 ^ 60 }
    requires drops { drops ≤ 2 ^ 60 }
    ensures { Puts O.view O.same_rest out.old out.new result (ed_head first drops adds) }
{
    let mut command = ArrayVec::new();
    add_span(&mut command, range_start(first, drops), drops);
    add_letter(&mut command, action_for(drops, adds));
    put_both(out, command.as_slice(), b"\n")
}

/// The line of an edit that adds one, with `left` of them behind it.
fn put_if_added<O: Sink>(
    text: &[u8],
    edit: LineEdit,
    goes_on: bool,
    out: &mut O,
) -> Result<(), Failed>
    requires { LiesIn text.now edit.span }
    ensures { Puts O.view O.same_rest out.old out.new result (if edit.adds then ed_line (bytes_at text.now edit.span) goes_on else []) }
{
    if edit.adds {
        put_text_line(line_at(text, edit.span), goes_on, out)
    } else {
        Ok(())
    }
}

fn left_behind(edit: LineEdit, left: u64) -> u64
    requires { edit.adds ≡ true → 1 ≤ left }
    ensures { result ≡ left - (if edit.adds then 1 else 0) }
{
    if edit.adds { left - 1 } else { left }
}

/// The lines that a block adds.
fn put_added<O: Sink>(
    kept: Kept,
    place: EditCursor,
    block: Block,
    out: &mut O,
) -> Result<(), Failed>
    requires kept { IsKept kept }
    requires block { IsBlock kept place block.first block }
    ensures { Puts O.view O.same_rest out.old out.new result (ed_lines (front Side.Reversed block.first (edits_left kept.entry place))) }
{
    let text = kept.set.text();
    let mut gap = block.first;
    let mut at = place;
    let mut left = block.adds;
    while let Some(found) = edit_in(kept, at, gap) {
        left = left_behind(found.edit, left);
        put_if_added(text, found.edit, left > 0, out)?;
        gap = gap_behind(found.edit);
        at = found.behind;
    }
    Ok(())
}

/// The first block behind a place, if there is one.
fn put_next<O: Sink>(kept: Kept, place: EditCursor, out: &mut O) -> Result<(), Failed>
    requires { IsKept kept }
    ensures { Puts O.view O.same_rest out.old out.new result (first_text (blocks_of (edits_left kept.entry place))) }
{
    match next_block(kept, place) {
        Some(block) => {
            put_head(block.first, block.drops, block.adds, out)?;
            put_added(kept, place, block, out)
        }
        None => Ok(()),
    }
}

/// Goes back over a line of a kept hunk, in front of which `place` is, while `next` is the line of the file behind it. A changed
/// line closes the first block behind `front`, which is written, unless it belongs to that one.
fn put_behind<O: Sink>(
    kept: Kept,
    front: EditCursor,
    place: EditCursor,
    mark: Mark,
    next: u64,
    out: &mut O,
) -> Result<EditCursor, Failed>
    requires { IsKept kept }
    ensures put { Puts O.view O.same_rest out.old out.new result (closing_if mark next (edits_left kept.entry front)) }
    ensures place { IfOk result (λ p. p ≡ (if is_keep mark then front else place)) }
{
    match mark {
        Mark::Keep => Ok(front),
        Mark::Drop | Mark::Add => {
            if edit_in(kept, front, next).is_some() {
                return Ok(place);
            }
            put_next(kept, front, out)?;
            Ok(place)
        }
    }
}

/// The line of the file that a line of a body is, if it has one, by the line behind it.
fn next_before(mark: Mark, next: u64) -> u64
    requires { is_on_side Side.Forward mark ≡ true → 1 ≤ next }
    ensures { result ≡ next - (if is_on_side Side.Forward mark then 1 else 0) }
{
    if is_taken(mark, Side::Forward) {
        next - 1
    } else {
        next
    }
}

/// Goes back over the body of a kept hunk: the blocks are written that nothing in front can belong to.
fn put_body<O: Sink>(
    kept: Kept,
    front: EditCursor,
    hunk: usize,
    own: &Hunk,
    out: &mut O,
) -> Result<EditCursor, Failed>
    requires kept { IsKept kept }
    requires within { hunk < length kept.hunks.now }
    requires own { own.now ≡ get_or kept.hunks.now hunk own.now }
    requires front { StandsBehind kept (hunk + 1) front }
    ensures put { Puts O.view O.same_rest out.old out.new result (grown (body_edits (base (hunk_of kept.entry.set.now.text own.now)) (body_of kept.entry.set.now.text own.now.body.items)) (edits_of kept.entry.set.now.text (drop (hunk + 1) (pairs kept.entry)))) }
    ensures place { IfOk result (λ p. edits_left kept.entry p ≡ body_edits (base (hunk_of kept.entry.set.now.text own.now)) (body_of kept.entry.set.now.text own.now.body.items) ++ edits_of kept.entry.set.now.text (drop (hunk + 1) (pairs kept.entry))) }
{
    let mut front = front;
    let mut next = own.base(Side::Forward) + u64::from(own.count(Side::Forward));
    for line in (0..own.body.len()).rev() {
        let mark = own.body[line].mark;
        let place = EditCursor {
            hunk,
            line,
            next: next_before(mark, next),
        };
        front = put_behind(kept, front, place, mark, next, out)?;
        next = place.next;
    }
    Ok(front)
}

/// Goes back over a hunk, if it is kept.
fn put_if_kept<O: Sink>(
    kept: Kept,
    front: EditCursor,
    hunk: usize,
    out: &mut O,
) -> Result<EditCursor, Failed>
    requires kept { IsKept kept }
    requires within { hunk < length kept.hunks.now }
    requires front { StandsBehind kept (hunk + 1) front }
    ensures put { Puts O.view O.same_rest out.old out.new result (grown (pair_left kept.entry hunk) (edits_of kept.entry.set.now.text (drop (hunk + 1) (pairs kept.entry)))) }
    ensures place { IfOk result (StandsBehind kept.entry hunk) }
{
    if !is_kept(kept, hunk) {
        return Ok(front);
    }
    put_body(kept, front, hunk, &kept.hunks[hunk], out)
}

/// A command for each block of the kept hunks, the last one first.
pub fn put_ed<O: Sink>(kept: Kept, out: &mut O) -> Result<(), Failed>
    requires { IsKept kept }
    ensures { Puts O.view O.same_rest out.old out.new result (ed_text (blocks_of (hunk_edits (left_hunks kept.entry)))) }
{
    let mut front = hunk_start(kept, kept.hunks.len());
    for hunk in (0..kept.hunks.len()).rev() {
        front = put_if_kept(kept, front, hunk, out)?;
    }
    put_next(kept, front, out)
}
