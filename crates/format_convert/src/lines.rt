//! Lines of hunks, written behind the marks of the normal form.

ghost use Rattle.std.specs.Prelude.{◌≡◌, ◌≤◌, ◌^◌, ◌++◌, ◌∷◌, [], if◌then◌else◌};
ghost use Rattle.std.specs.List.{flat_map};
ghost use Rattle.hunk_core.specs.LineTests.{ends_line};
ghost use Rattle.hunk_core.specs.PlainHunk.{bytes_at};
ghost use Rattle.hunk_core.specs.Turned.{LiesIn};
ghost use Rattle.outside.specs.Puts.{Puts};
ghost use Rattle.normal_form.specs.Canonical.{line_text};
ghost use Rattle.hunk_core.specs.Writing.{no_newline};
ghost use Rattle.normal_form.specs.Stretches.{marks};
ghost use Rattle.format_convert.specs.Fronts.{front, is_on, line_on};
ghost use Rattle.format_convert.specs.Walk.{IsKept, edit_at, edits_left};

use crate::block::{edit_in, gap_behind};
use crate::kept::Kept;
use crate::place::{EditCursor, LineEdit};
use hunk_core::{Side, has_feed};
use line_list::Span;
use outside::{Failed, Sink, put_all};

const NO_NEWLINE: &[u8] = b"\n\\ No newline at end of file\n";

pub fn put_piece<O: Sink>(out: &mut O, piece: &[u8]) -> Result<(), Failed>
    ensures { Puts O.view O.same_rest out.old out.new result piece.now }
{
    put_all(out, piece)
}

pub fn line_at(text: &[u8], span: Span) -> &[u8]
    requires { LiesIn text.now span }
    ensures { result.now ≡ bytes_at text.now span }
{
    &text[span.start as usize..span.end as usize]
}

fn marks_of(side: Side) -> &'static [u8]
    ensures { result.now ≡ marks side }
{
    match side {
        Side::Forward => b"< ",
        Side::Reversed => b"> ",
    }
}

/// Writes two pieces, one behind the other.
pub fn put_both<O: Sink>(out: &mut O, first: &[u8], second: &[u8]) -> Result<(), Failed>
    ensures { Puts O.view O.same_rest out.old out.new result (first.now ++ second.now) }
{
    put_piece(out, first)?;
    put_piece(out, second)
}

/// What stands behind a line that has no line feed.
fn ending(line: &[u8]) -> &'static [u8]
    ensures { result.now ≡ (if ends_line line.now then [] else 10 ∷ no_newline) }
{
    if has_feed(line) { b"" } else { NO_NEWLINE }
}

/// The line of an edit behind the mark of this side, if it is of it.
fn put_if<O: Sink>(out: &mut O, text: &[u8], edit: LineEdit, side: Side) -> Result<(), Failed>
    requires { LiesIn text.now edit.span }
    ensures { Puts O.view O.same_rest out.old out.new result (flat_map (line_text side) (line_on side (edit_at text.now edit))) }
{
    if !is_on(edit, side) {
        return Ok(());
    }
    let line = line_at(text, edit.span);
    put_piece(out, marks_of(side))?;
    put_both(out, line, ending(line))
}

/// Whether an edit drops a line, or of the other side whether it adds one.
pub fn is_on(edit: LineEdit, side: Side) -> bool
    ensures { result ≡ is_on side edit.adds }
{
    match side {
        Side::Forward => !edit.adds,
        Side::Reversed => edit.adds,
    }
}

/// The lines of one side of the block that begins in this gap.
pub fn put_side<O: Sink>(
    kept: Kept,
    place: EditCursor,
    first: u64,
    side: Side,
    out: &mut O,
) -> Result<(), Failed>
    requires kept { IsKept kept }
    requires near { first ≤ 2 ^ 43 }
    ensures { Puts O.view O.same_rest out.old out.new result (flat_map (line_text side) (front side first (edits_left kept.entry place))) }
{
    let text = kept.set.text();
    let mut gap = first;
    let mut at = place;
    while let Some(found) = edit_in(kept, at, gap) {
        put_if(out, text, found.edit, side)?;
        gap = gap_behind(found.edit);
        at = found.behind;
    }
    Ok(())
}
