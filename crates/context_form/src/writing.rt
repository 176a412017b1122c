//! The canonical text of a hunk.

ghost use Rattle.std.specs.Prelude.{◌≡◌, ℕ, List, [], None, ◌<◌, ◌≤◌, ◌^◌, ◌+◌, ◌++◌, ◌∷◌, true, false, length, map, slice_index, vec_len, if◌then◌else◌, drop};
ghost use Rattle.std.specs.List.{AllByRecursion};
ghost use Rattle.line_list.specs.Lines.{lines};
ghost use Rattle.num_text.specs.Numbers.{decimal};
ghost use Rattle.hunk_core.specs.PlainHunk.{Marked, hunk_of, body_of, marked_of, bytes_at};
ghost use Rattle.hunk_core.specs.Sides.{is_on_side};
ghost use Rattle.hunk_core.specs.Turned.{LiesIn, IsLawful, is_keep, taken, taken_mark, taken_line};
ghost use Rattle.hunk_core.specs.LineTests.{marked, after_backslash};
ghost use Rattle.hunk_core.specs.Rules.{HasNoInnerFeed, first_broken};
ghost use Rattle.outside.specs.Puts.{Puts};
ghost use Rattle.hunk_core.specs.declared.Side.{Side};
ghost use Rattle.context_form.specs.Ranges.{before_range, behind_range};
ghost use Rattle.context_form.specs.Presence.{begins_part};
ghost use Rattle.context_form.specs.Grammar.{mark_byte};
ghost use Rattle.context_form.specs.Canonical.{stars_text, range_line_text, line_text, stretch_has, mixed, mixed_behind, part_text, canonical, in_order, SpellsFirst};
ghost use Rattle.hunk_core.specs.Spans.{span_text};

use crate::merging::keeps;
use crate::range::{before, behind};
use arrayvec::ArrayVec;
use hunk_core::{Hunk, HunkLine, Mark, Side, add_piece, has_feed, is_taken};
use line_list::Span;
use num_text::put_number;
use outside::{Failed, Sink, put_all};

const NO_NEWLINE: &[u8] = b"\n\\ No newline at end of file\n";

/// The mark of a line as it is taken from a side.
fn mark_from(mark: Mark, side: Side) -> Mark
    ensures { result ≡ taken_mark side mark }
{
    match (mark, side) {
        (Mark::Keep, _) => Mark::Keep,
        (Mark::Drop, Side::Forward) | (Mark::Add, Side::Reversed) => Mark::Drop,
        (Mark::Add, Side::Forward) | (Mark::Drop, Side::Reversed) => Mark::Add,
    }
}

/// What stands before the space of a mark.
fn byte_of(mark: Mark, changed: bool) -> u8
    ensures { result ≡ mark_byte changed mark }
{
    match mark {
        Mark::Keep => b' ',
        Mark::Drop if changed => b'!',
        Mark::Add if changed => b'!',
        Mark::Drop => b'-',
        Mark::Add => b'+',
    }
}

/// Whether a mark of this byte and a space stands just before a place.
fn stands_before(text: &[u8], start: usize, byte: u8) -> bool
    requires { start ≤ length text.now }
    ensures { result ≡ true → (n : ℕ) × (start ≡ n + 2) × (slice_index text.now n ≡ byte) × (slice_index text.now (n + 1) ≡ 32) }
{
    if start < 2 || text[start - 2] != byte {
        return false;
    }
    text[start - 1] == b' '
}

/// A line behind its mark. Mostly the mark stands before the line in the text too, and both go out at once.
fn put_marked<O: Sink>(out: &mut O, text: &[u8], span: Span, byte: u8) -> Result<(), Failed>
    requires { LiesIn text.now span }
    ensures { Puts O.view O.same_rest out.old out.new result (byte ∷ 32 ∷ bytes_at text.now span) }
{
    let start = span.start as usize;
    let end = span.end as usize;
    if stands_before(text, start, byte) {
        return put_all(out, &text[start - 2..end]);
    }
    put_all(out, &[byte, b' '])?;
    put_all(out, &text[start..end])
}

fn put_line<O: Sink>(
    out: &mut O,
    text: &[u8],
    line: HunkLine,
    side: Side,
    changed: bool,
) -> Result<(), Failed>
    requires { LiesIn text.now line.span }
    ensures { Puts O.view O.same_rest out.old out.new result (line_text changed (taken_line side (marked_of text.now line))) }
{
    let byte = byte_of(mark_from(line.mark, side), changed);
    put_marked(out, text, line.span, byte)?;
    if has_feed(&text[line.span.start as usize..line.span.end as usize]) {
        return Ok(());
    }
    put_all(out, NO_NEWLINE)
}

/// A line behind its mark where it is in the part that is written, else nothing.
fn put_if<O: Sink>(
    out: &mut O,
    text: &[u8],
    line: HunkLine,
    sides: (Side, Side),
    changed: bool,
) -> Result<(), Failed>
    requires { LiesIn text.now line.span }
    ensures { Puts O.view O.same_rest out.old out.new result (if is_on_side sides.1 (taken_mark sides.0 line.mark) then line_text changed (taken_line sides.0 (marked_of text.now line)) else []) }
{
    if is_taken(mark_from(line.mark, sides.0), sides.1) {
        put_line(out, text, line, sides.0, changed)
    } else {
        Ok(())
    }
}

/// Whether the stretch up to the next line of context has a line that is on this side.
fn stretch_has(hunk: &Hunk, from: usize, side: Side) -> bool
    requires { from ≤ vec_len hunk.now.body }
    ensures { (text : List ℕ) → result ≡ stretch_has side (body_of text (drop from hunk.now.body.items)) }
{
    for i in from..hunk.body.len() {
        let mark = hunk.body[i].mark;
        if keeps(mark) {
            return false;
        }
        if is_taken(mark, side) {
            return true;
        }
    }
    false
}

/// Whether the stretch up to the next line of context has dropped lines and added ones.
fn is_mixed(hunk: &Hunk, from: usize) -> bool
    requires { from ≤ vec_len hunk.now.body }
    ensures { (text : List ℕ) → result ≡ mixed (body_of text (drop from hunk.now.body.items)) }
{
    stretch_has(hunk, from, Side::Forward) && stretch_has(hunk, from, Side::Reversed)
}

/// Whether the stretch that goes on behind a line with this mark, or begins there, has both dropped and added lines.
fn is_mixed_behind(hunk: &Hunk, mark: Mark, from: usize, changed: bool) -> bool
    requires { from ≤ vec_len hunk.now.body }
    ensures { (text : List ℕ) → result ≡ mixed_behind changed mark (body_of text (drop from hunk.now.body.items)) }
{
    if keeps(mark) {
        is_mixed(hunk, from)
    } else {
        changed
    }
}

/// The lines of one part of a hunk as it is taken from a side.
pub fn put_part<O: Sink>(
    out: &mut O,
    hunk: &Hunk,
    text: &[u8],
    side: Side,
    part: Side,
) -> Result<(), Failed>
    requires { IsLawful text.now hunk.now }
    ensures { Puts O.view O.same_rest out.old out.new result (part_text part (mixed (map (taken_line side) (body_of text.now hunk.now.body.items))) (map (taken_line side) (body_of text.now hunk.now.body.items))) }
{
    let mut changed = is_mixed(hunk, 0);
    for i in 0..hunk.body.len() {
        let line = hunk.body[i];
        put_if(out, text, line, (side, part), changed)?;
        changed = is_mixed_behind(hunk, line.mark, i + 1, changed);
    }
    Ok(())
}

fn add_number(gathered: &mut ArrayVec<u8, 96>, value: u64)
    requires { length gathered.old.items + 20 ≤ 96 }
    ensures text { gathered.new.items ≡ gathered.old.items ++ decimal value }
    ensures few { length gathered.new.items ≤ length gathered.old.items + 20 }
{
    let mut digits = [0; 20];
    let len = put_number(value, &mut digits);
    add_piece(gathered, &digits[..len]);
}

fn add_span(gathered: &mut ArrayVec<u8, 96>, start: u32, count: u32)
    requires { length gathered.old.items + 41 ≤ 96 }
    ensures text { gathered.new.items ≡ gathered.old.items ++ span_text start count }
    ensures few { length gathered.new.items ≤ length gathered.old.items + 41 }
{
    add_number(gathered, u64::from(start));
    if count > 1 {
        add_piece(gathered, b",");
        add_number(gathered, u64::from(start) + u64::from(count) - 1);
    }
}

/// The range line of a part.
pub fn add_range_line(gathered: &mut ArrayVec<u8, 96>, part: Side, start: u32, count: u32)
    requires { length gathered.old.items + 51 ≤ 96 }
    ensures { gathered.new.items ≡ gathered.old.items ++ range_line_text part start count }
{
    add_piece(gathered, before(part));
    add_span(gathered, start, count);
    add_piece(gathered, behind(part));
    add_piece(gathered, b"\n");
}

/// The asterisks, and the range line of the old part.
fn put_opening<O: Sink>(out: &mut O, start: u32, count: u32) -> Result<(), Failed>
    ensures { Puts O.view O.same_rest out.old out.new result (stars_text ++ range_line_text Side.Forward start count) }
{
    let mut gathered = ArrayVec::new();
    add_piece(&mut gathered, b"***************\n");
    add_range_line(&mut gathered, Side::Forward, start, count);
    put_all(out, gathered.as_slice())
}

/// The range line of the new part.
pub fn put_middle<O: Sink>(out: &mut O, start: u32, count: u32) -> Result<(), Failed>
    ensures { Puts O.view O.same_rest out.old out.new result (range_line_text Side.Reversed start count) }
{
    let mut gathered = ArrayVec::new();
    add_range_line(&mut gathered, Side::Reversed, start, count);
    put_all(out, gathered.as_slice())
}

fn write_hunk<O: Sink>(
    hunk: &Hunk,
    text: &[u8],
    side: Side,
    starts: (u32, u32),
    out: &mut O,
) -> Result<(), Failed>
    requires { IsLawful text.now hunk.now }
    ensures { Puts O.view O.same_rest out.old out.new result (canonical (taken side starts.0 starts.1 (hunk_of text.now hunk.now))) }
{
    put_opening(out, starts.0, hunk.count(side))?;
    put_part(out, hunk, text, side, Side::Forward)?;
    put_middle(out, starts.1, hunk.count(side.other()))?;
    put_part(out, hunk, text, side, Side::Reversed)
}

/// The canonical text of a hunk taken from a side, with these starts.
pub fn put_hunk<O: Sink>(
    hunk: &Hunk,
    text: &[u8],
    side: Side,
    starts: (u32, u32),
    out: &mut O,
) -> Result<(), Failed>
    requires { IsLawful text.now hunk.now }
    // What is written.
    ensures put { Puts O.view O.same_rest out.old out.new result (canonical (taken side starts.0 starts.1 (hunk_of text.now hunk.now))) }
    // A text that begins so spells first that hunk, its dropped lines before its added ones in each
    // stretch, if it breaks no rule, has a line feed at most at the end of each line, and is followed
    // neither by a line with a mark of a new part nor by a backslash line.
    ensures again { (rest : List ℕ) → first_broken (taken side starts.0 starts.1 (hunk_of text.now hunk.now)) ≡ None
        → AllByRecursion HasNoInnerFeed (taken side starts.0 starts.1 (hunk_of text.now hunk.now)).body
        → begins_part true (lines rest) ≡ false
        → after_backslash (lines rest) ≡ None
        → SpellsFirst (in_order (taken side starts.0 starts.1 (hunk_of text.now hunk.now))) (canonical (taken side starts.0 starts.1 (hunk_of text.now hunk.now))) rest }
{
    write_hunk(hunk, text, side, starts, out)
}
