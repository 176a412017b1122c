//! The canonical text of a hunk.

ghost use Rattle.std.specs.Prelude.{◌≡◌, ℕ, List, None, ◌<◌, ◌≤◌, ◌^◌, ◌+◌, ◌++◌, ◌∷◌, true, length, map, slice_index, vec_len};
ghost use Rattle.std.specs.List.{AllByRecursion, flat_map};
ghost use Rattle.line_list.specs.Lines.{lines};
ghost use Rattle.num_text.specs.Numbers.{decimal};
ghost use Rattle.hunk_core.specs.PlainHunk.{hunk_of, marked_of, body_of, bytes_at};
ghost use Rattle.hunk_core.specs.Turned.{LiesIn, IsLawful, taken, taken_mark, taken_line};
ghost use Rattle.hunk_core.specs.LineTests.{after_backslash};
ghost use Rattle.hunk_core.specs.Rules.{HasNoInnerFeed, first_broken};
ghost use Rattle.outside.specs.Puts.{Puts};
ghost use Rattle.unified_form.specs.Grammar.{mark_byte};
ghost use Rattle.unified_form.specs.Canonical.{range_text, range_line_text, line_text, canonical, SpellsFirst};

use arrayvec::ArrayVec;
use hunk_core::{Hunk, HunkLine, Mark, Side, add_piece, has_feed};
use num_text::put_number;
use outside::{Failed, Sink, put_all};

const NO_NEWLINE: &[u8] = b"\n\\ No newline at end of file\n";

fn byte_of(mark: Mark, side: Side) -> u8
    ensures { result ≡ mark_byte (taken_mark side mark) }
{
    match (mark, side) {
        (Mark::Keep, _) => b' ',
        (Mark::Drop, Side::Forward) | (Mark::Add, Side::Reversed) => b'-',
        (Mark::Add, Side::Forward) | (Mark::Drop, Side::Reversed) => b'+',
    }
}

/// Whether this byte stands just before a place.
fn stands_before(text: &[u8], start: usize, byte: u8) -> bool
    requires { start ≤ length text.now }
    ensures { result ≡ true → (n : ℕ) × (start ≡ n + 1) × (slice_index text.now n ≡ byte) }
{
    start > 0 && text[start - 1] == byte
}

/// A line behind its mark. Mostly the mark stands before the line in the text too, and both go out at once.
fn put_marked<O: Sink>(out: &mut O, text: &[u8], line: HunkLine, side: Side) -> Result<(), Failed>
    requires { LiesIn text.now line.span }
    ensures { Puts O.view O.same_rest out.old out.new result (mark_byte (taken_mark side line.mark) ∷ bytes_at text.now line.span) }
{
    let start = line.span.start as usize;
    let end = line.span.end as usize;
    let byte = byte_of(line.mark, side);
    if stands_before(text, start, byte) {
        return put_all(out, &text[start - 1..end]);
    }
    put_all(out, &[byte])?;
    put_all(out, &text[start..end])
}

fn put_line<O: Sink>(out: &mut O, text: &[u8], line: HunkLine, side: Side) -> Result<(), Failed>
    requires { LiesIn text.now line.span }
    ensures { Puts O.view O.same_rest out.old out.new result (line_text (taken_line side (marked_of text.now line))) }
{
    put_marked(out, text, line, side)?;
    if has_feed(&text[line.span.start as usize..line.span.end as usize]) {
        return Ok(());
    }
    put_all(out, NO_NEWLINE)
}

fn add_number(gathered: &mut ArrayVec<u8, 96>, value: u32)
    requires { length gathered.old.items + 20 ≤ 96 }
    ensures text { gathered.new.items ≡ gathered.old.items ++ decimal value }
    ensures few { length gathered.new.items ≤ length gathered.old.items + 20 }
{
    let mut digits = [0; 20];
    let len = put_number(u64::from(value), &mut digits);
    add_piece(gathered, &digits[..len]);
}

pub fn add_range(gathered: &mut ArrayVec<u8, 96>, start: u32, count: u32)
    requires { length gathered.old.items + 41 ≤ 96 }
    ensures text { gathered.new.items ≡ gathered.old.items ++ range_text start count }
    ensures few { length gathered.new.items ≤ length gathered.old.items + 41 }
{
    add_number(gathered, start);
    if count != 1 {
        add_piece(gathered, b",");
        add_number(gathered, count);
    }
}

fn put_range_line<O: Sink>(
    out: &mut O,
    starts: (u32, u32),
    counts: (u32, u32),
) -> Result<(), Failed>
    ensures { Puts O.view O.same_rest out.old out.new result (range_line_text starts.0 counts.0 starts.1 counts.1) }
{
    let mut gathered = ArrayVec::new();
    add_piece(&mut gathered, b"@@ -");
    add_range(&mut gathered, starts.0, counts.0);
    add_piece(&mut gathered, b" +");
    add_range(&mut gathered, starts.1, counts.1);
    add_piece(&mut gathered, b" @@\n");
    put_all(out, gathered.as_slice())
}

pub fn put_body<O: Sink>(out: &mut O, hunk: &Hunk, text: &[u8], side: Side) -> Result<(), Failed>
    requires { IsLawful text.now hunk.now }
    ensures { Puts O.view O.same_rest out.old out.new result (flat_map line_text (map (taken_line side) (body_of text.now hunk.now.body.items))) }
{
    for i in 0..hunk.body.len() {
        put_line(out, text, hunk.body[i], side)?;
    }
    Ok(())
}

fn write_hunk<O: Sink>(
    hunk: &Hunk,
    text: &[u8],
    side: Side,
    starts: (u32, u32),
    out: &mut O,
) -> Result<(), Failed>
    requires { IsLawful text.now hunk.now }
    ensures { Puts O.view O.same_rest out.old out.new result (canonical (taken side starts.0 starts.1 (hunk_of text.now hunk.now))) }
{
    put_range_line(out, starts, (hunk.count(side), hunk.count(side.other())))?;
    put_body(out, hunk, text, side)
}

/// The canonical text of a hunk taken from a side, with these starts.
pub fn put_hunk<O: Sink>(
    hunk: &Hunk,
    text: &[u8],
    side: Side,
    starts: (u32, u32),
    out: &mut O,
) -> Result<(), Failed>
    requires { IsLawful text.now hunk.now }
    // What is written.
    ensures put { Puts O.view O.same_rest out.old out.new result (canonical (taken side starts.0 starts.1 (hunk_of text.now hunk.now))) }
    // A text that begins so spells that hunk first, if it breaks no rule, has a line feed at most at
    // the end of each line, and no backslash line follows.
    ensures again { (rest : List ℕ) → first_broken (taken side starts.0 starts.1 (hunk_of text.now hunk.now)) ≡ None
        → AllByRecursion HasNoInnerFeed (taken side starts.0 starts.1 (hunk_of text.now hunk.now)).body
        → after_backslash (lines rest) ≡ None
        → SpellsFirst (taken side starts.0 starts.1 (hunk_of text.now hunk.now)) (canonical (taken side starts.0 starts.1 (hunk_of text.now hunk.now))) rest }
{
    write_hunk(hunk, text, side, starts, out)
}
