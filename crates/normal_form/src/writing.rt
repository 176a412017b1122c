//! The canonical text of a hunk.

ghost use Rattle.std.specs.Prelude.{◌≡◌, ℕ, List, [], None, ◌<◌, ◌≤◌, ◌^◌, ◌+◌, ◌++◌, ◌∷◌, true, length, vec_len, if◌then◌else◌, drop};
ghost use Rattle.std.specs.List.{AllByRecursion, flat_map};
ghost use Rattle.line_list.specs.Lines.{lines};
ghost use Rattle.num_text.specs.Numbers.{decimal};
ghost use Rattle.hunk_core.specs.PlainHunk.{hunk_of, body_of, bytes_at, lines_on};
ghost use Rattle.hunk_core.specs.Sides.{is_on_side};
ghost use Rattle.hunk_core.specs.Turned.{LiesIn, IsLawful, is_add, is_drop, taken};
ghost use Rattle.hunk_core.specs.LineTests.{after_backslash};
ghost use Rattle.hunk_core.specs.Rules.{HasNoInnerFeed, first_broken};
ghost use Rattle.outside.specs.Puts.{Puts};
ghost use Rattle.normal_form.specs.Stretches.{marks};
ghost use Rattle.normal_form.specs.Canonical.{are_added, drops_come_first, action_for, command_text, divider_text, line_text, canonical, in_order, SpellsFirst};
ghost use Rattle.hunk_core.specs.Spans.{span_text};

use arrayvec::ArrayVec;
use hunk_core::{Action, Hunk, HunkLine, Mark, Side, add_piece, has_feed, is_taken, letter_of};
use line_list::Span;
use num_text::put_number;
use outside::{Failed, Sink, put_all};

const NO_NEWLINE: &[u8] = b"\n\\ No newline at end of file\n";

fn is_added(mark: Mark) -> bool
    ensures { result ≡ is_add mark }
{
    match mark {
        Mark::Add => true,
        Mark::Keep | Mark::Drop => false,
    }
}

fn is_dropped(mark: Mark) -> bool
    ensures { result ≡ is_drop mark }
{
    match mark {
        Mark::Drop => true,
        Mark::Keep | Mark::Add => false,
    }
}

/// Whether all lines of a hunk from this one on are added.
fn are_adds(hunk: &Hunk, from: usize) -> bool
    requires { from ≤ vec_len hunk.now.body }
    ensures { result ≡ are_added (drop from hunk.now.body.items) }
{
    for i in from..hunk.body.len() {
        if !is_added(hunk.body[i].mark) {
            return false;
        }
    }
    true
}

/// Whether a hunk has no lines of context, and its dropped lines come before its added ones.
pub fn is_in_order(hunk: &Hunk) -> bool
    ensures { result ≡ drops_come_first hunk.now.body.items }
{
    let mut i = 0;
    while i < hunk.body.len() && is_dropped(hunk.body[i].mark) {
        i += 1;
    }
    are_adds(hunk, i)
}

fn marks_of(side: Side) -> &'static [u8]
    ensures { result.now ≡ marks side }
{
    match side {
        Side::Forward => b"< ",
        Side::Reversed => b"> ",
    }
}

/// A line behind the mark of this side.
fn put_line<O: Sink>(out: &mut O, text: &[u8], span: Span, side: Side) -> Result<(), Failed>
    requires { LiesIn text.now span }
    ensures { Puts O.view O.same_rest out.old out.new result (line_text side (bytes_at text.now span)) }
{
    let line = &text[span.start as usize..span.end as usize];
    put_all(out, marks_of(side))?;
    put_all(out, line)?;
    if has_feed(line) {
        return Ok(());
    }
    put_all(out, NO_NEWLINE)
}

/// A line behind the mark of this side where it is on that side, else nothing.
fn put_if<O: Sink>(
    out: &mut O,
    text: &[u8],
    line: HunkLine,
    on: Side,
    side: Side,
) -> Result<(), Failed>
    requires { LiesIn text.now line.span }
    ensures { Puts O.view O.same_rest out.old out.new result (if is_on_side on line.mark then line_text side (bytes_at text.now line.span) else []) }
{
    if is_taken(line.mark, on) {
        put_line(out, text, line.span, side)
    } else {
        Ok(())
    }
}

/// The lines of one side of a hunk, behind the mark of that side as it is written.
fn put_side<O: Sink>(
    out: &mut O,
    hunk: &Hunk,
    text: &[u8],
    on: Side,
    side: Side,
) -> Result<(), Failed>
    requires { IsLawful text.now hunk.now }
    ensures { Puts O.view O.same_rest out.old out.new result (flat_map (line_text side) (lines_on on (body_of text.now hunk.now.body.items))) }
{
    for i in 0..hunk.body.len() {
        put_if(out, text, hunk.body[i], on, side)?;
    }
    Ok(())
}

fn add_number(gathered: &mut ArrayVec<u8, 96>, value: u64)
    requires { length gathered.old.items + 20 ≤ 96 }
    ensures text { gathered.new.items ≡ gathered.old.items ++ decimal value }
    ensures few { length gathered.new.items ≤ length gathered.old.items + 20 }
{
    let mut digits = [0; 20];
    let len = put_number(value, &mut digits);
    add_piece(gathered, &digits[..len]);
}

fn add_span(gathered: &mut ArrayVec<u8, 96>, start: u32, count: u32)
    requires { length gathered.old.items + 41 ≤ 96 }
    ensures text { gathered.new.items ≡ gathered.old.items ++ span_text start count }
    ensures few { length gathered.new.items ≤ length gathered.old.items + 41 }
{
    add_number(gathered, u64::from(start));
    if count > 1 {
        add_piece(gathered, b",");
        add_number(gathered, u64::from(start) + u64::from(count) - 1);
    }
}

fn action_for(old_count: u32, new_count: u32) -> Action
    ensures { result ≡ action_for old_count new_count }
{
    if old_count == 0 {
        Action::Add
    } else if new_count == 0 {
        Action::Delete
    } else {
        Action::Change
    }
}

fn put_command<O: Sink>(out: &mut O, starts: (u32, u32), counts: (u32, u32)) -> Result<(), Failed>
    ensures { Puts O.view O.same_rest out.old out.new result (command_text starts.0 counts.0 starts.1 counts.1) }
{
    let mut gathered = ArrayVec::new();
    add_span(&mut gathered, starts.0, counts.0);
    add_piece(&mut gathered, &[letter_of(action_for(counts.0, counts.1))]);
    add_span(&mut gathered, starts.1, counts.1);
    add_piece(&mut gathered, b"\n");
    put_all(out, gathered.as_slice())
}

/// The line between the sides, which a change has.
fn put_divider<O: Sink>(out: &mut O, action: Action) -> Result<(), Failed>
    ensures { Puts O.view O.same_rest out.old out.new result (divider_text action) }
{
    match action {
        Action::Change => put_all(out, b"---\n"),
        Action::Add | Action::Delete => Ok(()),
    }
}

fn write_hunk<O: Sink>(
    hunk: &Hunk,
    text: &[u8],
    side: Side,
    starts: (u32, u32),
    out: &mut O,
) -> Result<(), Failed>
    requires { IsLawful text.now hunk.now }
    ensures { Puts O.view O.same_rest out.old out.new result (canonical (taken side starts.0 starts.1 (hunk_of text.now hunk.now))) }
{
    let old = hunk.count(side);
    let other = side.other();
    let new = hunk.count(other);
    put_command(out, starts, (old, new))?;
    put_side(out, hunk, text, side, Side::Forward)?;
    put_divider(out, action_for(old, new))?;
    put_side(out, hunk, text, other, Side::Reversed)
}

/// The canonical text of a hunk taken from a side, with these starts. `is_in_order` tells whether a
/// hunk has the form that is asked.
pub fn put_hunk<O: Sink>(
    hunk: &Hunk,
    text: &[u8],
    side: Side,
    starts: (u32, u32),
    out: &mut O,
) -> Result<(), Failed>
    requires lawful { IsLawful text.now hunk.now }
    requires order { drops_come_first hunk.now.body.items ≡ true }
    // What is written.
    ensures put { Puts O.view O.same_rest out.old out.new result (canonical (taken side starts.0 starts.1 (hunk_of text.now hunk.now))) }
    // A text that begins so spells first that hunk, its dropped lines before its added ones, if it breaks
    // no rule, has a line feed at most at the end of each line, and no backslash line follows.
    ensures again { (rest : List ℕ) → first_broken (taken side starts.0 starts.1 (hunk_of text.now hunk.now)) ≡ None
        → AllByRecursion HasNoInnerFeed (taken side starts.0 starts.1 (hunk_of text.now hunk.now)).body
        → after_backslash (lines rest) ≡ None
        → SpellsFirst (in_order (taken side starts.0 starts.1 (hunk_of text.now hunk.now))) (canonical (taken side starts.0 starts.1 (hunk_of text.now hunk.now))) rest }
{
    write_hunk(hunk, text, side, starts, out)
}
