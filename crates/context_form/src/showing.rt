//! A hunk as diff writes it: a part without changed lines is left out, and a text may stand behind the asterisks.

ghost use Rattle.std.specs.Prelude.{◌≡◌, ◌≢◌, ◌∷◌, ◌++◌, ℕ, List, None, false, true, not, ◌&&◌, replicate};
ghost use Rattle.std.specs.List.{AllByRecursion, list_any};
ghost use Rattle.line_list.specs.Lines.{lines};
ghost use Rattle.hunk_core.specs.declared.Side.{Side};
ghost use Rattle.hunk_core.specs.LineTests.{after_backslash};
ghost use Rattle.hunk_core.specs.PlainHunk.{body_of, hunk_of};
ghost use Rattle.hunk_core.specs.Rules.{HasNoInnerFeed, first_broken};
ghost use Rattle.hunk_core.specs.Turned.{IsLawful};
ghost use Rattle.outside.specs.Puts.{Puts};
ghost use Rattle.context_form.specs.Canonical.{SpellsFirst, half_text, in_order, is_changed, is_left_out, opening_text, range_line_text, shown};
ghost use Rattle.context_form.specs.Presence.{begins_part};

use crate::writing::{add_range_line, put_middle, put_part};
use arrayvec::ArrayVec;
use hunk_core::{Hunk, Mark, Side, add_piece};
use outside::{Failed, Sink, put_all};

fn is_changed(mark: Mark, side: Side) -> bool
    ensures { result ≡ is_changed side mark }
{
    match (mark, side) {
        (Mark::Keep, _) => false,
        (Mark::Drop, Side::Forward) | (Mark::Add, Side::Reversed) => true,
        (Mark::Add, Side::Forward) | (Mark::Drop, Side::Reversed) => false,
    }
}

fn has_changed(hunk: &Hunk, side: Side) -> bool
    ensures { result ≡ list_any (λ l. is_changed side l.mark) hunk.now.body.items }
{
    hunk.body.iter().any(|line| is_changed(line.mark, side))
}

fn is_idle(own: bool, other: bool) -> bool
    ensures { result ≡ (not own && other) }
{
    !own && other
}

/// Whether a part has no changed line, and its partner has some.
fn is_left_out(hunk: &Hunk, part: Side) -> bool
    ensures { (text : List ℕ) → result ≡ is_left_out part (body_of text hunk.now.body.items) }
{
    is_idle(has_changed(hunk, part), has_changed(hunk, part.other()))
}

/// The lines of a part, unless it is left out.
fn put_half<O: Sink>(out: &mut O, hunk: &Hunk, text: &[u8], part: Side) -> Result<(), Failed>
    requires { IsLawful text.now hunk.now }
    ensures { Puts O.view O.same_rest out.old out.new result (half_text part (body_of text.now hunk.now.body.items)) }
{
    if is_left_out(hunk, part) {
        return Ok(());
    }
    put_part(out, hunk, text, Side::Forward, part)
}

fn put_piece<O: Sink>(out: &mut O, piece: &[u8]) -> Result<(), Failed>
    ensures { Puts O.view O.same_rest out.old out.new result piece.now }
{
    put_all(out, piece)
}

/// The asterisks with the text behind them.
fn put_stars<O: Sink>(out: &mut O, behind: &[u8]) -> Result<(), Failed>
    ensures { Puts O.view O.same_rest out.old out.new result (replicate 15 42 ++ behind.now) }
{
    put_piece(out, b"***************")?;
    put_piece(out, behind)
}

/// The line feed behind them, and the range line of the old part.
fn put_old_range<O: Sink>(out: &mut O, start: u32, count: u32) -> Result<(), Failed>
    ensures { Puts O.view O.same_rest out.old out.new result (10 ∷ range_line_text Side.Forward start count) }
{
    let mut gathered = ArrayVec::new();
    add_piece(&mut gathered, b"\n");
    add_range_line(&mut gathered, Side::Forward, start, count);
    put_all(out, gathered.as_slice())
}

fn put_opening<O: Sink>(out: &mut O, behind: &[u8], start: u32, count: u32) -> Result<(), Failed>
    ensures { Puts O.view O.same_rest out.old out.new result (opening_text behind.now start count) }
{
    put_stars(out, behind)?;
    put_old_range(out, start, count)
}

fn write_shown<O: Sink>(hunk: &Hunk, text: &[u8], behind: &[u8], out: &mut O) -> Result<(), Failed>
    requires { IsLawful text.now hunk.now }
    ensures { Puts O.view O.same_rest out.old out.new result (shown behind.now (hunk_of text.now hunk.now)) }
{
    put_opening(out, behind, hunk.old_start, hunk.count(Side::Forward))?;
    put_half(out, hunk, text, Side::Forward)?;
    put_middle(out, hunk.new_start, hunk.count(Side::Reversed))?;
    put_half(out, hunk, text, Side::Reversed)
}

/// A hunk as diff writes it, with a text behind its asterisks.
pub fn put_shown<O: Sink>(
    hunk: &Hunk,
    text: &[u8],
    behind: &[u8],
    out: &mut O,
) -> Result<(), Failed>
    requires { IsLawful text.now hunk.now }
    // What is written.
    ensures put { Puts O.view O.same_rest out.old out.new result (shown behind.now (hunk_of text.now hunk.now)) }
    // It is read as the canonical text is, where the text behind the asterisks has no line feed.
    ensures again { (rest : List ℕ) → AllByRecursion (λ b. b ≢ 10) behind.now
        → first_broken (hunk_of text.now hunk.now) ≡ None
        → AllByRecursion HasNoInnerFeed (hunk_of text.now hunk.now).body
        → begins_part true (lines rest) ≡ false
        → after_backslash (lines rest) ≡ None
        → SpellsFirst (in_order (hunk_of text.now hunk.now)) (shown behind.now (hunk_of text.now hunk.now)) rest }
{
    write_shown(hunk, text, behind, out)
}
