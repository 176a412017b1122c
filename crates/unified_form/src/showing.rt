//! A hunk with a text behind its ranges, as diff and git write the name of a function there.

ghost use Rattle.std.specs.Prelude.{◌≡◌, ◌≢◌, ◌∷◌, ◌++◌, ℕ, List, [], None};
ghost use Rattle.std.specs.List.{AllByRecursion};
ghost use Rattle.line_list.specs.Lines.{lines};
ghost use Rattle.hunk_core.specs.LineTests.{after_backslash};
ghost use Rattle.hunk_core.specs.PlainHunk.{hunk_of};
ghost use Rattle.hunk_core.specs.Rules.{HasNoInnerFeed, first_broken};
ghost use Rattle.hunk_core.specs.Turned.{IsLawful};
ghost use Rattle.outside.specs.Puts.{Puts};
ghost use Rattle.unified_form.specs.Canonical.{SpellsFirst, ranges_text, shown};

use crate::writing::{add_range, put_body};
use arrayvec::ArrayVec;
use hunk_core::{Hunk, Side, add_piece};
use outside::{Failed, Sink, put_all};

fn put_piece<O: Sink>(out: &mut O, piece: &[u8]) -> Result<(), Failed>
    ensures { Puts O.view O.same_rest out.old out.new result piece.now }
{
    put_all(out, piece)
}

/// Both ranges, up to the second `@@`.
fn put_ranges<O: Sink>(out: &mut O, starts: (u32, u32), counts: (u32, u32)) -> Result<(), Failed>
    ensures { Puts O.view O.same_rest out.old out.new result (ranges_text starts.0 counts.0 starts.1 counts.1) }
{
    let mut gathered = ArrayVec::new();
    add_piece(&mut gathered, b"@@ -");
    add_range(&mut gathered, starts.0, counts.0);
    add_piece(&mut gathered, b" +");
    add_range(&mut gathered, starts.1, counts.1);
    add_piece(&mut gathered, b" @@");
    put_piece(out, gathered.as_slice())
}

/// The text behind them, and the line feed.
fn put_end<O: Sink>(out: &mut O, behind: &[u8]) -> Result<(), Failed>
    ensures { Puts O.view O.same_rest out.old out.new result (behind.now ++ 10 ∷ []) }
{
    put_piece(out, behind)?;
    put_piece(out, b"\n")
}

fn put_opening<O: Sink>(
    out: &mut O,
    behind: &[u8],
    starts: (u32, u32),
    counts: (u32, u32),
) -> Result<(), Failed>
    ensures { Puts O.view O.same_rest out.old out.new result (ranges_text starts.0 counts.0 starts.1 counts.1 ++ (behind.now ++ 10 ∷ [])) }
{
    put_ranges(out, starts, counts)?;
    put_end(out, behind)
}

fn write_shown<O: Sink>(hunk: &Hunk, text: &[u8], behind: &[u8], out: &mut O) -> Result<(), Failed>
    requires { IsLawful text.now hunk.now }
    ensures { Puts O.view O.same_rest out.old out.new result (shown behind.now (hunk_of text.now hunk.now)) }
{
    let counts = (hunk.count(Side::Forward), hunk.count(Side::Reversed));
    put_opening(out, behind, (hunk.old_start, hunk.new_start), counts)?;
    put_body(out, hunk, text, Side::Forward)
}

/// A hunk with a text behind its ranges.
pub fn put_shown<O: Sink>(
    hunk: &Hunk,
    text: &[u8],
    behind: &[u8],
    out: &mut O,
) -> Result<(), Failed>
    requires { IsLawful text.now hunk.now }
    // What is written.
    ensures put { Puts O.view O.same_rest out.old out.new result (shown behind.now (hunk_of text.now hunk.now)) }
    // It is read as the canonical text is, where the text behind the ranges has no line feed.
    ensures again { (rest : List ℕ) → AllByRecursion (λ b. b ≢ 10) behind.now
        → first_broken (hunk_of text.now hunk.now) ≡ None
        → AllByRecursion HasNoInnerFeed (hunk_of text.now hunk.now).body
        → after_backslash (lines rest) ≡ None
        → SpellsFirst (hunk_of text.now hunk.now) (shown behind.now (hunk_of text.now hunk.now)) rest }
{
    write_shown(hunk, text, behind, out)
}
