//! Hunks that follow each other, all of them kept, in any form.

ghost use Rattle.std.specs.Prelude.{◌≡◌, ℕ, List, [], true, None, ◌+◌, ◌<◌, ◌≤◌, ◌^◌, ◌++◌, Bool, Result, drop, length, slice_range, vec_len, IfOk, IfErr};
ghost use Rattle.line_list.specs.Lines.{lines};
ghost use Rattle.hunk_core.specs.PlainHunk.{PlainHunk, hunk_of, hunks_of};
ghost use Rattle.hunk_core.specs.Pieces.{AreInTurn, AreSound, AreWhole, SpellInTurn, read_of};
ghost use Rattle.hunk_core.specs.Reading.{Ahead, Fault, Gives, IsPlace, ahead_of};
ghost use Rattle.hunk_core.specs.Rules.{first_broken};
ghost use Rattle.hunk_core.specs.Turned.{IsLawful};
ghost use Rattle.hunk_core.specs.Following.{AreKept, reading_by};

use crate::walking::{HunkWalk, walk};
use crate::{FormFault, Hunk, Hunks, Place};
use line_list::Span;
use std::alloc::Global;

/// A form of hunks.
pub trait HunkForm: Drop {
    /// Whether a hunk opens these lines, and how one reads that starts at least; and which lines are one, behind one that starts at least.
    ghost begins: { List (List ℕ) → Bool };

    ghost hunk_at: { ℕ → Ahead → Result (PlainHunk × Ahead) Fault };

    ghost Spells: { ℕ → List (List ℕ) → PlainHunk → Type 0 };

    /// It is ready for a text.
    ghost IsReady: { List ℕ → Self → Type 0 };

    /// Whether a hunk opens at `at`.
    fn opens(&mut self, text: &[u8], at: usize) -> bool
        requires within { at ≤ length text.now }
        requires ready { IsReady text.now self.old }
        ensures ready { IsReady text.now self.new }
        ensures opens { result ≡ begins (lines (drop at text.now)) }
        ensures some { result ≡ true → 0 < length (lines (drop at text.now)) };

    /// The hunk there, whose old start is at least `least`, with the place after it.
    fn read_hunk(
        &mut self,
        alloc: Global,
        text: &[u8],
        least: u64,
        place: Place,
    ) -> Result<(Hunk, Place), FormFault>
        requires place { IsPlace text.now place }
        requires opens { begins (lines (drop place.at text.now)) ≡ true }
        requires ready { IsReady text.now self.old }
        ensures ready { IsReady text.now self.new }
        ensures place { IfOk result (λ x. IsPlace text.now x.1 × (place.at < x.1.at)) }
        ensures whole { IfOk result (λ x. lines (drop place.at text.now) ≡ lines (slice_range text.now place.at x.1.at) ++ lines (drop x.1.at text.now)) }
        ensures piece { IfOk result (λ x. Spells least (lines (slice_range text.now place.at x.1.at)) (hunk_of text.now x.0)) }
        ensures few { IfOk result (λ x. place.at + vec_len x.0.body ≤ x.1.at) }
        ensures lawful { IfOk result (λ x. IsLawful text.now x.0) }
        ensures unbroken { IfOk result (λ x. first_broken (hunk_of text.now x.0) ≡ None) }
        ensures exact { Gives (λ x. (hunk_of text.now x.0, ahead_of text.now x.1)) result (hunk_at least (ahead_of text.now place)) };
}

/// The hunks that were read, and their pieces.
#[derive(Drop)]
struct Whole<F: HunkForm> {
    form: F,
    items: Vec<Hunk>,
    spans: Vec<Span>,
}

impl<F: HunkForm> HunkWalk for Whole<F> {
    ghost begins = { F.begins };

    ghost hunk_at = { F.hunk_at };

    ghost IsReady = { λ text w. F.IsReady text w.form };

    ghost Has = { λ text from hs end least w. AreKept F.Spells text from hs end least w.items.items w.spans.items };

    fn opens(&mut self, text: &[u8], at: usize) -> bool {
        self.form.opens(text, at)
    }

    fn take(
        &mut self,
        alloc: Global,
        text: &[u8],
        least: u64,
        place: Place,
    ) -> Result<(u32, Place), FormFault> {
        let (hunk, next) = self.form.read_hunk(alloc, text, least, place)?;
        let start = hunk.old_start;
        self.spans.push(Span {
            start: place.at as u32,
            end: next.at as u32,
        })?;
        self.items.push(hunk)?;
        Ok((start, next))
    }
}

/// The hunks that follow each other from `at` on, where the line has this number.
pub fn read_whole<F: HunkForm>(
    form: F,
    alloc: Global,
    text: &[u8],
    at: usize,
    line: u64,
) -> Result<Hunks, FormFault>
    requires short { length text.now < 2 ^ 32 }
    requires within { at ≤ length text.now }
    requires small { line < 2 ^ 32 }
    requires ready { F.IsReady text.now form }
    ensures within { IfOk result (λ h. h.end ≤ length text.now) }
    // The spans are the pieces of the hunks, one behind the other from `at` up to the end.
    ensures turn { IfOk result (λ h. AreInTurn at h.spans.items h.end) }
    ensures whole { IfOk result (λ h. AreWhole text.now h.spans.items) }
    ensures pieces { IfOk result (λ h. SpellInTurn F.Spells text.now 0 h.spans.items (hunks_of text.now h.items.items)) }
    // Each hunk is lawful over the text, and breaks none of the rules of `Hunk::check`.
    ensures sound { IfOk result (λ h. AreSound text.now h) }
    ensures exact { Gives (read_of text.now) result (reading_by F.begins F.hunk_at line (lines (drop at text.now))) }
{
    let mut whole = Whole {
        form,
        // (most file patches have one hunk)
        items: Vec::with_capacity(alloc, 1)?,
        spans: Vec::with_capacity(alloc, 1)?,
    };
    let end = walk(&mut whole, alloc, text, at, line)?;
    Ok(Hunks {
        items: whole.items,
        spans: whole.spans,
        end: end.at,
        next: end.number,
    })
}
