//! Hunks that follow each other in a text, read one after the other: how one opens and reads is told by its form, and what is kept of it
//! by who asks.

ghost use Rattle.std.specs.Prelude.{◌≡◌, ℕ, List, true, ◌<◌, ◌≤◌, ◌^◌, Bool, Result, drop, length, IfOk, IfErr};
ghost use Rattle.line_list.specs.Lines.{lines};
ghost use Rattle.hunk_core.specs.PlainHunk.{PlainHunk};
ghost use Rattle.hunk_core.specs.Reading.{Ahead, Fails, Fault, IsPlace, ahead_of};
ghost use Rattle.hunk_core.specs.Following.{AreTaken, IsTaken, reading_by};

use crate::{FormFault, Place};
use std::alloc::Global;

/// Hunks of one form, each kept as it is read.
pub trait HunkWalk {
    /// Whether a hunk opens these lines, and how one reads that starts at least.
    ghost begins: { List (List ℕ) → Bool };

    ghost hunk_at: { ℕ → Ahead → Result (PlainHunk × Ahead) Fault };

    /// It is ready for a text; and it has these hunks, which stand in the text from a place up to another, the last with this start.
    ghost IsReady: { List ℕ → Self → Type 0 };

    ghost Has: { List ℕ → ℕ → List PlainHunk → ℕ → ℕ → Self → Type 0 };

    /// Whether a hunk opens at `at`.
    fn opens(&mut self, text: &[u8], at: usize) -> bool
        requires within { at ≤ length text.now }
        requires ready { IsReady text.now self.old }
        ensures ready { IsReady text.now self.new }
        ensures opens { result ≡ begins (lines (drop at text.now)) }
        ensures some { result ≡ true → 0 < length (lines (drop at text.now)) }
        ensures has { (from : ℕ) → (hs : List PlainHunk) → (end : ℕ) → (least : ℕ) → Has text.now from hs end least self.old → Has text.now from hs end least self.new };

    /// The start of the hunk there, which is at least `least`, and the place after it.
    fn take(
        &mut self,
        alloc: Global,
        text: &[u8],
        least: u64,
        place: Place,
    ) -> Result<(u32, Place), FormFault>
        requires place { IsPlace text.now place }
        requires opens { begins (lines (drop place.at text.now)) ≡ true }
        requires ready { IsReady text.now self.old }
        ensures ready { IsReady text.now self.new }
        ensures place { IfOk result (λ x. IsPlace text.now x.1 × (place.at < x.1.at)) }
        ensures taken { IfOk result (λ x. IsTaken hunk_at Has text.now least place self.old self.new x.0 x.1) }
        ensures fails { IfErr result (λ e. Fails e (hunk_at least (ahead_of text.now place))) };
}

/// Takes all hunks that follow each other from `at` on, where the line has this number, and tells the place after the last.
pub fn walk<W: HunkWalk>(
    kept: &mut W,
    alloc: Global,
    text: &[u8],
    at: usize,
    line: u64,
) -> Result<Place, FormFault>
    requires short { length text.now < 2 ^ 32 }
    requires within { at ≤ length text.now }
    requires small { line < 2 ^ 32 }
    requires ready { W.IsReady text.now kept.old }
    ensures within { IfOk result (λ end. end.at ≤ length text.now) }
    ensures taken { IfOk result (λ end. AreTaken W.begins W.hunk_at W.Has text.now at line kept.old kept.new end) }
    ensures fails { IfErr result (λ e. Fails e (reading_by W.begins W.hunk_at line (lines (drop at text.now)))) }
{
    let mut place = Place { at, number: line };
    let mut least: u64 = 0;
    'hunks: while kept.opens(text, place.at) {
        let (start, next) = kept.take(alloc, text, least, place)?;
        least = u64::from(start);
        place = next;
    }
    Ok(place)
}
