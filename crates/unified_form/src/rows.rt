//! Hunks that follow each other, of which only the pieces and the old lines are kept.

ghost use Rattle.std.specs.Prelude.{◌≡◌, true, ◌<◌, ◌≤◌, ◌^◌, length, drop, IfOk, IfErr};
ghost use Rattle.line_list.specs.Feeds.{AreFeeds};
ghost use Rattle.line_list.specs.Lines.{lines};
ghost use Rattle.hunk_core.specs.Pieces.{AreInTurn, AreWhole};
ghost use Rattle.hunk_core.specs.Reading.{Fails, IsPlace, ahead_of};
ghost use Rattle.unified_form.specs.Hunks.{begins_hunk, hunk_at, reading};
ghost use Rattle.unified_form.specs.Skimmed.{AreRows, HasRows, IsRow};

use crate::hunk_scan::{OldRange, pass_hunk};
use crate::hunks::opens_by;
use hunk_core::{FormFault, HunkWalk, Place, walk};
use line_list::{LineFeeds, Span};
use std::alloc::Global;

/// Hunks without their lines.
#[derive(Drop)]
pub struct HunkRows {
    /// The piece of each.
    pub spans: Vec<Span>,
    /// The old lines of each.
    pub olds: Vec<OldRange>,
    /// The place after the last, and the number of the line there.
    pub end: usize,
    pub next: u64,
}

/// The old lines of a hunk whose old start is at least `least`, and the place after it.
pub fn read_row(
    text: &[u8],
    least: u64,
    place: Place,
    feeds: &mut LineFeeds,
) -> Result<(OldRange, Place), FormFault>
    requires place { IsPlace text.now place }
    requires feeds { AreFeeds text.now feeds.old }
    ensures feeds { AreFeeds text.now feeds.new }
    ensures place { IfOk result (λ x. IsPlace text.now x.1 × (place.at < x.1.at)) }
    ensures row { IfOk result (λ x. IsRow text.now least place x.0 x.1) }
    ensures fails { IfErr result (λ e. Fails e (hunk_at least (ahead_of text.now place))) }
{
    pass_hunk(text, least, place, feeds)
}

/// The rows that were read.
#[derive(Drop)]
struct Rows {
    spans: Vec<Span>,
    olds: Vec<OldRange>,
    feeds: LineFeeds,
}

impl HunkWalk for Rows {
    ghost begins = { begins_hunk };

    ghost hunk_at = { hunk_at };

    ghost IsReady = { λ text r. AreFeeds text r.feeds };

    ghost Has = { λ text from hs end least r. HasRows text from hs end least r.olds.items r.spans.items };

    fn opens(&mut self, text: &[u8], at: usize) -> bool {
        opens_by(text, at, &mut self.feeds)
    }

    fn take(
        &mut self,
        _alloc: Global,
        text: &[u8],
        least: u64,
        place: Place,
    ) -> Result<(u32, Place), FormFault> {
        let (old, next) = read_row(text, least, place, &mut self.feeds)?;
        self.spans.push(Span {
            start: place.at as u32,
            end: next.at as u32,
        })?;
        self.olds.push(old)?;
        Ok((old.start, next))
    }
}

/// The pieces and the old lines of the hunks that follow each other from `at` on, where the line has this number. Their bodies are read,
/// and a fault in any is answered.
pub fn read_rows(alloc: Global, text: &[u8], at: usize, line: u64) -> Result<HunkRows, FormFault>
    requires short { length text.now < 2 ^ 32 }
    requires within { at ≤ length text.now }
    requires opens { begins_hunk (lines (drop at text.now)) ≡ true }
    requires small { line < 2 ^ 32 }
    ensures within { IfOk result (λ r. r.end ≤ length text.now) }
    // The spans are the pieces of the hunks, one behind the other from `at` up to the end.
    ensures turn { IfOk result (λ r. AreInTurn at r.spans.items r.end) }
    ensures whole { IfOk result (λ r. AreWhole text.now r.spans.items) }
    // The rows are those of the hunks that reading gives.
    ensures read { IfOk result (AreRows text.now line (lines (drop at text.now))) }
    // A fault is the first one that reading meets.
    ensures fails { IfErr result (λ e. Fails e (reading line (lines (drop at text.now)))) }
{
    let mut rows = Rows {
        spans: Vec::new(alloc),
        olds: Vec::new(alloc),
        feeds: LineFeeds::unknown(),
    };
    let end = walk(&mut rows, alloc, text, at, line)?;
    Ok(HunkRows {
        spans: rows.spans,
        olds: rows.olds,
        end: end.at,
        next: end.number,
    })
}
