//! Hunks that follow each other, of which only the first is kept: who wants no more of a file patch takes no memory for the others.

ghost use Rattle.std.specs.Prelude.{◌≡◌, ℕ, true, ◌+◌, ◌<◌, ◌≤◌, ◌^◌, length, drop, IfOk, IfErr};
ghost use Rattle.line_list.specs.Feeds.{AreFeeds};
ghost use Rattle.line_list.specs.Lines.{lines};
ghost use Rattle.hunk_core.specs.Reading.{Fails, Gives, IsPlace, ahead_of};
ghost use Rattle.hunk_core.specs.Turned.{IsLawful};
ghost use Rattle.unified_form.specs.Hunks.{begins_hunk, hunk_at, reading};
ghost use Rattle.unified_form.specs.Skimmed.{HasFirst, IsSkimmed, past_body, past_hunk, past_line};

use crate::body::{Left, is_last, left_after, marked_line};
use crate::hunks::Unified;
use crate::range::opening_of;
use crate::rows::read_row;
use hunk_core::{BadKind, FormFault, Hunk, HunkForm, HunkWalk, Place, backslash_end, bad, walk};
use line_list::{LineFeeds, next_line_by};
use std::alloc::Global;

/// Which lines of the old side a hunk is about.
#[derive(Clone, Copy)]
pub struct OldRange {
    /// The stated start.
    pub start: u32,
    /// How many lines are kept or dropped.
    pub count: u32,
}

/// The first of the hunks that follow each other in a text.
#[derive(Drop)]
pub struct HunkScan {
    pub first: Hunk,
    /// Whether others follow.
    pub more: bool,
    /// The place after the last hunk.
    pub end: usize,
    /// The number of the line there.
    pub next: u64,
}

/// What is left behind a line of a body, and the place after it.
#[tactic(auto, unfolding(crate::specs::Skimmed::past_first_line))]
fn pass_line(
    text: &[u8],
    left: Left,
    place: Place,
    feeds: &mut LineFeeds,
) -> Result<(Left, Place), FormFault>
    requires place { IsPlace text.now place }
    requires feeds { AreFeeds text.now feeds.old }
    ensures feeds { AreFeeds text.now feeds.new }
    ensures place { IfOk result (λ x. IsPlace text.now x.1 × (place.at < x.1.at)) }
    ensures less { IfOk result (λ x. x.0.old + x.0.new < left.old + left.new) }
    ensures exact { Gives (λ x. (x.0, ahead_of text.now x.1)) result (past_line left (ahead_of text.now place)) }
{
    let number = place.number;
    let Some(end) = next_line_by(text, place.at, feeds) else {
        return Err(bad(number, BadKind::ShortEnd));
    };
    let line = marked_line(text, place.at, end, number)?;
    let left = left_after(line.mark, left, number)?;
    match backslash_end(text, end) {
        None => Ok((
            left,
            Place {
                at: end,
                number: number + 1,
            },
        )),
        Some(at) if is_last(line.mark, left) => Ok((
            left,
            Place {
                at,
                number: number + 2,
            },
        )),
        Some(_) => Err(bad(number + 1, BadKind::MisplacedBackslash)),
    }
}

/// The place after a body with these counts.
fn pass_body(
    text: &[u8],
    left: Left,
    place: Place,
    feeds: &mut LineFeeds,
) -> Result<Place, FormFault>
    requires place { IsPlace text.now place }
    requires feeds { AreFeeds text.now feeds.old }
    ensures feeds { AreFeeds text.now feeds.new }
    ensures place { IfOk result (λ x. IsPlace text.now x × (place.at ≤ x.at)) }
    ensures exact { Gives (ahead_of text.now) result (past_body (left.old + left.new) left (ahead_of text.now place)) }
{
    let mut left = left;
    let mut place = place;
    while left.old > 0 || left.new > 0 {
        let (behind, next) = pass_line(text, left, place, feeds)?;
        left = Left {
            old: behind.old,
            new: behind.new,
        };
        place = next;
    }
    Ok(place)
}

/// The old lines of a hunk whose old start is at least `least`, and the place after it.
#[tactic(auto, unfolding(crate::specs::Skimmed::past_first))]
pub fn pass_hunk(
    text: &[u8],
    least: u64,
    place: Place,
    feeds: &mut LineFeeds,
) -> Result<(OldRange, Place), FormFault>
    requires place { IsPlace text.now place }
    requires feeds { AreFeeds text.now feeds.old }
    ensures feeds { AreFeeds text.now feeds.new }
    ensures place { IfOk result (λ x. IsPlace text.now x.1 × (place.at < x.1.at)) }
    ensures exact { Gives (λ x. (x.0, ahead_of text.now x.1)) result (past_hunk least (ahead_of text.now place)) }
{
    let number = place.number;
    let Some(end) = next_line_by(text, place.at, feeds) else {
        return Err(bad(number, BadKind::ShortEnd));
    };
    let ranges = match opening_of(&text[place.at..end], least) {
        Ok(ranges) => ranges,
        Err(kind) => return Err(bad(number, kind)),
    };
    let left = Left {
        old: ranges.old_count as u32,
        new: ranges.new_count as u32,
    };
    let next = pass_body(
        text,
        left,
        Place {
            at: end,
            number: number + 1,
        },
        feeds,
    )?;
    if backslash_end(text, next.at).is_some() {
        return Err(bad(next.number, BadKind::MisplacedBackslash));
    }
    let old = OldRange {
        start: ranges.old_start as u32,
        count: ranges.old_count as u32,
    };
    Ok((old, next))
}

/// The first hunk that was read, if one was.
#[derive(Drop)]
struct Skimming {
    unified: Unified,
    first: Hunk,
    is_none: bool,
    more: bool,
}

impl HunkWalk for Skimming {
    ghost begins = { begins_hunk };

    ghost hunk_at = { hunk_at };

    ghost IsReady = { λ text s. AreFeeds text s.unified.feeds };

    ghost Has = { λ text from hs end least s. HasFirst text from hs end s.is_none s.first s.more };

    fn opens(&mut self, text: &[u8], at: usize) -> bool {
        self.unified.opens(text, at)
    }

    fn take(
        &mut self,
        alloc: Global,
        text: &[u8],
        least: u64,
        place: Place,
    ) -> Result<(u32, Place), FormFault> {
        if self.is_none {
            let (hunk, next) = self.unified.read_hunk(alloc, text, least, place)?;
            let start = hunk.old_start;
            self.first = hunk;
            self.is_none = false;
            return Ok((start, next));
        }
        let (old, next) = read_row(text, least, place, &mut self.unified.feeds)?;
        self.more = true;
        Ok((old.start, next))
    }
}

/// The first of the hunks that follow each other from `at` on, where the line has this number, and the place after the last of
/// them. All are read, and a fault in any is answered; but only the first takes memory.
pub fn scan_hunks(alloc: Global, text: &[u8], at: usize, line: u64) -> Result<HunkScan, FormFault>
    requires short { length text.now < 2 ^ 32 }
    requires within { at ≤ length text.now }
    requires opens { begins_hunk (lines (drop at text.now)) ≡ true }
    requires small { line < 2 ^ 32 }
    ensures within { IfOk result (λ s. (at < s.end) × (s.end ≤ length text.now)) }
    ensures lawful { IfOk result (λ s. IsLawful text.now s.first) }
    ensures few { IfOk result (λ s. length s.first.body.items < 2 ^ 32) }
    // What is read is what reading gives, and the first hunk is its first.
    ensures read { IfOk result (IsSkimmed text.now line (lines (drop at text.now))) }
    // A fault is the first one that reading meets.
    ensures fails { IfErr result (λ e. Fails e (reading line (lines (drop at text.now)))) }
{
    let mut skimming = Skimming {
        unified: Unified {
            spare: Vec::new(alloc),
            feeds: LineFeeds::unknown(),
        },
        first: Hunk {
            old_start: 0,
            new_start: 0,
            body: Vec::new(alloc),
        },
        is_none: true,
        more: false,
    };
    let end = walk(&mut skimming, alloc, text, at, line)?;
    Ok(HunkScan {
        first: skimming.first,
        more: skimming.more,
        end: end.at,
        next: end.number,
    })
}
