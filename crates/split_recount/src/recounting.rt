//! A text of unified hunks with true counts.

ghost use Rattle.std.specs.Prelude.{◌≡◌, ◌≤◌, ◌<◌, ◌^◌, ◌++◌, ◌∷◌, [], true, false, length, drop, slice_range, map, filter, IfOk, Ok};
ghost use Rattle.line_list.specs.Lines.{lines, IsLineAt};
ghost use Rattle.line_list.specs.Completed.{completed, IsComplete};
ghost use Rattle.hunk_core.specs.Reading.{Gives};
ghost use Rattle.unified_form.specs.Ranges.{is_opening};
ghost use Rattle.split_recount.specs.Recounted.{behind_line, recounted_line, recounted, recounted_lines};
ghost use Rattle.split_recount.specs.Measured.{left_of, body_at, IsMeasured};
ghost use Rattle.split_recount.specs.Walking.{written, IsReached, ahead_of, behind, Steps};
ghost use Rattle.split_recount.specs.TrueCounts.{is_other, AreTrue};

use crate::body::{Body, Sides, check_body, measure};
use crate::ranges::{Range, put_range_line, stated_by};
use crate::starts::true_ranges;
use hunk_core::{FormFault, after_prefix, bad};
use line_list::{lacks_last_feed, next_line};
use std::alloc::{AllocError, Global};
use unified_form::at_opening;

/// A place where a line begins, outside of bodies, with its number and the lines of the hunks since
/// the last `+++ ` line.
#[derive(Clone, Copy)]
pub struct Reached {
    pub at: usize,
    pub number: u64,
    pub earlier: Sides,
}

/// The ranges of the hunk whose range line goes up to `end`, and the rest of that line.
fn ranges_at(
    text: &[u8],
    reached: Reached,
    end: usize,
    body: Body,
) -> Result<(Range, Range, &[u8]), FormFault>
    requires short { length text.now < 2 ^ 31 }
    requires reached { IsReached text.now reached }
    requires line { IsLineAt text.now reached.at end }
    requires body { IsMeasured text.now end body }
    ensures { Gives (λ x. written x.0 x.1 x.2.now) result (recounted_line reached.number (left_of reached.earlier) (slice_range text.now reached.at end) (body_at text.now end)) }
{
    let number = reached.number;
    let (first, rest) = match stated_by(&text[reached.at..end]) {
        Ok(stated) => stated,
        Err(kind) => return Err(bad(number, kind)),
    };
    match check_body(text, end, number, body) {
        Ok(()) => {}
        Err(fault) => return Err(fault),
    }
    match true_ranges(first, body.sides, reached.earlier) {
        Ok((old, new)) => Ok((old, new, rest)),
        Err(kind) => Err(bad(number, kind)),
    }
}

/// Writes the hunk whose range line goes up to `end`.
fn take_hunk(
    out: &mut Vec<u8>,
    text: &[u8],
    reached: Reached,
    end: usize,
) -> Result<Reached, FormFault>
    requires short { length text.now < 2 ^ 31 }
    requires reached { IsReached text.now reached }
    requires line { IsLineAt text.now reached.at end }
    requires opens { is_opening (slice_range text.now reached.at end) ≡ true }
    ensures { Steps text.now out.old.items out.new.items reached result }
{
    let body = measure(text, end);
    let (old, new, rest) = match ranges_at(text, reached, end, body) {
        Ok(ranges) => ranges,
        Err(fault) => return Err(fault),
    };
    put_range_line(out, old, new, rest)?;
    out.extend_from_slice(&text[end..body.end])?;
    Ok(Reached {
        at: body.end,
        number: reached.number + 1 + body.lines,
        earlier: Sides {
            old: reached.earlier.old + body.sides.old,
            new: reached.earlier.new + body.sides.new,
        },
    })
}

/// The lines of earlier hunks that count behind this line.
fn earlier_behind(line: &[u8], earlier: Sides) -> Sides
    ensures { left_of result ≡ behind_line (left_of earlier) false line.now }
{
    if after_prefix(line, b"+++ ").is_some() {
        Sides { old: 0, new: 0 }
    } else {
        earlier
    }
}

/// Writes the line up to `end` as it is.
fn take_line(
    out: &mut Vec<u8>,
    text: &[u8],
    reached: Reached,
    end: usize,
) -> Result<Reached, FormFault>
    requires short { length text.now < 2 ^ 31 }
    requires reached { IsReached text.now reached }
    requires line { IsLineAt text.now reached.at end }
    requires other { is_opening (slice_range text.now reached.at end) ≡ false }
    ensures { Steps text.now out.old.items out.new.items reached result }
{
    let line = &text[reached.at..end];
    out.extend_from_slice(line)?;
    Ok(Reached {
        at: end,
        number: reached.number + 1,
        earlier: earlier_behind(line, reached.earlier),
    })
}

/// Writes the line up to `end`, and the body behind it where it opens a hunk.
fn take_next(
    out: &mut Vec<u8>,
    text: &[u8],
    reached: Reached,
    end: usize,
) -> Result<Reached, FormFault>
    requires short { length text.now < 2 ^ 31 }
    requires reached { IsReached text.now reached }
    requires line { IsLineAt text.now reached.at end }
    ensures { Steps text.now out.old.items out.new.items reached result }
{
    if at_opening(text, reached.at) {
        take_hunk(out, text, reached, end)
    } else {
        take_line(out, text, reached, end)
    }
}

/// The text with true counts.
fn rewrite(alloc: Global, text: &[u8]) -> Result<Vec<u8>, FormFault>
    requires { length text.now < 2 ^ 31 }
    ensures { Gives (λ v. v.items) result (recounted_lines (lines text.now)) }
{
    let mut out = Vec::with_capacity(alloc, text.len() + text.len() / 16 + 64)?;
    let mut reached = Reached {
        at: 0,
        number: 1,
        earlier: Sides { old: 0, new: 0 },
    };
    'lines: while let Some(end) = next_line(text, reached.at) {
        reached = match take_next(&mut out, text, reached, end) {
            Ok(next) => next,
            Err(fault) => return Err(fault),
        };
    }
    Ok(out)
}

/// The text with a line feed behind it.
fn with_feed(alloc: Global, text: &[u8]) -> Result<Vec<u8>, AllocError>
    requires { length text.now < 2 ^ 31 }
    ensures { IfOk result (λ whole. whole.items ≡ text.now ++ 10 ∷ []) }
{
    let mut whole = Vec::with_capacity(alloc, text.len() + 1)?;
    whole.extend_from_slice(text)?;
    whole.push(b'\n')?;
    Ok(whole)
}

/// The completed text with true counts.
#[tactic(auto, unfolding(line_list::specs::Completed::completed))]
fn recount_text(alloc: Global, text: &[u8]) -> Result<Vec<u8>, FormFault>
    requires { length text.now ≤ 268_435_456 }
    ensures { Gives (λ v. v.items) result (recounted text.now) }
{
    if !lacks_last_feed(text) {
        return rewrite(alloc, text);
    }
    let whole = with_feed(alloc, text)?;
    rewrite(alloc, &whole)
}

/// The completed text, each range line stating the lines of the body behind it, whatever it stated;
/// or the first fault.
pub fn recount(alloc: Global, text: &[u8]) -> Result<Vec<u8>, FormFault>
    requires { length text.now ≤ 268_435_456 }
    // The written function gives this text, or this fault, unless memory runs out.
    ensures exact { Gives (λ v. v.items) result (recounted text.now) }
    // All lines but the range lines are kept, in their order, and a range line stands where one stood.
    ensures kept { IfOk result (λ v. filter is_other (lines v.items) ≡ filter is_other (lines (completed text.now))) }
    ensures places { IfOk result (λ v. map is_opening (lines v.items) ≡ map is_opening (lines (completed text.now))) }
    // Each range line and the body behind it are a hunk by the unified grammar: the line states how many
    // lines the body has on each side, and each backslash line is in its place.
    ensures counts { IfOk result (λ v. AreTrue (lines v.items)) }
    // The last line has its line feed.
    ensures complete { IfOk result (λ v. IsComplete v.items) }
{
    recount_text(alloc, text)
}
