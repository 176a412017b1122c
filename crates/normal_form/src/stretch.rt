//! The lines of one side of a hunk.

ghost use Rattle.std.specs.Prelude.{◌≡◌, ◌+◌, ◌-◌, ◌<◌, ◌≤◌, ◌^◌, length, vec_len, slice_range, IfOk, All, is_some};
ghost use Rattle.hunk_core.specs.PlainHunk.{marked_of, body_of};
ghost use Rattle.hunk_core.specs.Turned.{LiesIn};
ghost use Rattle.hunk_core.specs.Reading.{Gives, IsPlace, ahead_of};
ghost use Rattle.hunk_core.specs.LineTests.{after, is_backslash};
ghost use Rattle.hunk_core.specs.declared.command.Action.{Action};
ghost use Rattle.normal_form.specs.Stretches.{marks, marked_at, line_at, stretch_at, divider_at, is_divider};
ghost use Rattle.hunk_core.specs.Sides.{own_mark};
ghost use Rattle.hunk_core.specs.Refusals.{unmarked};

use hunk_core::{
    Action, BadKind, FormFault, HunkLine, Mark, Place, Side, after_prefix, backslash_end, bad,
    begins_backslash, ends_here, without_feed,
};
use line_list::{Span, next_line};

/// The mark of a line that is on this side alone.
pub fn mark_of(side: Side) -> Mark
    ensures { result ≡ own_mark side }
{
    match side {
        Side::Forward => Mark::Drop,
        Side::Reversed => Mark::Add,
    }
}

/// Whether a line has the mark of this side.
pub fn has_mark(line: &[u8], side: Side) -> bool
    ensures { result ≡ is_some (after (marks side) line.now) }
{
    match side {
        Side::Forward => after_prefix(line, b"< ").is_some(),
        Side::Reversed => after_prefix(line, b"> ").is_some(),
    }
}

/// Why a line without the mark that must stand there is refused.
fn unmarked_kind(line: &[u8]) -> BadKind
    ensures { result ≡ unmarked line.now }
{
    if begins_backslash(line) {
        BadKind::MisplacedBackslash
    } else {
        BadKind::Mark
    }
}

/// What stands behind the mark of a line that must have one.
fn marked_line(
    text: &[u8],
    at: usize,
    end: usize,
    number: u64,
    side: Side,
) -> Result<HunkLine, FormFault>
    requires low { at < end }
    requires high { end ≤ length text.now }
    requires short { length text.now < 2 ^ 32 }
    ensures ends { IfOk result (λ x. x.span.end ≡ end) }
    ensures order { IfOk result (λ x. x.span.start ≤ end) }
    ensures exact { Gives (marked_of text.now) result (marked_at number side (slice_range text.now at end)) }
{
    let line = &text[at..end];
    if !has_mark(line, side) {
        return Err(bad(number, unmarked_kind(line)));
    }
    let start = at + 2;
    Ok(HunkLine {
        mark: mark_of(side),
        span: Span {
            start: start as u32,
            end: end as u32,
        },
    })
}

/// A line of a stretch behind which so many are left, and the place after it.
#[tactic(auto, unfolding(crate::specs::Stretches::first_line))]
fn line_of(text: &[u8], side: Side, left: u64, place: Place) -> Result<(HunkLine, Place), FormFault>
    requires { IsPlace text.now place }
    ensures place { IfOk result (λ x. IsPlace text.now x.1 × (place.at < x.1.at)) }
    ensures lies { IfOk result (λ x. LiesIn text.now x.0.span) }
    ensures exact { Gives (λ x. (marked_of text.now x.0, ahead_of text.now x.1)) result (line_at side left (ahead_of text.now place)) }
{
    let number = place.number;
    let Some(end) = next_line(text, place.at) else {
        return Err(bad(number, BadKind::ShortEnd));
    };
    let line = marked_line(text, place.at, end, number, side)?;
    let behind = Place {
        at: end,
        number: number + 1,
    };
    match backslash_end(text, end) {
        None => Ok((line, behind)),
        Some(at) if left == 0 => Ok((
            without_feed(line),
            Place {
                at,
                number: behind.number + 1,
            },
        )),
        Some(_) => Err(bad(behind.number, BadKind::MisplacedBackslash)),
    }
}

/// How many lines stand at `at`, so many at most, so that no more is reserved than the text holds.
pub fn lines_ahead(text: &[u8], most: u64, at: usize) -> usize
    requires { at ≤ length text.now }
    ensures { result ≤ length text.now - at }
{
    let mut count = 0;
    let mut left = most;
    let mut at = at;
    'ahead: while left > 0 {
        let Some(end) = next_line(text, at) else {
            break;
        };
        count += 1;
        left -= 1;
        at = end;
    }
    count
}

/// So many lines of one side, behind those that were read before, and the place after them.
pub fn read_stretch(
    text: &[u8],
    side: Side,
    count: u64,
    before: Vec<HunkLine>,
    place: Place,
) -> Result<(Vec<HunkLine>, Place), FormFault>
    requires place { IsPlace text.now place }
    requires few { vec_len before ≤ place.at }
    requires lies { All (λ l. LiesIn text.now l.span) before.items }
    ensures place { IfOk result (λ x. IsPlace text.now x.1 × (place.at ≤ x.1.at)) }
    ensures few { IfOk result (λ x. place.at + vec_len x.0 ≤ x.1.at + vec_len before) }
    ensures lies { IfOk result (λ x. All (λ l. LiesIn text.now l.span) x.0.items) }
    ensures exact { Gives (λ x. (body_of text.now x.0.items, ahead_of text.now x.1)) result (stretch_at side count (body_of text.now before.items) (ahead_of text.now place)) }
{
    let mut lines = before;
    let mut place = place;
    let mut left = count;
    while left > 0 {
        left -= 1;
        let (line, next) = line_of(text, side, left, place)?;
        lines.push(line)?;
        place = next;
    }
    Ok((lines, place))
}

/// Whether a line stands between the old and the new lines of a change.
fn divides(line: &[u8]) -> bool
    ensures { result ≡ is_divider line.now }
{
    match after_prefix(line, b"---") {
        Some(rest) => ends_here(rest),
        None => false,
    }
}

/// The place after the line between the sides, which a change has.
#[tactic(auto, unfolding(crate::specs::Stretches::first_divider))]
pub fn after_divider(text: &[u8], action: Action, place: Place) -> Result<Place, FormFault>
    requires { IsPlace text.now place }
    ensures place { IfOk result (λ x. IsPlace text.now x × (place.at ≤ x.at)) }
    ensures exact { Gives (λ x. (tt, ahead_of text.now x)) result (divider_at action (ahead_of text.now place)) }
{
    if action != Action::Change {
        return Ok(place);
    }
    let number = place.number;
    let Some(end) = next_line(text, place.at) else {
        return Err(bad(number, BadKind::ShortEnd));
    };
    let line = &text[place.at..end];
    if divides(line) {
        Ok(Place {
            at: end,
            number: number + 1,
        })
    } else {
        Err(bad(number, unmarked_kind(line)))
    }
}
