//! The lines of a part.

ghost use Rattle.std.specs.Prelude.{◌≡◌, ◌+◌, ◌-◌, ◌<◌, ◌≤◌, ◌^◌, length, vec_len, slice_range, drop, IfOk, IfSome, All, is_some};
ghost use Rattle.line_list.specs.Lines.{lines};
ghost use Rattle.hunk_core.specs.PlainHunk.{marked_of, body_of};
ghost use Rattle.hunk_core.specs.Turned.{LiesIn};
ghost use Rattle.hunk_core.specs.Reading.{Gives, IsPlace, ahead_of};
ghost use Rattle.hunk_core.specs.LineTests.{after, is_backslash};
ghost use Rattle.context_form.specs.Ranges.{before_range};
ghost use Rattle.context_form.specs.Parts.{own_byte, mark_by, mark_at, behind_blank, shown_at, marked_at, room_at, line_at, begins_new, is_done, plain_of, no_body, body_at};
ghost use Rattle.hunk_core.specs.Sides.{own_mark};
ghost use Rattle.hunk_core.specs.Refusals.{unmarked};

use hunk_core::{
    BadKind, FormFault, HunkLine, Mark, Place, Side, after_prefix, backslash_end, bad,
    begins_backslash, without_feed,
};
use line_list::{Span, next_line};
use std::alloc::Global;

/// The lines of a part, and whether one of them was marked `!`.
#[derive(Drop)]
pub struct Body {
    pub lines: Vec<HunkLine>,
    pub changed: bool,
}

/// The mark of a line that is on this side alone.
fn mark_on(side: Side) -> Mark
    ensures { result ≡ own_mark side }
{
    match side {
        Side::Forward => Mark::Drop,
        Side::Reversed => Mark::Add,
    }
}

fn byte_on(side: Side) -> u8
    ensures { result ≡ own_byte side }
{
    match side {
        Side::Forward => b'-',
        Side::Reversed => b'+',
    }
}

fn mark_of_byte(byte: u8, side: Side) -> Option<(Mark, bool)>
    ensures { result ≡ mark_by side byte }
{
    if byte == b' ' {
        Some((Mark::Keep, false))
    } else if byte == b'!' {
        Some((mark_on(side), true))
    } else if byte == byte_on(side) {
        Some((mark_on(side), false))
    } else {
        None
    }
}

/// The mark of a line of this part that lost no blank, two bytes, and whether it is `! `.
pub fn mark_of(line: &[u8], side: Side) -> Option<(Mark, bool)>
    ensures { result ≡ mark_at side line.now }
{
    match line {
        [byte, b' ', ..] => mark_of_byte(*byte, side),
        _ => None,
    }
}

/// Whether a line can be one of this part.
pub fn can_show(line: &[u8], side: Side) -> bool
    ensures { result ≡ is_some (shown_at side line.now) }
{
    match line {
        [] => false,
        [b'\n', ..] => true,
        [byte, ..] => mark_of_byte(*byte, side).is_some(),
    }
}

/// Where the text of a line begins that has its mark in front of `at`: one blank is left out.
fn text_start(text: &[u8], at: usize, end: usize) -> usize
    requires low { at ≤ end }
    requires high { end ≤ length text.now }
    ensures low { at ≤ result }
    ensures high { result ≤ end }
    ensures exact { slice_range text.now result end ≡ behind_blank (slice_range text.now at end) }
{
    if at == end {
        return at;
    }
    match text[at] {
        b' ' => at + 1,
        b'\t' => at + 1,
        _ => at,
    }
}

/// Why a line without a mark is refused where one must stand.
fn unmarked_kind(line: &[u8]) -> BadKind
    ensures { result ≡ unmarked line.now }
{
    if begins_backslash(line) {
        BadKind::MisplacedBackslash
    } else {
        BadKind::Mark
    }
}

/// What stands behind the mark of a line that must have one, and whether that is `!`. An empty line is kept.
fn marked_line(
    text: &[u8],
    at: usize,
    end: usize,
    number: u64,
    side: Side,
) -> Result<(HunkLine, bool), FormFault>
    requires low { at < end }
    requires high { end ≤ length text.now }
    requires short { length text.now < 2 ^ 32 }
    ensures ends { IfOk result (λ x. x.0.span.end ≡ end) }
    ensures order { IfOk result (λ x. x.0.span.start ≤ end) }
    ensures exact { Gives (λ x. (marked_of text.now x.0, x.1)) result (marked_at number side (slice_range text.now at end)) }
{
    let byte = text[at];
    if byte == b'\n' {
        let span = Span {
            start: at as u32,
            end: end as u32,
        };
        return Ok((
            HunkLine {
                mark: Mark::Keep,
                span,
            },
            false,
        ));
    }
    let Some((mark, is_change)) = mark_of_byte(byte, side) else {
        return Err(bad(number, unmarked_kind(&text[at..end])));
    };
    let start = text_start(text, at + 1, end);
    let span = Span {
        start: start as u32,
        end: end as u32,
    };
    Ok((HunkLine { mark, span }, is_change))
}

/// A line of a part of which so many are left, whether it was marked `!`, and the place after it.
#[tactic(auto, unfolding(crate::specs::Parts::first_line))]
fn line_of(
    text: &[u8],
    side: Side,
    left: u64,
    place: Place,
) -> Result<((HunkLine, bool), Place), FormFault>
    requires { IsPlace text.now place }
    ensures place { IfOk result (λ x. IsPlace text.now x.1 × (place.at < x.1.at)) }
    ensures lies { IfOk result (λ x. LiesIn text.now x.0.0.span) }
    ensures some { IfOk result (λ x. 0 < left) }
    ensures exact { Gives (λ x. ((marked_of text.now x.0.0, x.0.1), ahead_of text.now x.1)) result (line_at side left (ahead_of text.now place)) }
{
    let number = place.number;
    let Some(end) = next_line(text, place.at) else {
        return Err(bad(number, BadKind::ShortEnd));
    };
    let (line, is_change) = marked_line(text, place.at, end, number, side)?;
    if left == 0 {
        return Err(bad(number, BadKind::Count));
    }
    let behind = Place {
        at: end,
        number: number + 1,
    };
    match backslash_end(text, end) {
        None => Ok(((line, is_change), behind)),
        Some(at) if left == 1 => Ok((
            (without_feed(line), is_change),
            Place {
                at,
                number: behind.number + 1,
            },
        )),
        Some(_) => Err(bad(behind.number, BadKind::MisplacedBackslash)),
    }
}

/// Whether the line at `at` begins as the range line of a new part does.
fn at_new(text: &[u8], at: usize) -> bool
    requires { at ≤ length text.now }
    ensures { result ≡ begins_new (lines (drop at text.now)) }
{
    match next_line(text, at) {
        None => false,
        Some(end) => after_prefix(&text[at..end], b"--- ").is_some(),
    }
}

/// Whether a part of which so many lines are left ends at `at`.
fn ends_part(text: &[u8], side: Side, left: u64, at: usize) -> bool
    requires { at ≤ length text.now }
    ensures { result ≡ is_done side left (lines (drop at text.now)) }
{
    match side {
        Side::Forward => at_new(text, at),
        Side::Reversed => left == 0,
    }
}

/// How many lines a part has at `at` at most, so that no more is reserved than the text holds.
fn lines_ahead(text: &[u8], side: Side, most: u64, at: usize) -> usize
    requires { at ≤ length text.now }
    ensures { result ≤ length text.now - at }
{
    let mut count = 0;
    let mut left = most;
    let mut at = at;
    'ahead: while left > 0 && !ends_part(text, side, left, at) {
        let Some(end) = next_line(text, at) else {
            break;
        };
        count += 1;
        left -= 1;
        at = end;
    }
    count
}

/// The lines of a part that has so many at most, and the place after them.
pub fn read_body(
    alloc: Global,
    text: &[u8],
    side: Side,
    most: u64,
    place: Place,
) -> Result<(Body, Place), FormFault>
    requires { IsPlace text.now place }
    ensures place { IfOk result (λ x. IsPlace text.now x.1 × (place.at ≤ x.1.at)) }
    ensures few { IfOk result (λ x. place.at + vec_len x.0.lines ≤ x.1.at) }
    ensures lies { IfOk result (λ x. All (λ l. LiesIn text.now l.span) x.0.lines.items) }
    ensures exact { Gives (λ x. (plain_of text.now x.0, ahead_of text.now x.1)) result (body_at side most no_body (ahead_of text.now place)) }
{
    let mut lines = Vec::with_capacity(alloc, lines_ahead(text, side, most, place.at))?;
    let mut changed = false;
    let mut left = most;
    let mut place = place;
    'body: while !ends_part(text, side, left, place.at) {
        let ((line, is_change), next) = line_of(text, side, left, place)?;
        lines.push(line)?;
        changed |= is_change;
        left -= 1;
        place = next;
    }
    Ok((Body { lines, changed }, place))
}
