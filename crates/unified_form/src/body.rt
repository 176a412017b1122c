//! The body of a hunk.

ghost use Rattle.std.specs.Prelude.{◌≡◌, ℕ, List, ◌+◌, ◌<◌, ◌≤◌, ◌^◌, length, drop, slice_range, Option, IfSome, IfOk, All, vec_len, ◌-◌};
ghost use Rattle.line_list.specs.Feeds.{AreFeeds};
ghost use Rattle.line_list.specs.Lines.{lines, IsLineAt};
ghost use Rattle.hunk_core.specs.PlainHunk.{marked_of, body_of};
ghost use Rattle.hunk_core.specs.Turned.{LiesIn};
ghost use Rattle.hunk_core.specs.Reading.{Gives, IsPlace, ahead_of};
ghost use Rattle.line_list.specs.Reader.{Reads};
ghost use Rattle.unified_form.specs.Bodies.{mark_at, marked_at, room_at, is_last_line, line_at, body_at};
ghost use Rattle.hunk_core.specs.LineTests.{unended, is_backslash, after_backslash};

use hunk_core::{
    BadKind, FormFault, HunkLine, Mark, Place, backslash_end, bad, begins_backslash, without_feed,
};
use line_list::{LineFeeds, Span, next_line_by};
use std::alloc::Global;

/// How many lines a body still has on each side.
#[derive(Clone, Copy)]
pub struct Left {
    pub old: u32,
    pub new: u32,
}

/// The mark of the line from `at` to `end`, and what stands behind it.
fn mark_of(text: &[u8], at: usize, end: usize) -> Option<HunkLine>
    requires low { at < end }
    requires high { end ≤ length text.now }
    requires short { length text.now < 2 ^ 32 }
    ensures exact { Reads (marked_of text.now) result (mark_at (slice_range text.now at end)) }
    ensures ends { IfSome result (λ x. x.span.end ≡ end) }
    ensures order { IfSome result (λ x. x.span.start ≤ end) }
{
    let span = Span {
        start: at as u32 + 1,
        end: end as u32,
    };
    let whole = Span {
        start: at as u32,
        end: end as u32,
    };
    match text[at] {
        b' ' => Some(HunkLine {
            mark: Mark::Keep,
            span,
        }),
        b'-' => Some(HunkLine {
            mark: Mark::Drop,
            span,
        }),
        b'+' => Some(HunkLine {
            mark: Mark::Add,
            span,
        }),
        // Editors and mailers take the blank off such lines.
        b'\n' => Some(HunkLine {
            mark: Mark::Keep,
            span: whole,
        }),
        b'\t' => Some(HunkLine {
            mark: Mark::Keep,
            span: whole,
        }),
        _ => None,
    }
}

/// The mark of a line that must have one.
pub fn marked_line(text: &[u8], at: usize, end: usize, number: u64) -> Result<HunkLine, FormFault>
    requires low { at < end }
    requires high { end ≤ length text.now }
    requires short { length text.now < 2 ^ 32 }
    ensures ends { IfOk result (λ x. x.span.end ≡ end) }
    ensures order { IfOk result (λ x. x.span.start ≤ end) }
    ensures exact { Gives (marked_of text.now) result (marked_at number (slice_range text.now at end)) }
{
    match mark_of(text, at, end) {
        Some(line) => Ok(line),
        None if begins_backslash(&text[at..end]) => Err(bad(number, BadKind::MisplacedBackslash)),
        None => Err(bad(number, BadKind::Mark)),
    }
}

/// What is left after a line with this mark.
pub fn left_after(mark: Mark, left: Left, number: u64) -> Result<Left, FormFault>
    ensures less { IfOk result (λ x. x.old + x.new < left.old + left.new) }
    ensures exact { Gives (λ x. x) result (room_at number mark left) }
{
    match mark {
        Mark::Keep if left.old > 0 && left.new > 0 => Ok(Left {
            old: left.old - 1,
            new: left.new - 1,
        }),
        Mark::Drop if left.old > 0 => Ok(Left {
            old: left.old - 1,
            new: left.new,
        }),
        Mark::Add if left.new > 0 => Ok(Left {
            old: left.old,
            new: left.new - 1,
        }),
        _ => Err(bad(number, BadKind::Count)),
    }
}

/// Whether a line with this mark, behind which this much is left, is the last of its sides.
pub fn is_last(mark: Mark, left: Left) -> bool
    ensures { result ≡ is_last_line mark left }
{
    match mark {
        Mark::Keep => left.old == 0 && left.new == 0,
        Mark::Drop => left.old == 0,
        Mark::Add => left.new == 0,
    }
}

/// A line of the body, what is left behind it, and the place after it.
#[tactic(auto, unfolding(crate::specs::Bodies::first_line))]
fn line_of(
    text: &[u8],
    left: Left,
    place: Place,
    feeds: &mut LineFeeds,
) -> Result<(HunkLine, Left, Place), FormFault>
    requires place { IsPlace text.now place }
    requires feeds { AreFeeds text.now feeds.old }
    ensures feeds { AreFeeds text.now feeds.new }
    ensures place { IfOk result (λ x. IsPlace text.now x.2 × (place.at < x.2.at)) }
    ensures less { IfOk result (λ x. x.1.old + x.1.new < left.old + left.new) }
    ensures lies { IfOk result (λ x. LiesIn text.now x.0.span) }
    ensures exact { Gives (λ x. (marked_of text.now x.0, x.1, ahead_of text.now x.2)) result (line_at left (ahead_of text.now place)) }
{
    let number = place.number;
    let Some(end) = next_line_by(text, place.at, feeds) else {
        return Err(bad(number, BadKind::ShortEnd));
    };
    let line = marked_line(text, place.at, end, number)?;
    let left = left_after(line.mark, left, number)?;
    match backslash_end(text, end) {
        None => Ok((
            line,
            left,
            Place {
                at: end,
                number: number + 1,
            },
        )),
        Some(at) if is_last(line.mark, left) => {
            Ok((
                without_feed(line),
                left,
                Place {
                    at,
                    number: number + 2,
                },
            ))
        }
        Some(_) => Err(bad(number + 1, BadKind::MisplacedBackslash)),
    }
}

/// Fills `lines` with those of a body with these counts, and tells the place after it.
fn fill_body(
    text: &[u8],
    left: Left,
    place: Place,
    lines: &mut Vec<HunkLine>,
    feeds: &mut LineFeeds,
) -> Result<Place, FormFault>
    requires place { IsPlace text.now place }
    requires feeds { AreFeeds text.now feeds.old }
    ensures feeds { AreFeeds text.now feeds.new }
    ensures place { IfOk result (λ x. IsPlace text.now x × (place.at ≤ x.at)) }
    ensures few { IfOk result (λ x. place.at + vec_len lines.new ≤ x.at) }
    ensures lies { IfOk result (λ x. All (λ l. LiesIn text.now l.span) lines.new.items) }
    ensures exact { Gives (λ x. (body_of text.now lines.new.items, ahead_of text.now x)) result (body_at (left.old + left.new) left (ahead_of text.now place)) }
{
    lines.clear();
    let mut left = left;
    let mut place = place;
    while left.old > 0 || left.new > 0 {
        let (line, behind, next) = line_of(text, left, place, feeds)?;
        // Field by field: a copy of the whole would wait for the stores of its parts.
        lines.push(HunkLine {
            mark: line.mark,
            span: Span {
                start: line.span.start,
                end: line.span.end,
            },
        })?;
        left = Left {
            old: behind.old,
            new: behind.new,
        };
        place = next;
    }
    Ok(place)
}

/// The lines of a body with these counts, and the place after it. They are gathered in `spare`, so that no more memory is kept
/// than they take, and each line is looked for once.
pub fn read_body(
    alloc: Global,
    text: &[u8],
    left: Left,
    place: Place,
    spare: &mut Vec<HunkLine>,
    feeds: &mut LineFeeds,
) -> Result<(Vec<HunkLine>, Place), FormFault>
    requires place { IsPlace text.now place }
    requires feeds { AreFeeds text.now feeds.old }
    ensures feeds { AreFeeds text.now feeds.new }
    ensures place { IfOk result (λ x. IsPlace text.now x.1 × (place.at ≤ x.1.at)) }
    ensures few { IfOk result (λ x. place.at + vec_len x.0 ≤ x.1.at) }
    ensures lies { IfOk result (λ x. All (λ l. LiesIn text.now l.span) x.0.items) }
    ensures exact { Gives (λ x. (body_of text.now x.0.items, ahead_of text.now x.1)) result (body_at (left.old + left.new) left (ahead_of text.now place)) }
{
    let end = fill_body(text, left, place, spare, feeds)?;
    let lines = Vec::from_slice(alloc, spare)?;
    Ok((lines, end))
}
