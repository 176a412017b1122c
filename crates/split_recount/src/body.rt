//! The body of a hunk whose counts aren't trusted.

ghost use Rattle.std.specs.Prelude.{◌≡◌, ◌+◌, ◌<◌, ◌≤◌, ◌^◌, length, drop, slice_range, None, not, ◌&&◌, ◌||◌};
ghost use Rattle.line_list.specs.Lines.{lines};
ghost use Rattle.hunk_core.specs.LineTests.{is_backslash};
ghost use Rattle.hunk_core.specs.Reading.{Gives};
ghost use Rattle.unified_form.specs.declared.body.Left.{Left};
ghost use Rattle.unified_form.specs.Grammar.{counts_of};
ghost use Rattle.split_recount.specs.Bodies.{begins_header, is_body_line, ends_body, marked_lines, mark_in, may_stand, misplaced};
ghost use Rattle.split_recount.specs.Recounted.{sound_body};
ghost use Rattle.split_recount.specs.Measured.{left_of, with_mark, body_at, GoesOn, IsMeasured};

use hunk_core::{BadKind, FormFault, Mark, after_prefix, bad, begins_backslash};
use line_list::next_line;

/// How many lines stand on each side.
#[derive(Clone, Copy)]
pub struct Sides {
    pub old: u64,
    pub new: u64,
}

/// How far a body goes, and what it has.
#[derive(Clone, Copy)]
pub struct Body {
    /// The place behind it.
    pub end: usize,
    pub lines: u64,
    pub sides: Sides,
    pub has_backslash: bool,
}

/// Whether a line begins as those of a body do.
fn is_body_line(line: &[u8]) -> bool
    ensures { result ≡ is_body_line line.now }
{
    match line {
        [] => false,
        [b' ' | b'+' | b'-', ..] => true,
        [_, ..] => begins_backslash(line),
    }
}

/// Whether the line from `at` to `end` and the one behind it name the files of the next file patch.
fn at_header(text: &[u8], at: usize, end: usize) -> bool
    requires low { at ≤ end }
    requires high { end ≤ length text.now }
    ensures { result ≡ begins_header (slice_range text.now at end) (lines (drop end text.now)) }
{
    if after_prefix(&text[at..end], b"--- ").is_none() {
        return false;
    }
    match next_line(text, end) {
        Some(next) => after_prefix(&text[end..next], b"+++ ").is_some(),
        None => false,
    }
}

/// Whether a body ends in front of the line from `at` to `end`. An opening and an empty line begin
/// otherwise than the lines of a body.
#[tactic(auto, using(crate::proofs::Ends::ends_so))]
fn is_end(text: &[u8], at: usize, end: usize) -> bool
    requires low { at ≤ end }
    requires high { end ≤ length text.now }
    ensures { result ≡ ends_body (slice_range text.now at end) (lines (drop end text.now)) }
{
    let line = &text[at..end];
    if !is_body_line(line) || line == b"-- \n".as_slice() {
        return true;
    }
    at_header(text, at, end)
}

/// The place behind the line at `at`, if the body goes on over it.
#[tactic(auto, using(crate::proofs::Ends::body_none, crate::proofs::Ends::body_ends, crate::proofs::Ends::body_more))]
fn body_line(text: &[u8], at: usize) -> Option<usize>
    requires { at ≤ length text.now }
    ensures { GoesOn text.now at result }
{
    let end = next_line(text, at)?;
    if is_end(text, at, end) {
        return None;
    }
    Some(end)
}

fn mark_of(line: &[u8]) -> Option<Mark>
    ensures { result ≡ mark_in line.now }
{
    match line {
        [b' ' | b'\n', ..] => Some(Mark::Keep),
        [b'\t', ..] => Some(Mark::Keep),
        [b'-', ..] => Some(Mark::Drop),
        [b'+', ..] => Some(Mark::Add),
        _ => None,
    }
}

/// One line more, which may have a mark.
fn one_more(sides: Sides, mark: Option<Mark>) -> Sides
    requires old { sides.old < 2 ^ 32 }
    requires new { sides.new < 2 ^ 32 }
    ensures { left_of result ≡ with_mark mark (left_of sides) }
{
    match mark {
        Some(Mark::Keep) => Sides {
            old: sides.old + 1,
            new: sides.new + 1,
        },
        Some(Mark::Drop) => Sides {
            old: sides.old + 1,
            new: sides.new,
        },
        Some(Mark::Add) => Sides {
            old: sides.old,
            new: sides.new + 1,
        },
        None => sides,
    }
}

fn or_backslash(seen: bool, line: &[u8]) -> bool
    ensures { result ≡ (seen || is_backslash line.now) }
{
    seen || begins_backslash(line)
}

/// The body that begins at `at`.
pub fn measure(text: &[u8], at: usize) -> Body
    requires within { at ≤ length text.now }
    requires short { length text.now < 2 ^ 32 }
    ensures { IsMeasured text.now at result }
{
    let mut body = Body {
        end: at,
        lines: 0,
        sides: Sides { old: 0, new: 0 },
        has_backslash: false,
    };
    'lines: while let Some(end) = body_line(text, body.end) {
        let line = &text[body.end..end];
        let mark = mark_of(line);
        body = Body {
            end,
            lines: body.lines + 1,
            sides: one_more(body.sides, mark),
            has_backslash: or_backslash(body.has_backslash, line),
        };
    }
    body
}

/// One line less, which may have a mark.
fn one_less(sides: Sides, mark: Option<Mark>) -> Sides
    ensures { (left : Left) → left_of sides ≡ with_mark mark left → left_of result ≡ left }
{
    match mark {
        Some(Mark::Keep) => Sides {
            old: sides.old.saturating_sub(1),
            new: sides.new.saturating_sub(1),
        },
        Some(Mark::Drop) => Sides {
            old: sides.old.saturating_sub(1),
            new: sides.new,
        },
        Some(Mark::Add) => Sides {
            old: sides.old,
            new: sides.new.saturating_sub(1),
        },
        None => sides,
    }
}

/// Whether a backslash line may stand behind a line with this mark, and before so much of the body.
fn is_lawful(before: Option<Mark>, behind: Sides) -> bool
    ensures { result ≡ may_stand before (left_of behind) }
{
    match before {
        Some(Mark::Keep) => behind.old == 0 && behind.new == 0,
        Some(Mark::Drop) => behind.old == 0,
        Some(Mark::Add) => behind.new == 0,
        None => false,
    }
}

/// Whether a line is a backslash line that may not stand there.
fn is_misplaced(line: &[u8], before: Option<Mark>, behind: Sides) -> bool
    ensures { result ≡ (is_backslash line.now && not (may_stand before (left_of behind))) }
{
    begins_backslash(line) && !is_lawful(before, behind)
}

/// The number of the first backslash line that is misplaced in the body that begins at `at`.
fn first_misplaced(text: &[u8], at: usize, number: u64, sides: Sides) -> Option<u64>
    requires within { at ≤ length text.now }
    requires short { length text.now < 2 ^ 32 }
    requires small { number ≤ at + 2 ^ 32 }
    requires sides { counts_of (marked_lines (body_at text.now at)) ≡ left_of sides }
    ensures { result ≡ misplaced None number (body_at text.now at) }
{
    let mut at = at;
    let mut number = number;
    let mut before = None;
    let mut left = sides;
    'lines: while let Some(end) = body_line(text, at) {
        let line = &text[at..end];
        let mark = mark_of(line);
        left = one_less(left, mark);
        if is_misplaced(line, before, left) {
            return Some(number);
        }
        at = end;
        number += 1;
        before = mark;
    }
    None
}

/// Refuses a body without lines, and one with a misplaced backslash line, behind the range line with
/// this number.
#[tactic(auto, using(crate::proofs::Misplaced::none_misplaced, crate::proofs::Misplaced::sound_if))]
pub fn check_body(text: &[u8], at: usize, number: u64, body: Body) -> Result<(), FormFault>
    requires within { at ≤ length text.now }
    requires short { length text.now < 2 ^ 32 }
    requires small { number < at + 2 ^ 32 }
    requires measured { IsMeasured text.now at body }
    ensures { Gives (λ x. marked_lines (body_at text.now at)) result (sound_body number (body_at text.now at)) }
{
    if body.lines == 0 {
        return Err(bad(number, BadKind::Count));
    }
    if !body.has_backslash {
        return Ok(());
    }
    match first_misplaced(text, at, number + 1, body.sides) {
        None => Ok(()),
        Some(line) => Err(bad(line, BadKind::MisplacedBackslash)),
    }
}
