//! The edits of hunks, line by line of their bodies.

ghost use Rattle.std.specs.Prelude.{◌≡◌, ◌+◌, ◌<◌, ◌++◌, ◌^◌, ℕ, List, [], length, drop, MatchOption, IfSome, if◌then◌else◌};
ghost use Rattle.std.specs.List.{All};
ghost use Rattle.hunk_core.specs.PlainHunk.{bytes_at};
ghost use Rattle.hunk_core.specs.Sides.{is_on_side};
ghost use Rattle.hunk_core.specs.Turned.{IsLawful, LiesIn, taken_mark};
ghost use Rattle.hunk_core.specs.declared.Side.{Side};
ghost use Rattle.hunk_apply.specs.Applied.{taken_all};
ghost use Rattle.hunk_apply.specs.Session.{IsTried};
ghost use Rattle.hunk_apply.specs.Splice.{Edit, marked_edits};
ghost use Rattle.ifdef_out.specs.Placed.{placed_edits};
ghost use Rattle.ifdef_out.specs.Places.{hunks_at, step_edit, IsStep, Lies};

use crate::place::{ChangeCursor, LineEdit, Step};
use hunk_apply::turned;
use hunk_core::{Hunk, HunkLine, Mark, Side, Verdict};

/// The place in front of a hunk's first line, or behind its last one where the hunk wasn't placed.
pub fn hunk_start(hunks: &[Hunk], verdicts: &[Verdict], row: usize) -> ChangeCursor
    requires rows { length verdicts.now ≡ length hunks.now }
    requires tried { All IsTried verdicts.now }
    ensures left { (text : List ℕ) → (side : Side) → hunks_at text side verdicts.now hunks.now result.row result.line result.next ≡ placed_edits (drop row verdicts.now) (taken_all text side (drop row hunks.now)) }
    ensures row { result.row ≡ row }
{
    if row >= hunks.len() {
        return ChangeCursor {
            row,
            line: 0,
            next: 1,
        };
    }
    if let Verdict::At { line, .. } = verdicts[row] {
        return ChangeCursor {
            row,
            line: 0,
            next: line,
        };
    }
    ChangeCursor {
        row,
        line: hunks[row].body.len(),
        next: 1,
    }
}

/// The next step over hunks, unless none is left.
pub fn hunk_step(
    text: &[u8],
    hunks: &[Hunk],
    side: Side,
    verdicts: &[Verdict],
    place: ChangeCursor,
) -> Option<Step>
    requires lawful { All (IsLawful text.now) hunks.now }
    requires rows { length verdicts.now ≡ length hunks.now }
    requires tried { All IsTried verdicts.now }
    ensures { MatchOption result (hunks_at text.now side verdicts.now hunks.now place.row place.line place.next ≡ []) (IsStep text.now (hunks_at text.now side verdicts.now hunks.now) (length hunks.now) place) }
{
    let _length = text.len();
    if place.row >= hunks.len() {
        return None;
    }
    let hunk = &hunks[place.row];
    if place.line >= hunk.body.len() {
        return Some(Step {
            edit: None,
            behind: hunk_start(hunks, verdicts, place.row + 1),
        });
    }
    Some(line_step(hunk.body[place.line], side, place))
}

/// The step over a line of a body.
fn line_step(line: HunkLine, side: Side, place: ChangeCursor) -> Step
    requires { place.line < 2 ^ 32 }
    ensures edit { (text : List ℕ) → (rest : List Edit) → marked_edits (taken_mark side line.mark) place.next (bytes_at text line.span) (λ _. rest) ≡ step_edit text result.edit ++ rest }
    ensures row { result.behind.row ≡ place.row }
    ensures line { result.behind.line ≡ place.line + 1 }
    ensures next { result.behind.next ≡ place.next + (if is_on_side side line.mark then 1 else 0) }
    ensures lies { (text : List ℕ) → LiesIn text line.span → IfSome result.edit (Lies text) }
{
    match turned(line.mark, side) {
        Mark::Keep => Step {
            edit: None,
            behind: ChangeCursor {
                row: place.row,
                line: place.line + 1,
                next: place.next + 1,
            },
        },
        Mark::Drop => Step {
            edit: Some(LineEdit {
                at: place.next,
                added: None,
            }),
            behind: ChangeCursor {
                row: place.row,
                line: place.line + 1,
                next: place.next + 1,
            },
        },
        Mark::Add => Step {
            edit: Some(LineEdit {
                at: place.next,
                added: Some(line.span),
            }),
            behind: ChangeCursor {
                row: place.row,
                line: place.line + 1,
                next: place.next,
            },
        },
    }
}
