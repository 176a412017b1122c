//! The edits of kept hunks, line by line of their bodies.

ghost use Rattle.std.specs.Prelude.{◌≡◌, ◌+◌, ◌<◌, ◌++◌, ◌^◌, ℕ, List, [], length, drop, MatchOption, IfSome, if◌then◌else◌};
ghost use Rattle.hunk_core.specs.PlainHunk.{bytes_at};
ghost use Rattle.hunk_core.specs.Sides.{is_on_side};
ghost use Rattle.hunk_core.specs.Turned.{LiesIn};
ghost use Rattle.hunk_core.specs.declared.Side.{Side};
ghost use Rattle.format_convert.specs.Blocks.{Edit, marked_edits};
ghost use Rattle.format_convert.specs.Walk.{IsFound, IsKept, IsStep, Lies, edits_left, edits_of, pairs, step_edit};

use crate::kept::{Kept, is_kept};
use crate::place::{EditCursor, FoundEdit, LineEdit, Step};
use hunk_core::{HunkLine, Mark, Side};

/// The place in front of a hunk's first line, or behind its last one where the hunk isn't kept.
pub fn hunk_start(kept: Kept, hunk: usize) -> EditCursor
    requires { IsKept kept }
    ensures left { edits_left kept.entry result ≡ edits_of kept.entry.set.now.text (drop hunk (pairs kept.entry)) }
    ensures hunk { result.hunk ≡ hunk }
{
    if hunk >= kept.hunks.len() {
        return EditCursor {
            hunk,
            line: 0,
            next: 1,
        };
    }
    if is_kept(kept, hunk) {
        return EditCursor {
            hunk,
            line: 0,
            next: kept.hunks[hunk].base(Side::Forward),
        };
    }
    EditCursor {
        hunk,
        line: kept.hunks[hunk].body.len(),
        next: 1,
    }
}

/// The next step, unless none is left.
fn step(kept: Kept, place: EditCursor) -> Option<Step>
    requires { IsKept kept }
    ensures { MatchOption result (edits_left kept.entry place ≡ []) (IsStep kept.entry place) }
{
    if place.hunk >= kept.hunks.len() {
        return None;
    }
    let hunk = &kept.hunks[place.hunk];
    if place.line >= hunk.body.len() {
        return Some(Step {
            edit: None,
            behind: hunk_start(kept, place.hunk + 1),
        });
    }
    Some(line_step(hunk.body[place.line], place))
}

/// The step over a line of a body.
fn line_step(line: HunkLine, place: EditCursor) -> Step
    requires { place.line < 2 ^ 32 }
    ensures edit { (text : List ℕ) → (rest : List Edit) → marked_edits line.mark place.next (bytes_at text line.span) (λ _. rest) ≡ step_edit text result.edit ++ rest }
    ensures hunk { result.behind.hunk ≡ place.hunk }
    ensures line { result.behind.line ≡ place.line + 1 }
    ensures next { result.behind.next ≡ place.next + (if is_on_side Side.Forward line.mark then 1 else 0) }
    ensures lies { (text : List ℕ) → LiesIn text line.span → IfSome result.edit (Lies text) }
{
    match line.mark {
        Mark::Keep => Step {
            edit: None,
            behind: EditCursor {
                hunk: place.hunk,
                line: place.line + 1,
                next: place.next + 1,
            },
        },
        Mark::Drop => Step {
            edit: Some(LineEdit {
                at: place.next,
                adds: false,
                span: line.span,
            }),
            behind: EditCursor {
                hunk: place.hunk,
                line: place.line + 1,
                next: place.next + 1,
            },
        },
        Mark::Add => Step {
            edit: Some(LineEdit {
                at: place.next,
                adds: true,
                span: line.span,
            }),
            behind: EditCursor {
                hunk: place.hunk,
                line: place.line + 1,
                next: place.next,
            },
        },
    }
}

/// The next edit, unless none is left.
pub fn next_edit(kept: Kept, place: EditCursor) -> Option<FoundEdit>
    requires { IsKept kept }
    ensures { MatchOption result (edits_left kept.entry place ≡ []) (IsFound kept.entry place) }
{
    let mut at = place;
    while let Some(next) = step(kept, at) {
        if let Some(edit) = next.edit {
            return Some(FoundEdit {
                edit,
                behind: next.behind,
            });
        }
        at = next.behind;
    }
    None
}
