//! The edits of an ed script, from its last command, which stands first in the file.

ghost use Rattle.std.specs.Prelude.{◌≡◌, ◌+◌, ◌<◌, ◌^◌, ℕ, List, [], ◌∷◌, length, drop, reverse, flat_map, MatchOption, IfSome};
ghost use Rattle.hunk_core.specs.PlainHunk.{bytes_at};
ghost use Rattle.hunk_core.specs.Turned.{LiesIn};
ghost use Rattle.ed_form.specs.PlainEdit.{edits_of, IsLawfulScript};
ghost use Rattle.hunk_apply.specs.Splice.{add, drop_line};
ghost use Rattle.ifdef_out.specs.Placed.{command_edits};
ghost use Rattle.ifdef_out.specs.Places.{script_at, step_edit, IsStep, Lies};

use crate::place::{ChangeCursor, LineEdit, Step};
use ed_form::EdScript;
use line_list::Span;

/// The place in front of a command's first line.
pub fn script_start(script: &EdScript, row: usize) -> ChangeCursor
    ensures left { (text : List ℕ) → script_at text script.now.edits.items result.row result.line result.next ≡ flat_map command_edits (edits_of text (drop row (reverse script.now.edits.items))) }
    ensures row { result.row ≡ row }
    ensures next { result.next < 2 ^ 32 }
{
    if row >= script.edits.len() {
        return ChangeCursor {
            row,
            line: 0,
            next: 1,
        };
    }
    ChangeCursor {
        row,
        line: 0,
        next: script.edits[script.edits.len() - 1 - row].first as u64,
    }
}

/// The next step over a script, unless none is left.
pub fn script_step(text: &[u8], script: &EdScript, place: ChangeCursor) -> Option<Step>
    requires lawful { IsLawfulScript text.now script.now }
    ensures { MatchOption result (script_at text.now script.now.edits.items place.row place.line place.next ≡ []) (IsStep text.now (script_at text.now script.now.edits.items) (length script.now.edits.items) place) }
{
    let _length = text.len();
    if place.row >= script.edits.len() {
        return None;
    }
    let edit = &script.edits[script.edits.len() - 1 - place.row];
    if place.next <= edit.last as u64 {
        return Some(drop_step(place));
    }
    if place.line >= edit.added.len() {
        return Some(Step {
            edit: None,
            behind: script_start(script, place.row + 1),
        });
    }
    Some(add_step(edit.added[place.line], edit.last, place))
}

/// The step over a line that a command drops.
fn drop_step(place: ChangeCursor) -> Step
    requires { place.next < 2 ^ 32 }
    ensures edit { (text : List ℕ) → step_edit text result.edit ≡ drop_line place.next ∷ [] }
    ensures row { result.behind.row ≡ place.row }
    ensures line { result.behind.line ≡ place.line }
    ensures next { result.behind.next ≡ place.next + 1 }
    ensures lies { (text : List ℕ) → IfSome result.edit (Lies text) }
{
    Step {
        edit: Some(LineEdit {
            at: place.next,
            added: None,
        }),
        behind: ChangeCursor {
            row: place.row,
            line: place.line,
            next: place.next + 1,
        },
    }
}

/// The step over a line that a command adds behind its last line.
fn add_step(span: Span, last: u32, place: ChangeCursor) -> Step
    requires { place.line + 1 < 2 ^ 64 }
    ensures edit { (text : List ℕ) → step_edit text result.edit ≡ add (last + 1) (bytes_at text span) ∷ [] }
    ensures row { result.behind.row ≡ place.row }
    ensures line { result.behind.line ≡ place.line + 1 }
    ensures next { result.behind.next ≡ place.next }
    ensures lies { (text : List ℕ) → LiesIn text span → IfSome result.edit (Lies text) }
{
    Step {
        edit: Some(LineEdit {
            at: last as u64 + 1,
            added: Some(span),
        }),
        behind: ChangeCursor {
            row: place.row,
            line: place.line + 1,
            next: place.next,
        },
    }
}
