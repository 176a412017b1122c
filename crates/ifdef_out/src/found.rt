//! The next edit of a change.

ghost use Rattle.std.specs.Prelude.{◌≡◌, [], MatchOption};
ghost use Rattle.ifdef_out.specs.Places.{AreEdits, IsFound, edits_left};

use crate::edits::{Edits, step};
use crate::place::{ChangeCursor, LineEdit};

/// An edit, and the place behind it.
#[derive(Clone, Copy)]
pub struct FoundChange {
    pub edit: LineEdit,
    pub behind: ChangeCursor,
}

/// The next edit, unless none is left.
pub fn next_edit(edits: Edits, place: ChangeCursor) -> Option<FoundChange>
    requires { AreEdits edits }
    ensures { MatchOption result (edits_left edits.entry place ≡ []) (IsFound edits.entry place) }
{
    let mut at = place;
    while let Some(next) = step(edits, at) {
        if let Some(edit) = next.edit {
            return Some(FoundChange {
                edit,
                behind: next.behind,
            });
        }
        at = next.behind;
    }
    None
}
