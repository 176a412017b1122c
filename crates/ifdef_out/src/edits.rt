//! The edits of a change that was placed, in their order.

ghost use Rattle.std.specs.Prelude.{◌≡◌, ◌<◌, List, [], ◌∷◌, length, MatchOption, if◌then◌else◌};
ghost use Rattle.hunk_core.specs.declared.Verdict.{Verdict};
ghost use Rattle.hunk_apply.specs.Session.{is_placed};
ghost use Rattle.read_file_patch.specs.PlainPatch.{change_of};
ghost use Rattle.ifdef_out.specs.Placed.{change_edits};
ghost use Rattle.ifdef_out.specs.Places.{AreEdits, IsStep, edits_left, left_of, row_total};

use crate::hunks::{hunk_start, hunk_step};
use crate::place::{ChangeCursor, Step};
use crate::script::{script_start, script_step};
use hunk_core::{Side, Verdict};
use read_file_patch::Change;

/// A change as it is taken from a side, and where its hunks were placed.
#[derive(Clone, Copy)]
pub struct Edits<'a> {
    pub text: &'a [u8],
    pub change: &'a Change,
    pub side: Side,
    pub verdicts: &'a [Verdict],
}

/// The place in front of all edits.
pub fn start(edits: Edits) -> ChangeCursor
    requires { AreEdits edits }
    ensures { edits_left edits.entry result ≡ change_edits edits.entry.verdicts.now edits.entry.side (change_of edits.entry.text.now edits.entry.change.now) }
{
    match edits.change {
        Change::Hunks(hunks) => hunk_start(hunks, edits.verdicts, 0),
        Change::Script(script) => {
            script_start(script, first_row(edits.verdicts, script.edits.len()))
        }
    }
}

/// The first command of a script that was carried out, or the number of them all where it wasn't.
fn first_row(verdicts: &[Verdict], count: usize) -> usize
    requires { 0 < length verdicts.now }
    ensures { (v : Verdict) → (more : List Verdict) → verdicts.now ≡ v ∷ more → result ≡ (if is_placed v then 0 else count) }
{
    if let Verdict::At { .. } = verdicts[0] {
        return 0;
    }
    count
}

/// The next step, unless none is left.
pub fn step(edits: Edits, place: ChangeCursor) -> Option<Step>
    requires { AreEdits edits }
    ensures { MatchOption result (edits_left edits.entry place ≡ []) (IsStep edits.entry.text.now (left_of edits.entry.text.now edits.entry.side edits.entry.verdicts.now edits.entry.change.now) (row_total edits.entry.change.now) place) }
{
    match edits.change {
        Change::Hunks(hunks) => hunk_step(edits.text, hunks, edits.side, edits.verdicts, place),
        Change::Script(script) => script_step(edits.text, script, place),
    }
}
