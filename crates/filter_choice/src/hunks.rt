//! The old lines of a hunk, and whether it is kept.

ghost use Rattle.std.specs.Prelude.{◌≡◌, ◌<◌, ◌^◌, ℕ, List, Some, length, false, slice_get, slice_index_or};
ghost use Rattle.hunk_core.specs.PlainHunk.{hunk_of};
ghost use Rattle.ed_form.specs.PlainEdit.{IsLawfulScript, edits_of};
ghost use Rattle.read_file_patch.specs.PlainPatch.{IsLawfulChange, change_of, row_count};
ghost use Rattle.cli_tool_words.specs.PlainJobs.{plain_filter_job};
ghost use Rattle.filter_choice.specs.OldLines.{IsCounted, addressed, numbers_of, old_numbers, old_of_each};
ghost use Rattle.filter_choice.specs.Kept.{kept};

use crate::numbers::{Lines, is_meant, is_one_meant};
use cli_tool_words::FilterJob;
use ed_form::EdScript;
use hunk_core::{Hunk, Side};
use read_file_patch::Change;

fn old_lines(hunk: &Hunk) -> Lines
    requires { length hunk.now.body.items < 2 ^ 32 }
    ensures { (text : List ℕ) → numbers_of result ≡ old_numbers (hunk_of text hunk.now) }
{
    let count = u64::from(hunk.count(Side::Forward));
    if count == 0 {
        let line = u64::from(hunk.old_start);
        return Lines {
            first: line,
            last: line,
        };
    }
    let first = u64::from(hunk.old_start);
    Lines {
        first,
        last: first + count - 1,
    }
}

/// The old lines of an ed script, whose edits stand from the last in the file to the first.
pub fn addressed(script: &EdScript) -> Lines
    requires { 0 < length script.now.edits.items }
    ensures { (text : List ℕ) → IsLawfulScript text script.now → numbers_of result ≡ addressed (edits_of text script.now.edits.items) }
{
    let end = &script.edits[0];
    let front = &script.edits[script.edits.len() - 1];
    Lines {
        first: u64::from(u32::min(front.first, front.last)),
        last: u64::from(end.last),
    }
}

/// The old lines of a hunk, counted from 0; an ed script is one.
fn lines_of(change: &Change, hunk: u32) -> Lines
    requires counted { IsCounted change.now }
    requires within { hunk < row_count change.now }
    ensures { (text : List ℕ) → IsLawfulChange text change.now → slice_get (old_of_each (change_of text change.now)) hunk ≡ Some (numbers_of result) }
{
    match change {
        Change::Hunks(hunks) => old_lines(&hunks[hunk as usize]),
        Change::Script(script) => addressed(script),
    }
}

/// Whether a hunk, counted from 0, is kept.
pub fn is_kept(job: &FilterJob, change: &Change, hunk: u32) -> bool
    requires counted { IsCounted change.now }
    requires within { hunk < row_count change.now }
    ensures { (text : List ℕ) → IsLawfulChange text change.now → result ≡ slice_index_or (kept (plain_filter_job job.now) (change_of text change.now)) hunk false }
{
    is_meant(&job.hunks, u64::from(hunk) + 1) && is_one_meant(&job.lines, lines_of(change, hunk))
}
