//! The old lines of a hunk of a digest, and whether it is kept.

ghost use Rattle.std.specs.Prelude.{◌≡◌, ◌<◌, ℕ, List, Some, length, false, slice_get, slice_index_or};
ghost use Rattle.read_file_patch.specs.PlainPatch.{IsLawfulChange, change_of};
ghost use Rattle.cli_tool_words.specs.PlainJobs.{plain_filter_job};
ghost use Rattle.filter_choice.specs.OldLines.{IsCounted, numbers_of};
ghost use Rattle.read_patch_text.specs.Digests.{IsDigest, rows_in};
ghost use Rattle.patch_filters.specs.Digested.{digest_kept, olds_by, range_numbers};

use cli_tool_words::FilterJob;
use filter_choice::{Lines, addressed, is_meant, is_one_meant};
use read_file_patch::{Change, FilePatch};
use unified_form::OldRange;

/// The old lines that a range states.
fn range_lines(old: OldRange) -> Lines
    ensures { numbers_of result ≡ range_numbers old }
{
    let count = u64::from(old.count);
    if count == 0 {
        let line = u64::from(old.start);
        return Lines {
            first: line,
            last: line,
        };
    }
    let first = u64::from(old.start);
    Lines {
        first,
        last: first + count - 1,
    }
}

/// The old lines of a hunk of a digest, counted from 0; an ed script is one, and tells them itself.
fn row_lines(change: &Change, olds: &[OldRange], hunk: usize) -> Lines
    requires counted { IsCounted change.now }
    requires within { hunk < rows_in change.now olds.now }
    ensures { (text : List ℕ) → IsLawfulChange text change.now → slice_get (olds_by (change_of text change.now) olds.now) hunk ≡ Some (numbers_of result) }
{
    match change {
        Change::Hunks(_) => range_lines(olds[hunk]),
        Change::Script(script) => addressed(script),
    }
}

/// Whether a hunk of a file patch of a digest, counted from 0, is kept.
pub fn is_row_kept(
    text: &[u8],
    job: &FilterJob,
    patch: &FilePatch,
    olds: &[OldRange],
    hunk: usize,
) -> bool
    requires digest { IsDigest text.now patch.now olds.now }
    requires within { hunk < length patch.now.hunk_spans.items }
    ensures { result ≡ slice_index_or (digest_kept (plain_filter_job job.now) text.now patch.now olds.now) hunk false }
{
    is_meant(&job.hunks, hunk as u64 + 1)
        && is_one_meant(&job.lines, row_lines(&patch.change, olds, hunk))
}
