//! Which hunks of a file patch are kept.

ghost use Rattle.std.specs.Prelude.{◌≡◌, ◌<◌, false, length, slice_index_or};
ghost use Rattle.std.specs.Option.{ForSome};
ghost use Rattle.read_file_patch.specs.PlainPatch.{patch_of};
ghost use Rattle.patch_set.specs.SetView.{patch_at};
ghost use Rattle.cli_tool_words.specs.PlainJobs.{plain_filter_job};
ghost use Rattle.format_convert.specs.Taken.{has_kept};
ghost use Rattle.format_convert.specs.Walk.{IsKept, kept_flags};

use cli_tool_words::FilterJob;
use filter_choice::{keeps, patch_at};
use hunk_core::Hunk;
use patch_set::PatchSet;
use read_file_patch::FilePatch;

/// The hunks of a file patch, and the job that says which of them are kept.
#[derive(Clone, Copy)]
pub struct Kept<'a> {
    pub set: &'a PatchSet,
    pub job: &'a FilterJob,
    pub patch: u32,
    pub row: &'a FilePatch,
    pub hunks: &'a [Hunk],
}

/// Whether a hunk of a file patch is kept, both counted from 0.
pub fn has_kept(set: &PatchSet, job: &FilterJob, patch: u32) -> bool
    requires { patch < length set.now.patches }
    ensures { ForSome (patch_at set.now patch) (λ p. result ≡ has_kept (plain_filter_job job.now) patch (patch_of set.now.text p)) }
{
    for hunk in 0..patch_at(set, patch).hunks() {
        if keeps(set, job, patch, hunk) {
            return true;
        }
    }
    false
}

pub fn is_kept(kept: Kept, hunk: usize) -> bool
    requires kept { IsKept kept }
    requires within { hunk < length kept.hunks.now }
    ensures { result ≡ slice_index_or (kept_flags kept.entry) hunk false }
{
    keeps(kept.set, kept.job, kept.patch, hunk as u32)
}
