//! Which hunks of a set are kept.

ghost use Rattle.std.specs.Prelude.{◌≡◌, ◌<◌, length, suc};
ghost use Rattle.std.specs.Option.{ForSome};
ghost use Rattle.read_file_patch.specs.PlainPatch.{header_of, patch_of, row_count};
ghost use Rattle.patch_set.specs.SetView.{patch_at};
ghost use Rattle.cli_tool_words.specs.PlainJobs.{plain_filter_job};
ghost use Rattle.filter_choice.specs.Kept.{is_taken, keeps};

use crate::hunks::is_kept;
use crate::numbers::{is_meant, is_selected};
use crate::set::patch_at;
use cli_tool_words::FilterJob;
use patch_set::PatchSet;

/// Whether a file patch, counted from 0, is meant.
fn is_taken(set: &PatchSet, job: &FilterJob, patch: u32) -> bool
    requires { patch < length set.now.patches }
    ensures { ForSome (patch_at set.now patch) (λ p. result ≡ is_taken (plain_filter_job job.now) (suc patch) (header_of set.now.text p.header)) }
{
    is_selected(&job.select, set.plain_name(patch)) && is_meant(&job.files, u64::from(patch) + 1)
}

/// Whether a hunk of a file patch is kept, both counted from 0: the file patch is selected, its number is meant, and so are
/// the number of the hunk and one of its old lines. An ed script is one hunk.
pub fn keeps(set: &PatchSet, job: &FilterJob, patch: u32, hunk: u32) -> bool
    requires patch { patch < length set.now.patches }
    requires hunk { ForSome (patch_at set.now patch) (λ p. hunk < row_count p.change) }
    ensures { ForSome (patch_at set.now patch) (λ p. result ≡ keeps (plain_filter_job job.now) patch (patch_of set.now.text p) hunk) }
{
    is_taken(set, job, patch) && is_kept(job, &patch_at(set, patch).change, hunk)
}
