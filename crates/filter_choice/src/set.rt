//! One file patch of a set.

ghost use Rattle.std.specs.Prelude.{◌≡◌, ◌<◌, Some, length};
ghost use Rattle.read_file_patch.specs.Absent.{IsLawfulPatch};
ghost use Rattle.patch_set.specs.SetView.{patch_at};
ghost use Rattle.patch_set.specs.Spans.{IsPlaced};

use patch_set::PatchSet;
use read_file_patch::FilePatch;

/// A file patch, counted from 0.
pub fn patch_at(set: &PatchSet, patch: u32) -> &FilePatch
    requires { patch < length set.now.patches }
    ensures is { patch_at set.now patch ≡ Some result.now }
    ensures lawful { IsLawfulPatch set.now.text result.now }
    ensures placed { IsPlaced set.now.text result.now.span.start result.now.first_verdict result.now }
{
    &set.patches()[patch as usize]
}
