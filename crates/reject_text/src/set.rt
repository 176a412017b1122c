//! A file patch of a set, and its verdicts.

ghost use Rattle.std.specs.Prelude.{◌≡◌, ◌+◌, ◌<◌, ◌≤◌, ◌^◌, Some, length};
ghost use Rattle.std.specs.Option.{ForSome};
ghost use Rattle.outside.specs.SinkView.{Writes};
ghost use Rattle.read_file_patch.specs.PlainPatch.{change_of, row_count};
ghost use Rattle.patch_set.specs.SetView.{HasVerdicts, IsWhole, patch_at, verdicts_in};
ghost use Rattle.reject_text.specs.Headers.{IsRejectForm};
ghost use Rattle.reject_text.specs.Rejects.{AreHunks, hunks_in, reject_text};

use crate::put_reject;
use hunk_core::{Form, Side, Verdict};
use outside::{Failed, Sink};
use patch_set::PatchSet;
use read_file_patch::FilePatch;

fn patch_at(set: &PatchSet, patch: u32) -> &FilePatch
    requires { patch < length set.now.patches }
    ensures is { patch_at set.now patch ≡ Some result.now }
    ensures whole { IsWhole set.now }
{
    &set.patches()[patch as usize]
}

fn count(patch: &FilePatch) -> usize
    requires { row_count patch.now.change < 2 ^ 32 }
    ensures { result ≡ row_count patch.now.change }
{
    patch.hunks() as usize
}

fn verdicts_in<'a>(set: &'a PatchSet, patch: &FilePatch) -> &'a [Verdict]
    requires count { row_count patch.now.change < 2 ^ 32 }
    requires within { patch.now.first_verdict + row_count patch.now.change ≤ length set.now.verdicts }
    ensures are { result.now ≡ verdicts_in set.now patch.now }
    ensures count { length result.now ≡ row_count patch.now.change }
{
    let first = patch.first_verdict as usize;
    &set.verdicts()[first..first + count(patch)]
}

/// Writes the reject text of a file patch of a set, counted from 0, by the verdicts that the set holds.
pub fn put_rejects<O: Sink>(
    set: &PatchSet,
    patch: u32,
    side: Side,
    name: &str,
    form: Form,
    out: &mut O,
) -> Result<(), Failed>
    requires within { patch < length set.now.patches }
    requires hunks { ForSome (patch_at set.now patch) (λ p. AreHunks p.change) }
    requires held { HasVerdicts set.now }
    requires form { IsRejectForm form }
    ensures writes { ForSome (patch_at set.now patch) (λ p. Writes (O.view out.old) (O.view out.new) result (reject_text (hunks_in (change_of set.now.text p.change)) (verdicts_in set.now p) side name.now form)) }
    ensures rest { O.same_rest out.old out.new }
{
    let patch = patch_at(set, patch);
    let verdicts = verdicts_in(set, patch);
    put_reject(set.text(), patch, verdicts, side, name, form, out)
}
