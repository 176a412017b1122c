//! One file patch turned round and written.

ghost use Rattle.std.specs.Prelude.{◌≡◌, ◌<◌, Some, length};
ghost use Rattle.std.specs.List.{flat_map};
ghost use Rattle.std.specs.Option.{ForSome};
ghost use Rattle.outside.specs.Puts.{Puts};
ghost use Rattle.read_file_patch.specs.Absent.{IsLawfulPatch};
ghost use Rattle.read_file_patch.specs.PlainPatch.{change_of};
ghost use Rattle.patch_set.specs.SetView.{patch_at};
ghost use Rattle.patch_set.specs.Spans.{IsPlaced};
ghost use Rattle.flip_patch.specs.Flipped.{flipped_patch, hunk_text, swapped_hunks};

use crate::hunks::put_hunks;
use crate::put_header_lines;
use hunk_core::Side;
use outside::{Failed, Sink};
use patch_set::PatchSet;
use read_file_patch::{Change, FilePatch};

/// A file patch, counted from 0.
fn patch_at(set: &PatchSet, patch: u32) -> &FilePatch
    requires { patch < length set.now.patches }
    ensures is { patch_at set.now patch ≡ Some result.now }
    ensures lawful { IsLawfulPatch set.now.text result.now }
    ensures placed { IsPlaced set.now.text result.now.span.start result.now.first_verdict result.now }
{
    &set.patches()[patch as usize]
}

/// Writes the hunks of a file patch.
fn put_change<O: Sink>(text: &[u8], patch: &FilePatch, out: &mut O) -> Result<(), Failed>
    requires lawful { IsLawfulPatch text.now patch.now }
    requires placed { IsPlaced text.now patch.now.span.start patch.now.first_verdict patch.now }
    ensures { Puts O.view O.same_rest out.old out.new result (flat_map (hunk_text patch.now.header.form) (swapped_hunks (change_of text.now patch.now.change))) }
{
    match &patch.change {
        Change::Hunks(hunks) => put_hunks(text, patch.header.form, hunks, out),
        Change::Script(_) => Ok(()),
    }
}

/// Writes a file patch, counted from 0.
pub fn put_patch<O: Sink>(set: &PatchSet, patch: u32, out: &mut O) -> Result<(), Failed>
    requires { patch < length set.now.patches }
    ensures { ForSome (patch_at set.now patch) (λ p. Puts O.view O.same_rest out.old out.new result (flipped_patch set.now.text p)) }
{
    let one = patch_at(set, patch);
    put_header_lines(set, patch, one.header.form, Side::Reversed, out)?;
    put_change(set.text(), one, out)
}
