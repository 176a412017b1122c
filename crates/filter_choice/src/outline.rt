//! A patch text and its file patches without their hunks, for who wants no more than a list of them.
ghost use Rattle.std.specs.Prelude.{◌≡◌, ◌<◌, ◌≤◌, ◌^◌, Ok, Err, All, IfOk, length, map, slice_get};
ghost use Rattle.std.specs.Option.{ForSome};
ghost use Rattle.read_file_patch.specs.Absent.{IsLawfulPatch};
ghost use Rattle.read_file_patch.specs.PlainPatch.{header_of, patch_of};
ghost use Rattle.patch_options.specs.PlainJob.{plain_options, IsLawful};
ghost use Rattle.filter_choice.specs.Outlined.{IsOutline};
ghost use Rattle.patch_set.specs.PlainName.{plain_name};
ghost use Rattle.patch_set.specs.Refusals.{refusal, refusal_of};
ghost use Rattle.patch_set.specs.SetView.{Meets};

use patch_options::Options;
use patch_set::{SetFault, plain_name, refuse, ways_of, whole_text};
use read_file_patch::FilePatch;
use read_patch_text::read_outlines;
use std::alloc::Global;
use std::marker::Model;

/// A patch text and its file patches, each with its only hunk or, if it has several, with none; an ed script stays.
#[derive(Drop)]
pub struct FilePatchList {
    text: Vec<u8>,
    patches: Vec<FilePatch>,
}

impl Model for FilePatchList {
    ghost use Rattle.std.specs.Prelude.{All};
    ghost use Rattle.read_file_patch.specs.Absent.{IsLawfulPatch};
    ghost use Rattle.filter_choice.specs.Outlined.{OutlineView};

    ghost Value = { OutlineView };

    ghost view = { λ s. record { text = s.text.items; patches = s.patches.items } };

    ghost invariant = { λ s. All (IsLawfulPatch s.text.items) s.patches.items };
}

impl FilePatchList {
    /// The file patches in the order of the text.
    pub fn patches(&self) -> &[FilePatch]
        ensures patches { result.now ≡ self.now.patches }
        ensures lawful { All (IsLawfulPatch self.now.text) self.now.patches }
    {
        &self.patches
    }

    /// The name of a file patch, counted from 0, as that of a set (`PatchSet::plain_name`).
    pub fn plain_name(&self, patch: usize) -> &[u8]
        requires { patch < length self.now.patches }
        ensures { ForSome (slice_get self.now.patches patch) (λ p. result.now ≡ plain_name (header_of self.now.text p.header)) }
    {
        plain_name(&self.text, &self.patches[patch].header)
    }
}

/// Reads the file patches of a text for these options as `read_set` does, and refuses what that refuses. Hunks of the unified form but the
/// first of each file patch are read without being kept, those of the other forms one file patch at a time.
pub fn read_outline(
    alloc: Global,
    text: Vec<u8>,
    options: &Options,
) -> Result<FilePatchList, SetFault>
    requires { IsLawful (plain_options options.now) }
    ensures outline { IfOk result (IsOutline (plain_options options.now) text.items) }
    ensures refused { Meets (refusal (plain_options options.now) text.items) result }
    ensures memory { result ≡ Err SetFault.Memory → length text.items ≤ 268435456 }
{
    let text = match whole_text(text) {
        Ok(text) => text,
        Err(fault) => return Err(fault),
    };
    let patches = read_outlines(alloc, &text, ways_of(options))?;
    outline_of(alloc, text, options, patches)
}

/// The outline of these file patches, unless they are refused.
fn outline_of(
    alloc: Global,
    text: Vec<u8>,
    options: &Options,
    patches: Vec<FilePatch>,
) -> Result<FilePatchList, SetFault>
    requires options { IsLawful (plain_options options.now) }
    requires lawful { All (IsLawfulPatch text.items) patches.items }
    requires count { length patches.items < 2 ^ 32 }
    ensures text { IfOk result (λ o. o.text ≡ text.items) }
    ensures plain { IfOk result (λ o. map (patch_of text.items) o.patches ≡ map (patch_of text.items) patches.items) }
    ensures refused { Meets (refusal_of (plain_options options.now) text.items (Ok (map (patch_of text.items) patches.items))) result }
{
    match refuse(alloc, &text, options, &patches) {
        Ok(()) => Ok(FilePatchList { text, patches }),
        Err(fault) => Err(fault),
    }
}
