//! A patch text and its file patches without hunks, for who leaves out file patches and hunks of the text.
ghost use Rattle.std.specs.Prelude.{◌≡◌, ◌<◌, ◌≤◌, ◌^◌, Ok, Err, Some, IfOk, length, map, slice_get};
ghost use Rattle.std.specs.Option.{ForSome};
ghost use Rattle.read_file_patch.specs.PlainPatch.{header_of, patch_of};
ghost use Rattle.patch_options.specs.PlainJob.{plain_options, IsLawful};
ghost use Rattle.read_patch_text.specs.Digests.{AreDigests};
ghost use Rattle.read_patch_text.specs.Regions.{region_of};
ghost use Rattle.filter_choice.specs.Digested.{IsDigestOf};
ghost use Rattle.patch_set.specs.PlainName.{plain_name};
ghost use Rattle.patch_set.specs.Refusals.{refusal, refusal_of};
ghost use Rattle.patch_set.specs.SetView.{Meets};

use patch_options::Options;
use patch_set::{SetFault, plain_name, refuse, ways_of, whole_text};
use read_file_patch::FilePatch;
use read_patch_text::{Digests, read_digests};
use std::alloc::Global;
use std::marker::Model;
use unified_form::OldRange;

/// A patch text and its file patches, each without hunks, but with the piece and the old lines of each hunk; an ed script stays.
#[derive(Drop)]
pub struct HunkIndex {
    text: Vec<u8>,
    patches: Vec<FilePatch>,
    olds: Vec<Vec<OldRange>>,
}

impl Model for HunkIndex {
    ghost use Rattle.std.specs.Prelude.{map};
    ghost use Rattle.read_patch_text.specs.Digests.{AreDigests};
    ghost use Rattle.filter_choice.specs.Digested.{DigestView};

    ghost Value = { DigestView };

    ghost view = { λ s. record { text = s.text.items; patches = s.patches.items; olds = map (λ os. os.items) s.olds.items } };

    ghost invariant = { λ s. AreDigests s.text.items s.patches.items (map (λ os. os.items) s.olds.items) };
}

impl HunkIndex {
    /// The text that was read; its last line has its line feed.
    pub fn text(&self) -> &[u8]
        ensures { result.now ≡ self.now.text }
    {
        &self.text
    }

    /// The file patches in the order of the text.
    pub fn patches(&self) -> &[FilePatch]
        ensures patches { result.now ≡ self.now.patches }
        ensures are { AreDigests self.now.text self.now.patches self.now.olds }
    {
        &self.patches
    }

    /// The old lines of the hunks of a file patch, counted from 0; an ed script has none.
    pub fn olds(&self, patch: usize) -> &[OldRange]
        requires { patch < length self.now.patches }
        ensures { slice_get self.now.olds patch ≡ Some result.now }
    {
        &self.olds[patch]
    }

    /// The name of a file patch, counted from 0, as that of a set (`PatchSet::plain_name`).
    pub fn plain_name(&self, patch: usize) -> &[u8]
        requires { patch < length self.now.patches }
        ensures { ForSome (slice_get self.now.patches patch) (λ p. result.now ≡ plain_name (header_of self.now.text p.header)) }
    {
        plain_name(&self.text, &self.patches[patch].header)
    }
}

/// Reads the file patches of a text for these options as `read_set` does, and refuses what that refuses. Hunks of the unified form are read
/// without being kept, those of the other forms one file patch at a time.
pub fn read_digest(alloc: Global, text: Vec<u8>, options: &Options) -> Result<HunkIndex, SetFault>
    requires { IsLawful (plain_options options.now) }
    ensures digest { IfOk result (IsDigestOf (plain_options options.now) text.items) }
    ensures refused { Meets (refusal (plain_options options.now) text.items) result }
    ensures memory { result ≡ Err SetFault.Memory → length text.items ≤ 268435456 }
{
    let text = match whole_text(text) {
        Ok(text) => text,
        Err(fault) => return Err(fault),
    };
    let digests = read_digests(alloc, &text, ways_of(options))?;
    digest_of(alloc, text, options, digests)
}

/// The digest of these file patches, unless they are refused.
fn digest_of(
    alloc: Global,
    text: Vec<u8>,
    options: &Options,
    digests: Digests,
) -> Result<HunkIndex, SetFault>
    requires options { IsLawful (plain_options options.now) }
    requires are { AreDigests text.items digests.patches.items (map (λ os. os.items) digests.olds.items) }
    requires count { length digests.patches.items < 2 ^ 32 }
    ensures text { IfOk result (λ d. d.text ≡ text.items) }
    ensures plain { IfOk result (λ d. map (patch_of text.items) d.patches ≡ map (patch_of text.items) digests.patches.items) }
    ensures olds { IfOk result (λ d. d.olds ≡ map (λ os. os.items) digests.olds.items) }
    ensures regions { IfOk result (λ d. map region_of d.patches ≡ map region_of digests.patches.items) }
    ensures are { IfOk result (λ d. AreDigests text.items d.patches d.olds) }
    ensures refused { Meets (refusal_of (plain_options options.now) text.items (Ok (map (patch_of text.items) digests.patches.items))) result }
{
    match refuse(alloc, &text, options, &digests.patches) {
        Ok(()) => Ok(HunkIndex {
            text,
            patches: digests.patches,
            olds: digests.olds,
        }),
        Err(fault) => Err(fault),
    }
}
