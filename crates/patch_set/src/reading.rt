//! Reading a set.
ghost use Rattle.std.specs.Prelude.{◌≡◌, ◌<◌, ◌≤◌, ◌^◌, Ok, Err, None, IfOk, OnOk, length, map};
ghost use Rattle.std.specs.List.{find};
ghost use Rattle.line_list.specs.Completed.{completed};
ghost use Rattle.read_file_patch.specs.PlainPatch.{patch_of};
ghost use Rattle.patch_options.specs.PlainJob.{plain_options, IsLawful};
ghost use Rattle.patch_set.specs.Asked.{ways_of};
ghost use Rattle.patch_set.specs.Fresh.{AreWhole};
ghost use Rattle.patch_set.specs.Looks.{is_reserving};
ghost use Rattle.patch_set.specs.Naming.{HaveTargets};
ghost use Rattle.patch_set.specs.Room.{are_asked};
ghost use Rattle.patch_set.specs.Refusals.{refusal, refusal_of, reserved, too_long};
ghost use Rattle.patch_set.specs.SetView.{IsRead, IsSetOf, IsFresh, IsWhole, Meets};

use crate::SetFault;
use crate::asked::ways_of;
use crate::marks::are_asked;
use crate::names::{NamedPatches, name_all};
use crate::refusals::{refused, reserved};
use crate::set::{PatchSet, untried};
use line_list::lacks_last_feed;
use patch_options::Options;
use read_file_patch::FilePatch;
use read_patch_text::read_patches;
use std::alloc::{AllocError, Global};

/// The longest text that is read, in bytes.
const LONGEST: usize = 268_435_456;

/// Reads a patch text, as if its last line had its line feed, for these options. They tell whether git headers are read,
/// and whether binary changes are passed over. Where they can ask for a backup, room is made for the names of all targets, so
/// that a run that marks them takes no memory.
pub fn read_set(alloc: Global, text: Vec<u8>, options: &Options) -> Result<PatchSet, SetFault>
    requires { IsLawful (plain_options options.now) }
    ensures read { IfOk result (IsRead (plain_options options.now) text.items) }
    ensures fresh { IfOk result IsFresh }
    ensures whole { IfOk result IsWhole }
    ensures marks { IfOk result (λ set. set.has_marks ≡ are_asked (plain_options options.now)) }
    ensures refused { Meets (refusal (plain_options options.now) text.items) result }
    ensures memory { result ≡ Err SetFault.Memory → length text.items ≤ 268435456 }
{
    let text = match whole_text(text) {
        Ok(text) => text,
        Err(fault) => return Err(fault),
    };
    let patches = read_patches(alloc, &text, ways_of(options))?;
    set_of(alloc, text, options, patches)
}

/// The text as if its last line had its line feed, unless it is too long.
pub fn whole_text(text: Vec<u8>) -> Result<Vec<u8>, SetFault>
    ensures whole { IfOk result (λ whole. whole.items ≡ completed text.items) }
    ensures short { OnOk result (length text.items ≤ 268435456) }
    ensures refused { Meets (too_long text.items) result }
    ensures memory { result ≡ Err SetFault.Memory → length text.items ≤ 268435456 }
{
    if text.len() > LONGEST {
        return Err(SetFault::TooLong);
    }
    Ok(completed(text)?)
}

/// The text with a line feed at its end.
#[tactic(auto, unfolding(line_list::specs::Completed::completed))]
fn completed(text: Vec<u8>) -> Result<Vec<u8>, AllocError>
    ensures { IfOk result (λ whole. whole.items ≡ completed text.items) }
{
    let mut text = text;
    if !lacks_last_feed(&text) {
        return Ok(text);
    }
    text.push(b'\n')?;
    Ok(text)
}

/// The set of the file patches of a text, unless they are refused.
fn set_of(
    alloc: Global,
    text: Vec<u8>,
    options: &Options,
    patches: Vec<FilePatch>,
) -> Result<PatchSet, SetFault>
    requires options { IsLawful (plain_options options.now) }
    requires whole { AreWhole (ways_of (plain_options options.now)) text.items patches.items }
    ensures set { IfOk result (IsSetOf (plain_options options.now) text.items (map (patch_of text.items) patches.items)) }
    ensures fresh { IfOk result IsFresh }
    ensures whole { IfOk result IsWhole }
    ensures marks { IfOk result (λ set. set.has_marks ≡ are_asked (plain_options options.now)) }
    ensures refused { Meets (refusal_of (plain_options options.now) text.items (Ok (map (patch_of text.items) patches.items))) result }
{
    match give_targets(alloc, &text, options, patches) {
        Ok(named) => Ok(untried(alloc, text, ways_of(options), named, are_asked(options))?),
        Err(fault) => Err(fault),
    }
}

/// Gives the file patches of a text their targets for these options, unless the text is refused for one of them.
pub fn give_targets(
    alloc: Global,
    text: &[u8],
    options: &Options,
    patches: Vec<FilePatch>,
) -> Result<NamedPatches, SetFault>
    requires options { IsLawful (plain_options options.now) }
    requires count { length patches.items < 2 ^ 32 }
    ensures targets { IfOk result (λ named. HaveTargets (plain_options options.now) text.now patches.items named.patches.items named.output) }
    ensures lasting { IfOk result (λ named. find (is_reserving named.output) named.patches.items ≡ None) }
    ensures refused { Meets (refusal_of (plain_options options.now) text.now (Ok (map (patch_of text.now) patches.items))) result }
{
    match refused(text, options, &patches) {
        Some(fault) => Err(fault),
        None => give_lasting(alloc, text, options, patches),
    }
}

/// Gives the file patches their targets, where the names alone are looked at.
fn give_lasting(
    alloc: Global,
    text: &[u8],
    options: &Options,
    patches: Vec<FilePatch>,
) -> Result<NamedPatches, SetFault>
    requires { IsLawful (plain_options options.now) }
    ensures targets { IfOk result (λ named. HaveTargets (plain_options options.now) text.now patches.items named.patches.items named.output) }
    ensures lasting { IfOk result (λ named. find (is_reserving named.output) named.patches.items ≡ None) }
    ensures refused { Meets (reserved (plain_options options.now) (map (patch_of text.now) patches.items)) result }
{
    let named = name_all(alloc, text, options, patches)?;
    match reserved(&named) {
        Some(line) => {
            drop(named);
            Err(SetFault::Reserved { line })
        }
        None => Ok(named),
    }
}
