//! The file patches that can't be turned round.

ghost use Rattle.std.specs.Prelude.{◌≡◌, ℕ, List, find, map, option_map};
ghost use Rattle.read_file_patch.specs.PlainPatch.{patch_of};
ghost use Rattle.flip_patch.specs.Refusals.{refused, starts_fall, told_starts, told_unfit};
ghost use Rattle.patch_set.specs.Looks.{is_script_change};

use crate::fault::FlipFault;
use hunk_core::Hunk;
use read_file_patch::{Change, FilePatch};

fn is_script(patch: &FilePatch) -> bool
    ensures { result ≡ is_script_change patch.now.change }
{
    match &patch.change {
        Change::Hunks(_) => false,
        Change::Script(_) => true,
    }
}

/// Whether a hunk starts on the new side in front of the one before it.
fn starts_fall(hunks: &[Hunk]) -> bool
    ensures { result ≡ starts_fall (map (λ h. h.new_start) hunks.now) }
{
    let mut last = 0;
    for i in 0..hunks.len() {
        let start = hunks[i].new_start;
        if start < last {
            return true;
        }
        last = start;
    }
    false
}

fn new_starts_fall(change: &Change) -> bool
    ensures { result ≡ starts_fall (told_starts change.now) }
{
    match change {
        Change::Hunks(hunks) => starts_fall(hunks),
        Change::Script(_) => false,
    }
}

fn is_unfit(patch: &FilePatch) -> bool
    ensures { result ≡ told_unfit patch.now }
{
    if patch.header.bare || patch.is_moved() {
        return true;
    }
    new_starts_fall(&patch.change)
}

/// The opening of the first ed script.
fn first_script(patches: &[FilePatch]) -> Option<u64>
    ensures { result ≡ option_map (λ p. p.header.opening) (find (λ p. is_script_change p.change) patches.now) }
{
    for i in 0..patches.len() {
        let patch = &patches[i];
        if is_script(patch) {
            return Some(patch.header.opening);
        }
    }
    None
}

/// The opening of the first file patch that doesn't fit.
fn first_unfit(patches: &[FilePatch]) -> Option<u64>
    ensures { result ≡ option_map (λ p. p.header.opening) (find told_unfit patches.now) }
{
    for i in 0..patches.len() {
        let patch = &patches[i];
        if is_unfit(patch) {
            return Some(patch.header.opening);
        }
    }
    None
}

/// Why file patches aren't turned round.
pub fn refusal(patches: &[FilePatch]) -> Option<FlipFault>
    ensures { (text : List ℕ) → result ≡ refused (map (patch_of text) patches.now) }
{
    if let Some(line) = first_script(patches) {
        return Some(FlipFault::EdReverse { line });
    }
    match first_unfit(patches) {
        Some(line) => Some(FlipFault::Unfit { line }),
        None => None,
    }
}
