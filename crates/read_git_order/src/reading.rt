//! Reading a set of a text in the order of its batches.

ghost use Rattle.std.specs.Prelude.{◌≡◌, is_some, IfOk, IfSome};
ghost use Rattle.patch_options.specs.PlainJob.{plain_options, IsLawful};
ghost use Rattle.patch_set.specs.Refusals.{refusal};
ghost use Rattle.patch_set.specs.Room.{are_asked};
ghost use Rattle.patch_set.specs.SetView.{IsFresh, IsRead, IsWhole, Meets};
ghost use Rattle.read_git_order.specs.Batches.{has_late};
ghost use Rattle.read_git_order.specs.Moving.{has_moved, new_text, pieces_of_set};
ghost use Rattle.read_git_order.specs.Ordered.{ordered};

use crate::batches::{has_late, in_order};
use crate::laying::laid;
use crate::pieces::pieces_of;
use patch_options::Options;
use patch_set::{PatchSet, SetFault, read_set};
use read_file_patch::FilePatch;
use std::alloc::{AllocError, Global};

/// Reads a patch text as `read_set` does, with its file patches in the order in which they are to be carried out.
pub fn read_in_order(alloc: Global, text: Vec<u8>, options: &Options) -> Result<PatchSet, SetFault>
    requires { IsLawful (plain_options options.now) }
    ensures read { IfOk result (IsRead (plain_options options.now) (ordered (plain_options options.now) text.items)) }
    ensures fresh { IfOk result IsFresh }
    ensures whole { IfOk result IsWhole }
    ensures marks { IfOk result (λ set. set.has_marks ≡ are_asked (plain_options options.now)) }
    ensures refused { Meets (refusal (plain_options options.now) (ordered (plain_options options.now) text.items)) result }
{
    let set = match read_set(alloc, text, options) {
        Ok(set) => set,
        Err(fault) => return Err(fault),
    };
    match moved(alloc, &set, options.reverse) {
        Ok(None) => Ok(set),
        Ok(Some(new)) => {
            drop(set);
            read_set(alloc, new, options)
        }
        Err(error) => {
            drop(set);
            Err(SetFault::from(error))
        }
    }
}

/// The text of a set in the order of its batches, where that isn't its own.
fn moved(alloc: Global, set: &PatchSet, reverse: bool) -> Result<Option<Vec<u8>>, AllocError>
    ensures late { IfOk result (λ new. is_some new ≡ has_late (pieces_of_set reverse set.now)) }
    ensures text { IfOk result (λ new. IfSome new (λ text. text.items ≡ new_text reverse set.now)) }
{
    let patches = set.patches();
    if !has_moved(patches) {
        return Ok(None);
    }
    let pieces = pieces_of(alloc, set.text(), reverse, patches)?;
    if !has_late(&pieces) {
        return Ok(None);
    }
    let order = in_order(alloc, set.text(), reverse, &pieces)?;
    Ok(Some(laid(alloc, set.text(), &pieces, &order)?))
}

/// Whether a file is renamed or copied.
fn has_moved(patches: &[FilePatch]) -> bool
    ensures { result ≡ has_moved patches.now }
{
    patches.iter().any(|patch| patch.is_moved())
}
