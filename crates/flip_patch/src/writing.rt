//! All file patches turned round and written.

ghost use Rattle.std.specs.Prelude.{◌≡◌};
ghost use Rattle.outside.specs.Puts.{Puts};
ghost use Rattle.patch_set.specs.SetView.{plain_patches};
ghost use Rattle.flip_patch.specs.Flipped.{flipped};
ghost use Rattle.flip_patch.specs.Refusals.{Answers, refused};

use crate::fault::FlipFault;
use crate::patches::put_patch;
use crate::refusals::refusal;
use outside::{Failed, Sink};
use patch_set::PatchSet;

/// Writes the file patches from the last to the first.
fn put_all_patches<O: Sink>(set: &PatchSet, out: &mut O) -> Result<(), Failed>
    ensures { Puts O.view O.same_rest out.old out.new result (flipped set.now) }
{
    for patch in (0..set.patches().len()).rev() {
        put_patch(set, patch as u32, out)?;
    }
    Ok(())
}

/// Writes the file patches of a set in reverse order, each turned round: the names of its header lines are exchanged, and
/// each of its hunks, in the same order, has its starts exchanged and its dropped lines with its added ones. A set that
/// can't be turned round is refused before anything is written.
pub fn flip_patches<O: Sink>(set: &PatchSet, out: &mut O) -> Result<(), FlipFault>
    ensures answers { Answers O.view O.same_rest out.old out.new result (flipped set.now) (refused (plain_patches set.now)) }
    ensures rest { O.same_rest out.old out.new }
{
    if let Some(fault) = refusal(set.patches()) {
        return Err(fault);
    }
    put_all_patches(set, out)?;
    Ok(())
}
