//! A text turned round.
ghost use Rattle.std.specs.Prelude.{◌≡◌, ℕ, false, List, [], None, Some, IfOk, IfErr, OnOk};
ghost use Rattle.outside.specs.Calls.{IsUntouched};
ghost use Rattle.outside.specs.SourceView.{SourcePasses};
ghost use Rattle.cli_run_answers.specs.Input.{IsFile, IsStandard, TakesAtMost};
ghost use Rattle.patch_set.specs.Refusals.{refusal};
ghost use Rattle.patch_set.specs.SetView.{SetView, IsRead, plain_patches};
ghost use Rattle.flip_patch.specs.Flipped.{flipped};
ghost use Rattle.flip_patch.specs.Refusals.{refused};
ghost use Rattle.filter_whole_text.specs.Texts.{defaults};
ghost use Rattle.filter_whole_text.specs.Outcomes.{IsOutcomeOf, no_selection};
ghost use Rattle.filter_whole_text.specs.Sifting.{Sifts};
ghost use Rattle.filter_whole_text.specs.Flips.{HasFlipCause, IsTextRead, IsUnread, TurnAnswers, flip_outcome, text_flipped, turned_unless};

use crate::defaults::read_plain;
use crate::fault::FilterFault;
use cli_run_answers::read_input;
use flip_patch::flip_patches;
use outside::{Sink, Source, Tree};
use patch_options::Input;
use patch_set::PatchSet;
use std::alloc::Global;

/// Carries out a command of `reversediff`: the file patches of the text from the last to the first, each turned round. A text
/// without file patches is refused, unless it is empty.
pub fn run_flip<T: Tree, I: Source, O: Sink>(
    alloc: Global,
    input: &Input,
    tree: &mut T,
    source: &mut I,
    out: &mut O,
) -> Result<(), FilterFault>
    ensures sifts { Sifts input.now no_selection HasFlipCause ⊥ (IsOutcomeOf (flip_outcome input.now)) (T.view tree.old) (T.view tree.new) (I.view source.old) (I.view source.new) (O.view out.old) (O.view out.new) result }
    ensures unread { IsFile input.now → source.new ≡ source.old }
    ensures rest { O.same_rest out.old out.new }
{
    match read_whole(alloc, input, tree, source) {
        Ok(set) => {
            let answer = put_turned(&set, out);
            drop(set);
            answer
        }
        Err(fault) => Err(fault),
    }
}

/// The set of the text that is given, read as `patch` reads it without options.
fn read_whole<T: Tree, I: Source>(
    alloc: Global,
    input: &Input,
    tree: &mut T,
    source: &mut I,
) -> Result<PatchSet, FilterFault>
    ensures untouched { IsUntouched (T.view tree.old) (T.view tree.new) }
    ensures source { SourcePasses (I.view source.old) (I.view source.new) }
    ensures unread { IsFile input.now → source.new ≡ source.old }
    ensures end { OnOk result (IsStandard input.now → (left : List ℕ) → (I.view source.old).told ≡ Some left → (I.view source.new).told ≡ Some []) }
    ensures taken { TakesAtMost 268435457 (I.view source.old) (I.view source.new) }
    ensures set { IfOk result (IsTextRead input.now (T.view tree.old) (I.view source.old)) }
    ensures refused { IfErr result (λ e. IsUnread e input.now (T.view tree.old) (T.view tree.new) (I.view source.old) (I.view source.new)) }
{
    let text = read_input(alloc, input, None, tree, source)?;
    let set = read_plain(alloc, text, false)?;
    Ok(set)
}

/// Writes the file patches of a set turned round, unless they can't be.
fn put_turned<O: Sink>(set: &PatchSet, out: &mut O) -> Result<(), FilterFault>
    ensures turned { TurnAnswers O.view O.same_rest out.old out.new result (flipped set.now) (refused (plain_patches set.now)) }
    ensures rest { O.same_rest out.old out.new }
{
    match flip_patches(set, out) {
        Ok(()) => Ok(()),
        Err(fault) => Err(FilterFault::from(fault)),
    }
}

/// What comes of a text that `patch` takes without options is what comes of the set that is read from it. So what is said of
/// a set turned round holds of it.
pub fn texts_turn_as_sets()
    ensures { (text : List ℕ) (v : SetView) → refusal (defaults false) text ≡ None → IsRead (defaults false) text v → text_flipped text ≡ turned_unless (refused (plain_patches v)) (flipped v) }
{}
