//! A text with true counts.
ghost use Rattle.std.specs.Prelude.{◌≡◌};
ghost use Rattle.cli_run_answers.specs.Input.{IsFile};
ghost use Rattle.filter_whole_text.specs.Outcomes.{IsOutcomeOf, no_selection, recount_outcome};
ghost use Rattle.filter_whole_text.specs.Sifting.{HasCountCause, Sifts};

use crate::fault::FilterFault;
use cli_run_answers::read_input;
use outside::{Sink, Source, Tree, put_all};
use patch_options::Input;
use patch_set::SetFault;
use split_recount::recount;
use std::alloc::Global;

/// Carries out a command of `recountdiff`: the text with true counts.
pub fn run_recount<T: Tree, I: Source, O: Sink>(
    alloc: Global,
    input: &Input,
    tree: &mut T,
    source: &mut I,
    out: &mut O,
) -> Result<(), FilterFault>
    ensures sifts { Sifts input.now no_selection HasCountCause ⊥ (IsOutcomeOf (recount_outcome input.now)) (T.view tree.old) (T.view tree.new) (I.view source.old) (I.view source.new) (O.view out.old) (O.view out.new) result }
    ensures unread { IsFile input.now → source.new ≡ source.old }
    ensures rest { O.same_rest out.old out.new }
{
    let text = read_input(alloc, input, None, tree, source)?;
    let counted = match recount(alloc, &text) {
        Ok(counted) => counted,
        Err(fault) => {
            drop(text);
            return Err(FilterFault::Set(SetFault::from(fault)));
        }
    };
    let written = put_all(out, &counted);
    drop(counted);
    drop(text);
    match written {
        Ok(()) => Ok(()),
        Err(_) => Err(FilterFault::Write),
    }
}
