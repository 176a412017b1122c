//! Why a filter ends early.
ghost use Rattle.std.specs.Prelude.{◌≡◌};
ghost use Rattle.filter_whole_text.specs.Faults.{of_flip};
ghost use Rattle.filter_whole_text.specs.declared.fault.FilterFault.TheVariants as faults;

use cli_run_answers::InputFault;
use flip_patch::FlipFault;
use patch_set::SetFault;
use std::alloc::AllocError;

/// Why a filter ends early.
#[derive(Clone, Copy)]
pub enum FilterFault {
    /// There is no text, or no list of patterns.
    Input(InputFault),
    /// The text isn't read, or has an ed script where it is to be turned round.
    Set(SetFault),
    /// A file patch can't be written as it is asked for; the line is its opening, numbered from 1.
    Unfit { line: u64 },
    /// The finder doesn't take the pattern.
    Pattern,
    /// A call of the tree failed while parts were put.
    Tree,
    /// A call of the sink failed.
    Write,
    Memory,
}

impl From<InputFault> for FilterFault {
    ghost from_gives = { λ e fault. fault ≡ faults.Input e };

    fn from(fault: InputFault) -> FilterFault {
        FilterFault::Input(fault)
    }
}

impl From<SetFault> for FilterFault {
    ghost from_gives = { λ e fault. fault ≡ faults.Set e };

    fn from(fault: SetFault) -> FilterFault {
        FilterFault::Set(fault)
    }
}

impl From<FlipFault> for FilterFault {
    ghost from_gives = { λ e fault. fault ≡ of_flip e };

    fn from(fault: FlipFault) -> FilterFault {
        match fault {
            FlipFault::EdReverse { line } => FilterFault::Set(SetFault::EdReverse { line }),
            FlipFault::Unfit { line } => FilterFault::Unfit { line },
            FlipFault::Write => FilterFault::Write,
        }
    }
}

impl From<AllocError> for FilterFault {
    ghost from_gives = { λ _ fault. fault ≡ faults.Memory };

    fn from(_: AllocError) -> FilterFault {
        FilterFault::Memory
    }
}
