//! Why the state of a stack isn't read.
ghost use Rattle.std.specs.Prelude.{◌≡◌};
ghost use Rattle.stack_state.specs.declared.fault.StateFault.TheVariants.{Memory};

use series_stack::StateFile;
use std::alloc::AllocError;

#[derive(Clone, Copy)]
pub enum StateFault {
    /// No file lists the patches.
    NoSeries,
    /// A file of the stack isn't of its form.
    Bad { file: StateFile },
    /// A call of the tree failed.
    Tree,
    /// The size of a file and the bytes that came differ.
    Disagree { want: u64, got: u64 },
    Memory,
}

impl From<AllocError> for StateFault {
    ghost from_gives = { λ _ e. e ≡ Memory };

    fn from(_: AllocError) -> StateFault {
        StateFault::Memory
    }
}
