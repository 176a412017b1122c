//! What can be wrong with the files of a stack.
ghost use Rattle.std.specs.Prelude.{◌≡◌};
ghost use Rattle.series_stack.specs.declared.fault.StackFault.TheVariants.{Memory};

use std::alloc::AllocError;

/// A file in which a stack keeps its state.
#[derive(Clone, Copy)]
pub enum StateFile {
    /// The list of its patches.
    Series,
    /// How many are applied.
    Count,
    /// What one of them found.
    Save,
}

#[derive(Clone, Copy)]
pub enum StackFault {
    /// The file isn't of its form.
    BadState { file: StateFile },
    /// A file to be saved has more than 4,294,967,295 bytes; its length in bytes.
    FileTooLong { length: u64 },
    /// A call of the tree failed.
    Tree,
    /// The size of a file and the bytes that came differ.
    Disagree { want: u64, got: u64 },
    Memory,
}

impl From<AllocError> for StackFault {
    ghost from_gives = { λ _ e. e ≡ Memory };

    fn from(_: AllocError) -> StackFault {
        StackFault::Memory
    }
}
