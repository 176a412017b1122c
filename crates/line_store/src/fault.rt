//! Why a line was not fetched, or a file not taken.

ghost use Rattle.std.specs.Prelude.{◌≡◌};
ghost use Rattle.line_store.specs.declared.fault.OpenFault.TheVariants.{Tree, Memory};

use outside::Failed;
use std::alloc::{AllocError, AllocFailed};

#[derive(Clone, Copy, Debug)]
pub enum LineFault {
    /// The store's scratch failed.
    Scratch,
    /// Two numbers that are kept for the same thing differ.
    Disagree { want: u64, got: u64 },
}

#[derive(Clone, Copy, Debug)]
pub enum OpenFault {
    /// A call of the tree failed.
    Tree,
    /// The store's scratch failed.
    Scratch,
    /// The first line that the buffer cannot hold: its number, from 1, and its length in bytes.
    LongLine { line: u64, length: u64 },
    /// The file has 2^40 bytes or more.
    FileTooLong { length: u64 },
    /// Two numbers that are kept for the same thing differ, as the size of the file and the bytes that came.
    Disagree { want: u64, got: u64 },
    Memory,
}

impl From<Failed> for OpenFault {
    ghost from_gives = { λ _ e. e ≡ Tree };

    fn from(_: Failed) -> OpenFault {
        OpenFault::Tree
    }
}

impl From<AllocError> for OpenFault {
    ghost from_gives = { λ _ e. e ≡ Memory };

    fn from(_: AllocError) -> OpenFault {
        OpenFault::Memory
    }
}

impl<T: Drop> From<AllocFailed<T>> for OpenFault {
    ghost from_gives = { λ _ e. e ≡ Memory };

    fn from(_: AllocFailed<T>) -> OpenFault {
        OpenFault::Memory
    }
}
