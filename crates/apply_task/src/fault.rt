//! Why a run didn't come to its end.

ghost use Rattle.std.specs.Prelude.{◌≡◌};
ghost use Rattle.apply_task.specs.declared.fault.RunFault.TheVariants.{Write};
ghost use Rattle.apply_task.specs.Faults.{of_open, of_line};

use line_store::{LineFault, OpenFault};
use outside::Failed;
use thiserror::Error;

/// Why a run didn't come to its end. No message comes from its text.
#[derive(Clone, Copy, Debug, Error)]
pub enum RunFault {
    /// A call of the tree failed.
    #[error("the tree has failed")]
    Tree,
    /// The sink of what is said has failed.
    #[error("the output has failed")]
    Write,
    /// The scratch of the plan has failed.
    #[error("the scratch has failed")]
    Scratch,
    /// A line of the file doesn't fit the buffer: its number, from 1, and its length in bytes.
    #[error("line {line} has {length} bytes")]
    LongLine { line: u64, length: u64 },
    /// The file has 2^40 bytes or more.
    #[error("a file of {length} bytes")]
    FileTooLong { length: u64 },
    /// Two numbers that are kept for the same thing differ.
    #[error("{want} expected, {got} found")]
    Disagree { want: u64, got: u64 },
    #[error("out of memory")]
    Memory,
}

impl From<OpenFault> for RunFault {
    ghost from_gives = { λ fault e. e ≡ of_open fault };

    fn from(fault: OpenFault) -> Self {
        match fault {
            OpenFault::Tree => RunFault::Tree,
            OpenFault::Scratch => RunFault::Scratch,
            OpenFault::LongLine { line, length } => RunFault::LongLine { line, length },
            OpenFault::FileTooLong { length } => RunFault::FileTooLong { length },
            OpenFault::Disagree { want, got } => RunFault::Disagree { want, got },
            OpenFault::Memory => RunFault::Memory,
        }
    }
}

impl From<LineFault> for RunFault {
    ghost from_gives = { λ fault e. e ≡ of_line fault };

    fn from(fault: LineFault) -> Self {
        match fault {
            LineFault::Scratch => RunFault::Scratch,
            LineFault::Disagree { want, got } => RunFault::Disagree { want, got },
        }
    }
}

/// The fault of the sink; a call of the tree that fails is `Tree`.
impl From<Failed> for RunFault {
    ghost from_gives = { λ fault e. e ≡ Write };

    fn from(_: Failed) -> Self {
        RunFault::Write
    }
}
