//! Why a patch text makes no set.

use hunk_core::{BadKind, FormFault};
use std::alloc::{AllocError, AllocFailed};
use thiserror::Error;

/// Why a patch text makes no set. Lines are numbered from 1. No message comes from its text.
#[derive(Clone, Copy, Debug, Error)]
pub enum SetFault {
    /// The first fault, line by line.
    #[error("malformed in line {line}")]
    Malformed { line: u64, kind: BadKind },
    /// The text isn't empty and has no file patch.
    #[error("no file patch in the text")]
    Garbage,
    /// The text has more than 256 MiB.
    #[error("the text is too long")]
    TooLong,
    /// One output for so many file patches.
    #[error("one output for {count} file patches")]
    OutMany { count: u32 },
    /// An ed script can't be taken reversed; the line is its opening.
    #[error("an ed script in line {line} can't be reversed")]
    EdReverse { line: u64 },
    /// A file that would be written has a name of a temporary; the line is the opening of its file patch.
    #[error("a name of a temporary in line {line}")]
    Reserved { line: u64 },
    #[error("out of memory")]
    Memory,
}

impl From<AllocError> for SetFault {
    ghost use Rattle.std.specs.Prelude.{◌≡◌};
    ghost use Rattle.patch_set.specs.declared.fault.SetFault.TheVariants.{Memory};

    ghost from_gives = { λ _ e. e ≡ Memory };

    fn from(_: AllocError) -> Self {
        SetFault::Memory
    }
}

impl<T: Drop> From<AllocFailed<T>> for SetFault {
    ghost use Rattle.std.specs.Prelude.{◌≡◌};
    ghost use Rattle.patch_set.specs.declared.fault.SetFault.TheVariants.{Memory};

    ghost from_gives = { λ _ e. e ≡ Memory };

    fn from(_: AllocFailed<T>) -> Self {
        SetFault::Memory
    }
}

impl From<FormFault> for SetFault {
    ghost use Rattle.std.specs.Prelude.{◌≡◌};
    ghost use Rattle.patch_set.specs.Refusals.{of_form};

    ghost from_gives = { λ f e. e ≡ of_form f };

    fn from(fault: FormFault) -> Self {
        match fault {
            FormFault::Malformed { line, kind } => SetFault::Malformed { line, kind },
            FormFault::Memory => SetFault::Memory,
        }
    }
}
