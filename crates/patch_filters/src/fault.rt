//! Why no text of found file patches is written, or not all of it.

ghost use Rattle.std.specs.Prelude.{◌≡◌};
ghost use Rattle.patch_filters.specs.declared.fault.GrepFault.TheVariants.{Memory, Write};

use outside::Failed;
use std::alloc::AllocError;

/// Why a set wasn't searched to its end.
#[derive(Clone, Copy)]
pub enum GrepFault {
    /// The finder has refused the pattern; nothing is written.
    Pattern,
    /// The sink has failed.
    Write,
    /// Memory ran out.
    Memory,
}

impl From<AllocError> for GrepFault {
    ghost from_gives = { λ _ e. e ≡ Memory };

    fn from(_: AllocError) -> GrepFault {
        GrepFault::Memory
    }
}

impl From<Failed> for GrepFault {
    ghost from_gives = { λ _ e. e ≡ Write };

    fn from(_: Failed) -> GrepFault {
        GrepFault::Write
    }
}
