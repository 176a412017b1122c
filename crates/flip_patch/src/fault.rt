//! Why a set wasn't turned round.

use outside::Failed;
use thiserror::Error;

/// Why a set of file patches wasn't turned round. Lines are those of openings, numbered from 1.
#[derive(Clone, Copy, Debug, Error)]
pub enum FlipFault {
    /// An ed script doesn't tell the lines that it takes away.
    #[error("an ed script in line {line} can't be reversed")]
    EdReverse { line: u64 },
    /// The new starts of the hunks fall, or no hunk follows the header, or a file is renamed or copied.
    #[error("the patch at line {line} doesn't fit the form")]
    Unfit { line: u64 },
    #[error("the sink failed")]
    Write,
}

impl From<Failed> for FlipFault {
    ghost use Rattle.std.specs.Prelude.{◌≡◌};
    ghost use Rattle.flip_patch.specs.declared.fault.FlipFault.TheVariants.{Write};

    ghost from_gives = { λ _ e. e ≡ Write };

    fn from(_: Failed) -> Self {
        FlipFault::Write
    }
}
