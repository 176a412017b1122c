//! Why there is no patch text.
ghost use Rattle.std.specs.Prelude.{◌≡◌};
ghost use Rattle.cli_run_answers.specs.declared.fault.InputFault.TheVariants.{Memory};

use std::alloc::AllocError;

#[derive(Clone, Copy)]
pub enum InputFault {
    /// The file isn't in the tree.
    NoPatchFile,
    /// The text has more than 268,435,456 bytes.
    TooLong,
    /// A call of the source failed.
    Source,
    /// A call of the tree failed.
    Tree,
    /// The size of the file and the bytes that came differ.
    Disagree { want: u64, got: u64 },
    Memory,
}

impl From<AllocError> for InputFault {
    ghost from_gives = { λ _ e. e ≡ Memory };

    fn from(_: AllocError) -> InputFault {
        InputFault::Memory
    }
}
