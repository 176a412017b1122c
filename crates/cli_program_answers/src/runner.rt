//! Who carries words out.
ghost use Rattle.std.specs.Prelude.{◌≡◌, ℕ, List, map, string_bytes};
ghost use Rattle.outside.specs.ScratchView.{ScratchView};
ghost use Rattle.outside.specs.SinkView.{SinkView};
ghost use Rattle.outside.specs.SourceView.{SourceView};
ghost use Rattle.outside.specs.TreeView.{TreeView};
ghost use Rattle.cli_run_answers.specs.Answers.{exit_status};
ghost use Rattle.cli_run_answers.specs.declared.why.Why.{Why as Answer};
ghost use Rattle.cli_program_answers.specs.Ends.{Devices, devices};

use cli_run_answers::Why;
use outside::{Scratch, Sink, Source, Tree};
use std::alloc::Global;

/// How words end: why, and with which status.
#[derive(Clone, Copy)]
pub struct Ending {
    pub why: Why,
    pub status: u8,
}

impl Ending {
    /// The end of words that aren't carried out.
    pub fn of(why: Why) -> Ending
        ensures why { result.why ≡ why }
        ensures status { result.status ≡ exit_status why }
    {
        Ending {
            why,
            status: why.status(),
        }
    }
}

/// All that the program does over its devices. It is handed in, since it is proved above this crate.
pub trait Runner {
    /// What is promised of a run of words, between the devices at its entry and at its exit, and of its answer.
    ghost Runs: { {T C I O : Type 0} → (T → TreeView) → (C → ScratchView) → (I → SourceView) → (O → SinkView) → List (List ℕ) → Devices T C I O → Devices T C I O → Answer → Type 0 };

    /// Carries the words out, of which the first is the tool. The scratch comes back.
    fn run<T: Tree, C: Scratch, I: Source, O: Sink, E: Sink>(
        &self,
        alloc: Global,
        words: &[String],
        tree: &mut T,
        scratch: C,
        input: &mut I,
        out: &mut O,
        err: &mut E,
    ) -> (Ending, C)
        ensures runs { Runs T.view C.view I.view O.view (map string_bytes words.now) (devices tree.old scratch input.old out.old) (devices tree.new result.1 input.new out.new) result.0.why }
        ensures status { result.0.status ≡ exit_status result.0.why };
}
