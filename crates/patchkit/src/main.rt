//! The program: all that its tools do, over real devices. Stands on `cli_program_answers` and the crate of each command (`patch_cli`,
//! `cli_filter`, `cli_gen`, `cli_stack`). Begin with `src/run_tool.rt` (`run`): its contract is what is proved of the program.
#![tactic(auto)]

mod kind;
mod run_tool;

use cli_program_answers::{Ending, Runner, answer, words_of};
use outside::{Scratch, Sink, Source, Tree};
use patch_filters::RegexFinder;
use run_tool::run;
use std::alloc::Global;
use std::process::ExitCode;

fn main(rt: HostRuntime) -> ExitCode {
    let words = words_of(&rt);
    ExitCode::from(answer(&rt, &Tools, &words))
}

/// What carries the words of every tool out.
struct Tools;

impl Runner for Tools {
    ghost use Rattle.patchkit.specs.Runs.{ToolsRun};

    ghost Runs = { ToolsRun };

    fn run<T: Tree, C: Scratch, I: Source, O: Sink, E: Sink>(
        &self,
        alloc: Global,
        words: &[String],
        tree: &mut T,
        scratch: C,
        input: &mut I,
        out: &mut O,
        err: &mut E,
    ) -> (Ending, C) {
        let mut finder = RegexFinder::new();
        let (exit, scratch) = run(alloc, words, tree, scratch, &mut finder, input, out, err);
        let ending = Ending {
            why: exit.why,
            status: exit.status,
        };
        (ending, scratch)
    }
}
