//! A run of a filter over several FILEs.
ghost use Rattle.std.specs.Prelude.{◌≡◌, map, string_bytes};
ghost use Rattle.cli_tool_words.specs.Calls.{calls_of};
ghost use Rattle.cli_filter.specs.InTurn.{CallRuns, InTurn, devices};

use crate::carrying::run_filter;
use cli_run_answers::Why;
use cli_tool_words::calls_of;
use outside::{Finder, Sink, Source, Tree};
use std::alloc::Global;

/// Carries out the words of a filter: each call that they are in turn, one for each FILE, until one doesn't come to its end. What the
/// calls in front of it wrote stays.
pub fn run_filters<T: Tree, F: Finder, I: Source, O: Sink>(
    alloc: Global,
    words: &[String],
    tree: &mut T,
    finder: &mut F,
    source: &mut I,
    out: &mut O,
) -> Why
    ensures runs { InTurn (CallRuns T.view F.view I.view O.view) (calls_of (map string_bytes words.now)) (devices tree.old finder.old source.old out.old) (devices tree.new finder.new source.new out.new) result }
    ensures rest { O.same_rest out.old out.new }
{
    match calls_of(alloc, words) {
        Ok(calls) => {
            let why = run_calls(alloc, &calls, tree, finder, source, out);
            drop(calls);
            why
        }
        Err(_) => Why::Memory,
    }
}

/// Carries out calls in turn.
fn run_calls<T: Tree, F: Finder, I: Source, O: Sink>(
    alloc: Global,
    calls: &[Vec<String>],
    tree: &mut T,
    finder: &mut F,
    source: &mut I,
    out: &mut O,
) -> Why
    ensures runs { InTurn (CallRuns T.view F.view I.view O.view) (map (λ c. map string_bytes c.items) calls.now) (devices tree.old finder.old source.old out.old) (devices tree.new finder.new source.new out.new) result }
    ensures rest { O.same_rest out.old out.new }
{
    for call in calls {
        match run_filter(alloc, call, tree, finder, source, out) {
            Why::Done => {}
            why => return why,
        }
    }
    Why::Done
}
