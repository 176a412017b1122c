//! The whole run.
ghost use Rattle.std.specs.Prelude.{◌≡◌, ◌⊎◌, map, false, true, None, Err, string_bytes};
ghost use Rattle.outside.specs.SinkView.{Receives, ReceivesPart, Rises};
ghost use Rattle.cli_run_answers.specs.Answers.{exit_status, is_ended, of_words};
ghost use Rattle.cli_run_answers.specs.Reasons.{refusal_line};
ghost use Rattle.cli_run_answers.specs.Worlds as worlds;
ghost use Rattle.cli_stack.specs.Jobs as stack_jobs;
ghost use Rattle.cli_stack.specs.InTurn as stack_turns;
ghost use Rattle.cli_gen.specs.Jobs.{job_of, uses_scratch};
ghost use Rattle.cli_gen.specs.Carries.{Carries};
ghost use Rattle.patch_options.specs.declared.options.WordFault.{WordFault};
ghost use Rattle.patchkit.specs.Kinds.{kind_of};
ghost use Rattle.patchkit.specs.Runs.{devices, FilterRuns, GenRuns, PatchRuns, StackRuns};
ghost use Rattle.patchkit.specs.declared.kind.ToolKind.TheVariants.{Filter, Gen, Patch, Stack};

use crate::kind::{ToolKind, kind_of};
use cli_filter::run_filters;
use cli_gen::run_words;
use cli_run_answers::{Why, report};
use cli_stack::run_stack;
use outside::{Finder, Scratch, Sink, Source, Tree};
use patch_run::Exit;
use std::alloc::Global;

/// Does all that the program does. `words[0]` is the tool.
///
/// For each kind of tools one record says, of what the command does over the tree and the input at entry, which answer comes,
/// with its text and its files, what stands after a fault and at each moment, and which devices aren't touched. The status and
/// the line on `err` are the answer's for every tool, and `err` changes nothing else.
pub fn run<T: Tree, C: Scratch, F: Finder, I: Source, O: Sink, E: Sink>(
    alloc: Global,
    words: &[String],
    tree: &mut T,
    scratch: C,
    finder: &mut F,
    input: &mut I,
    out: &mut O,
    err: &mut E,
) -> (Exit, C)
    ensures patch { kind_of (map string_bytes words.now) ≡ Patch → PatchRuns T.view C.view I.view O.view (map string_bytes words.now) (devices tree.old scratch finder.old input.old out.old) (devices tree.new result.1 finder.new input.new out.new) result.0 }
    ensures filter { kind_of (map string_bytes words.now) ≡ Filter → FilterRuns T.view F.view I.view O.view (map string_bytes words.now) (devices tree.old scratch finder.old input.old out.old) (devices tree.new result.1 finder.new input.new out.new) result.0 }
    ensures making { kind_of (map string_bytes words.now) ≡ Gen → GenRuns T.view C.view O.view (map string_bytes words.now) (devices tree.old scratch finder.old input.old out.old) (devices tree.new result.1 finder.new input.new out.new) result.0 }
    ensures stack { kind_of (map string_bytes words.now) ≡ Stack → StackRuns T.view C.view O.view (map string_bytes words.now) (devices tree.old scratch finder.old input.old out.old) (devices tree.new result.1 finder.new input.new out.new) result.0 }
    ensures status { result.0.status ≡ exit_status result.0.why }
    ensures out_rest { O.same_rest out.old out.new }

    // The line of the answer goes to `err`, whole where its count didn't rise; `Done` and `Rejected` have none.
    ensures err_part { ReceivesPart (E.view err.old) (E.view err.new) (refusal_line (map string_bytes words.now) result.0.why) }
    ensures err_whole { Receives (E.view err.old) (E.view err.new) (refusal_line (map string_bytes words.now) result.0.why) ⊎ Rises (E.view err.old) (E.view err.new) }
    ensures err_still { is_ended result.0.why ≡ true → err.new ≡ err.old }
    ensures err_rest { E.same_rest err.old err.new }
{
    match kind_of(words) {
        ToolKind::Patch => patch_cli::run(alloc, words, tree, scratch, input, out, err),
        ToolKind::Filter => run_sifting(alloc, words, tree, scratch, finder, input, out, err),
        ToolKind::Gen => run_making(alloc, words, tree, scratch, out, err),
        ToolKind::Stack => run_stacking(alloc, words, tree, scratch, out, err),
    }
}

/// Carries out the words of a filter, and writes the line of its answer.
fn run_sifting<T: Tree, C: Scratch, F: Finder, I: Source, O: Sink, E: Sink>(
    alloc: Global,
    words: &[String],
    tree: &mut T,
    scratch: C,
    finder: &mut F,
    input: &mut I,
    out: &mut O,
    err: &mut E,
) -> (Exit, C)
    ensures runs { FilterRuns T.view F.view I.view O.view (map string_bytes words.now) (devices tree.old scratch finder.old input.old out.old) (devices tree.new result.1 finder.new input.new out.new) result.0 }
    ensures status { result.0.status ≡ exit_status result.0.why }
    ensures out_rest { O.same_rest out.old out.new }
    ensures err_part { ReceivesPart (E.view err.old) (E.view err.new) (refusal_line (map string_bytes words.now) result.0.why) }
    ensures err_whole { Receives (E.view err.old) (E.view err.new) (refusal_line (map string_bytes words.now) result.0.why) ⊎ Rises (E.view err.old) (E.view err.new) }
    ensures err_still { is_ended result.0.why ≡ true → err.new ≡ err.old }
    ensures err_rest { E.same_rest err.old err.new }
{
    let exit = exit_of(run_filters(alloc, words, tree, finder, input, out));
    let _reported = report(err, words, exit.why);
    (exit, scratch)
}

/// Carries out the words of `patchgen`, and writes the line of its answer.
fn run_making<T: Tree, C: Scratch, O: Sink, E: Sink>(
    alloc: Global,
    words: &[String],
    tree: &mut T,
    scratch: C,
    out: &mut O,
    err: &mut E,
) -> (Exit, C)
    ensures carries { Carries (job_of (map string_bytes words.now)) (worlds.world (T.view tree.old) (C.view scratch) (O.view out.old)) (worlds.world (T.view tree.new) (C.view result.1) (O.view out.new)) result.0.why result.0.applied }
    ensures words { (fault : WordFault) → job_of (map string_bytes words.now) ≡ Err fault → (result.0.why ≡ of_words fault) ⊎ (result.0.why ≡ Why.Memory) }
    ensures still { (fault : WordFault) → job_of (map string_bytes words.now) ≡ Err fault → tree.new ≡ tree.old }
    ensures silent { (fault : WordFault) → job_of (map string_bytes words.now) ≡ Err fault → out.new ≡ out.old }
    ensures scratch { uses_scratch (job_of (map string_bytes words.now)) ≡ false → result.1 ≡ scratch }
    ensures status { result.0.status ≡ exit_status result.0.why }
    ensures out_rest { O.same_rest out.old out.new }
    ensures err_part { ReceivesPart (E.view err.old) (E.view err.new) (refusal_line (map string_bytes words.now) result.0.why) }
    ensures err_whole { Receives (E.view err.old) (E.view err.new) (refusal_line (map string_bytes words.now) result.0.why) ⊎ Rises (E.view err.old) (E.view err.new) }
    ensures err_still { is_ended result.0.why ≡ true → err.new ≡ err.old }
    ensures err_rest { E.same_rest err.old err.new }
{
    let (exit, scratch) = run_words(alloc, words, tree, scratch, out);
    let _reported = report(err, words, exit.why);
    (exit, scratch)
}

/// Carries out the words of `patchstack`, and writes the line of its answer.
fn run_stacking<T: Tree, C: Scratch, O: Sink, E: Sink>(
    alloc: Global,
    words: &[String],
    tree: &mut T,
    scratch: C,
    out: &mut O,
    err: &mut E,
) -> (Exit, C)
    ensures runs { stack_turns.Runs (stack_jobs.all_of (map string_bytes words.now)) (stack_turns.OneRuns T.view C.view O.view (stack_jobs.job_of (map string_bytes words.now))) (stack_turns.devices tree.old scratch out.old) (stack_turns.devices tree.new result.1 out.new) result.0.why }
    ensures no_receipt { result.0.applied ≡ None }
    ensures status { result.0.status ≡ exit_status result.0.why }
    ensures out_rest { O.same_rest out.old out.new }
    ensures err_part { ReceivesPart (E.view err.old) (E.view err.new) (refusal_line (map string_bytes words.now) result.0.why) }
    ensures err_whole { Receives (E.view err.old) (E.view err.new) (refusal_line (map string_bytes words.now) result.0.why) ⊎ Rises (E.view err.old) (E.view err.new) }
    ensures err_still { is_ended result.0.why ≡ true → err.new ≡ err.old }
    ensures err_rest { E.same_rest err.old err.new }
{
    let (why, scratch) = run_stack(alloc, words, tree, scratch, out);
    let exit = exit_of(why);
    let _reported = report(err, words, exit.why);
    (exit, scratch)
}

/// How a run ends that has no receipt.
fn exit_of(why: Why) -> Exit
    ensures why { result.why ≡ why }
    ensures status { result.status ≡ exit_status result.why }
    ensures applied { result.applied ≡ None }
{
    Exit {
        status: why.status(),
        why,
        applied: None,
    }
}
