//! The whole run.
ghost use Rattle.std.specs.Prelude.{◌≡◌, ◌⊎◌, ℕ, List, map, false, true, Ok, Err, string_bytes};
ghost use Rattle.outside.specs.Files.{Files};
ghost use Rattle.outside.specs.SinkView.{Receives, ReceivesPart, Rises};
ghost use Rattle.patch_options.specs.Words.{job_of};
ghost use Rattle.patch_options.specs.declared.options.WordFault.{WordFault};
ghost use Rattle.cli_run_answers.specs.Answers.{exit_status, is_ended, of_words};
ghost use Rattle.cli_run_answers.specs.Moments.{LeavesOldOrNew};
ghost use Rattle.patch_cli.specs.Answers.{sort_of, IsEarly};
ghost use Rattle.patch_cli.specs.Command.{command};
ghost use Rattle.cli_run_answers.specs.Reasons.{refusal_line};
ghost use Rattle.patch_cli.specs.Worlds.{world, TellsFiles, TellsLeft, reads_source, uses_scratch};
ghost use Rattle.patch_run.specs.Answer.{why_of, receipt_of};
ghost use Rattle.patch_cli.specs.Carries.{Carries, NoneFailed, IsComplete};

use crate::damaged::has_damaged;
use crate::opening::open;
use crate::returns::say_stripping;
use cli_run_answers::{Why, report};
use outside::{Scratch, Sink, Source, Tree};
use patch_run::{Applied, Exit, apply, exit_of};
use std::alloc::Global;

/// Does all that the program does. `words[0]` is the tool.
///
/// `carries` says, of what the command does over the tree and the input at entry: which answer comes, with its text, its files
/// and its receipt; first parts of the text and of the effects after a fault, cut off at one file patch of which nothing is done
/// before all of it is said; that a refusal left tree and standard output as they were; what each crash since the call began
/// can leave; and what the scratch holds at the end.
pub fn run<T: Tree, C: Scratch, I: Source, O: Sink, E: Sink>(
    alloc: Global,
    words: &[String],
    tree: &mut T,
    scratch: C,
    input: &mut I,
    out: &mut O,
    err: &mut E,
) -> (Exit, C)
    ensures carries { Carries (map string_bytes words.now) (world (T.view tree.old) (C.view scratch) (I.view input.old) (O.view out.old)) (world (T.view tree.new) (C.view result.1) (I.view input.new) (O.view out.new)) result.0.why result.0.applied }

    // Where all is told and no device failed, only want of memory stands between the command and its answer.
    ensures complete { (f : Files) (left : List ℕ)
        → TellsFiles (job_of (map string_bytes words.now)) (world (T.view tree.old) (C.view scratch) (I.view input.old) (O.view out.old)) f
        → TellsLeft (job_of (map string_bytes words.now)) (world (T.view tree.old) (C.view scratch) (I.view input.old) (O.view out.old)) left
        → NoneFailed (world (T.view tree.old) (C.view scratch) (I.view input.old) (O.view out.old)) (world (T.view tree.new) (C.view result.1) (I.view input.new) (O.view out.new))
        → IsComplete result.0.why result.0.applied f (world (T.view tree.old) (C.view scratch) (I.view input.old) (O.view out.old)) (world (T.view tree.new) (C.view result.1) (I.view input.new) (O.view out.new)) (command (map string_bytes words.now) f left) }
    // Wherever the run is stopped, each file holds its old bytes or its completed new ones.
    ensures names { (f : Files) (left : List ℕ)
        → TellsFiles (job_of (map string_bytes words.now)) (world (T.view tree.old) (C.view scratch) (I.view input.old) (O.view out.old)) f
        → TellsLeft (job_of (map string_bytes words.now)) (world (T.view tree.old) (C.view scratch) (I.view input.old) (O.view out.old)) left
        → LeavesOldOrNew (T.view tree.old) (T.view tree.new) f (command (map string_bytes words.now) f left).effects }
    ensures status { result.0.status ≡ exit_status result.0.why }

    // Words that give no job are answered before any device is called, and refusals before the output or the scratch is.
    ensures words { (fault : WordFault) → job_of (map string_bytes words.now) ≡ Err fault → (result.0.why ≡ of_words fault) ⊎ (result.0.why ≡ Why.Memory) }
    ensures still { (fault : WordFault) → job_of (map string_bytes words.now) ≡ Err fault → tree.new ≡ tree.old }
    ensures early_out { IsEarly (sort_of result.0.why) → out.new ≡ out.old }
    ensures early_scratch { IsEarly (sort_of result.0.why) → result.1 ≡ scratch }
    ensures scratch { uses_scratch (job_of (map string_bytes words.now)) ≡ false → result.1 ≡ scratch }
    ensures input { reads_source (job_of (map string_bytes words.now)) ≡ false → input.new ≡ input.old }
    ensures out_rest { O.same_rest out.old out.new }

    // The line of the answer goes to `err`, whole where its count didn't rise; `Done` and `Rejected` have none.
    ensures err_part { ReceivesPart (E.view err.old) (E.view err.new) (refusal_line (map string_bytes words.now) result.0.why) }
    ensures err_whole { Receives (E.view err.old) (E.view err.new) (refusal_line (map string_bytes words.now) result.0.why) ⊎ Rises (E.view err.old) (E.view err.new) }
    ensures err_still { is_ended result.0.why ≡ true → err.new ≡ err.old }
    ensures err_rest { E.same_rest err.old err.new }
{
    let (ended, scratch) = carry_out(alloc, words, tree, scratch, input, out);
    let exit = exit_of(ended);
    let _reported = report(err, words, exit.why);
    (exit, scratch)
}

/// Reads the words and the patch text, and carries out its file patches.
fn carry_out<T: Tree, C: Scratch, I: Source, O: Sink>(
    alloc: Global,
    words: &[String],
    tree: &mut T,
    scratch: C,
    input: &mut I,
    out: &mut O,
) -> (Result<Applied, Why>, C)
    ensures carries { Carries (map string_bytes words.now) (world (T.view tree.old) (C.view scratch) (I.view input.old) (O.view out.old)) (world (T.view tree.new) (C.view result.1) (I.view input.new) (O.view out.new)) (why_of result.0) (receipt_of result.0) }
    ensures words { (fault : WordFault) → job_of (map string_bytes words.now) ≡ Err fault → (why_of result.0 ≡ of_words fault) ⊎ (why_of result.0 ≡ Why.Memory) }
    ensures still { (fault : WordFault) → job_of (map string_bytes words.now) ≡ Err fault → tree.new ≡ tree.old }
    ensures early_out { IsEarly (sort_of (why_of result.0)) → out.new ≡ out.old }
    ensures early_scratch { IsEarly (sort_of (why_of result.0)) → result.1 ≡ scratch }
    ensures scratch { uses_scratch (job_of (map string_bytes words.now)) ≡ false → result.1 ≡ scratch }
    ensures input { reads_source (job_of (map string_bytes words.now)) ≡ false → input.new ≡ input.old }
    ensures rest { O.same_rest out.old out.new }
{
    let mut work = match open(alloc, words, tree, input) {
        Ok(work) => work,
        Err(why) => return (Err(why), scratch),
    };
    let is_damaged = has_damaged(&work.set);
    match say_stripping(&work.options, work.strips, out) {
        Ok(()) => {}
        Err(_failed) => {
            drop(work);
            return (Err(Why::WriteFault), scratch);
        }
    }
    let (applied, scratch) = apply(alloc, &work.options, &mut work.set, scratch, tree, out);
    // (let go here, and not at the exits, where it would be proved field by field beside the devices)
    drop(work);
    match applied {
        Ok(applied) => (Ok(applied.bad_if(is_damaged)), scratch),
        Err(fault) => (Err(Why::from(fault)), scratch),
    }
}
