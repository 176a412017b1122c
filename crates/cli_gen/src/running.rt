//! A run of `patchgen`, from its words or its job to its answer.
ghost use Rattle.std.specs.Prelude.{◌≡◌, ◌⊎◌, map, false, Ok, Err, string_bytes};
ghost use Rattle.patch_options.specs.declared.options.WordFault.{WordFault};
ghost use Rattle.cli_tool_words.specs.PlainJobs.{plain_gen_job, IsSize};
ghost use Rattle.cli_run_answers.specs.Answers.{exit_status, of_words};
ghost use Rattle.cli_run_answers.specs.Worlds.{world};
ghost use Rattle.patch_run.specs.Answer.{why_of, receipt_of};
ghost use Rattle.patch_run.specs.Scratches.{has_scratch};
ghost use Rattle.cli_gen.specs.Jobs.{job_of, uses_scratch};
ghost use Rattle.cli_gen.specs.Carries.{Carries};

use crate::carrying::carry_out;
use crate::reading::read_job;
use crate::ready::make_ready;
use cli_run_answers::{Why, settle};
use cli_tool_words::GenJob;
use outside::{Scratch, Sink, Tree};
use patch_run::{Applied, Exit, exit_of};
use std::alloc::Global;

/// Carries out the words of `patchgen`. `words[0]` is a tool beside `patch`.
pub fn run_words<T: Tree, C: Scratch, O: Sink>(
    alloc: Global,
    words: &[String],
    tree: &mut T,
    scratch: C,
    out: &mut O,
) -> (Exit, C)
    ensures carries { Carries (job_of (map string_bytes words.now)) (world (T.view tree.old) (C.view scratch) (O.view out.old)) (world (T.view tree.new) (C.view result.1) (O.view out.new)) result.0.why result.0.applied }
    ensures status { result.0.status ≡ exit_status result.0.why }
    // Words that give no job are answered before any device is called.
    ensures words { (fault : WordFault) → job_of (map string_bytes words.now) ≡ Err fault → (result.0.why ≡ of_words fault) ⊎ (result.0.why ≡ Why.Memory) }
    ensures still { (fault : WordFault) → job_of (map string_bytes words.now) ≡ Err fault → tree.new ≡ tree.old }
    ensures silent { (fault : WordFault) → job_of (map string_bytes words.now) ≡ Err fault → out.new ≡ out.old }
    ensures scratch { uses_scratch (job_of (map string_bytes words.now)) ≡ false → result.1 ≡ scratch }
    ensures rest { O.same_rest out.old out.new }
{
    match read_job(alloc, words) {
        Ok(job) => run_gen(alloc, job, tree, scratch, out),
        Err(why) => (exit_of(Err(why)), scratch),
    }
}

/// Puts the files that the job makes, in their order, applies the patch over them as `patch -s -p0` does, and writes one line
/// that tells what came of it. What has a file's name is replaced.
///
/// `carries` says, of what the job does over the tree at entry: which answer comes, with its text, its files and its receipt;
/// first parts of the text and of the effects after a fault; that a refusal comes before the first file; what each crash since
/// the call began can leave; and what the scratch holds at the end.
pub fn run_gen<T: Tree, C: Scratch, O: Sink>(
    alloc: Global,
    job: GenJob,
    tree: &mut T,
    scratch: C,
    out: &mut O,
) -> (Exit, C)
    requires { IsSize (plain_gen_job job) }
    ensures carries { Carries (Ok (plain_gen_job job)) (world (T.view tree.old) (C.view scratch) (O.view out.old)) (world (T.view tree.new) (C.view result.1) (O.view out.new)) result.0.why result.0.applied }
    ensures status { result.0.status ≡ exit_status result.0.why }
    ensures scratch { has_scratch job.plan ≡ false → result.1 ≡ scratch }
    ensures rest { O.same_rest out.old out.new }
{
    let (ended, scratch) = run_job(alloc, job, tree, scratch, out);
    (exit_of(ended), scratch)
}

/// Settles the tree, and carries the job out.
fn run_job<T: Tree, C: Scratch, O: Sink>(
    alloc: Global,
    job: GenJob,
    tree: &mut T,
    scratch: C,
    out: &mut O,
) -> (Result<Applied, Why>, C)
    requires { IsSize (plain_gen_job job) }
    ensures carries { Carries (Ok (plain_gen_job job)) (world (T.view tree.old) (C.view scratch) (O.view out.old)) (world (T.view tree.new) (C.view result.1) (O.view out.new)) (why_of result.0) (receipt_of result.0) }
    ensures scratch { has_scratch job.plan ≡ false → result.1 ≡ scratch }
    ensures rest { O.same_rest out.old out.new }
{
    match settle(tree) {
        Ok(()) => {}
        Err(why) => return (Err(why), scratch),
    }
    match make_ready(alloc, job) {
        Ok(mut work) => {
            let ended = carry_out(alloc, job, &mut work, tree, scratch, out);
            // (let go here, and not at the exit, where it would be proved field by field beside the devices)
            drop(work);
            ended
        }
        Err(why) => (Err(why), scratch),
    }
}
