//! The files are put, the patch is applied to them, and it is told what came of it.
ghost use Rattle.std.specs.Prelude.{◌≡◌, map, false, Ok};
ghost use Rattle.outside.specs.Quiet.{IsQuiet};
ghost use Rattle.patch_gen.specs.Tree.{made};
ghost use Rattle.patch_options.specs.PlainJob.{plain_options};
ghost use Rattle.cli_tool_words.specs.PlainJobs.{plain_gen_job};
ghost use Rattle.cli_run_answers.specs.Worlds.{world};
ghost use Rattle.patch_run.specs.Answer.{why_of, receipt_of};
ghost use Rattle.patch_run.specs.Scratches.{has_scratch};
ghost use Rattle.cli_gen.specs.Jobs.{options_for};
ghost use Rattle.cli_gen.specs.Summary.{summary_of};
ghost use Rattle.cli_gen.specs.Preparing.{ArePlaces, AreMade, IsMadeSet};
ghost use Rattle.cli_gen.specs.Telling.{TellsOf};
ghost use Rattle.cli_gen.specs.Carries.{Carries};

use crate::places::MadeFileNames;
use crate::putting::put_files;
use crate::ready::Work;
use crate::tally::{count_moved, count_placed, total_size};
use crate::telling::{Summary, put_summary};
use cli_run_answers::Why;
use cli_tool_words::GenJob;
use hunk_core::Verdict;
use outside::{Scratch, Sink, Tree};
use patch_run::{Applied, apply};
use std::alloc::Global;

/// Carries out what was made ready, on a settled tree: the files are put, the patch is applied to these, and it is told what came
/// of it. The scratch comes back.
pub fn carry_out<T: Tree, C: Scratch, O: Sink>(
    alloc: Global,
    job: GenJob,
    work: &mut Work,
    tree: &mut T,
    scratch: C,
    out: &mut O,
) -> (Result<Applied, Why>, C)
    requires options { plain_options work.old.options ≡ options_for (plain_gen_job job) }
    requires made { AreMade (plain_gen_job job) work.old.places.items (map (λ v. v.items) work.old.files.items) }
    requires set { IsMadeSet (plain_gen_job job) work.old.set }
    requires hunks { work.old.hunks ≡ (made job.seed job.files job.lines).hunks }
    requires quiet { IsQuiet (T.view tree.old) }
    ensures carries { Carries (Ok (plain_gen_job job)) (world (T.view tree.old) (C.view scratch) (O.view out.old)) (world (T.view tree.new) (C.view result.1) (O.view out.new)) (why_of result.0) (receipt_of result.0) }
    ensures scratch { has_scratch job.plan ≡ false → result.1 ≡ scratch }
    ensures rest { O.same_rest out.old out.new }
{
    match put_files(job, &work.places, &work.files, tree) {
        Ok(()) => {}
        Err(_) => return (Err(Why::TreeFault), scratch),
    }
    // The bytes of the files, which were put, are let go before the patch is applied to these.
    work.files.clear();
    let (applied, scratch) = apply(alloc, &work.options, &mut work.set, scratch, tree, out);
    match applied {
        Ok(applied) => (
            tell(
                job,
                applied,
                work.set.verdicts(),
                &work.places,
                work.hunks,
                tree,
                out,
            ),
            scratch,
        ),
        Err(fault) => (Err(Why::from(fault)), scratch),
    }
}

/// Measures the files behind a run that came to its end, and writes its summary.
fn tell<T: Tree, O: Sink>(
    job: GenJob,
    applied: Applied,
    verdicts: &[Verdict],
    places: &[MadeFileNames],
    hunks: u32,
    tree: &mut T,
    out: &mut O,
) -> Result<Applied, Why>
    requires places { ArePlaces places.now job.files }
    ensures tells { TellsOf applied (λ f. summary_of job.files hunks verdicts.now f applied.is_bad) (T.view tree.old) (T.view tree.new) (O.view out.old) (O.view out.new) result }
    ensures rest { O.same_rest out.old out.new }
{
    let Ok(bytes) = total_size(places, tree) else {
        return Err(Why::TreeFault);
    };
    let summary = Summary {
        files: u64::from(job.files),
        hunks: u64::from(hunks),
        applied: count_placed(verdicts),
        moved: count_moved(verdicts),
        bytes,
        status: u64::from(applied.status()),
    };
    match put_summary(out, summary) {
        Ok(()) => Ok(applied),
        Err(_) => Err(Why::WriteFault),
    }
}
