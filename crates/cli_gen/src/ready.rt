//! What is made ready before the first file is put.
ghost use Rattle.std.specs.Prelude.{◌≡◌, ◌⊎◌, map, Some, IfOk, IfErr};
ghost use Rattle.patch_options.specs.PlainJob.{plain_options};
ghost use Rattle.patch_gen.specs.Tree.{made};
ghost use Rattle.patch_set.specs.Refusals.{refusal};
ghost use Rattle.patch_set.specs.declared.fault.SetFault.{SetFault as TheFault};
ghost use Rattle.cli_run_answers.specs.Answers.{of_set};
ghost use Rattle.cli_tool_words.specs.PlainJobs.{plain_gen_job, IsSize};
ghost use Rattle.cli_gen.specs.Command.{patch_text};
ghost use Rattle.cli_gen.specs.Jobs.{options_for};
ghost use Rattle.cli_gen.specs.Preparing.{AreMade, IsMadeSet};

use crate::options::options_for;
use crate::places::{MadeFileNames, places_of};
use cli_run_answers::Why;
use cli_tool_words::GenJob;
use patch_gen::generate;
use patch_options::Options;
use patch_set::{PatchSet, read_set};
use std::alloc::Global;

/// The made files with their places, and the set of the patch over them.
#[derive(Drop)]
pub struct Work {
    pub options: Options,
    pub set: PatchSet,
    pub places: Vec<MadeFileNames>,
    pub files: Vec<Vec<u8>>,
    /// How many hunks the patch has.
    pub hunks: u32,
}

/// Makes all of it, before a device is called.
pub fn make_ready(alloc: Global, job: GenJob) -> Result<Work, Why>
    requires { IsSize (plain_gen_job job) }
    ensures options { IfOk result (λ work. plain_options work.options ≡ options_for (plain_gen_job job)) }
    ensures made { IfOk result (λ work. AreMade (plain_gen_job job) work.places.items (map (λ v. v.items) work.files.items)) }
    ensures set { IfOk result (λ work. IsMadeSet (plain_gen_job job) work.set) }
    ensures hunks { IfOk result (λ work. work.hunks ≡ (made job.seed job.files job.lines).hunks) }
    ensures refused { IfErr result (λ why. (why ≡ Why.Memory) ⊎ ((fault : TheFault) × (why ≡ of_set fault) × (refusal (options_for (plain_gen_job job)) (patch_text (plain_gen_job job)) ≡ Some fault))) }
{
    let Ok(made) = generate(alloc, job.seed, job.files, job.lines) else {
        return Err(Why::Memory);
    };
    let Ok(places) = places_of(alloc, job.files) else {
        drop(made);
        return Err(Why::Memory);
    };
    let options = options_for(job);
    match read_set(alloc, made.patch, &options) {
        Ok(set) => Ok(Work {
            options,
            set,
            places,
            files: made.files,
            hunks: made.hunks,
        }),
        Err(fault) => {
            drop(options);
            drop(places);
            drop(made.files);
            Err(Why::from(fault))
        }
    }
}
