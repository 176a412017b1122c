//! The words of `patchgen`.
ghost use Rattle.std.specs.Prelude.{◌≡◌, ◌⊎◌, map, Ok, Err, IfOk, IfErr, string_bytes};
ghost use Rattle.patch_options.specs.declared.options.WordFault.{WordFault};
ghost use Rattle.cli_tool_words.specs.PlainJobs.{plain_gen_job, plain_tool_job, IsSize, IsLawfulToolJob};
ghost use Rattle.cli_run_answers.specs.Answers.{of_words};
ghost use Rattle.cli_gen.specs.Jobs.{job_of, made_by};

use cli_run_answers::Why;
use cli_tool_words::{GenJob, ToolJob, read_tool_words};
use std::alloc::Global;

/// What the words ask for. The first names a tool beside `patch`; words of another one than `patchgen` are no command here.
pub fn read_job(alloc: Global, words: &[String]) -> Result<GenJob, Why>
    ensures job { IfOk result (λ job. job_of (map string_bytes words.now) ≡ Ok (plain_gen_job job)) }
    ensures size { IfOk result (λ job. IsSize (plain_gen_job job)) }
    ensures refused { IfErr result (λ why. (why ≡ Why.Memory) ⊎ ((fault : WordFault) × (why ≡ of_words fault) × (job_of (map string_bytes words.now) ≡ Err fault))) }
{
    match read_tool_words(alloc, words) {
        Ok(job) => {
            let made = made_by(&job);
            drop(job);
            made
        }
        Err(fault) => Err(Why::from(fault)),
    }
}

fn made_by(job: &ToolJob) -> Result<GenJob, Why>
    requires { IsLawfulToolJob (plain_tool_job job.now) }
    ensures job { IfOk result (λ gen. made_by (plain_tool_job job.now) ≡ Ok (plain_gen_job gen)) }
    ensures size { IfOk result (λ gen. IsSize (plain_gen_job gen)) }
    ensures refused { IfErr result (λ why. (fault : WordFault) × (why ≡ of_words fault) × (made_by (plain_tool_job job.now) ≡ Err fault)) }
{
    match job {
        ToolJob::Gen(job) => Ok(*job),
        _ => Err(Why::Usage),
    }
}
