//! The words of a filter.
ghost use Rattle.std.specs.Prelude.{◌≡◌, ◌⊎◌, map, true, Ok, Err, IfOk, IfErr, string_bytes};
ghost use Rattle.patch_options.specs.declared.options.WordFault.{WordFault};
ghost use Rattle.cli_tool_words.specs.PlainJobs.{plain_tool_job};
ghost use Rattle.cli_run_answers.specs.Answers.{of_words};
ghost use Rattle.cli_filter.specs.Jobs.{is_filter, job_of};

use cli_run_answers::Why;
use cli_tool_words::{ToolJob, read_tool_words};
use std::alloc::Global;

/// What the words ask for. The first names a tool beside `patch`; words of one that is no filter are no command here.
pub fn read_job(alloc: Global, words: &[String]) -> Result<ToolJob, Why>
    ensures job { IfOk result (λ job. job_of (map string_bytes words.now) ≡ Ok (plain_tool_job job)) }
    ensures filter { IfOk result (λ job. is_filter (plain_tool_job job) ≡ true) }
    ensures refused { IfErr result (λ why. (why ≡ Why.Memory) ⊎ ((fault : WordFault) × (why ≡ of_words fault) × (job_of (map string_bytes words.now) ≡ Err fault))) }
{
    match read_tool_words(alloc, words) {
        Ok(job) => {
            if is_filter(&job) {
                Ok(job)
            } else {
                drop(job);
                Err(Why::Usage)
            }
        }
        Err(fault) => Err(Why::from(fault)),
    }
}

fn is_filter(job: &ToolJob) -> bool
    ensures { result ≡ is_filter (plain_tool_job job.now) }
{
    match job {
        ToolJob::Gen(_) | ToolJob::Stack(_) => false,
        _ => true,
    }
}
