//! The words of a tool beside `patch`.
ghost use Rattle.std.specs.Prelude.{◌≡◌, ◌⊎◌, map, Ok, Err, IfOk, IfErr, string_bytes};
ghost use Rattle.cli_tool_words.specs.PlainJobs.{plain_tool_job, IsLawfulToolJob};
ghost use Rattle.cli_tool_words.specs.Words.{job_by, tool_job, whole_job};

use crate::readers::job_of;
use crate::{Tool, ToolJob, tool_named};
use patch_options::{WordFault, matched_by, whole_words};
use std::alloc::Global;

/// What the words ask for. The first names a tool beside `patch`.
pub fn read_tool_words(alloc: Global, words: &[String]) -> Result<ToolJob, WordFault>
    ensures job { IfOk result (λ job. tool_job (map string_bytes words.now) ≡ Ok (plain_tool_job job)) }
    ensures lawful { IfOk result (λ job. IsLawfulToolJob (plain_tool_job job)) }
    ensures refused { IfErr result (λ fault. (fault ≡ WordFault.Memory) ⊎ (tool_job (map string_bytes words.now) ≡ Err fault)) }
{
    match words {
        [first, ..] => match tool_named(first.as_str()) {
            Some(tool) => read_by(alloc, tool, words),
            None => Err(WordFault::Usage),
        },
        [] => Err(WordFault::Usage),
    }
}

/// What the words ask of a tool.
fn read_by(alloc: Global, tool: Tool, words: &[String]) -> Result<ToolJob, WordFault>
    ensures job { IfOk result (λ job. job_by tool (map string_bytes words.now) ≡ Ok (plain_tool_job job)) }
    ensures lawful { IfOk result (λ job. IsLawfulToolJob (plain_tool_job job)) }
    ensures refused { IfErr result (λ fault. (fault ≡ WordFault.Memory) ⊎ (job_by tool (map string_bytes words.now) ≡ Err fault)) }
{
    match whole_words(alloc, tool.table(), words) {
        Ok(whole) => read_whole(alloc, tool, &whole),
        Err(_) => Err(WordFault::Memory),
    }
}

/// What words ask of a tool whose long names are whole.
fn read_whole(alloc: Global, tool: Tool, words: &[String]) -> Result<ToolJob, WordFault>
    ensures job { IfOk result (λ job. whole_job tool (map string_bytes words.now) ≡ Ok (plain_tool_job job)) }
    ensures lawful { IfOk result (λ job. IsLawfulToolJob (plain_tool_job job)) }
    ensures refused { IfErr result (λ fault. (fault ≡ WordFault.Memory) ⊎ (whole_job tool (map string_bytes words.now) ≡ Err fault)) }
{
    let matches = matched_by(alloc, tool.name(), tool.table(), words)?;
    job_of(alloc, tool, &matches)
}
