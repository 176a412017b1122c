//! What a command of `lsdiff` asks for.
ghost use Rattle.std.specs.Prelude.{◌≡◌, ◌⊎◌, true, false, IfOk, IfErr};
ghost use Rattle.patch_options.specs.Simple.{rows_in};
ghost use Rattle.cli_tool_words.specs.PlainJobs.{plain_tool_job};
ghost use Rattle.cli_tool_words.specs.PlainJobs.PlainToolJob.{list_job};
ghost use Rattle.cli_tool_words.specs.Asked.{is_empty_absent, is_list, list_of};

use crate::ToolJob;
use crate::showing::read_list;
use clap::ArgMatches;
use patch_options::{WordFault, is_used};
use std::alloc::Global;

pub fn list_of(alloc: Global, matches: &ArgMatches<'_>) -> Result<ToolJob, WordFault>
    ensures job { IfOk result (λ job. plain_tool_job job ≡ list_job (list_of (rows_in matches.now))) }
    ensures lawful { IfOk result (λ job. is_list (rows_in matches.now) ≡ true) }
    ensures refused { IfErr result (λ fault. (fault ≡ WordFault.Memory) ⊎ ((fault ≡ WordFault.Usage) × (is_list (rows_in matches.now) ≡ false))) }
{
    match read_list(alloc, matches, is_empty_absent(matches)) {
        Ok(job) => Ok(ToolJob::List(job)),
        Err(fault) => Err(fault),
    }
}

/// Whether a side is absent of which no hunk has a line.
fn is_empty_absent(matches: &ArgMatches<'_>) -> bool
    ensures { result ≡ is_empty_absent (rows_in matches.now) }
{
    is_used(matches, "empty-files-as-absent") || is_used(matches, "empty-files-as-removed")
}
