//! What the words of each tool ask for, by what was matched in them.
ghost use Rattle.std.specs.Prelude.{◌≡◌, ◌⊎◌, true, false, IfOk, IfErr};
ghost use Rattle.patch_options.specs.Simple.{rows_in};
ghost use Rattle.cli_tool_words.specs.PlainJobs.{plain_tool_job};
ghost use Rattle.cli_tool_words.specs.PlainJobs.PlainToolJob.{recount_job, gen_job, flip_job, stack_job};
ghost use Rattle.cli_tool_words.specs.Selecting.{is_input, input_in};
ghost use Rattle.cli_tool_words.specs.Asked.{is_size, is_gen, gen_of, stack_op_of, stack_op_in, is_stack, stack_of, is_lawful, asked};

use crate::filtering::filter_of;
use crate::listing::list_of;
use crate::searching::grep_of;
use crate::selecting::read_operand;
use crate::splitting::split_of;
use crate::{GenJob, StackJob, StackOp, Tool, ToolJob};
use clap::ArgMatches;
use patch_options::{
    WordFault, buffer_in, is_buffer, is_plan, is_sync, is_used, number_in, plan_in, sync_in,
    value_of,
};
use std::alloc::Global;

/// What a tool is asked for.
pub fn job_of(alloc: Global, tool: Tool, matches: &ArgMatches<'_>) -> Result<ToolJob, WordFault>
    ensures job { IfOk result (λ job. plain_tool_job job ≡ asked tool (rows_in matches.now)) }
    ensures lawful { IfOk result (λ job. is_lawful tool (rows_in matches.now) ≡ true) }
    ensures refused { IfErr result (λ fault. (fault ≡ WordFault.Memory) ⊎ ((fault ≡ WordFault.Usage) × (is_lawful tool (rows_in matches.now) ≡ false))) }
{
    match tool {
        Tool::Lsdiff => list_of(alloc, matches),
        Tool::Filterdiff => filter_of(alloc, matches),
        Tool::Grepdiff => grep_of(alloc, matches),
        Tool::Splitdiff => split_of(alloc, matches),
        Tool::Recountdiff => recount_of(alloc, matches),
        Tool::Patchgen => gen_of(matches),
        Tool::Reversediff => flip_of(alloc, matches),
        Tool::Patchstack => stack_of(matches),
    }
}

fn recount_of(alloc: Global, matches: &ArgMatches<'_>) -> Result<ToolJob, WordFault>
    ensures job { IfOk result (λ job. plain_tool_job job ≡ recount_job (input_in (rows_in matches.now))) }
    ensures lawful { IfOk result (λ job. is_input (rows_in matches.now) ≡ true) }
    ensures refused { IfErr result (λ fault. (fault ≡ WordFault.Memory) ⊎ ((fault ≡ WordFault.Usage) × (is_input (rows_in matches.now) ≡ false))) }
{
    Ok(ToolJob::Recount(read_operand(alloc, matches)?))
}

fn gen_of(matches: &ArgMatches<'_>) -> Result<ToolJob, WordFault>
    ensures job { IfOk result (λ job. plain_tool_job job ≡ gen_job (gen_of (rows_in matches.now))) }
    ensures lawful { IfOk result (λ job. is_gen (rows_in matches.now) ≡ true) }
    ensures refused { IfErr result (λ fault. (fault ≡ WordFault.Memory) ⊎ ((fault ≡ WordFault.Usage) × (is_gen (rows_in matches.now) ≡ false))) }
{
    if !is_sync(value_of(matches, "sync")) {
        return Err(WordFault::Usage);
    }
    if !is_plan(value_of(matches, "plan")) || !is_buffer(value_of(matches, "buffer")) {
        return Err(WordFault::Usage);
    }
    let numbers = (
        number_in(matches, "seed"),
        number_in(matches, "files"),
        number_in(matches, "lines"),
    );
    let (Some(seed), Some(files), Some(lines)) = numbers else {
        return Err(WordFault::Usage);
    };
    if !is_size(files, lines) {
        return Err(WordFault::Usage);
    }
    Ok(ToolJob::Gen(GenJob {
        seed,
        files,
        lines,
        plan: plan_in(matches),
        buffer: buffer_in(matches),
        sync: sync_in(matches),
    }))
}

/// Whether so many files of so many lines are made.
fn is_size(files: u32, lines: u32) -> bool
    ensures { result ≡ is_size files lines }
{
    if files < 1 || files > 1_000 || lines < 20 || lines > 9_999_999 {
        return false;
    }
    u64::from(files) * u64::from(lines) <= 10_000_000
}

fn flip_of(alloc: Global, matches: &ArgMatches<'_>) -> Result<ToolJob, WordFault>
    ensures job { IfOk result (λ job. plain_tool_job job ≡ flip_job (input_in (rows_in matches.now))) }
    ensures lawful { IfOk result (λ job. is_input (rows_in matches.now) ≡ true) }
    ensures refused { IfErr result (λ fault. (fault ≡ WordFault.Memory) ⊎ ((fault ≡ WordFault.Usage) × (is_input (rows_in matches.now) ≡ false))) }
{
    Ok(ToolJob::Flip(read_operand(alloc, matches)?))
}

fn stack_of(matches: &ArgMatches<'_>) -> Result<ToolJob, WordFault>
    ensures job { IfOk result (λ job. plain_tool_job job ≡ stack_job (stack_of (rows_in matches.now))) }
    ensures lawful { IfOk result (λ job. is_stack (rows_in matches.now) ≡ true) }
    ensures refused { IfErr result (λ fault. (fault ≡ WordFault.Memory) ⊎ ((fault ≡ WordFault.Usage) × (is_stack (rows_in matches.now) ≡ false))) }
{
    if !is_sync(value_of(matches, "sync")) {
        return Err(WordFault::Usage);
    }
    match stack_op_in(matches) {
        Some(op) => Ok(ToolJob::Stack(StackJob {
            op,
            all: is_used(matches, "all"),
            sync: sync_in(matches),
        })),
        None => Err(WordFault::Usage),
    }
}

fn stack_op_in(matches: &ArgMatches<'_>) -> Option<StackOp>
    ensures { result ≡ stack_op_in (rows_in matches.now) }
{
    match value_of(matches, "operation") {
        Some(text) => stack_op_of(text, is_used(matches, "all")),
        None => None,
    }
}

#[tactic(auto, unfolding(crate::specs::Asked::stack_op_of))]
fn stack_op_of(text: &str, all: bool) -> Option<StackOp>
    ensures { result ≡ stack_op_of all text.now }
{
    match text {
        "push" => Some(StackOp::Push),
        "pop" => Some(StackOp::Pop),
        "applied" => { if all { None } else { Some(StackOp::Applied) } }
        _ => None,
    }
}
