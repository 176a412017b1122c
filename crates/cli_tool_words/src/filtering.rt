//! What a command of `filterdiff` asks for.
ghost use Rattle.std.specs.Prelude.{◌≡◌, ◌⊎◌, true, false, codes, option_and_then, IfOk, IfErr};
ghost use Rattle.patch_options.specs.Simple.{rows_in};
ghost use Rattle.patch_options.specs.Table.{has_form, text_of, value_of};
ghost use Rattle.cli_tool_words.specs.PlainJobs.{plain_ranges, plain_tool_job};
ghost use Rattle.cli_tool_words.specs.PlainJobs.PlainToolJob.{filter_job};
ghost use Rattle.cli_tool_words.specs.Ranges.{ranges_of};
ghost use Rattle.cli_tool_words.specs.Asked.{are_ranges, is_form, is_formed, asks_marks, is_one_form, form_of, is_filter, filter_of};

use crate::marking::{are_marks, marks_in};
use crate::ranges::read_ranges;
use crate::selecting::{is_given, read_subject};
use crate::styling::read_style;
use crate::{FilterJob, Ranges, ToolJob};
use clap::ArgMatches;
use hunk_core::Form;
use patch_options::{WordFault, is_used, value_of};
use std::alloc::Global;

/// The ranges of the hunks, of the lines and of the file patches that are meant.
#[derive(Drop)]
struct AllRanges {
    hunks: Option<Ranges>,
    lines: Option<Ranges>,
    files: Option<Ranges>,
}

pub fn filter_of(alloc: Global, matches: &ArgMatches<'_>) -> Result<ToolJob, WordFault>
    ensures job { IfOk result (λ job. plain_tool_job job ≡ filter_job (filter_of (rows_in matches.now))) }
    ensures lawful { IfOk result (λ job. is_filter (rows_in matches.now) ≡ true) }
    ensures refused { IfErr result (λ fault. (fault ≡ WordFault.Memory) ⊎ ((fault ≡ WordFault.Usage) × (is_filter (rows_in matches.now) ≡ false))) }
{
    if !is_formed(matches) {
        return Err(WordFault::Usage);
    }
    let style = read_style(alloc, matches)?;
    let ranges = match ranges_in(alloc, matches) {
        Ok(ranges) => ranges,
        Err(fault) => {
            drop(style);
            return Err(fault);
        }
    };
    match read_subject(alloc, matches) {
        Ok((input, select)) => Ok(ToolJob::Filter(FilterJob {
            input,
            select,
            hunks: ranges.hunks,
            lines: ranges.lines,
            files: ranges.files,
            format: form_in(matches),
            verbose: is_used(matches, "verbose"),
            style,
            marks: marks_in(matches),
        })),
        Err(fault) => {
            drop(style);
            drop(ranges);
            Err(fault)
        }
    }
}

fn ranges_in(alloc: Global, matches: &ArgMatches<'_>) -> Result<AllRanges, WordFault>
    ensures hunks { IfOk result (λ all. plain_ranges all.hunks ≡ option_and_then ranges_of (value_of (rows_in matches.now) (codes "hunks"))) }
    ensures lines { IfOk result (λ all. plain_ranges all.lines ≡ option_and_then ranges_of (value_of (rows_in matches.now) (codes "lines"))) }
    ensures files { IfOk result (λ all. plain_ranges all.files ≡ option_and_then ranges_of (value_of (rows_in matches.now) (codes "files"))) }
    ensures lawful { IfOk result (λ all. are_ranges (rows_in matches.now) ≡ true) }
    ensures refused { IfErr result (λ fault. (fault ≡ WordFault.Memory) ⊎ ((fault ≡ WordFault.Usage) × (are_ranges (rows_in matches.now) ≡ false))) }
{
    let hunks = read_ranges(alloc, value_of(matches, "hunks"))?;
    let lines = match read_ranges(alloc, value_of(matches, "lines")) {
        Ok(lines) => lines,
        Err(fault) => {
            drop(hunks);
            return Err(fault);
        }
    };
    match read_ranges(alloc, value_of(matches, "files")) {
        Ok(files) => Ok(AllRanges {
            hunks,
            lines,
            files,
        }),
        Err(fault) => {
            drop(hunks);
            drop(lines);
            Err(fault)
        }
    }
}

/// Whether the words for a form or for numbered lines are lawful.
fn is_formed(matches: &ArgMatches<'_>) -> bool
    ensures { result ≡ is_formed (rows_in matches.now) }
{
    (is_form(value_of(matches, "format")) && are_marks(matches)) && is_one_form(matches)
}

/// Whether a form is asked for, or what is told of hunks.
fn is_one_form(matches: &ArgMatches<'_>) -> bool
    ensures { result ≡ is_one_form (rows_in matches.now) }
{
    !(asks_marks(matches) && is_given(matches, "format"))
}

fn asks_marks(matches: &ArgMatches<'_>) -> bool
    ensures { result ≡ asks_marks (rows_in matches.now) }
{
    is_used(matches, "annotate") || is_given(matches, "as-numbered-lines")
}

fn is_form(text: Option<&str>) -> bool
    ensures { result ≡ has_form is_form (text_of text.entry) }
{
    match text {
        Some(text) => form_of(text).is_some(),
        None => true,
    }
}

fn form_in(matches: &ArgMatches<'_>) -> Option<Form>
    ensures { result ≡ option_and_then form_of (value_of (rows_in matches.now) (codes "format")) }
{
    match value_of(matches, "format") {
        Some(text) => form_of(text),
        None => None,
    }
}

/// The form that the text names.
#[tactic(auto, unfolding(crate::specs::Asked::form_of))]
fn form_of(text: &str) -> Option<Form>
    ensures { result ≡ form_of text.now }
{
    match text {
        "unified" => Some(Form::Unified),
        "context" => Some(Form::Context),
        "normal" => Some(Form::Normal),
        "ed" => Some(Form::Ed),
        _ => None,
    }
}
