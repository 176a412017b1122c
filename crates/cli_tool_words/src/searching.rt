//! What a command of `grepdiff` asks for.
ghost use Rattle.std.specs.Prelude.{◌≡◌, ◌⊎◌, true, false, codes, is_some, option_map, option_and_then, unwrap_or, IfOk, IfErr, IfSome, string_bytes};
ghost use Rattle.patch_options.specs.Forms.{is_name};
ghost use Rattle.patch_options.specs.Simple.{rows_in};
ghost use Rattle.patch_options.specs.Table.{has_form, value_of};
ghost use Rattle.cli_tool_words.specs.PlainJobs.{plain_tool_job};
ghost use Rattle.cli_tool_words.specs.PlainJobs.PlainToolJob.{grep_job};
ghost use Rattle.cli_tool_words.specs.Selecting.{name_in};
ghost use Rattle.cli_tool_words.specs.Asked.{is_grep_out, grep_out_of, is_searched, searched_of, shows_names, is_one_kind, is_sought, is_grepped, pattern_in, is_grep, grep_of};

use crate::marking::{are_marks, marks_in};
use crate::selecting::{has_pattern_file, is_given, is_one_given};
use crate::showing::read_list;
use crate::{GrepJob, GrepOut, Searched, ToolJob};
use clap::ArgMatches;
use outside::Name;
use patch_options::{WordFault, is_used, read_name, value_of};
use std::alloc::Global;

pub fn grep_of(alloc: Global, matches: &ArgMatches<'_>) -> Result<ToolJob, WordFault>
    ensures job { IfOk result (λ job. plain_tool_job job ≡ grep_job (grep_of (rows_in matches.now))) }
    ensures lawful { IfOk result (λ job. is_grep (rows_in matches.now) ≡ true) }
    ensures refused { IfErr result (λ fault. (fault ≡ WordFault.Memory) ⊎ ((fault ≡ WordFault.Usage) × (is_grep (rows_in matches.now) ≡ false))) }
{
    if !is_grepped(matches) {
        return Err(WordFault::Usage);
    }
    let Some(output) = output_in(matches) else {
        return Err(WordFault::Usage);
    };
    let Some(searched) = searched_in(matches) else {
        return Err(WordFault::Usage);
    };
    let sought = read_sought(alloc, matches)?;
    match read_list(alloc, matches, false) {
        Ok(list) => Ok(ToolJob::Grep(GrepJob {
            input: list.input,
            select: list.select,
            pattern: sought.pattern,
            pattern_file: sought.file,
            searched,
            output,
            shown: list.shown,
            marks: marks_in(matches),
        })),
        Err(fault) => {
            drop(sought);
            Err(fault)
        }
    }
}

/// What is looked for.
#[derive(Drop)]
struct Sought {
    pattern: String,
    file: Option<Name>,
}

/// What is looked for, if the words for it are lawful.
fn read_sought(alloc: Global, matches: &ArgMatches<'_>) -> Result<Sought, WordFault>
    ensures pattern { IfOk result (λ s. string_bytes s.pattern ≡ pattern_in (rows_in matches.now)) }
    ensures file { IfOk result (λ s. s.file ≡ option_map name_in (value_of (rows_in matches.now) (codes "file"))) }
    ensures lawful { IfOk result (λ s. has_form is_name (value_of (rows_in matches.now) (codes "file")) ≡ true) }
    ensures refused { IfErr result (λ fault. (fault ≡ WordFault.Memory) ⊎ ((fault ≡ WordFault.Usage) × (has_form is_name (value_of (rows_in matches.now) (codes "file")) ≡ false))) }
{
    let file = read_name(alloc, value_of(matches, "file"))?;
    match String::from_str(alloc, pattern_in(matches)) {
        Ok(pattern) => Ok(Sought { pattern, file }),
        Err(_) => {
            drop(file);
            Err(WordFault::Memory)
        }
    }
}

/// The pattern, if no file has them.
fn pattern_in<'a>(matches: &ArgMatches<'a>) -> &'a str
    ensures { result.now ≡ pattern_in (rows_in matches.now) }
{
    if has_pattern_file(matches) {
        return "";
    }
    match value_of(matches, "regex") {
        Some(text) => text,
        None => "",
    }
}

/// Whether a pattern is there, with words that go together.
fn is_grepped(matches: &ArgMatches<'_>) -> bool
    ensures { result ≡ is_grepped (rows_in matches.now) }
{
    (is_sought(matches) && are_marks(matches)) && is_one_kind(matches)
}

/// Whether a pattern is there, or a file of patterns and at most one operand.
fn is_sought(matches: &ArgMatches<'_>) -> bool
    ensures { result ≡ is_sought (rows_in matches.now) }
{
    if has_pattern_file(matches) {
        !is_given(matches, "input")
    } else {
        is_given(matches, "regex")
    }
}

/// Whether names are shown, or hunks or file patches are written, or their numbered lines.
fn is_one_kind(matches: &ArgMatches<'_>) -> bool
    ensures { result ≡ is_one_kind (rows_in matches.now) }
{
    if is_given(matches, "output-matching") {
        !shows_names(matches)
    } else {
        !is_given(matches, "as-numbered-lines")
    }
}

/// Whether a word is given that only names have.
fn shows_names(matches: &ArgMatches<'_>) -> bool
    ensures { result ≡ shows_names (rows_in matches.now) }
{
    (is_used(matches, "line-number") || is_used(matches, "with-filename"))
        || is_one_given(matches, "strip", "addprefix")
}

/// Which lines are searched, if the word for it is lawful; all where there is no word.
fn searched_in(matches: &ArgMatches<'_>) -> Option<Searched>
    ensures searched { IfSome result (λ searched. searched ≡ unwrap_or (option_and_then searched_of (value_of (rows_in matches.now) (codes "only-match"))) Searched.All) }
    ensures lawful { is_some result ≡ has_form is_searched (value_of (rows_in matches.now) (codes "only-match")) }
{
    match value_of(matches, "only-match") {
        Some(text) => searched_of(text),
        None => Some(Searched::All),
    }
}

#[tactic(auto, unfolding(crate::specs::Asked::searched_of))]
fn searched_of(text: &str) -> Option<Searched>
    ensures { result ≡ searched_of text.now }
{
    match text {
        "all" => Some(Searched::All),
        "rem" => Some(Searched::Removed),
        "removals" => Some(Searched::Removed),
        "add" => Some(Searched::Added),
        "additions" => Some(Searched::Added),
        "mod" => Some(Searched::Changed),
        "modifications" => Some(Searched::Changed),
        _ => None,
    }
}

/// What is written, if the word for it is lawful; names where there is no word.
fn output_in(matches: &ArgMatches<'_>) -> Option<GrepOut>
    ensures output { IfSome result (λ output. output ≡ unwrap_or (option_and_then grep_out_of (value_of (rows_in matches.now) (codes "output-matching"))) GrepOut.Names) }
    ensures lawful { is_some result ≡ has_form is_grep_out (value_of (rows_in matches.now) (codes "output-matching")) }
{
    match value_of(matches, "output-matching") {
        Some(text) => grep_out_of(text),
        None => Some(GrepOut::Names),
    }
}

#[tactic(auto, unfolding(crate::specs::Asked::grep_out_of))]
fn grep_out_of(text: &str) -> Option<GrepOut>
    ensures { result ≡ grep_out_of text.now }
{
    match text {
        "hunk" => Some(GrepOut::Hunks),
        "file" => Some(GrepOut::Files),
        _ => None,
    }
}
