//! What a command of `splitdiff` asks for.
ghost use Rattle.std.specs.Option.{option_map_or};
ghost use Rattle.std.specs.Prelude.{◌≡◌, ◌⊎◌, [], true, false, codes, IfOk, IfErr};
ghost use Rattle.patch_options.specs.Simple.{rows_in};
ghost use Rattle.patch_options.specs.Table.{value_of};
ghost use Rattle.cli_tool_words.specs.PlainJobs.{plain_part_names, plain_tool_job};
ghost use Rattle.cli_tool_words.specs.PlainJobs.PlainToolJob.{split_job};
ghost use Rattle.cli_tool_words.specs.Selecting.{name_in};
ghost use Rattle.cli_tool_words.specs.Asked.{is_split_file, are_part_names, part_names_of, is_split, split_of};

use crate::selecting::number_or_0;
use crate::{PartNames, SplitJob, ToolJob};
use clap::ArgMatches;
use outside::Name;
use patch_options::{
    WordFault, is_number, is_sync, is_used, lasting_name_of, read_name, sync_in, value_of,
};
use std::alloc::Global;

pub fn split_of(alloc: Global, matches: &ArgMatches<'_>) -> Result<ToolJob, WordFault>
    ensures job { IfOk result (λ job. plain_tool_job job ≡ split_job (split_of (rows_in matches.now))) }
    ensures lawful { IfOk result (λ job. is_split (rows_in matches.now) ≡ true) }
    ensures refused { IfErr result (λ fault. (fault ≡ WordFault.Memory) ⊎ ((fault ≡ WordFault.Usage) × (is_split (rows_in matches.now) ≡ false))) }
{
    if !is_sync(value_of(matches, "sync")) {
        return Err(WordFault::Usage);
    }
    let names = part_names(alloc, matches)?;
    match split_input(alloc, matches) {
        Ok(input) => Ok(ToolJob::Split(SplitJob {
            input,
            every: is_used(matches, "every"),
            names,
            verbose: is_used(matches, "verbose"),
            skip_binary: true,
            sync: sync_in(matches),
        })),
        Err(fault) => {
            drop(names);
            Err(fault)
        }
    }
}

/// How the parts are named, if the words for it are lawful.
fn part_names(alloc: Global, matches: &ArgMatches<'_>) -> Result<PartNames, WordFault>
    ensures names { IfOk result (λ n. plain_part_names n ≡ part_names_of (rows_in matches.now)) }
    ensures lawful { IfOk result (λ n. are_part_names (rows_in matches.now) ≡ true) }
    ensures refused { IfErr result (λ fault. (fault ≡ WordFault.Memory) ⊎ ((fault ≡ WordFault.Usage) × (are_part_names (rows_in matches.now) ≡ false))) }
{
    if !is_number(value_of(matches, "strip-match")) {
        return Err(WordFault::Usage);
    }
    match read_name(alloc, value_of(matches, "directory")) {
        Ok(directory) => Ok(PartNames {
            by_name: is_used(matches, "by-name"),
            directory,
            bare: is_used(matches, "bare"),
            strip: number_or_0(matches, "strip-match"),
        }),
        Err(fault) => Err(fault),
    }
}

/// The file that is cut.
fn split_input(alloc: Global, matches: &ArgMatches<'_>) -> Result<Name, WordFault>
    ensures name { IfOk result (λ name. name ≡ option_map_or name_in (value_of (rows_in matches.now) (codes "input")) []) }
    ensures lawful { IfOk result (λ name. option_map_or is_split_file (value_of (rows_in matches.now) (codes "input")) false ≡ true) }
    ensures refused { IfErr result (λ fault. (fault ≡ WordFault.Memory) ⊎ ((fault ≡ WordFault.Usage) × (option_map_or is_split_file (value_of (rows_in matches.now) (codes "input")) false ≡ false))) }
{
    match value_of(matches, "input") {
        Some(text) => split_file(alloc, text),
        None => Err(WordFault::Usage),
    }
}

/// The file by whose name the parts are named.
#[tactic(auto, unfolding(crate::specs::Asked::is_split_file))]
fn split_file(alloc: Global, text: &str) -> Result<Name, WordFault>
    ensures name { IfOk result (λ name. name ≡ name_in text.now) }
    ensures lawful { IfOk result (λ name. is_split_file text.now ≡ true) }
    ensures refused { IfErr result (λ fault. (fault ≡ WordFault.Memory) ⊎ ((fault ≡ WordFault.Usage) × (is_split_file text.now ≡ false))) }
{
    if text == "-" {
        return Err(WordFault::Usage);
    }
    lasting_name_of(alloc, text)
}
