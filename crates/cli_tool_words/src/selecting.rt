//! Which file patches a filter means by their names, and the text that it reads and how.
ghost use Rattle.std.specs.Prelude.{◌≡◌, ◌⊎◌, ◌&&◌, ◌||◌, [], true, false, map, is_some, option_map, unwrap_or, IfOk, IfErr};
ghost use Rattle.patch_options.specs.Simple.{rows_in};
ghost use Rattle.patch_options.specs.Table.{text_of, value_of};
ghost use Rattle.cli_tool_words.specs.PlainJobs.{plain_select};
ghost use Rattle.cli_tool_words.specs.Asked.{is_subject};
ghost use Rattle.cli_tool_words.specs.Selecting.{has_pattern_file, is_input, input_in, operand_in, is_select, number_or_0, patterns, select_of};

use crate::Select;
use clap::ArgMatches;
use patch_options::{
    Input, WordFault, input_of, is_number, number_of, read_name, value_of, values_of,
};
use std::alloc::{AllocError, Global};

/// The text that is read, and which of its file patches are meant.
pub fn read_subject(alloc: Global, matches: &ArgMatches<'_>) -> Result<(Input, Select), WordFault>
    ensures input { IfOk result (λ subject. subject.0 ≡ input_in (rows_in matches.now)) }
    ensures select { IfOk result (λ subject. plain_select subject.1 ≡ select_of (rows_in matches.now)) }
    ensures lawful { IfOk result (λ subject. is_subject (rows_in matches.now) ≡ true) }
    ensures refused { IfErr result (λ fault. (fault ≡ WordFault.Memory) ⊎ ((fault ≡ WordFault.Usage) × (is_subject (rows_in matches.now) ≡ false))) }
{
    let input = read_operand(alloc, matches)?;
    match read_select(alloc, matches) {
        Ok(select) => Ok((input, select)),
        Err(fault) => {
            drop(input);
            Err(fault)
        }
    }
}

/// The file patches that are meant, if the words for them are lawful.
#[tactic(auto, unfolding(crate::specs::Selecting::is_select, crate::specs::Selecting::select_of))]
fn read_select(alloc: Global, matches: &ArgMatches<'_>) -> Result<Select, WordFault>
    ensures select { IfOk result (λ s. plain_select s ≡ select_of (rows_in matches.now)) }
    ensures lawful { IfOk result (λ s. is_select (rows_in matches.now) ≡ true) }
    ensures refused { IfErr result (λ fault. (fault ≡ WordFault.Memory) ⊎ ((fault ≡ WordFault.Usage) × (is_select (rows_in matches.now) ≡ false))) }
{
    if !is_number(value_of(matches, "strip-match")) {
        return Err(WordFault::Usage);
    }
    let include_file = read_name(alloc, value_of(matches, "include-from-file"))?;
    let exclude_file = match read_name(alloc, value_of(matches, "exclude-from-file")) {
        Ok(file) => file,
        Err(fault) => {
            drop(include_file);
            return Err(fault);
        }
    };
    let include = match patterns(alloc, matches, "include") {
        Ok(list) => list,
        Err(_) => {
            drop(include_file);
            drop(exclude_file);
            return Err(WordFault::Memory);
        }
    };
    match patterns(alloc, matches, "exclude") {
        Ok(exclude) => Ok(Select {
            strip: number_or_0(matches, "strip-match"),
            include,
            exclude,
            include_file,
            exclude_file,
            only_included: is_one_given(matches, "include", "include-from-file"),
            skip_binary: true,
        }),
        Err(_) => {
            drop(include);
            drop(include_file);
            drop(exclude_file);
            Err(WordFault::Memory)
        }
    }
}

/// The number that an option gives, or 0.
pub fn number_or_0(matches: &ArgMatches<'_>, name: &str) -> u32
    ensures { result ≡ number_or_0 (rows_in matches.now) name.now }
{
    match value_of(matches, name) {
        Some(text) => number_of(text).unwrap_or(0),
        None => 0,
    }
}

pub fn is_given(matches: &ArgMatches<'_>, name: &str) -> bool
    ensures { result ≡ is_some (value_of (rows_in matches.now) name.now) }
{
    value_of(matches, name).is_some()
}

pub fn is_one_given(matches: &ArgMatches<'_>, one: &str, other: &str) -> bool
    ensures { result ≡ (is_some (value_of (rows_in matches.now) one.now) || is_some (value_of (rows_in matches.now) other.now)) }
{
    is_given(matches, one) || is_given(matches, other)
}

/// The patterns of an option, in their order.
fn patterns(alloc: Global, matches: &ArgMatches<'_>, name: &str) -> Result<Vec<Vec<u8>>, AllocError>
    ensures { IfOk result (λ list. map (λ p. p.items) list.items ≡ patterns (rows_in matches.now) name.now) }
{
    match values_of(matches, name) {
        Some(texts) => copied(alloc, texts),
        None => Ok(Vec::new(alloc)),
    }
}

fn copied(alloc: Global, texts: &[&str]) -> Result<Vec<Vec<u8>>, AllocError>
    ensures { IfOk result (λ list. map (λ p. p.items) list.items ≡ map (λ t. t.now) texts.now) }
{
    let mut list = Vec::new(alloc);
    for text in texts {
        list.push(text.as_bytes().to_vec(alloc)?)?;
    }
    Ok(list)
}

/// Whether a file has the patterns.
pub fn has_pattern_file(matches: &ArgMatches<'_>) -> bool
    ensures { result ≡ has_pattern_file (rows_in matches.now) }
{
    is_given(matches, "file")
}

/// The operand that is the text.
pub fn operand_in<'a>(matches: &ArgMatches<'a>) -> Option<&'a str>
    ensures { text_of result ≡ operand_in (rows_in matches.now) }
{
    if has_pattern_file(matches) {
        value_of(matches, "regex")
    } else {
        value_of(matches, "input")
    }
}

/// The text that is read, which is the operand.
pub fn read_operand(alloc: Global, matches: &ArgMatches<'_>) -> Result<Input, WordFault>
    ensures input { IfOk result (λ input. input ≡ input_in (rows_in matches.now)) }
    ensures lawful { IfOk result (λ input. is_input (rows_in matches.now) ≡ true) }
    ensures refused { IfErr result (λ fault. (fault ≡ WordFault.Memory) ⊎ ((fault ≡ WordFault.Usage) × (is_input (rows_in matches.now) ≡ false))) }
{
    match operand_in(matches) {
        Some(text) => input_of(alloc, text),
        None => Ok(Input::Standard),
    }
}
