//! How a list shows file patches, by what was matched in the words.
ghost use Rattle.std.specs.Prelude.{◌≡◌, ◌⊎◌, [], true, false, codes, IfOk, IfErr, unwrap_or};
ghost use Rattle.patch_options.specs.Simple.{rows_in};
ghost use Rattle.patch_options.specs.Table.{is_used, text_of, value_of};
ghost use Rattle.cli_tool_words.specs.Asked.{is_list};
ghost use Rattle.cli_tool_words.specs.PlainJobs.{plain_select, plain_shown};
ghost use Rattle.cli_tool_words.specs.Selecting.{input_in, select_of};
ghost use Rattle.cli_tool_words.specs.Showing.{file_shown, has_patterns, is_shown, label_of, shown_of, shown_strip, shows_file, shows_hunks};

use crate::selecting::{is_given, is_one_given, number_or_0, operand_in, read_subject};
use crate::{ListJob, Shown};
use clap::ArgMatches;
use patch_options::{WordFault, is_number, is_used, value_of};
use std::alloc::{AllocError, Global};

/// The text that is read, which of its file patches are meant, and how they are shown.
pub fn read_list(
    alloc: Global,
    matches: &ArgMatches<'_>,
    empty_absent: bool,
) -> Result<ListJob, WordFault>
    ensures input { IfOk result (λ j. j.input ≡ input_in (rows_in matches.now)) }
    ensures select { IfOk result (λ j. plain_select j.select ≡ select_of (rows_in matches.now)) }
    ensures shown { IfOk result (λ j. plain_shown j.shown ≡ shown_of (rows_in matches.now) empty_absent) }
    ensures numbered { IfOk result (λ j. j.number_files ≡ is_used (rows_in matches.now) (codes "number-files")) }
    ensures lawful { IfOk result (λ j. is_list (rows_in matches.now) ≡ true) }
    ensures refused { IfErr result (λ fault. (fault ≡ WordFault.Memory) ⊎ ((fault ≡ WordFault.Usage) × (is_list (rows_in matches.now) ≡ false))) }
{
    let shown = read_shown(alloc, matches, empty_absent)?;
    match read_subject(alloc, matches) {
        Ok((input, select)) => Ok(ListJob {
            input,
            select,
            shown,
            number_files: is_used(matches, "number-files"),
        }),
        Err(fault) => {
            drop(shown);
            Err(fault)
        }
    }
}

/// How file patches are shown, if the words for it are lawful.
fn read_shown(
    alloc: Global,
    matches: &ArgMatches<'_>,
    empty_absent: bool,
) -> Result<Shown, WordFault>
    ensures shown { IfOk result (λ s. plain_shown s ≡ shown_of (rows_in matches.now) empty_absent) }
    ensures lawful { IfOk result (λ s. is_shown (rows_in matches.now) ≡ true) }
    ensures refused { IfErr result (λ fault. (fault ≡ WordFault.Memory) ⊎ ((fault ≡ WordFault.Usage) × (is_shown (rows_in matches.now) ≡ false))) }
{
    if !is_number(value_of(matches, "strip")) {
        return Err(WordFault::Usage);
    }
    let prefix = text_or_none(alloc, value_of(matches, "addprefix"))?;
    let label = match label_of(alloc, matches, b":") {
        Ok(label) => label,
        Err(_) => {
            drop(prefix);
            return Err(WordFault::Memory);
        }
    };
    let hunk_label = match label_of(alloc, matches, b"-") {
        Ok(label) => label,
        Err(_) => {
            drop(prefix);
            drop(label);
            return Err(WordFault::Memory);
        }
    };
    Ok(Shown {
        numbers: is_used(matches, "line-number"),
        hunks: shows_hunks(matches),
        status: is_used(matches, "status"),
        empty_absent,
        strip: shown_strip(matches),
        prefix,
        label,
        hunk_label,
    })
}

/// The name of the text and a mark, where it is shown.
fn label_of(alloc: Global, matches: &ArgMatches<'_>, mark: &[u8]) -> Result<Vec<u8>, AllocError>
    ensures { IfOk result (λ label. label.items ≡ label_of (rows_in matches.now) mark.now) }
{
    if shows_file(matches) {
        let mut label = file_shown(operand_in(matches)).as_bytes().to_vec(alloc)?;
        label.extend_from_slice(mark)?;
        return Ok(label);
    }
    Ok(Vec::new(alloc))
}

/// Whether the name of the text is shown.
fn shows_file(matches: &ArgMatches<'_>) -> bool
    ensures { result ≡ shows_file (rows_in matches.now) }
{
    is_used(matches, "with-filename") && !is_used(matches, "no-filename")
}

/// The text that is read, in the words of a list.
fn file_shown<'a>(file: Option<&'a str>) -> &'a str
    ensures { result.now ≡ file_shown (text_of file.entry) }
{
    match file {
        Some(text) => {
            if text == "-" {
                "(standard input)"
            } else {
                text
            }
        }
        None => "(standard input)",
    }
}

/// The bytes of a text, or none where there is no text.
pub fn text_or_none(alloc: Global, text: Option<&str>) -> Result<Vec<u8>, AllocError>
    ensures { IfOk result (λ bytes. bytes.items ≡ unwrap_or (text_of text.entry) []) }
{
    match text {
        Some(text) => text.as_bytes().to_vec(alloc),
        None => Ok(Vec::new(alloc)),
    }
}

/// Whether a line for each hunk is asked for.
fn shows_hunks(matches: &ArgMatches<'_>) -> bool
    ensures { result ≡ shows_hunks (rows_in matches.now) }
{
    is_used(matches, "line-number") && is_used(matches, "verbose")
}

/// What is stripped from a name that is shown.
#[tactic(auto, unfolding(crate::specs::Showing::shown_strip))]
fn shown_strip(matches: &ArgMatches<'_>) -> u32
    ensures { result ≡ shown_strip (rows_in matches.now) }
{
    if is_given(matches, "strip") || has_patterns(matches) {
        return number_or_0(matches, "strip");
    }
    number_or_0(matches, "strip-match")
}

/// Whether file patches are meant by patterns.
fn has_patterns(matches: &ArgMatches<'_>) -> bool
    ensures { result ≡ has_patterns (rows_in matches.now) }
{
    is_one_given(matches, "include", "exclude")
        || is_one_given(matches, "include-from-file", "exclude-from-file")
}
