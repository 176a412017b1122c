//! What the program tells of itself: its tools, and its version; and whose words are asked for.
ghost use Rattle.std.specs.Prelude.{◌≡◌, true, is_some, map, string_bytes, List, Err, IfOk};
ghost use Rattle.clap.specs.Words.{Text};
ghost use Rattle.patch_options.specs.Whole.{whole_words};
ghost use Rattle.patch_options.specs.Words.{job_of};
ghost use Rattle.cli_tool_words.specs.Words.{tool_job};
ghost use Rattle.cli_program_words.specs.Told.{asks, is_asking, is_told, table_by};

use crate::called::tool_called;
use crate::wanted::table_of;
use cli_tool_words::{Tool, tool_named};
use patch_options::{WordFault, whole_words};
use std::alloc::{AllocError, Global};

/// The version. `make dist` reads it here.
const VERSION: &str = "0.1.0";

/// What the program is proved with, but for the letter of the kit, which differs from machine to machine.
const PROVED: &str = "proved with rattle-kit-13 logic dac8208d650f15bf";

/// The version of the filters as which those of the same names work.
const PATCHUTILS: &str = "0.4.2";

/// The tools, one a line.
const TOOLS: &str = "\
Usage: patchkit TOOL [WORD]...
  or:  TOOL [WORD]..., where a link of the tool's name points to patchkit

The tools:
  patch        apply changes to files
  lsdiff       list the file patches of a patch text
  filterdiff   write the file patches and hunks of a patch text that are meant
  grepdiff     find the file patches that have a line with a match
  splitdiff    cut a patch text into files
  recountdiff  make the counts of the hunks of a unified patch text true
  reversediff  turn a patch text round, so that it takes back what it did
  patchgen     make files of numbered lines, and apply a patch over them
  patchstack   apply and take back the patches of a series

'TOOL --help' tells the words of each, and '--version' the version.
";

/// What is told.
pub enum HelpRequest {
    Text(&'static str),
    /// The version of the tool of this name.
    Version(&'static str),
    /// The words of `patch`.
    Patch,
    /// The words of another tool.
    Words(Tool),
}

/// What no word at all asks for, or the first `--help` or `--version` in front of a `--`, whole or cut short. No command has these
/// words there.
#[tactic(auto, unfolding(crate::specs::Told::is_told))]
pub fn told(alloc: Global, words: &[String]) -> Result<Option<HelpRequest>, AllocError>
    ensures { IfOk result (λ telling. is_some telling ≡ is_told (map string_bytes words.now)) }
{
    match words {
        [first, ..] => told_by(alloc, first.as_str(), words),
        [] => Ok(Some(HelpRequest::Text(TOOLS))),
    }
}

/// What the words of a tool ask to be told.
fn told_by(alloc: Global, tool: &str, words: &[String]) -> Result<Option<HelpRequest>, AllocError>
    ensures { IfOk result (λ telling. is_some telling ≡ asks tool.now (whole_words (table_by tool.now) (map string_bytes words.now))) }
{
    match whole_words(alloc, table_of(tool), words) {
        Ok(whole) => Ok(told_in(tool, &whole)),
        Err(error) => Err(error),
    }
}

/// What words of a tool ask to be told, with whole long names.
fn told_in(tool: &str, words: &[String]) -> Option<HelpRequest>
    ensures { is_some result ≡ asks tool.now (map string_bytes words.now) }
{
    for word in words {
        if let Some(telling) = asked_by(tool, word.as_str()) {
            return Some(telling);
        }
        if word.as_str() == "--" {
            return None;
        }
    }
    None
}

/// What a word asks for.
fn asked_by(tool: &str, word: &str) -> Option<HelpRequest>
    ensures { is_some result ≡ is_asking tool.now word.now }
{
    match word {
        "--help" => Some(help_of(tool)),
        "--version" => Some(HelpRequest::Version(tool_called(tool))),
        "-v" if tool == "patch" => Some(HelpRequest::Version(tool_called(tool))),
        _ => None,
    }
}

/// What is told keeps no run back: words that ask for it are no command.
pub fn no_command_is_told()
    ensures patch { (words : List Text) → is_told words ≡ true → job_of words ≡ Err WordFault.Usage }
    ensures tools { (words : List Text) → is_told words ≡ true → tool_job words ≡ Err WordFault.Usage }
{}

/// The words of a tool, or the tools.
fn help_of(tool: &str) -> HelpRequest {
    match tool_named(tool) {
        Some(tool) => HelpRequest::Words(tool),
        None if matches!(tool, "patch") => HelpRequest::Patch,
        None => HelpRequest::Text(TOOLS),
    }
}

/// The version of a tool. The second word is that of the program as which it works, since scripts take it for that.
pub fn version_of(alloc: Global, tool: &str) -> Result<String, AllocError> {
    match peer_of(tool) {
        Some((peer, number)) => {
            format!(in alloc;
                "{tool} {number} (patchkit {VERSION}, works as {peer} {number})\n{PROVED}\n"
            )
        }
        None if matches!(tool, "patchkit") => { format!(in alloc; "{tool} {VERSION}\n{PROVED}\n") }
        None => format!(in alloc; "{tool} {VERSION} (patchkit {VERSION})\n{PROVED}\n"),
    }
}

/// The program as which a tool works, and its version.
fn peer_of(tool: &str) -> Option<(&'static str, &'static str)> {
    match tool {
        "patch" => Some(("GNU patch", "2.7.6")),
        "lsdiff" | "filterdiff" | "grepdiff" | "splitdiff" | "recountdiff" => {
            Some(("patchutils", PATCHUTILS))
        }
        _ => None,
    }
}
