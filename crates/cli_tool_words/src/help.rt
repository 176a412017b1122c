//! The text that tells the words of a tool, made of its table.
ghost use Rattle.std.specs.Prelude.{string_bytes, IfOk};
ghost use Rattle.patch_options.specs.Usage.{Tells};
ghost use Rattle.cli_tool_words.specs.Tools.{table_of};

use crate::Tool;
use patch_options::usage_of;
use std::alloc::{AllocError, Global};

/// The words that each tool has.
const BEHIND: &str = "  --help, --version           this text, or the version\n";

/// The words that each of the tools has that can be each other.
const BEHIND_SIEVE: &str = concat!(
    "  --list, --filter, --grep    be lsdiff, filterdiff or grepdiff\n",
    "  --help, --version           this text, or the version\n"
);

/// What tells the words of a tool, in lines: how it is called, what it does, and each word with what it gives.
pub fn usage(alloc: Global, tool: Tool) -> Result<String, AllocError>
    ensures { IfOk result (λ text. Tells (table_of tool) (string_bytes text)) }
{
    usage_of(alloc, front(tool), tool.table(), behind(tool))
}

fn behind(tool: Tool) -> &'static str {
    match tool {
        Tool::Lsdiff | Tool::Filterdiff | Tool::Grepdiff => BEHIND_SIEVE,
        _ => BEHIND,
    }
}

fn front(tool: Tool) -> &'static str {
    match tool {
        Tool::Lsdiff => {
            "Usage: lsdiff [OPTION]... [FILE]...\n\
            Lists the file patches of patch texts by their names.\n"
        }
        Tool::Filterdiff => {
            "Usage: filterdiff [OPTION]... [FILE]...\n\
            Writes the file patches and hunks of patch texts that are meant.\n\
            A RANGE has items N, N-M, N-, -M or -, with commas between them; x in front\n\
            takes all numbers but those.\n"
        }
        Tool::Grepdiff => {
            "Usage: grepdiff [OPTION]... REGEX [FILE]...\n\
            Finds the file patches of patch texts that have a line with a match.\n"
        }
        Tool::Splitdiff => {
            "Usage: splitdiff [OPTION]... FILE\n\
            Cuts a patch text into the files FILE.part001, FILE.part002 and so on.\n"
        }
        Tool::Recountdiff => {
            "Usage: recountdiff [FILE]...\n\
            Makes the counts of the hunks of unified patch texts true.\n"
        }
        Tool::Patchgen => {
            "Usage: patchgen [OPTION]... SEED FILES LINES\n\
            Makes files of numbered lines, and a patch over them.\n"
        }
        Tool::Reversediff => {
            "Usage: reversediff [FILE]\n\
            Turns a patch text round, so that it takes back what it did.\n"
        }
        Tool::Patchstack => {
            "Usage: patchstack [OPTION]... push|pop|applied\n\
            Applies and takes back the patches that patches/series lists.\n"
        }
    }
}
