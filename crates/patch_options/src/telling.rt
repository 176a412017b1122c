//! The text that tells the words of a tool, made of its table.
ghost use Rattle.std.specs.Prelude.{◌≡◌, ◌++◌, flat_map, replicate, string_bytes, IfOk, OnOk};
ghost use Rattle.patch_options.specs.Groups.{patch_table};
ghost use Rattle.patch_options.specs.Usage.{Tells, gap, group_text, row_text, usage_text};

use crate::groups::patch_table;
use crate::{Group, Word};
use std::alloc::{AllocError, Global};

const PATCH: &str = "\
Usage: patch [OPTION]... [FILE [PATCHFILE]]
Applies the file patches of a patch text to files.
";

const BEHIND_PATCH: &str = "
  --help                      this text
  -v, --version               the version

The status is 0 where every hunk was placed, 1 where one wasn't, else 2.
";

/// What tells the words of `patch`, in lines: how it is called, what it does, each word with what it gives, and the status.
pub fn patch_usage(alloc: Global) -> Result<String, AllocError>
    ensures { IfOk result (λ text. Tells patch_table (string_bytes text)) }
{
    usage_of(alloc, PATCH, patch_table(), BEHIND_PATCH)
}

/// What stands in front, in whole lines; the rows of a table, each group behind an empty line and its heading; and what stands
/// behind them.
pub fn usage_of(
    alloc: Global,
    front: &str,
    table: &[Group],
    behind: &str,
) -> Result<String, AllocError>
    ensures { IfOk result (λ text. string_bytes text ≡ usage_text front.now table.now behind.now) }
{
    let mut text = String::from_str(alloc, front)?;
    put_groups(&mut text, table)?;
    text.push_str(behind)?;
    Ok(text)
}

fn put_groups(text: &mut String, groups: &[Group]) -> Result<(), AllocError>
    ensures { OnOk result (string_bytes text.new ≡ string_bytes text.old ++ flat_map group_text groups.now) }
{
    for group in groups {
        put_group(text, group)?;
    }
    Ok(())
}

fn put_group(text: &mut String, group: &Group) -> Result<(), AllocError>
    ensures { OnOk result (string_bytes text.new ≡ string_bytes text.old ++ group_text group.now) }
{
    text.push_str("\n")?;
    text.push_str(group.heading)?;
    put_rows(text, group.words)
}

fn put_rows(text: &mut String, words: &[Word]) -> Result<(), AllocError>
    ensures { OnOk result (string_bytes text.new ≡ string_bytes text.old ++ flat_map row_text words.now) }
{
    for word in words {
        put_row(text, word)?;
    }
    Ok(())
}

/// A word, and in the column of what words give what it gives.
fn put_row(text: &mut String, word: &Word) -> Result<(), AllocError>
    ensures { OnOk result (string_bytes text.new ≡ string_bytes text.old ++ row_text word.now) }
{
    text.push_str("  ")?;
    text.push_str(word.shown)?;
    put_gap(text, word.shown.len())?;
    text.push_str(word.help)?;
    text.push_str("\n")
}

/// What brings the text to that column, which is 30, behind a word of this width; in the next line where the word has more than
/// 27 bytes.
fn put_gap(text: &mut String, width: usize) -> Result<(), AllocError>
    ensures { OnOk result (string_bytes text.new ≡ string_bytes text.old ++ gap width) }
{
    if width < 28 {
        return put_spaces(text, 28 - width);
    }
    text.push_str("\n                              ")
}

fn put_spaces(text: &mut String, count: usize) -> Result<(), AllocError>
    ensures { OnOk result (string_bytes text.new ≡ string_bytes text.old ++ replicate count 32) }
{
    for _ in 0..count {
        text.push_str(" ")?;
    }
    Ok(())
}
