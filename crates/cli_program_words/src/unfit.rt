//! Which word can't be taken, and how many are missing, for the line behind a refusal.

use crate::lines::Lines;
use cli_tool_words::{calls_of, read_tool_words};
use patch_options::read_words;
use std::alloc::{AllocError, Global};

/// Values that options take, with none first.
const VALUES: [&str; 11] = [
    "", "512", "0", "a", "context", "simple", "push", "hunk", "none", "warn", "c",
];

/// An operand that each tool takes, unless it wants a value from above.
pub const OPERAND: &str = "20";

/// A tool takes up to three operands.
const COUNTS: usize = 4;

/// The place of the first word behind which no further words give a command. There is none where words are missing at the end.
///
/// Where words give no command whatever follows, more of them give none either: so it is looked for by halves.
pub fn unfit_place(lines: &mut Lines, words: &[String]) -> Option<usize> {
    let (mut fits, mut end) = (0, words.len());
    for _ in 0..u64::BITS {
        if fits >= end {
            break;
        }
        let middle = fits + (end - fits) / 2;
        let front = words.get(..middle + 1).unwrap_or(words);
        if missing_words(lines, front).is_some() {
            fits = middle + 1;
        } else {
            end = middle;
        }
    }
    if fits < words.len() { Some(fits) } else { None }
}

/// How many words are missing behind these, at least as the values and operands from above go on with them. There is no
/// number where none of these gives a command.
pub fn missing_words(lines: &mut Lines, words: &[String]) -> Option<usize> {
    for value in VALUES.iter() {
        let missing = missing_behind(lines, words, value);
        if missing.is_some() {
            return missing;
        }
    }
    None
}

/// How many words are missing behind these, where this value goes on with them, and then operands.
fn missing_behind(lines: &mut Lines, words: &[String], value: &str) -> Option<usize> {
    let mut tried = copied(lines, words);
    if !value.is_empty() {
        add(lines, &mut tried, value);
    }
    for _ in 0..COUNTS {
        if is_command(lines.alloc, &tried) {
            return Some(tried.len().saturating_sub(words.len()));
        }
        add(lines, &mut tried, OPERAND);
    }
    None
}

pub fn copied(lines: &mut Lines, words: &[String]) -> Vec<String> {
    let mut copy = Vec::new(lines.alloc);
    for word in words {
        add(lines, &mut copy, word.as_str());
    }
    copy
}

/// Adds a word, or cuts the lines where memory is missing.
pub fn add(lines: &mut Lines, words: &mut Vec<String>, word: &str) {
    if added(lines.alloc, words, word).is_err() {
        lines.cut();
    }
}

/// Adds a word, if memory is there for it.
pub fn added(alloc: Global, words: &mut Vec<String>, word: &str) -> Result<(), AllocError> {
    let word = String::from_str(alloc, word)?;
    words.push(word)?;
    Ok(())
}

/// Whether the words give a command, or with several FILEs a command for each. What it is goes in `err`, and so isn't owned here.
pub fn is_command(alloc: Global, words: &[String]) -> bool {
    read_words(alloc, words).err().is_none() || are_calls(alloc, words)
}

fn are_calls(alloc: Global, words: &[String]) -> bool {
    let Ok(calls) = calls_of(alloc, words) else {
        return false;
    };
    let mut are = true;
    for call in &calls {
        are = are && read_tool_words(alloc, call).err().is_none();
    }
    are
}
