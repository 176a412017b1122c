//! What is missing behind words that could go on, for the line behind a refusal.

use crate::behind::last_of;
use crate::lines::Lines;
use crate::unfit::{OPERAND, add, copied, is_command, missing_words};
use crate::wanted::table_of;
use patch_options::{Group, Word, WordForm};

/// What is missing behind the last word.
#[derive(Clone, Copy)]
pub enum Lack {
    /// The value of the last word, which is an option.
    Value,
    /// The last operands that the tool must have, so many of them.
    Operands(usize),
}

/// What is missing behind words that give no command, if further words would give one.
pub fn lack_of(lines: &mut Lines, words: &[String]) -> Option<Lack> {
    match missing_words(lines, words) {
        Some(count) if wants_value(lines, words, count) => Some(Lack::Value),
        Some(count) => Some(Lack::Operands(count)),
        None => None,
    }
}

/// Whether the last word is an option without its value: then so many operands in front of it give no command.
fn wants_value(lines: &mut Lines, words: &[String], count: usize) -> bool {
    let last = last_of(words);
    if matches!(last, "--") || !last.starts_with('-') {
        return false;
    }
    let front = words.get(..words.len().saturating_sub(1)).unwrap_or(words);
    let mut tried = copied(lines, front);
    for _ in 0..count {
        add(lines, &mut tried, OPERAND);
    }
    add(lines, &mut tried, last);
    !is_command(lines.alloc, &tried)
}

/// The last so many operands that a tool must have, as the text that tells its words has them, with a space in front of each.
pub fn put_operands(lines: &mut Lines, tool: &str, count: usize) {
    let table = table_of(tool);
    let mut before = needed_in(table).saturating_sub(count);
    for group in table {
        for word in group.words {
            if is_needed(word) {
                if before == 0 {
                    lines.put(" ");
                    lines.put(word.shown);
                }
                before = before.saturating_sub(1);
            }
        }
    }
}

/// How many operands a tool must have. `patch` has none.
fn needed_in(table: &'static [Group]) -> usize {
    let mut count = 0usize;
    for group in table {
        for word in group.words {
            if is_needed(word) {
                count = count.saturating_add(1);
            }
        }
    }
    count
}

fn is_needed(word: &Word) -> bool {
    matches!(word.form, WordForm::Operand) && !word.shown.starts_with('[')
}
