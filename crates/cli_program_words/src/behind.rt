//! The line behind the line of an answer: what helps whoever reads it.

use crate::lacking::{Lack, lack_of, put_operands};
use crate::lines::{Filler, Lines};
use crate::mending::help_with;
use crate::unfit::{add, copied, unfit_place};
use crate::unsuited::put_unsuited;
use crate::wanted::{table_of, wanted_by, with_value};
use cli_run_answers::Why;
use patch_options::whole_words;
use sys_devices::Trouble;

/// The largest buffer that can be asked for.
const LARGEST_BUFFER: u64 = 1_048_576;

/// How many bytes of a buffer a line may not use.
const BESIDE_LINE: u64 = 4;

/// What is said of a value that an option doesn't take.
const NOT_TAKEN: &str = "#: # wants ##; # isn't taken\n";

/// The line behind that of an answer: where a fault was and the system's words, or what to do about a refusal. Most answers
/// have none.
pub fn put_detail(lines: &mut Lines, tool: &str, why: Why, trouble: Option<&Trouble>) {
    match why {
        Why::ReadFault | Why::WriteFault | Why::TreeFault | Why::ScratchFault => {
            put_trouble(lines, tool, trouble)
        }
        _ => put_help(lines, tool, help_with(tool, why)),
    }
}

fn put_help(lines: &mut Lines, tool: &str, said: &str) {
    if !said.is_empty() {
        lines.put_line(tool, said);
    }
}

/// The lines behind words that are not a command: the first that can't be taken, where one of them can't, or what is missing
/// behind the last; and where the words are told. Long names are told whole.
pub fn put_usage(lines: &mut Lines, tool: &str, words: &[String]) {
    match whole_words(lines.alloc, table_of(tool), words) {
        Ok(whole) => put_why(lines, tool, &whole),
        Err(_) => lines.cut(),
    }
    lines.put_parts(
        "Try '# --help' for more information.\n",
        &[Filler::Text(tool)],
    );
}

fn put_why(lines: &mut Lines, tool: &str, words: &[String]) {
    match unfit_place(lines, words) {
        Some(place) => put_unfit(lines, tool, words, place),
        None => put_lacking(lines, tool, words),
    }
}

/// The line of the word at this place, which can't be taken: where an option takes it as its value, or holds its value, what that
/// should be.
fn put_unfit(lines: &mut Lines, tool: &str, words: &[String], place: usize) {
    let front = words.get(..place).unwrap_or(words);
    let word = word_at(words, place);
    if let Some(Lack::Value) = lack_of(lines, front) {
        put_wants(lines, tool, NOT_TAKEN, last_of(front), word);
    } else {
        let (option, value) = with_value(tool, word).unwrap_or((word, ""));
        if wants_value(lines, front, option) {
            put_wants(lines, tool, NOT_TAKEN, option, value);
        } else {
            put_unsuited(lines, tool, front, word, option);
        }
    }
}

pub fn word_at(words: &[String], place: usize) -> &str {
    match words.get(place) {
        Some(word) => word.as_str(),
        None => "",
    }
}

pub fn last_of(words: &[String]) -> &str {
    word_at(words, words.len().saturating_sub(1))
}

/// Whether the option wants a value behind these words.
pub fn wants_value(lines: &mut Lines, front: &[String], option: &str) -> bool {
    let mut tried = copied(lines, front);
    add(lines, &mut tried, option);
    matches!(lack_of(lines, &tried), Some(Lack::Value))
}

/// The line of an option that takes a value, and of a value that it doesn't take, where one is given.
fn put_wants(lines: &mut Lines, tool: &str, said: &str, option: &str, value: &str) {
    let (article, noun) = wanted_by(tool, option);
    let parts = [
        Filler::Text(tool),
        Filler::Quoted(option),
        Filler::Text(article),
        Filler::Text(noun),
        Filler::Quoted(value),
    ];
    lines.put_parts(said, &parts);
}

/// The line of what is missing behind the last word.
fn put_lacking(lines: &mut Lines, tool: &str, words: &[String]) {
    match lack_of(lines, words) {
        Some(Lack::Value) => put_wants(lines, tool, "#: # wants ##\n", last_of(words), ""),
        Some(Lack::Operands(count)) => {
            lines.put_parts("#: missing at the end:", &[Filler::Text(tool)]);
            put_operands(lines, tool, count);
            lines.put("\n");
        }
        None => {}
    }
}

/// In which file a line of so many bytes is, and the smallest buffer that holds it, where the tool has the word.
pub fn put_long(lines: &mut Lines, tool: &str, file: &str, length: u64) {
    let least = length.saturating_add(BESIDE_LINE);
    let said = if least <= LARGEST_BUFFER && !matches!(tool, "patchstack") {
        ": the line is in #; --buffer=# would hold it\n"
    } else {
        ": the line is in #\n"
    };
    lines.put(tool);
    lines.put_parts(said, &[Filler::Quoted(file), Filler::Number(least)]);
}

fn put_trouble(lines: &mut Lines, tool: &str, trouble: Option<&Trouble>) {
    if let Some(trouble) = trouble {
        match trouble.text(lines.alloc) {
            Ok(text) => lines.put_line(tool, text.as_str()),
            Err(_) => lines.cut(),
        }
    }
}
