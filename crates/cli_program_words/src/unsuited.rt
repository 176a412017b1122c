//! Why a word can't be taken that isn't an option's value: the tool has no such option, or a word in front excludes it.

use crate::behind::{wants_value, word_at};
use crate::lines::{Filler, Lines};
use crate::unfit::{add, copied, missing_words};
use crate::wanted::{is_known, name_from};

/// The line of a word that can't be taken behind these: beside which word, where that is found for an option. Where it stands for
/// one, that is given without its value too.
pub fn put_unsuited(lines: &mut Lines, tool: &str, front: &[String], word: &str, option: &str) {
    let (said, rival) = if !is_option(front, word) {
        ("#: can't take # here\n", 0)
    } else if !is_known(tool, option) {
        return put_unknown(lines, tool, word, option);
    } else {
        match rival_of(lines, front, word) {
            0 => ("#: can't take # here\n", 0),
            rival => ("#: can't take # beside #\n", rival),
        }
    };
    let parts = [
        Filler::Text(tool),
        Filler::Quoted(word),
        Filler::Quoted(word_at(front, rival)),
    ];
    lines.put_parts(said, &parts);
}

/// The line of an option that there isn't, or of a long one that is cut short from more than one.
fn put_unknown(lines: &mut Lines, tool: &str, word: &str, option: &str) {
    let name = option.strip_prefix("--").unwrap_or("");
    let one = name_from(tool, name, 0);
    let other = name_from(tool, name, 1);
    let said = if name.is_empty() || other.is_empty() {
        "#: there is no option #\n"
    } else {
        "#: # can be --# or --#\n"
    };
    let parts = [
        Filler::Text(tool),
        Filler::Quoted(word),
        Filler::Text(one),
        Filler::Text(other),
    ];
    lines.put_parts(said, &parts);
}

/// Whether the word stands for an option, behind the name of a tool.
fn is_option(front: &[String], word: &str) -> bool {
    for before in front {
        if matches!(before.as_str(), "--") {
            return false;
        }
    }
    !front.is_empty() && word.starts_with('-') && !matches!(word, "-" | "--")
}

/// The place of the first word in front that excludes an option which can be taken alone, or 0.
fn rival_of(lines: &mut Lines, front: &[String], word: &str) -> usize {
    let tool = front.get(..1).unwrap_or(front);
    let mut rival = 0usize;
    if can_stand(lines, tool, word) {
        for place in 1..front.len() {
            if rival == 0 && excludes(lines, front, place, word) {
                rival = place;
            }
        }
    }
    rival
}

/// Whether the word at this place can be taken alone, with its value, but not with the other one behind it.
fn excludes(lines: &mut Lines, front: &[String], place: usize, word: &str) -> bool {
    let tool = front.get(..1).unwrap_or(front);
    let rival = word_at(front, place);
    let mut alone = copied(lines, tool);
    add(lines, &mut alone, rival);
    if wants_value(lines, tool, rival) {
        add(lines, &mut alone, word_at(front, place.saturating_add(1)));
    }
    missing_words(lines, &alone).is_some() && !can_stand(lines, &alone, word)
}

/// Whether the word can be taken behind these, with further words where some are missing.
fn can_stand(lines: &mut Lines, front: &[String], word: &str) -> bool {
    let mut tried = copied(lines, front);
    add(lines, &mut tried, word);
    missing_words(lines, &tried).is_some()
}
