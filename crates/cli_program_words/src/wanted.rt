//! What an option wants that takes a value, for the line behind a refusal.
ghost use Rattle.std.specs.Prelude.{◌≡◌};
ghost use Rattle.patch_options.specs.Simple.{plain_table};
ghost use Rattle.cli_program_words.specs.Told.{table_by};

use cli_tool_words::tool_named;
use patch_options::{Group, Word, WordForm, patch_table};

/// What the option's value is, as `a ` and `number`. The option is as it is given, the last of its letters the one that is meant.
pub fn wanted_by(tool: &str, option: &str) -> (&'static str, &'static str) {
    match row_of(table_of(tool), option) {
        Some(row) => value_of(row),
        None => ("a ", "value"),
    }
}

/// The table of a tool's words.
pub fn table_of(tool: &str) -> &'static [Group]
    ensures { plain_table result.now ≡ table_by tool.now }
{
    match tool_named(tool) {
        Some(tool) => tool.table(),
        None => patch_table(),
    }
}

fn row_of(table: &'static [Group], option: &str) -> Option<&'static Word> {
    for group in table {
        for word in group.words {
            if is_meant(word, option) {
                return Some(word);
            }
        }
    }
    None
}

/// Whether the option is this row's. A switch and what takes values are given by their names too.
fn is_meant(word: &Word, option: &str) -> bool {
    match (option.strip_prefix("--"), word.form, word.letter) {
        (Some(name), WordForm::Switch | WordForm::Value | WordForm::Values, _) => {
            *word.name == *name
        }
        (None, _, Some(letter)) => option.ends_with(letter),
        _ => false,
    }
}

/// The values of `--only-match`.
const SIDES: &str = "rem|add|mod|all";

/// What stands for the value in the text that tells the words, in words of its own where that is a letter or a name.
fn value_of(row: &'static Word) -> (&'static str, &'static str) {
    let behind = row.shown.rsplit_once('=').or(row.shown.rsplit_once(' '));
    let shown = match behind {
        Some((_, "WHAT")) => SIDES,
        Some((_, value)) => value,
        None => row.shown,
    };
    let noun = noun_of(shown, row.name);
    if noun.is_empty() {
        ("", shown)
    } else {
        ("a ", noun)
    }
}

/// The noun for a sign in that text, or nothing. A sign for any text stands for what the option is called.
fn noun_of(shown: &str, name: &'static str) -> &'static str {
    match shown {
        "N" => "number",
        "FILE" => "file",
        "DIR" => "directory",
        "NAME" => "name",
        "PAT" => "pattern",
        "RANGE" => "range",
        "S" => name,
        _ => "",
    }
}

/// The option at the front of a word that gives it its value too, and the value: `--strip` of `--strip=x`, `-Rp` of `-Rpx`.
pub fn with_value<'a>(tool: &str, word: &'a str) -> Option<(&'a str, &'a str)> {
    if word.starts_with("--") {
        return word.split_once('=');
    }
    match valued_end(table_of(tool), word) {
        Some(end) => word.split_at_checked(end),
        None => None,
    }
}

/// The end of the first letter of a word that takes a value, where something stands behind it.
fn valued_end(table: &'static [Group], word: &str) -> Option<usize> {
    if word.starts_with('-') {
        for end in 2..word.len() {
            match row_of(table, word.get(..end).unwrap_or("")) {
                Some(row) if matches!(row.form, WordForm::Value | WordForm::Values) => {
                    return Some(end);
                }
                _ => {}
            }
        }
    }
    None
}

/// Whether the tool has the option, or all those of its letters.
pub fn is_known(tool: &str, option: &str) -> bool {
    let table = table_of(tool);
    if !option.starts_with("--") {
        for end in 2..option.len() {
            if row_of(table, option.get(..end).unwrap_or(option)).is_none() {
                return false;
            }
        }
    }
    row_of(table, option).is_some()
}

/// The long name that begins so, behind so many others that do; empty where there is none.
pub fn name_from(tool: &str, front: &str, before: usize) -> &'static str {
    let mut left = before;
    for group in table_of(tool) {
        for word in group.words {
            if has_name(word) && word.name.starts_with(front) {
                if left == 0 {
                    return word.name;
                }
                left = left.saturating_sub(1);
            }
        }
    }
    for name in ["help", "version"].iter() {
        if name.starts_with(front) {
            if left == 0 {
                return name;
            }
            left = left.saturating_sub(1);
        }
    }
    ""
}

/// Whether the row's name is that of a long option.
fn has_name(word: &Word) -> bool {
    matches!(
        word.form,
        WordForm::Switch | WordForm::Value | WordForm::Values
    )
}
