//! Simple commands: the table of a tool's words, and what `clap` matches by it.
ghost use Rattle.std.specs.Prelude.{◌≡◌, ◌≢◌, ◌⊎◌, ℕ, List, Option, Some, map, string_bytes, true, false, option_map, IfOk, IfErr};
ghost use Rattle.clap.specs.Words.{Row, Text, app_of, is_simple_and_free, kind_of, new_rule, rule_of};
ghost use Rattle.patch_options.specs.Repeats.{HasOne, with_switch, with_value};
ghost use Rattle.patch_options.specs.Table.{is_used, value_of};
ghost use Rattle.patch_options.specs.declared.simple.WordForm.TheVariants.{Switch, Value};
ghost use Rattle.patch_options.specs.Simple.{a_word, plain_word, plain_table, with_rules, word_rule, simple_command, takes, rows_by, rows_in, values_of};

use crate::WordFault;
use clap::error::ErrorKind;
use clap::{Arg, ArgAction, ArgMatches, Command, Error};
use std::alloc::{AllocError, Global};

/// How a word is given.
#[derive(Clone, Copy)]
pub enum WordForm {
    /// A switch, whose uses are counted.
    Switch,
    /// A switch that has a letter alone.
    Letter,
    /// An option with a value. Its last value counts.
    Value,
    /// An option whose values all count.
    Values,
    /// An operand. Operands stand in the order of their rows.
    Operand,
}

/// A row of the table of a tool's words.
#[derive(Clone, Copy)]
pub struct Word {
    pub form: WordForm,
    pub letter: Option<char>,
    /// By it uses and values are found. It is the long name of what isn't a letter or an operand.
    pub name: &'static str,
    /// How it is given, in the text that tells the words.
    pub shown: &'static str,
    /// What it gives, in that text: a line of up to 50 bytes, or more of them, each but the first behind 30 spaces.
    pub help: &'static str,
}

/// Rows that stand together in that text. A table is its groups one behind the other.
#[derive(Clone, Copy)]
pub struct Group {
    /// The line above them, with its line feed; empty where there is none.
    pub heading: &'static str,
    pub words: &'static [Word],
}

/// What the simple command with this table matches in the words, the first of which names the tool.
pub fn matched_by<'a>(
    alloc: Global,
    name: &'a str,
    table: &'a [Group],
    words: &'a [String],
) -> Result<ArgMatches<'a>, WordFault>
    requires { is_simple_and_free (simple_command name.now (plain_table table.now)) ≡ true }
    ensures taken { IfOk result (λ m. takes (simple_command name.entry.now (plain_table table.entry.now)) (map string_bytes words.entry.now) ≡ true) }
    ensures rows { IfOk result (λ m. rows_in m ≡ rows_by (simple_command name.entry.now (plain_table table.entry.now)) (map string_bytes words.entry.now)) }
    ensures refused { IfErr result (λ fault. (fault ≡ WordFault.Memory) ⊎ ((fault ≡ WordFault.Usage) × (takes (simple_command name.entry.now (plain_table table.entry.now)) (map string_bytes words.entry.now) ≡ false))) }
{
    let command = match command_of(alloc, name, table) {
        Ok(command) => command,
        Err(_) => return Err(WordFault::Memory),
    };
    match command.try_get_matches_from(words) {
        Ok(matches) => Ok(matches),
        Err(error) => Err(why_refused(&error)),
    }
}

/// Why `clap` refuses words.
pub fn why_refused(error: &Error) -> WordFault
    ensures { (result ≡ WordFault.Memory) ⊎ ((result ≡ WordFault.Usage) × (kind_of error.now ≢ ErrorKind.OutOfMemory)) }
{
    match error.kind() {
        ErrorKind::OutOfMemory => WordFault::Memory,
        _ => WordFault::Usage,
    }
}

/// The simple command, without help and version flags and with no rules between its arguments. A value that is given again counts.
fn command_of<'a>(
    alloc: Global,
    name: &'a str,
    table: &'a [Group],
) -> Result<Command<'a>, AllocError>
    ensures { IfOk result (λ c. app_of c ≡ simple_command name.entry.now (plain_table table.entry.now)) }
{
    let mut command = Command::new(alloc, name)
        .disable_help_flag(true)
        .args_override_self(true);
    for group in table {
        command = match with_words(alloc, command, group.words) {
            Ok(longer) => longer,
            Err(error) => return Err(error),
        };
    }
    Ok(command)
}

/// The command with these words behind its own.
fn with_words<'a>(
    alloc: Global,
    command: Command<'a>,
    words: &'a [Word],
) -> Result<Command<'a>, AllocError>
    ensures { IfOk result (λ c. app_of c ≡ with_rules (app_of command.entry) (map word_rule (map plain_word words.entry.now))) }
{
    let mut command = command;
    for word in words {
        command = match command.arg(argument_of(alloc, word)) {
            Ok(longer) => longer,
            Err(error) => return Err(error),
        };
    }
    Ok(command)
}

/// The argument that a row describes.
fn argument_of<'a>(alloc: Global, word: &'a Word) -> Arg<'a>
    ensures rule { rule_of result ≡ word_rule (plain_word word.entry.now) }
    ensures local { result.global ≡ false }
{
    match word.form {
        WordForm::Switch => lettered(alloc, word)
            .long(word.name)
            .action(ArgAction::Count),
        WordForm::Letter => lettered(alloc, word).action(ArgAction::Count),
        WordForm::Value => lettered(alloc, word).long(word.name),
        WordForm::Values => lettered(alloc, word)
            .long(word.name)
            .action(ArgAction::Append),
        WordForm::Operand => lettered(alloc, word),
    }
}

/// An argument by its name, with its letter.
fn lettered<'a>(alloc: Global, word: &'a Word) -> Arg<'a>
    ensures rule { rule_of result ≡ record (new_rule word.entry.now.name.now) { short = word.entry.now.letter } }
    ensures local { result.global ≡ false }
{
    match word.letter {
        Some(letter) => Arg::new(alloc, word.name).short(letter),
        None => Arg::new(alloc, word.name),
    }
}

/// An option that is given again is as if its first value hadn't been given, and a switch that is given is used, however often. A name
/// is matched in one row at most, which stays so.
pub fn last_values_count()
    ensures again { (place : ℕ) (letter : Option ℕ) (name first last : Text) (rows : List Row) → HasOne name rows → with_value place (a_word Value letter name) last (with_value place (a_word Value letter name) first rows) ≡ with_value place (a_word Value letter name) last rows }
    ensures value { (place : ℕ) (letter : Option ℕ) (name value : Text) (rows : List Row) → HasOne name rows → value_of (with_value place (a_word Value letter name) value rows) name ≡ Some value }
    ensures one { (place : ℕ) (letter : Option ℕ) (name value : Text) (rows : List Row) → HasOne name rows → HasOne name (with_value place (a_word Value letter name) value rows) }
    ensures switch { (place : ℕ) (letter : Option ℕ) (name : Text) (rows : List Row) → HasOne name rows → is_used (with_switch place (a_word Switch letter name) rows) name ≡ true }
{}

/// All values of an option in their order, if it was given.
pub fn values_of<'m, 'a>(matches: &'m ArgMatches<'a>, name: &str) -> Option<&'m [&'a str]>
    ensures { option_map (λ s. map (λ v. v.now) s.now) result ≡ values_of (rows_in matches.entry.now) name.now }
{
    matches.get_strs(name)
}
