//! Which words are FILEs.
ghost use Rattle.std.specs.Prelude.{◌≡◌, ◌++◌, ◌<◌, map, length, option_map, string_bytes, IfSome, OnOk};
ghost use Rattle.std.specs.List.{list_any, position};
ghost use Rattle.clap.specs.Lexer.{strip_byte};
ghost use Rattle.patch_options.specs.Simple.{plain_table, plain_word};
ghost use Rattle.cli_tool_words.specs.Operands.{behind, has_letter, has_name, is_file, is_kept, is_letter, is_operand, is_option_by, kept_of, letters_want, still_leads, takes_value, wants_behind, wants_value, word_if};

use patch_options::{Group, Word, WordForm};
use std::alloc::{AllocError, Global};

/// What the next word may be.
#[derive(Clone, Copy)]
pub enum Next {
    /// An option, an operand, or `--`.
    Any,
    /// The value of the option in front of it.
    Value,
    /// An operand, since `--` stands in front.
    Operand,
}

/// Adds those of the words that are FILEs, or all but these, where a pattern leads or doesn't.
pub fn add_kept(
    alloc: Global,
    files: bool,
    table: &[Group],
    leads: bool,
    words: &[String],
    kept: &mut Vec<String>,
) -> Result<(), AllocError>
    ensures { OnOk result (map string_bytes kept.new.items ≡ map string_bytes kept.old.items ++ kept_of files (plain_table table.now) leads Next.Any (map string_bytes words.now)) }
{
    let mut leads = leads;
    let mut next = Next::Any;
    for word in words {
        let text = word.as_str();
        add_if(
            alloc,
            is_kept(files, is_file(leads, next, text)),
            text,
            kept,
        )?;
        leads = still_leads(leads, next, text);
        next = behind(table, next, text);
    }
    Ok(())
}

pub fn add_if(
    alloc: Global,
    is_kept: bool,
    word: &str,
    words: &mut Vec<String>,
) -> Result<(), AllocError>
    ensures { OnOk result (map string_bytes words.new.items ≡ map string_bytes words.old.items ++ word_if is_kept word.now) }
{
    if is_kept {
        let copy = String::from_str(alloc, word)?;
        words.push(copy)?;
    }
    Ok(())
}

fn is_kept(files: bool, is_file: bool) -> bool
    ensures { result ≡ is_kept files is_file }
{
    if files { is_file } else { !is_file }
}

/// Whether the word is a FILE, where a pattern leads or doesn't.
fn is_file(leads: bool, next: Next, word: &str) -> bool
    ensures { result ≡ is_file leads next word.now }
{
    is_operand(next, word) && !leads
}

fn still_leads(leads: bool, next: Next, word: &str) -> bool
    ensures { result ≡ still_leads leads next word.now }
{
    leads && !is_operand(next, word)
}

fn is_operand(next: Next, word: &str) -> bool
    ensures { result ≡ is_operand next word.now }
{
    match next {
        Next::Any => !is_option(word),
        Next::Value => false,
        Next::Operand => true,
    }
}

/// Whether something stands behind a hyphen.
fn is_option(word: &str) -> bool
    ensures { result ≡ is_option_by (strip_byte 45 word.now) }
{
    match behind_hyphen(word) {
        Some(rest) => !rest.is_empty(),
        None => false,
    }
}

pub fn behind_hyphen(word: &str) -> Option<&str>
    ensures { option_map (λ s. s.now) result ≡ strip_byte 45 word.now }
{
    word.strip_prefix('-')
}

/// What comes behind a word.
fn behind(table: &[Group], next: Next, word: &str) -> Next
    ensures { result ≡ behind (plain_table table.now) next word.now }
{
    match next {
        Next::Any => behind_any(table, word),
        Next::Value => Next::Any,
        Next::Operand => Next::Operand,
    }
}

fn behind_any(table: &[Group], word: &str) -> Next
    ensures { result ≡ behind (plain_table table.now) Next.Any word.now }
{
    if word == "--" {
        Next::Operand
    } else if wants_value(table, word) {
        Next::Value
    } else {
        Next::Any
    }
}

/// Whether the word is an option whose value is the next word.
fn wants_value(table: &[Group], word: &str) -> bool
    ensures { result ≡ wants_value (plain_table table.now) word.now }
{
    match behind_hyphen(word) {
        Some(rest) => wants_behind(table, rest),
        None => false,
    }
}

/// Whether an option wants the next word as its value, by what stands behind its hyphen.
fn wants_behind(table: &[Group], rest: &str) -> bool
    ensures { result ≡ wants_behind (plain_table table.now) rest.now (strip_byte 45 rest.now) }
{
    match behind_hyphen(rest) {
        Some(name) => is_valued(table, name),
        None => letters_want(table, rest.as_bytes()),
    }
}

/// Whether the first of these letters that takes a value is the last of them.
fn letters_want(table: &[Group], letters: &[u8]) -> bool
    ensures { result ≡ letters_want (plain_table table.now) letters.now }
{
    match first_valued(table, letters) {
        Some(place) => place + 1 == letters.len(),
        None => false,
    }
}

/// The place of the first letter that takes a value.
pub fn first_valued(table: &[Group], letters: &[u8]) -> Option<usize>
    ensures place { result ≡ position (λ byte. list_any (has_letter byte) (plain_table table.now)) letters.now }
    ensures bound { IfSome result (λ n. n < length letters.now) }
{
    letters
        .iter()
        .position(|byte| is_valued_letter(table, *byte))
}

fn is_valued_letter(table: &[Group], byte: u8) -> bool
    ensures { result ≡ list_any (has_letter byte) (plain_table table.now) }
{
    table.iter().any(|group| has_letter(group.words, byte))
}

fn has_letter(words: &[Word], byte: u8) -> bool
    ensures { result ≡ list_any (λ w. has_letter byte (plain_word w)) words.now }
{
    words.iter().any(|word| is_letter_of(word, byte))
}

fn is_letter_of(word: &Word, byte: u8) -> bool
    ensures { result ≡ has_letter byte (plain_word word.now) }
{
    takes_value(word.form) && is_letter(word.letter, byte)
}

fn is_letter(letter: Option<char>, byte: u8) -> bool
    ensures { result ≡ is_letter byte letter }
{
    match letter {
        Some(letter) => u32::from(byte) == u32::from(letter),
        None => false,
    }
}

/// Whether an option with this long name takes a value.
fn is_valued(table: &[Group], name: &str) -> bool
    ensures { result ≡ list_any (has_name name.now) (plain_table table.now) }
{
    table.iter().any(|group| has_name(group.words, name))
}

fn has_name(words: &[Word], name: &str) -> bool
    ensures { result ≡ list_any (λ w. has_name name.now (plain_word w)) words.now }
{
    words
        .iter()
        .any(|word| takes_value(word.form) && word.name == name)
}

fn takes_value(form: WordForm) -> bool
    ensures { result ≡ takes_value form }
{
    match form {
        WordForm::Value | WordForm::Values => true,
        WordForm::Switch | WordForm::Letter | WordForm::Operand => false,
    }
}
