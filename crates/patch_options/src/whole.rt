//! Words whose long names are cut short, with whole ones.
ghost use Rattle.std.specs.Prelude.{◌≡◌, ◌&&◌, ◌++◌, ◌<◌, not, codes, List, flat_map, length, map, option_map, string_bytes, if◌then◌else◌, bytes_eq, IfOk, IfSome, OnOk};
ghost use Rattle.std.specs.List.{filter, list_any, position};
ghost use Rattle.clap.specs.Lexer.{strip_byte, name_and_value, long_of};
ghost use Rattle.patch_options.specs.Forms.{is_front};
ghost use Rattle.clap.specs.Words.{Text};
ghost use Rattle.patch_options.specs.Simple.{PlainWord, plain_word, plain_table};
ghost use Rattle.patch_options.specs.Table.{text_of};
ghost use Rattle.patch_options.specs.Whole.{AreWhole, long_name, long_names, sole, spelled, whole_name, whole_word, whole_words};

use crate::forms::is_front;
use crate::{Group, Word, WordForm};
use std::alloc::{AllocError, Global};

/// The words, in front of `--` with whole names where one is cut short.
pub fn whole_words(
    alloc: Global,
    table: &[Group],
    words: &[String],
) -> Result<Vec<String>, AllocError>
    ensures { IfOk result (λ whole. map string_bytes whole.items ≡ whole_words (plain_table table.now) (map string_bytes words.now)) }
{
    let names = long_names(alloc, table)?;
    let mut whole = Vec::new(alloc);
    let mut is_open = true;
    for word in words {
        let text = word.as_str();
        is_open = stays_open(is_open, text);
        whole.push(next_word(alloc, &names, text, is_open)?)?;
    }
    Ok(whole)
}

/// Words whose long names are whole stay as they are.
pub fn whole_words_stay()
    ensures { (table : List PlainWord) (words : List Text) → AreWhole (long_names table) words → whole_words table words ≡ words }
{}

/// The long names of a tool.
#[tactic(auto, unfolding(crate::specs::Whole::long_names))]
fn long_names(alloc: Global, table: &[Group]) -> Result<Vec<&'static str>, AllocError>
    ensures { IfOk result (λ names. map (λ n. n.now) names.items ≡ long_names (plain_table table.now)) }
{
    let mut names = Vec::new(alloc);
    names.push("help")?;
    names.push("version")?;
    for group in table {
        add_names(&mut names, group.words)?;
    }
    Ok(names)
}

fn add_names(names: &mut Vec<&'static str>, words: &[Word]) -> Result<(), AllocError>
    ensures { OnOk result (map (λ n. n.now) names.new.items ≡ map (λ n. n.now) names.old.items ++ flat_map (λ w. long_name (plain_word w)) words.now) }
{
    for word in words {
        add_name(names, word)?;
    }
    Ok(())
}

fn add_name(names: &mut Vec<&'static str>, word: &Word) -> Result<(), AllocError>
    ensures { OnOk result (map (λ n. n.now) names.new.items ≡ map (λ n. n.now) names.old.items ++ long_name (plain_word word.now)) }
{
    match word.form {
        WordForm::Letter | WordForm::Operand => {}
        WordForm::Switch | WordForm::Value | WordForm::Values => names.push(word.name)?,
    }
    Ok(())
}

/// Whether no word was `--` yet, with one more.
fn stays_open(was_open: bool, word: &str) -> bool
    ensures { result ≡ (was_open && not (bytes_eq word.now (codes "--"))) }
{
    was_open && word != "--"
}

/// A word as it is, or with its long name whole.
fn next_word(alloc: Global, names: &[&str], word: &str, is_open: bool) -> Result<String, AllocError>
    ensures { IfOk result (λ next. string_bytes next ≡ (if is_open then whole_word (map (λ n. n.now) names.now) word.now else word.now)) }
{
    if is_open {
        whole_word(alloc, names, word)
    } else {
        String::from_str(alloc, word)
    }
}

fn whole_word(alloc: Global, names: &[&str], word: &str) -> Result<String, AllocError>
    ensures { IfOk result (λ whole. string_bytes whole ≡ whole_word (map (λ n. n.now) names.now) word.now) }
{
    match long_of(word) {
        Some((name, value)) => spelled(alloc, whole_name(names, name), value),
        None => String::from_str(alloc, word),
    }
}

/// `--name` or `--name=value`.
fn spelled(alloc: Global, name: &str, value: Option<&str>) -> Result<String, AllocError>
    ensures { IfOk result (λ word. string_bytes word ≡ spelled name.now (text_of value.entry)) }
{
    let mut word = String::from_str(alloc, "--")?;
    word.push_str(name)?;
    if let Some(value) = value {
        word.push_str("=")?;
        word.push_str(value)?;
    }
    Ok(word)
}

/// The name that stands for the text. `strip` stands for no other one: filters of patchutils have it beside `strip-match`.
#[tactic(auto, unfolding(crate::specs::Whole::whole_name))]
fn whole_name<'t>(names: &[&'t str], text: &'t str) -> &'t str
    ensures { result.now ≡ whole_name (map (λ n. n.now) names.now) text.now }
{
    if is_among(names, text) {
        return text;
    }
    if text == "strip" {
        return text;
    }
    sole_name(names, text).unwrap_or(text)
}

fn is_among(names: &[&str], text: &str) -> bool
    ensures { result ≡ list_any (λ name. bytes_eq name.now text.now) names.now }
{
    names.iter().any(|name| *name == text)
}

/// The only name that begins so.
fn sole_name<'t>(names: &[&'t str], text: &str) -> Option<&'t str>
    ensures { text_of result ≡ sole (filter (is_front text.now) (map (λ n. n.now) names.now)) }
{
    match first_so(names, text) {
        Some(first) => {
            if is_one_so(&names[first + 1..], text) {
                None
            } else {
                Some(names[first])
            }
        }
        None => None,
    }
}

/// The place of the first name that begins so.
fn first_so(names: &[&str], text: &str) -> Option<usize>
    ensures place { result ≡ position (λ name. is_front text.now name.now) names.now }
    ensures bound { IfSome result (λ n. n < length names.now) }
{
    names.iter().position(|name| is_front(text, name))
}

/// Whether a name begins so.
fn is_one_so(names: &[&str], text: &str) -> bool
    ensures { result ≡ list_any (λ name. is_front text.now name.now) names.now }
{
    names.iter().any(|name| is_front(text, name))
}

/// The name and the value of `--name` or `--name=value`.
fn long_of(word: &str) -> Option<(&str, Option<&str>)>
    ensures { option_map (λ p. (p.0.now, option_map (λ s. s.now) p.1)) result ≡ long_of word.now }
{
    let rest = behind_hyphen(behind_hyphen(word)?)?;
    if rest.is_empty() {
        return None;
    }
    Some(name_and_value(rest))
}

fn behind_hyphen(word: &str) -> Option<&str>
    ensures { option_map (λ s. s.now) result ≡ strip_byte 45 word.now }
{
    word.strip_prefix('-')
}

/// What stands before the first `=`, and what stands behind it.
fn name_and_value(text: &str) -> (&str, Option<&str>)
    ensures { (result.0.now, option_map (λ s. s.now) result.1) ≡ name_and_value text.now }
{
    match text.split_once('=') {
        Some((name, value)) => (name, Some(value)),
        None => (text, None),
    }
}
