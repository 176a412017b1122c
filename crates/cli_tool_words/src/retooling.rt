//! Words that make one of three tools of another one, and those that give a file of patterns.
ghost use Rattle.std.specs.Prelude.{◌≡◌, ◌++◌, ◌&&◌, ◌||◌, false, not, map, string_bytes, if◌then◌else◌, IfOk, OnOk};
ghost use Rattle.clap.specs.Lexer.{strip_byte};
ghost use Rattle.patch_options.specs.Forms.{is_front};
ghost use Rattle.patch_options.specs.Simple.{plain_table};
ghost use Rattle.cli_tool_words.specs.Retooling.{asked_by, asked_words, give_file, gives_file, gives_file_behind, is_ended, is_file_name, is_sieve, leads_to_file, names_tool, others_in, retooled, tool_asked, tool_by};

use crate::operands::{add_if, behind_hyphen, first_valued};
use crate::{Tool, tool_named};
use patch_options::Group;
use std::alloc::{AllocError, Global};

/// The words with the name of the tool that they ask for in front: `lsdiff --filter` is `filterdiff`.
#[tactic(auto, unfolding(crate::specs::Retooling::asked_words))]
pub fn asked_words(alloc: Global, words: &[String]) -> Result<Vec<String>, AllocError>
    ensures { IfOk result (λ asked. map string_bytes asked.items ≡ asked_words (map string_bytes words.now)) }
{
    match words {
        [first, rest @ ..] => match tool_named(first.as_str()) {
            Some(tool) => asked_by(alloc, tool, words, rest),
            None => copied(alloc, words),
        },
        [] => copied(alloc, words),
    }
}

fn asked_by(
    alloc: Global,
    tool: Tool,
    words: &[String],
    rest: &[String],
) -> Result<Vec<String>, AllocError>
    ensures { IfOk result (λ asked. map string_bytes asked.items ≡ asked_by tool (map string_bytes words.now) (map string_bytes rest.now)) }
{
    if is_sieve(tool) {
        return retooled(alloc, tool_asked(tool, rest), rest);
    }
    copied(alloc, words)
}

pub fn copied(alloc: Global, words: &[String]) -> Result<Vec<String>, AllocError>
    ensures { IfOk result (λ copy. map string_bytes copy.items ≡ map string_bytes words.now) }
{
    let mut copy = Vec::new(alloc);
    for word in words {
        add_if(alloc, true, word.as_str(), &mut copy)?;
    }
    Ok(copy)
}

fn is_sieve(tool: Tool) -> bool
    ensures { result ≡ is_sieve tool }
{
    matches!(tool, Tool::Lsdiff | Tool::Filterdiff | Tool::Grepdiff)
}

fn is_ended(ended: bool, word: &str) -> bool
    ensures { result ≡ is_ended ended word.now }
{
    ended || word == "--"
}

/// The tool that the words behind the name of one make of it.
fn tool_asked(tool: Tool, words: &[String]) -> Tool
    ensures { result ≡ tool_asked false tool (map string_bytes words.now) }
{
    let mut asked = tool;
    let mut ended = false;
    for word in words {
        let text = word.as_str();
        ended = is_ended(ended, text);
        asked = tool_unless(ended, asked, text);
    }
    asked
}

fn tool_unless(ended: bool, tool: Tool, word: &str) -> Tool
    ensures { result ≡ (if ended then tool else tool_by tool word.now) }
{
    if ended { tool } else { tool_by(tool, word) }
}

#[tactic(auto, unfolding(crate::specs::Retooling::tool_by))]
fn tool_by(tool: Tool, word: &str) -> Tool
    ensures { result ≡ tool_by tool word.now }
{
    match word {
        "--list" => Tool::Lsdiff,
        "--filter" => Tool::Filterdiff,
        "--grep" => Tool::Grepdiff,
        _ => tool,
    }
}

#[tactic(auto, unfolding(crate::specs::Retooling::names_tool))]
fn names_tool(word: &str) -> bool
    ensures { result ≡ names_tool word.now }
{
    word == "--list" || (word == "--filter" || word == "--grep")
}

/// The name of the tool, and the words that don't name one.
fn retooled(alloc: Global, tool: Tool, words: &[String]) -> Result<Vec<String>, AllocError>
    ensures { IfOk result (λ made. map string_bytes made.items ≡ retooled tool (map string_bytes words.now)) }
{
    let mut made = Vec::new(alloc);
    add_if(alloc, true, tool.name(), &mut made)?;
    add_others(alloc, words, &mut made)?;
    Ok(made)
}

/// Adds the words that don't name a tool.
fn add_others(alloc: Global, words: &[String], made: &mut Vec<String>) -> Result<(), AllocError>
    ensures { OnOk result (map string_bytes made.new.items ≡ map string_bytes made.old.items ++ others_in false (map string_bytes words.now)) }
{
    let mut ended = false;
    for word in words {
        let text = word.as_str();
        ended = is_ended(ended, text);
        add_if(alloc, is_other(ended, text), text, made)?;
    }
    Ok(())
}

fn is_other(ended: bool, word: &str) -> bool
    ensures { result ≡ (ended || not (names_tool word.now)) }
{
    ended || !names_tool(word)
}

/// Whether one of the words gives a file of patterns.
pub fn give_file(table: &[Group], words: &[String]) -> bool
    ensures { result ≡ give_file (plain_table table.now) false (map string_bytes words.now) }
{
    let mut ended = false;
    for word in words {
        let text = word.as_str();
        ended = is_ended(ended, text);
        if is_file_word(table, ended, text) {
            return true;
        }
    }
    false
}

fn is_file_word(table: &[Group], ended: bool, word: &str) -> bool
    ensures { result ≡ (not ended && gives_file (plain_table table.now) word.now) }
{
    !ended && gives_file(table, word)
}

fn gives_file(table: &[Group], word: &str) -> bool
    ensures { result ≡ gives_file (plain_table table.now) word.now }
{
    match behind_hyphen(word) {
        Some(rest) => gives_file_behind(table, rest),
        None => false,
    }
}

/// Whether an option gives a file of patterns, by what stands behind its hyphen.
fn gives_file_behind(table: &[Group], rest: &str) -> bool
    ensures { result ≡ gives_file_behind (plain_table table.now) rest.now (strip_byte 45 rest.now) }
{
    match behind_hyphen(rest) {
        Some(name) => is_file_name(name),
        None => leads_to_file(table, rest.as_bytes()),
    }
}

/// Whether the bytes begin so.
#[tactic(auto, unfolding(patch_options::specs::Forms::is_front))]
pub fn is_front(front: &[u8], bytes: &[u8]) -> bool
    ensures { result ≡ is_front front.now bytes.now }
{
    bytes.starts_with(front)
}

fn is_file_name(name: &str) -> bool
    ensures { result ≡ is_file_name name.now }
{
    name == "file" || is_front(b"file=", name.as_bytes())
}

/// Whether the first of these letters that takes a value is that of a file.
fn leads_to_file(table: &[Group], letters: &[u8]) -> bool
    ensures { result ≡ leads_to_file (plain_table table.now) letters.now }
{
    match first_valued(table, letters) {
        Some(place) => is_front(b"f", &letters[place..]),
        None => false,
    }
}
