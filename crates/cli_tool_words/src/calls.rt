//! The calls that the words of a filter are: one for each FILE.
ghost use Rattle.std.specs.Prelude.{◌≡◌, ◌∷◌, ◌++◌, [], map, true, string_bytes, IfOk, OnOk};
ghost use Rattle.patch_options.specs.Forms.{is_front};
ghost use Rattle.cli_tool_words.specs.Calls.{asks_output, calls_by, calls_in, calls_of, calls_whole, each, has_lead, leads, is_labelled, operands_of, others_of, takes_files};

use crate::operands::{add_if, add_kept};
use crate::retooling::{asked_words, copied, give_file, is_front};
use crate::{Tool, tool_named};
use patch_options::whole_words;
use std::alloc::{AllocError, Global};

/// The calls that the words are, in the order of their FILEs. Words with one FILE are one call.
#[tactic(auto, unfolding(crate::specs::Calls::calls_of))]
pub fn calls_of(alloc: Global, words: &[String]) -> Result<Vec<Vec<String>>, AllocError>
    ensures { IfOk result (λ calls. map (λ c. map string_bytes c.items) calls.items ≡ calls_of (map string_bytes words.now)) }
{
    match asked_words(alloc, words) {
        Ok(asked) => calls_in(alloc, &asked),
        Err(error) => Err(error),
    }
}

/// The calls of words that name the tool that they ask for.
#[tactic(auto, unfolding(crate::specs::Calls::calls_in))]
fn calls_in(alloc: Global, words: &[String]) -> Result<Vec<Vec<String>>, AllocError>
    ensures { IfOk result (λ calls. map (λ c. map string_bytes c.items) calls.items ≡ calls_in (map string_bytes words.now)) }
{
    match words {
        [first, ..] => match tool_named(first.as_str()) {
            Some(tool) => calls_by(alloc, tool, words),
            None => one_call(alloc, words),
        },
        [] => one_call(alloc, words),
    }
}

/// Words that are one call.
fn one_call(alloc: Global, words: &[String]) -> Result<Vec<Vec<String>>, AllocError>
    ensures { IfOk result (λ calls. map (λ c. map string_bytes c.items) calls.items ≡ map string_bytes words.now ∷ []) }
{
    let mut calls = Vec::new(alloc);
    let call = copied(alloc, words)?;
    calls.push(call)?;
    Ok(calls)
}

#[tactic(auto, unfolding(crate::specs::Calls::calls_by))]
fn calls_by(alloc: Global, tool: Tool, words: &[String]) -> Result<Vec<Vec<String>>, AllocError>
    ensures { IfOk result (λ calls. map (λ c. map string_bytes c.items) calls.items ≡ calls_by tool (map string_bytes words.now)) }
{
    if takes_files(tool) {
        match whole_words(alloc, tool.table(), words) {
            Ok(whole) => calls_whole(alloc, tool, words, &whole),
            Err(error) => Err(error),
        }
    } else {
        one_call(alloc, words)
    }
}

/// The calls of words with whole long names.
fn calls_whole(
    alloc: Global,
    tool: Tool,
    words: &[String],
    whole: &[String],
) -> Result<Vec<Vec<String>>, AllocError>
    ensures { IfOk result (λ calls. map (λ c. map string_bytes c.items) calls.items ≡ calls_whole tool (map string_bytes words.now) (map string_bytes whole.now)) }
{
    match whole {
        [name, rest @ ..] => calls_behind(alloc, tool, words, name.as_str(), rest),
        [] => one_call(alloc, words),
    }
}

/// The calls, by the words behind the tool's name.
fn calls_behind(
    alloc: Global,
    tool: Tool,
    words: &[String],
    name: &str,
    rest: &[String],
) -> Result<Vec<Vec<String>>, AllocError>
    ensures { IfOk result (λ calls. map (λ c. map string_bytes c.items) calls.items ≡ each (map string_bytes words.now) (others_of tool name.now (map string_bytes rest.now)) (operands_of true tool (map string_bytes rest.now))) }
{
    let mut files = Vec::new(alloc);
    add_operands(alloc, true, tool, rest, &mut files)?;
    if files.len() < 2 {
        return one_call(alloc, words);
    }
    let others = others_of(alloc, tool, name, rest)?;
    with_files(alloc, &others, &files)
}

/// All words but the FILEs, with the label behind the name of the tool.
fn others_of(
    alloc: Global,
    tool: Tool,
    name: &str,
    rest: &[String],
) -> Result<Vec<String>, AllocError>
    ensures { IfOk result (λ others. map string_bytes others.items ≡ others_of tool name.now (map string_bytes rest.now)) }
{
    let mut others = Vec::new(alloc);
    add_if(alloc, true, name, &mut others)?;
    add_if(alloc, is_labelled(tool, rest), "-H", &mut others)?;
    add_operands(alloc, false, tool, rest, &mut others)?;
    Ok(others)
}

/// A call for each FILE.
fn with_files(
    alloc: Global,
    others: &[String],
    files: &[String],
) -> Result<Vec<Vec<String>>, AllocError>
    ensures { IfOk result (λ calls. map (λ c. map string_bytes c.items) calls.items ≡ map (λ f. map string_bytes others.now ++ f ∷ []) (map string_bytes files.now)) }
{
    let mut calls = Vec::new(alloc);
    for file in files {
        let call = with_file(alloc, others, file.as_str())?;
        calls.push(call)?;
    }
    Ok(calls)
}

fn with_file(alloc: Global, others: &[String], file: &str) -> Result<Vec<String>, AllocError>
    ensures { IfOk result (λ call. map string_bytes call.items ≡ map string_bytes others.now ++ file.now ∷ []) }
{
    let mut call = copied(alloc, others)?;
    add_if(alloc, true, file, &mut call)?;
    Ok(call)
}

/// Adds the words behind the tool's name that are FILEs, or all but these.
fn add_operands(
    alloc: Global,
    files: bool,
    tool: Tool,
    words: &[String],
    kept: &mut Vec<String>,
) -> Result<(), AllocError>
    ensures { OnOk result (map string_bytes kept.new.items ≡ map string_bytes kept.old.items ++ operands_of files tool (map string_bytes words.now)) }
{
    add_kept(alloc, files, tool.table(), leads(tool, words), words, kept)
}

fn is_labelled(tool: Tool, words: &[String]) -> bool
    ensures { result ≡ is_labelled tool (map string_bytes words.now) }
{
    match tool {
        Tool::Lsdiff => true,
        Tool::Grepdiff => !asks_output(words),
        _ => false,
    }
}

fn asks_output(words: &[String]) -> bool
    ensures { result ≡ asks_output (map string_bytes words.now) }
{
    words.iter().any(|word| is_front(b"--output-matching", word.as_str().as_bytes()))
}

fn takes_files(tool: Tool) -> bool
    ensures { result ≡ takes_files tool }
{
    match tool {
        Tool::Splitdiff | Tool::Patchgen | Tool::Reversediff | Tool::Patchstack => false,
        _ => true,
    }
}

fn has_lead(tool: Tool) -> bool
    ensures { result ≡ has_lead tool }
{
    matches!(tool, Tool::Grepdiff)
}

/// Whether a pattern leads in front of the FILEs.
fn leads(tool: Tool, words: &[String]) -> bool
    ensures { result ≡ leads tool (map string_bytes words.now) }
{
    has_lead(tool) && !give_file(tool.table(), words)
}
