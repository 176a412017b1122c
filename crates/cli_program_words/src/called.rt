//! How the program was called: by a tool's name, as through a link, or by its own with the tool as the first word.

use crate::behind::word_at;
use crate::unfit::added;
use cli_tool_words::asked_words;
use std::alloc::{AllocError, Global};
use std::env::{Args, Env};
use std::{env, io};

/// The program's own name, where there is no tool's.
const KIT: &str = "patchkit";

/// More than the longest path has.
const LONGEST: usize = 4_096;

/// The tool of this name.
fn tool_named(word: &str) -> Option<&'static str> {
    match cli_tool_words::tool_named(word) {
        Some(tool) => Some(tool.name()),
        None if matches!(word, "patch") => Some("patch"),
        None => None,
    }
}

/// The words of the run: the tool, if there is one, and the words behind it. A tool that the words make another one is that, in messages too.
pub fn words_of<R: Env + AllocGlobal>(rt: &R) -> io::Result<Vec<String>> {
    match asked_in(rt.alloc(), env::args(rt)?) {
        Ok(words) => Ok(words),
        Err(error) => Err(io::Error::from(error)),
    }
}

fn asked_in(alloc: Global, called: Args) -> Result<Vec<String>, AllocError> {
    let words = words_in(alloc, called)?;
    let asked = asked_words(alloc, &words);
    drop(words);
    asked
}

/// The words. The first is a path, of which just the tool is taken that it names, if it does.
fn words_in(alloc: Global, called: Args) -> Result<Vec<String>, AllocError> {
    let mut called = called;
    let mut words = Vec::new(alloc);
    let path = called.next().unwrap_or(String::new(alloc));
    if let Some(tool) = tool_named(last_component(path.as_str())) {
        added(alloc, &mut words, tool)?;
    }
    words.extend(called)?;
    Ok(words)
}

/// The tool for a message, or the program's own name where the first word is no tool.
pub fn tool_of(words: &[String]) -> &'static str {
    tool_called(word_at(words, 0))
}

/// The tool for a message by the first word.
pub fn tool_called(first: &str) -> &'static str {
    tool_named(first).unwrap_or(KIT)
}

/// The tool for a message where the words can't be had.
pub fn called_tool<R: Env>(rt: &R) -> &'static str {
    match tool_at(rt, 0) {
        Some(tool) => tool,
        None => tool_at(rt, 1).unwrap_or(KIT),
    }
}

/// The tool that an argument names, as the last component of a path.
fn tool_at<R: Env>(rt: &R, place: usize) -> Option<&'static str> {
    let mut buffer = [0u8; LONGEST];
    match rt.arg(place, &mut buffer) {
        Ok(count) => match std::str::from_utf8(&buffer[..count]) {
            Ok(path) => tool_named(last_component(path)),
            Err(_) => None,
        },
        Err(_) => None,
    }
}

fn last_component(path: &str) -> &str {
    match path.rsplit_once('/') {
        Some((_, last)) => last,
        None => path,
    }
}
