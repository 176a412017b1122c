//! Which way the words go.
ghost use Rattle.std.specs.Prelude.{◌≡◌, map, string_bytes};
ghost use Rattle.patchkit.specs.Kinds.{kind_of, kind_by};

use cli_tool_words::{Tool, tool_named};

/// A tool's kind. The tools of one kind are carried out by one crate.
#[derive(Clone, Copy)]
pub enum ToolKind {
    /// `patch`, and words that name no tool.
    Patch,
    /// A filter, or `reversediff`.
    Filter,
    /// `patchgen`.
    Gen,
    /// `patchstack`.
    Stack,
}

/// The kind of the tool that the first word names.
pub fn kind_of(words: &[String]) -> ToolKind
    ensures { result ≡ kind_of (map string_bytes words.now) }
{
    match words {
        [first, ..] => kind_by(first.as_str()),
        [] => ToolKind::Patch,
    }
}

fn kind_by(word: &str) -> ToolKind
    ensures { result ≡ kind_by word.now }
{
    match tool_named(word) {
        Some(Tool::Patchgen) => ToolKind::Gen,
        Some(Tool::Patchstack) => ToolKind::Stack,
        Some(_) => ToolKind::Filter,
        None => ToolKind::Patch,
    }
}
