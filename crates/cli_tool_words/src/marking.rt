//! What is told of the hunks that are written, by what was matched in the words.
ghost use Rattle.std.specs.Prelude.{◌≡◌, codes, option_and_then};
ghost use Rattle.patch_options.specs.Simple.{rows_in};
ghost use Rattle.patch_options.specs.Table.{has_form, text_of, value_of};
ghost use Rattle.cli_tool_words.specs.Marking.{are_marks, is_numbered, marks_of, numbered_of};

use crate::{Marks, Numbered};
use clap::ArgMatches;
use patch_options::{is_used, value_of};

/// What is told of hunks, if the words for it are lawful.
pub fn marks_in(matches: &ArgMatches<'_>) -> Marks
    ensures { result ≡ marks_of (rows_in matches.now) }
{
    Marks {
        annotate: is_used(matches, "annotate"),
        numbered: numbered_in(matches),
    }
}

/// Whether the words for it are lawful.
pub fn are_marks(matches: &ArgMatches<'_>) -> bool
    ensures { result ≡ are_marks (rows_in matches.now) }
{
    is_numbered(value_of(matches, "as-numbered-lines"))
}

fn is_numbered(text: Option<&str>) -> bool
    ensures { result ≡ has_form is_numbered (text_of text.entry) }
{
    match text {
        Some(text) => numbered_of(text).is_some(),
        None => true,
    }
}

fn numbered_in(matches: &ArgMatches<'_>) -> Option<Numbered>
    ensures { result ≡ option_and_then numbered_of (value_of (rows_in matches.now) (codes "as-numbered-lines")) }
{
    match value_of(matches, "as-numbered-lines") {
        Some(text) => numbered_of(text),
        None => None,
    }
}

/// The side that the text names.
#[tactic(auto, unfolding(crate::specs::Marking::numbered_of))]
fn numbered_of(text: &str) -> Option<Numbered>
    ensures { result ≡ numbered_of text.now }
{
    match text {
        "before" => Some(Numbered::Before),
        "after" => Some(Numbered::After),
        _ => None,
    }
}
