//! What the lines in front of an opening say.

ghost use Rattle.std.specs.Prelude.{◌≡◌, ◌<◌, ◌^◌, false, List, [], ℕ, length, IfSome};
ghost use Rattle.patch_header.specs.Region.{old_tail, new_tail, LiesIn, AllLieIn};
ghost use Rattle.patch_header.specs.Values.{IsPieceOf};
ghost use Rattle.patch_header.specs.GitRows.{git_lines_in, seen_by};
ghost use Rattle.patch_header.specs.Said.{SaysWithin};
ghost use Rattle.patch_header.specs.Steps.{names_line, HasPieces, IsUnled};
ghost use Rattle.patch_header.specs.Kept.{opening_said};

use crate::git_lines::{GitLines, action_of, from_in, to_in};
use crate::git_names::git_name;
use crate::region::{LastHeaderLines, Tail};
use crate::values::{index_in, name_in, stamp_in, whole_in, word_in};
use hunk_core::Form;
use line_list::Span;
use read_header_record::Header;

fn names_line(tail: Option<Tail>, name: Option<Span>, opening: u64) -> u64
    ensures { result ≡ names_line tail name opening }
{
    match tail {
        None => opening,
        Some(tail) => match name {
            None => opening,
            Some(_) => tail.number,
        },
    }
}

/// What names the file: where a git header stands directly in front, its git line alone, as an `Index:` line would.
pub fn seen_by(text: &[u8], direct: bool, seen: LastHeaderLines) -> LastHeaderLines
    requires { AllLieIn text.now seen }
    ensures is { result ≡ seen_by text.now direct seen }
    ensures lies { AllLieIn text.now result }
{
    if !direct {
        return seen;
    }
    LastHeaderLines {
        minus: None,
        plus: None,
        stars: None,
        index: git_name(text, seen.git),
        prereq: seen.prereq,
        git: seen.git,
    }
}

fn old_tail(form: Form, seen: LastHeaderLines) -> Option<Tail>
    ensures is { result ≡ old_tail form seen }
    ensures lies { (text : List ℕ) → AllLieIn text seen → IfSome result (LiesIn text) }
{
    match form {
        Form::Unified => seen.minus,
        Form::Context => seen.stars,
        Form::Normal | Form::Ed => None,
    }
}

fn new_tail(form: Form, seen: LastHeaderLines) -> Option<Tail>
    ensures is { result ≡ new_tail form seen }
    ensures lies { (text : List ℕ) → AllLieIn text seen → IfSome result (LiesIn text) }
{
    match form {
        Form::Unified => seen.plus,
        Form::Context => seen.minus,
        Form::Normal | Form::Ed => None,
    }
}

/// The header of an opening at this place, whose line has this number.
pub fn header_of(
    text: &[u8],
    form: Form,
    at: usize,
    opening: u64,
    seen: LastHeaderLines,
    led: GitLines,
) -> Header
    requires short { length text.now < 2 ^ 32 }
    requires lies { AllLieIn text.now seen }
    requires led { SaysWithin text.now led }
    ensures form { result.form ≡ form }
    ensures at { result.at ≡ at }
    ensures opening { result.opening ≡ opening }
    ensures bare { result.bare ≡ false }
    ensures plain { led ≡ git_lines_in [] → IsUnled result }
    ensures says { result ≡ opening_said text.now form at opening seen led }
    ensures pieces { HasPieces text.now result }
{
    let old = old_tail(form, seen);
    let new = new_tail(form, seen);
    let old_name = name_in(text, old);
    Header {
        form,
        at,
        opening,
        names_line: names_line(old, old_name, opening),
        old_name,
        new_name: name_in(text, new),
        index: index_in(text, seen.index),
        prereq: word_in(text, seen.prereq),
        old_stamp: stamp_in(text, old),
        new_stamp: stamp_in(text, new),
        action: action_of(led),
        bare: false,
        from: from_in(text, led),
        to: to_in(text, led),
        old_mode: whole_in(text, led.old_mode),
        new_mode: whole_in(text, led.new_mode),
    }
}
