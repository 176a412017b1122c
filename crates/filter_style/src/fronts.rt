//! The lines in front of the hunks of a file patch.

ghost use Rattle.std.specs.Prelude.{◌≡◌, ◌++◌, ◌&&◌, ◌||◌, true, codes, false, OnOk};
ghost use Rattle.line_list.specs.Lines.{IsLineAt, lines};
ghost use Rattle.cli_tool_words.specs.PlainJobs.{plain_style};
ghost use Rattle.filter_style.specs.Names.{begins};
ghost use Rattle.filter_style.specs.Fronts.{all_parts, front, is_before, is_git_line, is_index_line, is_last, is_mode_line, is_move_line, is_pair, line_at, lines_behind, names_behind, own_line, place_if, place_of, side_front, side_parts, text_front, text_parts};

use crate::names::{NextName, put, put_diff_line, put_header_line};
use cli_tool_words::{Numbered, Style};
use hunk_core::Form;
use line_list::next_line;
use std::alloc::AllocError;

/// What a line in front of the hunks is.
#[derive(Clone, Copy)]
pub enum FrontLineKind {
    /// Text that isn't the file patch's own.
    Text,
    /// A line of a git block.
    Own,
    OldName,
    NewName,
}

/// Which lines in front of hunks are written.
#[derive(Clone, Copy)]
pub struct Parts {
    pub text: bool,
    /// Lines of a git block.
    pub own: bool,
    /// The header line of the old side.
    pub old: bool,
    pub new: bool,
}

/// Whether the text is one line that begins so.
fn is_last(mark: &[u8], rest: &[u8]) -> bool
    ensures { result ≡ is_last mark.now (lines rest.now) }
{
    match next_line(rest, 0) {
        Some(end) => begins_last(mark, rest, end),
        None => false,
    }
}

/// Whether the line that ends at a place begins so.
fn begins_last(mark: &[u8], rest: &[u8], end: usize) -> bool
    requires { IsLineAt rest.now 0 end }
    ensures { result ≡ is_last mark.now (lines rest.now) }
{
    match next_line(rest, end) {
        Some(_) => false,
        None => rest[..end].starts_with(mark),
    }
}

/// Whether the line and the text behind it are the two header lines.
fn is_pair(form: Form, line: &[u8], rest: &[u8]) -> bool
    ensures { result ≡ is_pair form line.now (lines rest.now) }
{
    match form {
        Form::Unified => line.starts_with(b"--- ") && is_last(b"+++ ", rest),
        Form::Context => line.starts_with(b"*** ") && is_last(b"--- ", rest),
        Form::Normal | Form::Ed => false,
    }
}

fn is_mode_line(line: &[u8]) -> bool
    ensures { result ≡ is_mode_line line.now }
{
    (line.starts_with(b"old mode ") || line.starts_with(b"new mode "))
        || (line.starts_with(b"deleted file mode ") || line.starts_with(b"new file mode "))
}

fn is_move_line(line: &[u8]) -> bool
    ensures { result ≡ is_move_line line.now }
{
    (line.starts_with(b"copy from ") || line.starts_with(b"copy to "))
        || (line.starts_with(b"rename from ") || line.starts_with(b"rename to "))
}

fn is_index_line(line: &[u8]) -> bool
    ensures { result ≡ is_index_line line.now }
{
    line.starts_with(b"index ")
        || (line.starts_with(b"similarity index ") || line.starts_with(b"dissimilarity index "))
}

fn is_git_line(line: &[u8]) -> bool
    ensures { result ≡ is_git_line line.now }
{
    is_mode_line(line) || (is_move_line(line) || is_index_line(line))
}

/// Whether the line may stand in front of the two header lines, where any may or lines of git alone.
fn passes(any: bool, line: &[u8]) -> bool
    ensures { result ≡ (any || is_git_line line.now) }
{
    any || is_git_line(line)
}

/// Whether the two header lines end the text, in front of which any lines stand, or lines of git alone.
fn names_behind(form: Form, any: bool, text: &[u8]) -> bool
    ensures { result ≡ names_behind form any (lines text.now) }
{
    let mut at = 0;
    'lines: while let Some(end) = next_line(text, at) {
        let line = &text[at..end];
        if is_pair(form, line, &text[end..]) {
            return true;
        }
        if !passes(any, line) {
            return false;
        }
        at = end;
    }
    false
}

/// Whether the line begins a git block, which the two header lines follow.
fn leads(form: Form, line: &[u8], rest: &[u8]) -> bool
    ensures { result ≡ (begins (codes "diff ") line.now && names_behind form false (lines rest.now)) }
{
    line.starts_with(b"diff ") && names_behind(form, false, rest)
}

fn place_if(before: FrontLineKind, pair: bool, leads: bool) -> FrontLineKind
    ensures { result ≡ place_if before pair leads }
{
    if pair {
        FrontLineKind::OldName
    } else if leads {
        FrontLineKind::Own
    } else {
        before
    }
}

/// What a line is, by what the one in front of it is and the text behind it.
fn place_of(form: Form, before: FrontLineKind, line: &[u8], rest: &[u8]) -> FrontLineKind
    ensures { result ≡ place_of form before line.now (lines rest.now) }
{
    match before {
        FrontLineKind::OldName | FrontLineKind::NewName => FrontLineKind::NewName,
        FrontLineKind::Text => place_if(
            FrontLineKind::Text,
            is_pair(form, line, rest),
            leads(form, line, rest),
        ),
        FrontLineKind::Own => place_if(
            FrontLineKind::Own,
            is_pair(form, line, rest),
            leads(form, line, rest),
        ),
    }
}

/// Puts a line of a git block down.
fn put_own_line(out: &mut Vec<u8>, style: &Style, line: &[u8]) -> Result<(), AllocError>
    ensures { OnOk result (out.new.items ≡ out.old.items ++ own_line (plain_style style.now) line.now) }
{
    if line.starts_with(b"diff ") {
        return put_diff_line(out, style, line);
    }
    put(out, line)
}

/// Puts down what is written of a line.
fn put_line(
    out: &mut Vec<u8>,
    style: &Style,
    parts: Parts,
    place: FrontLineKind,
    line: &[u8],
) -> Result<(), AllocError>
    ensures { OnOk result (out.new.items ≡ out.old.items ++ line_at (plain_style style.now) parts place line.now) }
{
    match place {
        FrontLineKind::Text => { if parts.text { put(out, line) } else { Ok(()) } }
        FrontLineKind::Own => {
            if parts.own {
                put_own_line(out, style, line)
            } else {
                Ok(())
            }
        }
        FrontLineKind::OldName => {
            if parts.old {
                put_header_line(out, style, NextName::Old, line)
            } else {
                Ok(())
            }
        }
        FrontLineKind::NewName => {
            if parts.new {
                put_header_line(out, style, NextName::New, line)
            } else {
                Ok(())
            }
        }
    }
}

/// Whether text is left out: header lines tell the names.
fn drops_text(style: &Style, form: Form, text: &[u8]) -> bool
    ensures { result ≡ (style.now.clean && names_behind form true (lines text.now)) }
{
    style.clean && names_behind(form, true, text)
}

fn all_parts(style: &Style, form: Form, text: &[u8]) -> Parts
    ensures { result ≡ all_parts (plain_style style.now) form (lines text.now) }
{
    Parts {
        text: !drops_text(style, form, text),
        own: true,
        old: true,
        new: true,
    }
}

/// Puts down the lines in front of the hunks of a file patch.
#[tactic(auto, unfolding(crate::specs::Fronts::front))]
pub fn put_front(
    out: &mut Vec<u8>,
    style: &Style,
    form: Form,
    text: &[u8],
) -> Result<(), AllocError>
    ensures { OnOk result (out.new.items ≡ out.old.items ++ front (plain_style style.now) form (lines text.now)) }
{
    put_parts(out, style, form, all_parts(style, form, text), text)
}

fn is_before(side: Numbered) -> bool
    ensures { result ≡ is_before side }
{
    match side {
        Numbered::Before => true,
        Numbered::After => false,
    }
}

fn side_parts(all: bool, side: Numbered, form: Form, text: &[u8]) -> Parts
    ensures { result ≡ side_parts all side form (lines text.now) }
{
    let is_before = is_before(side);
    Parts {
        text: all || !names_behind(form, true, text),
        own: true,
        old: is_before,
        new: !is_before,
    }
}

/// Puts down the lines in front of lines with numbers, with all text or none.
#[tactic(auto, unfolding(crate::specs::Fronts::side_front))]
pub fn put_side_front(
    out: &mut Vec<u8>,
    style: &Style,
    all: bool,
    side: Numbered,
    form: Form,
    text: &[u8],
) -> Result<(), AllocError>
    ensures { OnOk result (out.new.items ≡ out.old.items ++ side_front (plain_style style.now) all side form (lines text.now)) }
{
    put_parts(out, style, form, side_parts(all, side, form, text), text)
}

fn text_parts() -> Parts
    ensures { result ≡ text_parts }
{
    Parts {
        text: true,
        own: false,
        old: false,
        new: false,
    }
}

/// Puts down the lines in front of the hunks that aren't the file patch's own.
#[tactic(auto, unfolding(crate::specs::Fronts::text_front))]
pub fn put_text_front(
    out: &mut Vec<u8>,
    style: &Style,
    form: Form,
    text: &[u8],
) -> Result<(), AllocError>
    ensures { OnOk result (out.new.items ≡ out.old.items ++ text_front (plain_style style.now) form (lines text.now)) }
{
    put_parts(out, style, form, text_parts(), text)
}

/// Puts down these lines in front of the hunks of a file patch.
fn put_parts(
    out: &mut Vec<u8>,
    style: &Style,
    form: Form,
    parts: Parts,
    text: &[u8],
) -> Result<(), AllocError>
    ensures { OnOk result (out.new.items ≡ out.old.items ++ lines_behind (plain_style style.now) form parts FrontLineKind.Text (lines text.now)) }
{
    let mut at = 0;
    let mut place = FrontLineKind::Text;
    'lines: while let Some(end) = next_line(text, at) {
        let line = &text[at..end];
        place = place_of(form, place, line, &text[end..]);
        put_line(out, style, parts, place, line)?;
        at = end;
    }
    Ok(())
}
