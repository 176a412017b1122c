//! The hunks of a file patch without what stands behind their ranges.

ghost use Rattle.std.specs.Prelude.{Bool, ◌≡◌, ◌<◌, ◌≤◌, ◌++◌, true, length, IfSome, OnOk};
ghost use Rattle.std.specs.List.{flat_map, position};
ghost use Rattle.line_list.specs.Lines.{lines};
ghost use Rattle.cli_tool_words.specs.PlainJobs.{plain_style};
ghost use Rattle.patch_header.specs.Values.{first};
ghost use Rattle.filter_style.specs.Styled.{hunk_line, hunks_text, is_at, is_old_range, is_range, is_star, noted_range, noted_stars, noted_text};

use crate::names::put;
use cli_tool_words::Style;
use hunk_core::Form;
use line_list::next_line;
use std::alloc::AllocError;

fn is_range(form: Form, line: &[u8]) -> bool
    ensures is { result ≡ is_range form line.now }
    ensures bound { result ≡ true → 2 ≤ length line.now }
{
    match form {
        Form::Unified => line.starts_with(b"@@ -"),
        Form::Context | Form::Normal | Form::Ed => false,
    }
}

fn is_at(byte: u8) -> bool
    ensures { result ≡ is_at byte }
{
    byte == b'@'
}

fn first_at(bytes: &[u8]) -> Option<usize>
    ensures place { result ≡ position is_at bytes.now }
    ensures bound { IfSome result (λ n. n < length bytes.now) }
{
    bytes.iter().position(|byte| is_at(*byte))
}

/// How many bytes stand in front of the first `@`.
fn mark_at(bytes: &[u8]) -> usize
    ensures is { result ≡ first is_at bytes.now }
    ensures within { result ≤ length bytes.now }
{
    match first_at(bytes) {
        Some(place) => place,
        None => bytes.len(),
    }
}

/// Puts a range line down, with a note behind its second `@@`.
fn put_range(out: &mut Vec<u8>, clean: bool, note: &[u8], line: &[u8]) -> Result<(), AllocError>
    requires { 2 ≤ length line.now }
    ensures { OnOk result (out.new.items ≡ out.old.items ++ noted_range clean note.now line.now) }
{
    let behind = &line[2..];
    let mark = mark_at(behind);
    if !behind[mark..].starts_with(b"@@") {
        return put(out, line);
    }
    put(out, &line[..mark + 4])?;
    put(out, note)?;
    if clean {
        return put(out, b"\n");
    }
    put(out, &line[mark + 4..])
}

fn is_star(byte: u8) -> bool
    ensures { result ≡ is_star byte }
{
    byte == b'*'
}

fn first_star(bytes: &[u8]) -> Option<usize>
    ensures place { result ≡ position is_star bytes.now }
    ensures bound { IfSome result (λ n. n < length bytes.now) }
{
    bytes.iter().position(|byte| is_star(*byte))
}

/// How many bytes stand in front of the first `*`.
fn star_at(bytes: &[u8]) -> usize
    ensures is { result ≡ first is_star bytes.now }
    ensures within { result ≤ length bytes.now }
{
    match first_star(bytes) {
        Some(place) => place,
        None => bytes.len(),
    }
}

/// Puts the line of an old range down, with a note behind its last stars.
fn put_stars(out: &mut Vec<u8>, note: &[u8], line: &[u8]) -> Result<(), AllocError>
    requires { 4 ≤ length line.now }
    ensures { OnOk result (out.new.items ≡ out.old.items ++ noted_stars note.now line.now) }
{
    let behind = &line[4..];
    let star = star_at(behind);
    if !behind[star..].starts_with(b"****") {
        return put(out, line);
    }
    put(out, &line[..star + 8])?;
    put(out, note)?;
    put(out, b"\n")
}

fn is_old_range(line: &[u8]) -> bool
    ensures is { result ≡ is_old_range line.now }
    ensures bound { result ≡ true → 4 ≤ length line.now }
{
    line.starts_with(b"*** ")
}

fn put_unified_line(
    out: &mut Vec<u8>,
    clean: bool,
    note: &[u8],
    line: &[u8],
) -> Result<(), AllocError>
    ensures { OnOk result (out.new.items ≡ out.old.items ++ hunk_line clean note.now Form.Unified line.now) }
{
    if is_range(Form::Unified, line) {
        return put_range(out, clean, note, line);
    }
    put(out, line)
}

fn put_context_line(out: &mut Vec<u8>, note: &[u8], line: &[u8]) -> Result<(), AllocError>
    ensures { (clean : Bool) → OnOk result (out.new.items ≡ out.old.items ++ hunk_line clean note.now Form.Context line.now) }
{
    if !note.is_empty() && is_old_range(line) {
        return put_stars(out, note, line);
    }
    put(out, line)
}

fn put_hunk_line(
    out: &mut Vec<u8>,
    clean: bool,
    note: &[u8],
    form: Form,
    line: &[u8],
) -> Result<(), AllocError>
    ensures { OnOk result (out.new.items ≡ out.old.items ++ hunk_line clean note.now form line.now) }
{
    match form {
        Form::Unified => put_unified_line(out, clean, note, line),
        Form::Context => put_context_line(out, note, line),
        Form::Normal => put(out, line),
        Form::Ed => put(out, line),
    }
}

fn put_lines(
    out: &mut Vec<u8>,
    clean: bool,
    note: &[u8],
    form: Form,
    text: &[u8],
) -> Result<(), AllocError>
    ensures { OnOk result (out.new.items ≡ out.old.items ++ flat_map (hunk_line clean note.now form) (lines text.now)) }
{
    let mut at = 0;
    'lines: while let Some(end) = next_line(text, at) {
        put_hunk_line(out, clean, note, form, &text[at..end])?;
        at = end;
    }
    Ok(())
}

/// Puts hunks down with a note in the lines that tell their ranges.
#[tactic(auto, unfolding(crate::specs::Styled::noted_text))]
pub fn put_noted(
    out: &mut Vec<u8>,
    clean: bool,
    note: &[u8],
    form: Form,
    text: &[u8],
) -> Result<(), AllocError>
    ensures { OnOk result (out.new.items ≡ out.old.items ++ noted_text clean note.now form text.now) }
{
    put_lines(out, clean, note, form, text)
}

/// Puts the hunks of a file patch down.
pub fn put_hunks(
    out: &mut Vec<u8>,
    style: &Style,
    form: Form,
    text: &[u8],
) -> Result<(), AllocError>
    ensures { OnOk result (out.new.items ≡ out.old.items ++ hunks_text (plain_style style.now) form text.now) }
{
    if style.clean {
        return put_noted(out, true, b"", form, text);
    }
    put(out, text)
}
