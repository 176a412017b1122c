//! The text without the blanks and tabs that stand in front of each line of its file patches.

ghost use Rattle.std.specs.Prelude.{◌≡◌, ◌<◌, ◌≤◌, ◌^◌, false, length, map, slice_get, IfErr, IfOk};
ghost use Rattle.line_list.specs.Completed.{completed};
ghost use Rattle.line_list.specs.Lines.{lines};
ghost use Rattle.patch_header.specs.Values.{blanks};
ghost use Rattle.read_patch_text.specs.Patches.{patches_of};
ghost use Rattle.read_patch_text.specs.Regions.{region_of, regions_of};
ghost use Rattle.read_clean_text.specs.Bare.{bare_text};
ghost use Rattle.read_clean_text.specs.Indents.{are_indented, begins_patch, has_indent, has_none, indent_of, is_deeper, is_empty_line, is_fit, is_in, is_in_patch, is_indented, is_read_so, loses_indent, unindented, unindented_line, without_indent};

use crate::bare::{bare_length, bare_of};
use crate::losing::patch_at;
use bstr::ByteSlice;
use hunk_core::FormFault;
use line_list::next_line;
use patch_header::ReadOptions;
use patch_set::{SetFault, whole_text};
use read_file_patch::FilePatch;
use read_patch_text::read_patches;
use std::alloc::{AllocError, Global};

/// The longest text that is read, in bytes.
const LONGEST: usize = 268_435_456;

/// How far the lines of a text were looked at: the place of a line, its place in the bare text without the indent, the first file patch
/// that ends behind it, and whether the line before stands in one.
#[derive(Clone, Copy)]
struct Look {
    from: usize,
    at: usize,
    next: usize,
    before: bool,
}

/// How many blanks and tabs stand in front.
fn blanks(line: &[u8]) -> usize
    ensures is { result ≡ blanks line.now }
    ensures within { result ≤ length line.now }
{
    match line.find_not_byteset(b" \t") {
        Some(count) => count,
        None => line.len(),
    }
}

fn begins_patch(line: &[u8]) -> bool
    ensures { result ≡ begins_patch line.now }
{
    line.starts_with(b"--- ")
        || (line.starts_with(b"+++ ")
            || (line.starts_with(b"*** ")
                || (line.starts_with(b"@@ -")
                    || (line.starts_with(b"diff ")
                        || (line.starts_with(b"Index:") || line.starts_with(b"Prereq:"))))))
}

/// What stands in front of the first line that begins like one of a header behind blanks and tabs.
fn indent_of(text: &[u8]) -> &[u8]
    ensures is { result.now ≡ indent_of (lines text.now) }
{
    let mut at = 0;
    'lines: while let Some(end) = next_line(text, at) {
        let line = &text[at..end];
        let count = blanks(line);
        if begins_patch(&line[count..]) {
            return &line[..count];
        }
        at = end;
    }
    &[]
}

fn has_indent(indent: &[u8], line: &[u8]) -> bool
    ensures { result ≡ has_indent indent.now line.now }
{
    line.starts_with(indent) && indent.len() < line.len()
}

fn unindented_line<'a>(indent: &[u8], line: &'a [u8]) -> &'a [u8]
    ensures is { result.now ≡ unindented_line indent.now line.now }
    ensures less { length result.now ≤ length line.now }
{
    if has_indent(indent, line) {
        &line[indent.len()..]
    } else {
        line
    }
}

fn without_indent(alloc: Global, indent: &[u8], text: &[u8]) -> Result<Vec<u8>, AllocError>
    ensures is { IfOk result (λ new. new.items ≡ without_indent indent.now text.now) }
    ensures length { IfOk result (λ new. length new.items ≤ length text.now) }
{
    let mut out = Vec::with_capacity(alloc, text.len())?;
    let mut at = 0;
    'lines: while let Some(end) = next_line(text, at) {
        out.extend_from_slice(unindented_line(indent, &text[at..end]))?;
        at = end;
    }
    Ok(out)
}

fn is_empty_line(line: &[u8]) -> bool
    ensures { result ≡ is_empty_line line.now }
{
    line.starts_with(b"\n") || line.starts_with(b"\r\n")
}

/// Whether the line begins like one of a header behind more blanks.
fn is_deeper(line: &[u8]) -> bool
    ensures { result ≡ is_deeper line.now }
{
    let count = blanks(line);
    count > 0 && begins_patch(&line[count..])
}

fn is_fit(indent: &[u8], stands: bool, line: &[u8]) -> bool
    ensures { result ≡ is_fit indent.now stands line.now }
{
    if stands {
        has_indent(indent, line) || is_empty_line(line)
    } else {
        !is_deeper(unindented_line(indent, line))
    }
}

/// Whether a line at a place stands in the file patch with this number, where it is known whether the line before does.
fn is_in(patches: &[FilePatch], next: usize, before: bool, at: usize, line: &[u8]) -> bool
    ensures { result ≡ is_in before (slice_get (map region_of patches.now) next) at line.now }
{
    match patches.get(next) {
        Some(patch) => is_in_patch(patch, before, at, line),
        None => false,
    }
}

fn is_in_patch(patch: &FilePatch, before: bool, at: usize, line: &[u8]) -> bool
    ensures { result ≡ is_in_patch before (region_of patch.now) at line.now }
{
    if !(at < patch.header.at) {
        return true;
    }
    begins_patch(line) || (before && (patch.span.start as usize) < at)
}

/// Whether each line of a text that stands in a file patch has the indent, or is empty.
fn are_indented(indent: &[u8], text: &[u8], patches: &[FilePatch]) -> bool
    ensures { result ≡ are_indented indent.now (map region_of patches.now) false 0 (lines text.now) }
{
    let mut here = Look {
        from: 0,
        at: 0,
        next: 0,
        before: false,
    };
    'lines: while let Some(end) = next_line(text, here.from) {
        let line = &text[here.from..end];
        let new = unindented_line(indent, line);
        let next = patch_at(patches, here.next, here.at);
        let before = is_in(patches, next, here.before, here.at, new);
        if !is_fit(indent, before, line) {
            return false;
        }
        here = Look {
            from: end,
            at: here.at + bare_length(new),
            next,
            before,
        };
    }
    true
}

/// The text by which its file patches are found.
fn whole_bare(alloc: Global, text: &[u8]) -> Result<Vec<u8>, SetFault>
    requires { length text.now ≤ 268_435_456 }
    ensures is { IfOk result (λ whole. whole.items ≡ completed (bare_text text.now)) }
    ensures short { IfOk result (λ whole. length whole.items < 2 ^ 32) }
    ensures memory { IfErr result (λ fault. fault ≡ SetFault.Memory) }
{
    let (bare, _returns) = bare_of(alloc, text)?;
    let whole = whole_text(bare)?;
    Ok(whole)
}

fn has_none(alloc: Global, text: &[u8], ways: ReadOptions) -> Result<bool, SetFault>
    requires { length text.now ≤ 268_435_456 }
    ensures is { IfOk result (λ none. none ≡ has_none (patches_of ways (completed (bare_text text.now)))) }
    ensures memory { IfErr result (λ fault. fault ≡ SetFault.Memory) }
{
    let whole = whole_bare(alloc, text)?;
    match read_patches(alloc, &whole, ways) {
        Ok(patches) => Ok(patches.is_empty()),
        Err(FormFault::Malformed { .. }) => Ok(false),
        Err(FormFault::Memory) => Err(SetFault::Memory),
    }
}

/// Whether a text without the indent has file patches, each of which is indented, or a fault.
fn is_read_so(
    alloc: Global,
    indent: &[u8],
    text: &[u8],
    new: &[u8],
    ways: ReadOptions,
) -> Result<bool, SetFault>
    requires { length new.now ≤ 268_435_456 }
    ensures is { IfOk result (λ so. so ≡ is_read_so indent.now text.now (patches_of ways (completed (bare_text new.now))) (regions_of ways (completed (bare_text new.now)))) }
    ensures memory { IfErr result (λ fault. fault ≡ SetFault.Memory) }
{
    let whole = whole_bare(alloc, new)?;
    match read_patches(alloc, &whole, ways) {
        Ok(patches) => Ok(!patches.is_empty() && are_indented(indent, text, &patches)),
        Err(FormFault::Malformed { .. }) => Ok(true),
        Err(FormFault::Memory) => Err(SetFault::Memory),
    }
}

fn is_indented(
    alloc: Global,
    indent: &[u8],
    text: &[u8],
    ways: ReadOptions,
) -> Result<bool, SetFault>
    requires { length text.now ≤ 268_435_456 }
    ensures is { IfOk result (λ so. so ≡ is_indented ways indent.now text.now (completed (bare_text text.now)) (completed (bare_text (without_indent indent.now text.now)))) }
    ensures memory { IfErr result (λ fault. fault ≡ SetFault.Memory) }
{
    if !has_none(alloc, text, ways)? {
        return Ok(false);
    }
    let new = without_indent(alloc, indent, text)?;
    is_read_so(alloc, indent, text, &new, ways)
}

/// Whether the text is read without its indent, in these ways.
#[tactic(auto, unfolding(crate::specs::Indents::loses_indent))]
pub fn loses_indent(alloc: Global, text: &[u8], ways: ReadOptions) -> Result<bool, SetFault>
    ensures is { IfOk result (λ loses. loses ≡ loses_indent ways text.now) }
    ensures memory { IfErr result (λ fault. fault ≡ SetFault.Memory) }
{
    if text.len() > LONGEST {
        return Ok(false);
    }
    let indent = indent_of(text);
    if indent.is_empty() {
        return Ok(false);
    }
    is_indented(alloc, indent, text, ways)
}

/// The text that is read in these ways. One that isn't indented is handed on as it is.
#[tactic(auto, unfolding(crate::specs::Indents::unindented))]
pub fn unindented(alloc: Global, text: Vec<u8>, ways: ReadOptions) -> Result<Vec<u8>, SetFault>
    ensures is { IfOk result (λ new. new.items ≡ unindented ways text.items) }
    ensures memory { IfErr result (λ fault. fault ≡ SetFault.Memory) }
{
    if !loses_indent(alloc, &text, ways)? {
        return Ok(text);
    }
    Ok(without_indent(alloc, indent_of(&text), &text)?)
}
