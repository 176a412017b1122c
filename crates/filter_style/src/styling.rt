//! A text with its file patches as they are to be written.

ghost use Rattle.std.specs.Prelude.{◌≡◌, ◌≤◌, ◌++◌, ◌||◌, false, drop, length, map, nat_lt, slice_range, IfOk, OnOk};
ghost use Rattle.line_list.specs.Lines.{lines};
ghost use Rattle.cli_tool_words.specs.PlainJobs.{plain_style};
ghost use Rattle.read_patch_text.specs.Regions.{region_of};
ghost use Rattle.filter_style.specs.Styled.{front_in, is_nameless, is_plain, is_text, region_text, restyled, styled_from, text_unless};

use crate::fronts::put_front;
use crate::hunks::put_hunks;
use crate::names::put;
use cli_tool_words::Style;
use hunk_core::{Form, FormFault};
use patch_header::ReadOptions;
use read_file_patch::FilePatch;
use read_patch_text::read_digests;
use std::alloc::{AllocError, Global};

/// The longest text that is read, in bytes.
const LONGEST: usize = 268_435_456;

/// Whether nothing is done to a text.
pub fn is_plain(style: &Style) -> bool
    ensures { result ≡ is_plain (plain_style style.now) }
{
    is_nameless(style) && (!style.no_stamps && !style.clean)
}

/// Whether names stay.
fn is_nameless(style: &Style) -> bool
    ensures { result ≡ is_nameless (plain_style style.now) }
{
    (style.strip == 0 && style.prefix.is_none())
        && (style.old_prefix.is_empty() && style.new_prefix.is_empty())
}

/// The bytes from a place up to another.
fn between(text: &[u8], from: usize, to: usize) -> &[u8]
    ensures { result.now ≡ slice_range text.now from to }
{
    let end = usize::min(to, text.len());
    &text[usize::min(from, end)..end]
}

fn put_front_in(
    out: &mut Vec<u8>,
    style: &Style,
    form: Form,
    bare: bool,
    text: &[u8],
) -> Result<(), AllocError>
    ensures { OnOk result (out.new.items ≡ out.old.items ++ front_in (plain_style style.now) form bare text.now) }
{
    if bare {
        return put(out, text);
    }
    put_front(out, style, form, text)
}

/// Whether a file patch is text that is left out: a git header without hunks.
fn is_text(style: &Style, patch: &FilePatch) -> bool
    ensures { result ≡ is_text (plain_style style.now) (region_of patch.now) }
{
    style.clean && patch.header.bare
}

/// Puts a file patch down.
fn put_region(
    out: &mut Vec<u8>,
    style: &Style,
    text: &[u8],
    patch: &FilePatch,
) -> Result<(), AllocError>
    ensures { OnOk result (out.new.items ≡ out.old.items ++ region_text (plain_style style.now) text.now (region_of patch.now)) }
{
    if is_text(style, patch) {
        return Ok(());
    }
    let form = patch.header.form;
    let front = between(text, patch.span.start as usize, patch.header.at);
    put_front_in(out, style, form, patch.header.bare, front)?;
    let hunks = between(text, patch.header.at, patch.span.end as usize);
    put_hunks(out, style, form, hunks)
}

/// Puts down the text behind a place.
fn put_behind(out: &mut Vec<u8>, style: &Style, text: &[u8], at: usize) -> Result<(), AllocError>
    ensures { OnOk result (out.new.items ≡ out.old.items ++ text_unless style.now.clean (drop at text.now)) }
{
    if style.clean {
        return Ok(());
    }
    put(out, &text[usize::min(at, text.len())..])
}

/// The text with its file patches as they are to be written.
fn styled_text(
    alloc: Global,
    style: &Style,
    text: &[u8],
    patches: &[FilePatch],
) -> Result<Vec<u8>, AllocError>
    ensures { IfOk result (λ new. new.items ≡ styled_from (plain_style style.now) text.now 0 (map region_of patches.now)) }
{
    let mut out = Vec::with_capacity(alloc, text.len())?;
    let mut at = 0;
    for patch in patches {
        put_region(&mut out, style, text, patch)?;
        at = patch.span.end as usize;
    }
    put_behind(&mut out, style, text, at)?;
    Ok(out)
}

/// Whether the text stays as it is, whatever it says.
fn stays(style: &Style, text: &[u8]) -> bool
    ensures is { result ≡ (is_plain (plain_style style.now) || nat_lt 268435456 (length text.now)) }
    ensures short { result ≡ false → length text.now ≤ 268435456 }
{
    is_plain(style) || text.len() > LONGEST
}

/// The text as the style has it: names of header lines and `diff` lines, stamps, text outside of file patches. One that can't be read, or of
/// more than 256 MiB, stays as it is.
pub fn restyle(alloc: Global, style: &Style, text: Vec<u8>) -> Result<Vec<u8>, AllocError>
    ensures { IfOk result (λ new. new.items ≡ restyled (plain_style style.now) text.items) }
{
    if stays(style, &text) {
        return Ok(text);
    }
    let ways = ReadOptions {
        only: None,
        git: true,
        skip_binary: true,
    };
    match read_digests(alloc, &text, ways) {
        Ok(digests) => styled_text(alloc, style, &text, &digests.patches),
        Err(FormFault::Malformed { .. }) => Ok(text),
        Err(FormFault::Memory) => Err(AllocError),
    }
}
