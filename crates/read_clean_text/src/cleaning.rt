//! The text without the carriage returns that aren't a file's.

ghost use Rattle.std.specs.Prelude.{◌≡◌, ◌≤◌, length, map, IfErr, IfOk};
ghost use Rattle.std.specs.List.{flat_map};
ghost use Rattle.line_list.specs.Lines.{lines};
ghost use Rattle.line_list.specs.Completed.{completed};
ghost use Rattle.read_patch_text.specs.Regions.{region_of};
ghost use Rattle.read_clean_text.specs.Bare.{bare_text};
ghost use Rattle.read_clean_text.specs.Cleaned.{cleaned, cleaned_in, cleaned_lines, is_clean, tells_in, tells_stripping};

use crate::bare::{bare_length, bare_of, put_line};
use crate::losing::{loses_at, one_tells, patch_at};
use hunk_core::FormFault;
use line_list::next_line;
use patch_header::ReadOptions;
use patch_set::{SetFault, whole_text};
use read_file_patch::FilePatch;
use read_patch_text::read_patches;
use std::alloc::{AllocError, Global};

/// The longest text that is read, in bytes.
const LONGEST: usize = 268_435_456;

/// How far the text is cleaned: the place of a line, its place in the bare text, and the first file patch that ends behind it.
#[derive(Clone, Copy)]
struct CleanedTo {
    from: usize,
    at: usize,
    next: usize,
}

/// The text with the lines of its file patches as they are to be read.
fn clean_lines(
    alloc: Global,
    text: &[u8],
    patches: &[FilePatch],
    returns: &[bool],
    keeps: bool,
) -> Result<Vec<u8>, AllocError>
    ensures { IfOk result (λ new. new.items ≡ flat_map (λ line. line) (cleaned_lines keeps returns.now (map region_of patches.now) 0 (lines text.now))) }
{
    let mut out = Vec::with_capacity(alloc, text.len())?;
    let mut here = CleanedTo {
        from: 0,
        at: 0,
        next: 0,
    };
    'lines: while let Some(end) = next_line(text, here.from) {
        let line = &text[here.from..end];
        let next = patch_at(patches, here.next, here.at);
        let loses = loses_at(patches, next, keeps, returns, here.at, line);
        put_line(&mut out, line, loses)?;
        here = CleanedTo {
            from: end,
            at: here.at + bare_length(line),
            next,
        };
    }
    Ok(out)
}

/// Whether there is nothing to be taken off, or the text is too long.
fn is_clean(text: &[u8]) -> bool
    ensures is { result ≡ is_clean text.now }
{
    text.len() > LONGEST || !text.contains(&b'\r')
}

/// The text without all its carriage returns.
fn without_any(alloc: Global, text: &[u8]) -> Result<Vec<u8>, AllocError>
    ensures { IfOk result (λ new. new.items ≡ bare_text text.now) }
{
    let (bare, _returns) = bare_of(alloc, text)?;
    Ok(bare)
}

fn clean_returns(
    alloc: Global,
    text: &[u8],
    ways: ReadOptions,
    keeps: bool,
    told: &mut bool,
) -> Result<Vec<u8>, SetFault>
    requires { length text.now ≤ 268_435_456 }
    ensures is { IfOk result (λ new. new.items ≡ cleaned_in ways keeps text.now (completed (bare_text text.now))) }
    ensures told { IfOk result (λ new. told.new ≡ tells_in ways text.now (completed (bare_text text.now))) }
    ensures memory { IfErr result (λ fault. fault ≡ SetFault.Memory) }
{
    let (bare, returns) = bare_of(alloc, text)?;
    let whole = whole_text(bare)?;
    match read_patches(alloc, &whole, ways) {
        Ok(patches) => {
            *told = one_tells(&patches, &returns);
            Ok(clean_lines(alloc, text, &patches, &returns, keeps)?)
        }
        Err(FormFault::Malformed { .. }) => {
            *told = false;
            Ok(without_any(alloc, text)?)
        }
        Err(FormFault::Memory) => Err(SetFault::Memory),
    }
}

/// The text that is read in these ways, of which lines of hunks keep their carriage returns where that is asked for; and whether a run that
/// keeps none says so. A text without any is handed on as it is.
#[tactic(auto, unfolding(crate::specs::Cleaned::cleaned, crate::specs::Cleaned::tells_stripping))]
pub fn clean_telling(
    alloc: Global,
    text: Vec<u8>,
    ways: ReadOptions,
    keeps_returns: bool,
    told: &mut bool,
) -> Result<Vec<u8>, SetFault>
    ensures is { IfOk result (λ new. new.items ≡ cleaned ways keeps_returns text.items) }
    ensures told { IfOk result (λ new. told.new ≡ tells_stripping ways text.items) }
    ensures memory { IfErr result (λ fault. fault ≡ SetFault.Memory) }
{
    if is_clean(&text) {
        *told = false;
        return Ok(text);
    }
    clean_returns(alloc, &text, ways, keeps_returns, told)
}

/// The same text alone.
pub fn clean(
    alloc: Global,
    text: Vec<u8>,
    ways: ReadOptions,
    keeps_returns: bool,
) -> Result<Vec<u8>, SetFault>
    ensures is { IfOk result (λ new. new.items ≡ cleaned ways keeps_returns text.items) }
    ensures memory { IfErr result (λ fault. fault ≡ SetFault.Memory) }
{
    let mut told = false;
    clean_telling(alloc, text, ways, keeps_returns, &mut told)
}
