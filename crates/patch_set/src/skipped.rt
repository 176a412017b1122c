//! The binary changes that were passed over.
ghost use Rattle.std.specs.Prelude.{◌≡◌, ◌≤◌, ◌&&◌, ◌++◌, ℕ, IfOk, Some, None, drop, length, map};
ghost use Rattle.std.specs.Option.{option_copied};
ghost use Rattle.line_list.specs.Lines.{lines};
ghost use Rattle.patch_header.specs.Content.{content, is_binary};
ghost use Rattle.read_file_patch.specs.Candidates.{header_candidate};
ghost use Rattle.read_patch_text.specs.Regions.{region_of, regions_of};
ghost use Rattle.patch_set.specs.Skipped.{is_outside, is_image, git_names, names_on, second_half, new_name, change_at, changes_if, skipped_from, skipped_changes};

use hunk_core::{after_prefix, has_feed};
use line_list::next_line;
use outside::Name;
use patch_header::{ReadOptions, is_binary};
use read_file_patch::{FilePatch, candidates};
use std::alloc::{AllocError, Global};

/// A binary change that was passed over.
#[derive(Drop)]
pub struct BinaryChange {
    /// The number of the line that tells it.
    pub line: u64,
    /// Whether an image follows that line.
    pub is_image: bool,
    /// The new name in its git line, as that has it.
    pub name: Option<Name>,
}

/// How far a text was looked through: the place of a line, its number, and the first file patch that doesn't end in front of it.
#[derive(Clone, Copy)]
struct SearchedTo {
    at: usize,
    number: u64,
    next: usize,
}

/// The binary changes that were passed over in a text with these file patches. Where none are passed over, the text isn't
/// looked at.
#[tactic(auto, unfolding(crate::specs::Skipped::skipped_changes))]
pub fn skipped_changes(
    alloc: Global,
    text: &[u8],
    ways: ReadOptions,
    patches: &[FilePatch],
) -> Result<Vec<BinaryChange>, AllocError>
    requires { map region_of patches.now ≡ regions_of ways text.now }
    ensures { IfOk result (λ found. found.items ≡ skipped_changes ways text.now) }
{
    if !ways.skip_binary {
        return Ok(Vec::new(alloc));
    }
    skipped_from(alloc, text, patches)
}

fn skipped_from(
    alloc: Global,
    text: &[u8],
    patches: &[FilePatch],
) -> Result<Vec<BinaryChange>, AllocError>
    ensures { IfOk result (λ found. found.items ≡ skipped_from (map region_of patches.now) 0 1 None (lines text.now)) }
{
    let mut found = Vec::new(alloc);
    let mut names: Option<&[u8]> = None;
    let mut here = SearchedTo {
        at: 0,
        number: 1,
        next: 0,
    };
    'lines: while let Some(end) = next_line(text, here.at) {
        let (next, is_outside) = outside_from(patches, here.next, here.at);
        let line = &text[here.at..end];
        let is_skipped = is_skipped(line, is_outside);
        keep_if(alloc, &mut found, is_skipped, here.number, names, line)?;
        names = names_on(names, is_outside, line);
        here = SearchedTo {
            at: end,
            number: here.number + 1,
            next,
        };
    }
    Ok(found)
}

fn is_skipped(line: &[u8], is_outside: bool) -> bool
    ensures { result ≡ (is_outside && is_binary line.now) }
{
    is_outside && is_binary(line)
}

/// What stands in the last git line behind its mark, once this line was passed.
fn names_on<'t>(names: Option<&'t [u8]>, is_outside: bool, line: &'t [u8]) -> Option<&'t [u8]>
    ensures { option_copied result ≡ names_on (option_copied names.entry) is_outside line.now }
{
    if !is_outside {
        return None;
    }
    match git_names(line) {
        Some(own) => Some(own),
        None => names,
    }
}

/// What stands in a git line behind its mark.
fn git_names(line: &[u8]) -> Option<&[u8]>
    ensures { option_copied result ≡ git_names line.now }
{
    after_prefix(content(line), b"diff --git ")
}

/// The line without its line feed.
fn content(line: &[u8]) -> &[u8]
    ensures { result.now ≡ content line.now }
{
    if has_feed(line) {
        &line[..line.len() - 1]
    } else {
        line
    }
}

fn keep_if(
    alloc: Global,
    found: &mut Vec<BinaryChange>,
    is_skipped: bool,
    number: u64,
    names: Option<&[u8]>,
    line: &[u8],
) -> Result<(), AllocError>
    ensures { IfOk result (λ done. found.new.items ≡ found.old.items ++ changes_if is_skipped number (option_copied names.entry) line.now) }
{
    if !is_skipped {
        return Ok(());
    }
    let change = change_at(alloc, number, names, line)?;
    found.push(change)?;
    Ok(())
}

/// The binary change that a line tells, behind a git line with these names.
fn change_at(
    alloc: Global,
    number: u64,
    names: Option<&[u8]>,
    line: &[u8],
) -> Result<BinaryChange, AllocError>
    ensures { IfOk result (λ change. change ≡ change_at number (option_copied names.entry) line.now) }
{
    let name = new_name(alloc, names)?;
    Ok(BinaryChange {
        line: number,
        is_image: is_image(line),
        name,
    })
}

/// Whether an image follows a binary line.
fn is_image(line: &[u8]) -> bool
    ensures { result ≡ is_image line.now }
{
    after_prefix(line, b"GIT binary patch").is_some()
}

/// The new name in a git line, by what stands behind its mark.
fn new_name(alloc: Global, names: Option<&[u8]>) -> Result<Option<Name>, AllocError>
    ensures { IfOk result (λ name. name ≡ new_name (option_copied names.entry)) }
{
    match names {
        None => Ok(None),
        Some(names) => candidate(alloc, second_half(names)),
    }
}

/// The name that this text stands for, where it is one.
fn candidate(alloc: Global, text: &[u8]) -> Result<Option<Name>, AllocError>
    ensures { IfOk result (λ name. name ≡ header_candidate (Some 0) text.now) }
{
    let mut found = candidates(alloc, Some(0), None, Some(text), None, false)?;
    Ok(found.pop())
}

/// What stands behind a space in the middle.
fn second_half(names: &[u8]) -> &[u8]
    ensures { result.now ≡ second_half names.now }
{
    let middle = names.len() / 2;
    if middle < names.len() && names[middle] == b' ' {
        &names[middle + 1..]
    } else {
        b""
    }
}

/// The first file patch, from this one on, that doesn't end in front of a place, and whether the place stands outside of all of them.
fn outside_from(patches: &[FilePatch], first: usize, at: usize) -> (usize, bool)
    requires { first ≤ length patches.now }
    ensures within { result.0 ≤ length patches.now }
    ensures outside { result.1 ≡ is_outside (drop first (map region_of patches.now)) at }
    // Those in front of it don't count from here on.
    ensures behind { (place : ℕ) → at ≤ place → is_outside (drop result.0 (map region_of patches.now)) place ≡ is_outside (drop first (map region_of patches.now)) place }
{
    let mut next = first;
    'regions: while next < patches.len() {
        let patch = &patches[next];
        if at < patch.header.at {
            return (next, true);
        }
        if at < patch.span.end as usize {
            return (next, false);
        }
        next += 1;
    }
    (next, true)
}
