//! The names that a file patch can be meant for.
ghost use Rattle.std.specs.Prelude.{◌≡◌, ◌++◌, IfOk, OnOk, codes, bytes_eq, option_and_then};
ghost use Rattle.std.specs.Option.{option_copied, option_to_list};
ghost use Rattle.read_file_patch.specs.Candidates.{lawful_name, left_name, left_if_file, candidate, header_candidate, index_beside, index_names, header_names, candidates};

use crate::strip::stripped;
use outside::{Name, NameFault};
use read_header_record::{begins_quoted, unquoted};
use std::alloc::{AllocError, Global};

/// The names by the old and the new header line and the index line, as these are written.
///
/// `strip` is the number of slashes that are stripped with what stands before them; without it the last component is
/// left. The index line counts with `posix`, and without it where neither header line gave a name.
pub fn candidates(
    alloc: Global,
    strip: Option<u32>,
    old: Option<&[u8]>,
    new: Option<&[u8]>,
    index: Option<&[u8]>,
    posix: bool,
) -> Result<Vec<Name>, AllocError>
    ensures { IfOk result (λ names. names.items ≡ candidates strip (option_copied old.entry) (option_copied new.entry) (option_copied index.entry) posix) }
{
    let mut names = Vec::new(alloc);
    let beside = index_beside(posix, old, new, index);
    add_header(alloc, &mut names, strip, old)?;
    add_header(alloc, &mut names, strip, new)?;
    add_index(alloc, &mut names, strip, beside)?;
    Ok(names)
}

/// The name of the index line, where it counts.
fn index_beside<'t>(
    posix: bool,
    old: Option<&[u8]>,
    new: Option<&[u8]>,
    index: Option<&'t [u8]>,
) -> Option<&'t [u8]>
    ensures { option_copied result ≡ index_beside posix (option_copied old.entry) (option_copied new.entry) (option_copied index.entry) }
{
    if posix || (old.is_none() && new.is_none()) {
        index
    } else {
        None
    }
}

fn add_index(
    alloc: Global,
    names: &mut Vec<Name>,
    strip: Option<u32>,
    text: Option<&[u8]>,
) -> Result<(), AllocError>
    ensures { OnOk result (names.new.items ≡ names.old.items ++ index_names strip (option_copied text.entry)) }
{
    match text {
        Some(text) => add(names, candidate(alloc, strip, text)?),
        None => Ok(()),
    }
}

fn add_header(
    alloc: Global,
    names: &mut Vec<Name>,
    strip: Option<u32>,
    text: Option<&[u8]>,
) -> Result<(), AllocError>
    ensures { OnOk result (names.new.items ≡ names.old.items ++ header_names strip (option_copied text.entry)) }
{
    match text {
        Some(text) => add(names, header_candidate(alloc, strip, text)?),
        None => Ok(()),
    }
}

fn add(names: &mut Vec<Name>, found: Option<Name>) -> Result<(), AllocError>
    ensures { OnOk result (names.new.items ≡ names.old.items ++ option_to_list found) }
{
    match found {
        Some(name) => Ok(names.push(name)?),
        None => Ok(()),
    }
}

fn header_candidate(
    alloc: Global,
    strip: Option<u32>,
    text: &[u8],
) -> Result<Option<Name>, AllocError>
    ensures { IfOk result (λ found. found ≡ header_candidate strip text.now) }
{
    if !begins_quoted(text) {
        return left_if_file(alloc, strip, text);
    }
    match unquoted(alloc, text)? {
        Some(name) => left_if_file(alloc, strip, name.as_slice()),
        None => Ok(None),
    }
}

/// The name that is left of what a text in a header stands for once that is stripped, where that is one.
pub fn candidate(alloc: Global, strip: Option<u32>, text: &[u8]) -> Result<Option<Name>, AllocError>
    ensures { IfOk result (λ found. found ≡ candidate strip text.now) }
{
    if !begins_quoted(text) {
        return left_name(alloc, strip, text);
    }
    match unquoted(alloc, text)? {
        Some(name) => left_name(alloc, strip, name.as_slice()),
        None => Ok(None),
    }
}

/// The name that is left of a header line's name, unless that is `/dev/null`.
fn left_if_file(alloc: Global, strip: Option<u32>, name: &[u8]) -> Result<Option<Name>, AllocError>
    ensures { IfOk result (λ found. found ≡ left_if_file strip name.now) }
{
    if name == b"/dev/null".as_slice() {
        return Ok(None);
    }
    left_name(alloc, strip, name)
}

/// What is left of a name once it is stripped, where that is one.
fn left_name(alloc: Global, strip: Option<u32>, name: &[u8]) -> Result<Option<Name>, AllocError>
    ensures { IfOk result (λ found. found ≡ left_name strip name.now) }
{
    match stripped(strip, name) {
        Some(left) => lawful_name(alloc, left),
        None => Ok(None),
    }
}

fn lawful_name(alloc: Global, text: &[u8]) -> Result<Option<Name>, AllocError>
    ensures { IfOk result (λ found. found ≡ lawful_name text.now) }
{
    match Name::new(alloc, text) {
        Ok(name) => Ok(Some(name)),
        Err(NameFault::Refused { rule: _ }) => Ok(None),
        Err(NameFault::Memory) => Err(AllocError),
    }
}
