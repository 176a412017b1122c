//! The names of a file that is renamed or copied.
ghost use Rattle.std.specs.Prelude.{◌≡◌, IfOk, option_and_then};
ghost use Rattle.std.specs.Option.{option_copied};
ghost use Rattle.read_file_patch.specs.Candidates.{candidate};
ghost use Rattle.read_file_patch.specs.Moved.{moved_strip, moved_name, differing, two_names, moved_names};

use crate::header_names::candidate;
use outside::Name;
use std::alloc::{AllocError, Global};

/// The names by the two lines of a rename or a copy, as these are written: the name that the file has, and the name that
/// it gets. There are none where one of the two is no name, or both are the same.
///
/// `strip` is that of the header lines: one slash less is stripped from these two lines with what stands before it, and
/// none where none is; without it the last component is left.
pub fn moved_names(
    alloc: Global,
    strip: Option<u32>,
    source: Option<&[u8]>,
    destination: Option<&[u8]>,
) -> Result<Vec<Name>, AllocError>
    ensures { IfOk result (λ names. names.items ≡ moved_names strip (option_copied source.entry) (option_copied destination.entry)) }
{
    let one = moved_name(alloc, strip, source)?;
    let other = moved_name(alloc, strip, destination)?;
    two_names(alloc, one, other)
}

fn moved_strip(strip: Option<u32>) -> Option<u32>
    ensures { result ≡ moved_strip strip }
{
    match strip {
        Some(count) => Some(count.saturating_sub(1)),
        None => None,
    }
}

fn moved_name(
    alloc: Global,
    strip: Option<u32>,
    text: Option<&[u8]>,
) -> Result<Option<Name>, AllocError>
    ensures { IfOk result (λ found. found ≡ moved_name strip (option_copied text.entry)) }
{
    match text {
        Some(text) => candidate(alloc, moved_strip(strip), text),
        None => Ok(None),
    }
}

/// Both names, where both are there and differ.
fn two_names(
    alloc: Global,
    source: Option<Name>,
    destination: Option<Name>,
) -> Result<Vec<Name>, AllocError>
    ensures { IfOk result (λ names. names.items ≡ two_names source destination) }
{
    let Some(source) = source else {
        return Ok(Vec::new(alloc));
    };
    let Some(destination) = destination else {
        return Ok(Vec::new(alloc));
    };
    differing(alloc, source, destination)
}

fn differing(alloc: Global, source: Name, destination: Name) -> Result<Vec<Name>, AllocError>
    ensures { IfOk result (λ names. names.items ≡ differing source destination) }
{
    let mut names = Vec::new(alloc);
    if source.text().as_bytes() == destination.text().as_bytes() {
        return Ok(names);
    }
    names.push(source)?;
    names.push(destination)?;
    Ok(names)
}
