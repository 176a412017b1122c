//! One entry of a save.
ghost use Rattle.std.specs.Prelude.{◌≡◌, codes, option_map};
ghost use Rattle.std.specs.Option.{option_copied};
ghost use Rattle.series_stack.specs.Found.{found};
ghost use Rattle.series_stack.specs.Texts.{behind, cut, first_number};
ghost use Rattle.series_stack.specs.Saves.{first_entry, missing, held, held_or_none, held_file};

use crate::text::{behind, cut, first_number};

/// The entry at the front of a text, and what stands behind it. Where nothing had the name there are no bytes.
#[derive(Clone, Copy)]
pub struct FoundEntry<'a> {
    pub name: &'a [u8],
    pub bytes: Option<&'a [u8]>,
    pub rest: &'a [u8],
}

/// The entry at the front, whatever its name.
pub fn first_entry(text: &[u8]) -> Option<FoundEntry<'_>>
    ensures { option_map found result ≡ first_entry text.now }
{
    match behind(text, b"none ") {
        Some(rest) => missing(rest),
        None => held_or_none(text),
    }
}

// The entry of a name that nothing had, behind its word.
fn missing(text: &[u8]) -> Option<FoundEntry<'_>>
    ensures { option_map found result ≡ missing (cut text.now) }
{
    let (name, rest) = cut(text)?;
    Some(FoundEntry {
        name,
        bytes: None,
        rest,
    })
}

fn held_or_none(text: &[u8]) -> Option<FoundEntry<'_>>
    ensures { option_map found result ≡ held_or_none (behind (codes "file ") text.now) }
{
    held(behind(text, b"file ")?)
}

// The entry of a file, behind its word.
fn held(text: &[u8]) -> Option<FoundEntry<'_>>
    ensures { option_map found result ≡ held (first_number text.now) }
{
    let (count, rest) = first_number(text)?;
    match rest {
        [b' ', line @ ..] => held_file(count as usize, line),
        _ => None,
    }
}

// The name's line, so many bytes, and a line feed.
fn held_file(count: usize, text: &[u8]) -> Option<FoundEntry<'_>>
    ensures { option_map found result ≡ held_file count (cut text.now) }
{
    let (name, rest) = cut(text)?;
    match rest.get(count) {
        Some(b'\n') => Some(FoundEntry {
            name,
            bytes: Some(&rest[..count]),
            rest: &rest[count + 1..],
        }),
        _ => None,
    }
}
