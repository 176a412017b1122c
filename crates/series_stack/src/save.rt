//! A save is looked at before anything in it is believed. It has for each name an entry: `none NAME`, or `file LENGTH NAME` and
//! the bytes of the file, each followed by a line feed.
ghost use Rattle.std.specs.Prelude.{◌≡◌, ◌&&◌, not, bytes_eq, None, true, false, IsSome, IsSomeAnd, IfOk, IfErr, OnOk};
ghost use Rattle.outside.specs.Files.{is_temp};
ghost use Rattle.series_stack.specs.Saves.{entries_of, first_entry, if_saved, is_saved, is_of_stack};
ghost use Rattle.series_stack.specs.Causes.{IsBadOr};
ghost use Rattle.series_stack.specs.declared.fault.StateFile.TheVariants.{Save};

use crate::entry::first_entry;
use crate::fault::{StackFault, StateFile};
use outside::{Name, NameFault};
use std::alloc::Global;

/// Whether the text is a save: entries one behind the other, each with a lawful name in normal form that is neither a
/// temporary's nor below `.pc/` or `patches/`, and each file with at most 4,294,967,295 bytes. The only faults are
/// `BadState` and `Memory`.
pub fn check_save(alloc: Global, text: &[u8]) -> Result<(), StackFault>
    ensures save { OnOk result (IsSome (entries_of text.now)) }
    ensures cause { IfErr result (λ e. IsBadOr e Save (entries_of text.now ≡ None)) }
{
    let mut rest = text;
    while !rest.is_empty() {
        rest = behind_first(alloc, rest)?;
    }
    Ok(())
}

// What stands behind the entry at the front, which may be saved.
fn behind_first(alloc: Global, text: &[u8]) -> Result<&[u8], StackFault>
    ensures first { IfOk result (λ rest. IsSomeAnd (if_saved (first_entry text.now)) (λ x. x.1 ≡ rest.now)) }
    ensures cause { IfErr result (λ e. IsBadOr e Save (if_saved (first_entry text.now) ≡ None)) }
{
    match first_entry(text) {
        Some(entry) => match check_name(alloc, entry.name) {
            Ok(()) => Ok(entry.rest),
            Err(fault) => Err(fault),
        },
        None => Err(StackFault::BadState {
            file: StateFile::Save,
        }),
    }
}

// Whether a name may be saved.
fn check_name(alloc: Global, text: &[u8]) -> Result<(), StackFault>
    ensures saved { OnOk result (is_saved text.now ≡ true) }
    ensures cause { IfErr result (λ e. IsBadOr e Save (is_saved text.now ≡ false)) }
{
    match Name::new(alloc, text) {
        Ok(name) => {
            if may_be_saved(&name, text) {
                Ok(())
            } else {
                Err(StackFault::BadState {
                    file: StateFile::Save,
                })
            }
        }
        Err(NameFault::Refused { .. }) => Err(StackFault::BadState {
            file: StateFile::Save,
        }),
        Err(NameFault::Memory) => Err(StackFault::Memory),
    }
}

// Whether the name is written as it is, is no temporary's and isn't of the stack.
fn may_be_saved(name: &Name, text: &[u8]) -> bool
    ensures { result ≡ (bytes_eq name.now text.now && (not (is_temp name.now) && not (is_of_stack text.now))) }
{
    if name.text().as_bytes() != text {
        return false;
    }
    if name.is_temp() {
        return false;
    }
    !is_of_stack(text)
}

fn is_of_stack(text: &[u8]) -> bool
    ensures { result ≡ is_of_stack text.now }
{
    text.starts_with(b".pc/") || text.starts_with(b"patches/")
}
