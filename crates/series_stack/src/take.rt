//! A save is taken of what names stand for.
ghost use Rattle.std.specs.Prelude.{◌≡◌, ◌≢◌, ◌≤◌, ◌<◌, ◌^◌, ◌++◌, ◌∷◌, [], ℕ, List, codes, length, Some, None, IsSome, IfOk, IfErr, OnOk};
ghost use Rattle.std.specs.FinMap.{get};
ghost use Rattle.num_text.specs.Numbers.{decimal};
ghost use Rattle.outside.specs.Files.{Files, bytes_at};
ghost use Rattle.outside.specs.Calls.{IsThere, IsUntouched};
ghost use Rattle.series_stack.specs.Found.{entry_with};
ghost use Rattle.series_stack.specs.Saves.{entries_of, entry_text, save_text};
ghost use Rattle.series_stack.specs.Saves.Entry.{Missing, Held};
ghost use Rattle.series_stack.specs.Undoing.{entries_at};
ghost use Rattle.series_stack.specs.Taking.{too_long, AreSaved, IsSaveOf, HasEntryMore, HasEntryCause, HasTakeCause, HasSize};

use crate::fault::StackFault;
use num_text::put_number;
use outside::{Name, Tree};
use std::alloc::{AllocError, Global};

/// The most bytes that a file of a save may have.
const LONGEST: u64 = 4_294_967_295;

/// The save of what names stand for, an entry for each in their order, whether or not something has the name. The tree is
/// left untouched. The faults are `FileTooLong` with the size of the first file of at least 2^32 bytes, `Tree`, `Disagree`
/// with a file's size and how many bytes came, which are fewer, and `Memory`.
pub fn take_names<T: Tree>(
    alloc: Global,
    names: &[Name],
    tree: &mut T,
) -> Result<Vec<u8>, StackFault>
    ensures untouched { IsUntouched (T.view tree.old) (T.view tree.new) }
    ensures save { IfOk result (λ text. (f : Files) → (T.view tree.old).told ≡ Some f → text.items ≡ save_text (entries_at f names.now)) }
    ensures short { OnOk result ((f : Files) → (T.view tree.old).told ≡ Some f → too_long (entries_at f names.now) ≡ None) }

    // Whatever the tree tells, the text is the save of one entry for each name, and is read again where these may be saved.
    ensures entries { IfOk result (λ text. IsSaveOf names.now text.items) }
    ensures form { IfOk result (λ text. AreSaved names.now → IsSome (entries_of text.items)) }
    ensures cause { IfErr result (λ e. HasTakeCause e (T.view tree.old) (T.view tree.new) names.now) }
{
    let mut text = Vec::new(alloc);
    for name in names {
        add_entry(name, &mut text, tree)?;
    }
    Ok(text)
}

// Adds the entry of a name to the text of a save: what the name stands for in the tree.
fn add_entry<T: Tree>(name: &Name, text: &mut Vec<u8>, tree: &mut T) -> Result<(), StackFault>
    ensures untouched { IsUntouched (T.view tree.old) (T.view tree.new) }
    ensures entry { OnOk result ((f : Files) → (T.view tree.old).told ≡ Some f → text.new.items ≡ text.old.items ++ entry_text (entry_with name.now (get f name.now))) }
    ensures short { OnOk result ((f : Files) → (T.view tree.old).told ≡ Some f → length (bytes_at f name.now) < 2 ^ 32) }
    ensures form { OnOk result (HasEntryMore text.old.items text.new.items name.now) }
    ensures cause { IfErr result (λ e. HasEntryCause e (T.view tree.old) (T.view tree.new) name.now) }
{
    match tree.size(name) {
        Ok(Some(size)) => add_file(name, size, text, tree),
        Ok(None) => Ok(add_missing(name, text)?),
        Err(_) => Err(StackFault::Tree),
    }
}

fn add_missing(name: &Name, text: &mut Vec<u8>) -> Result<(), AllocError>
    ensures { OnOk result (text.new.items ≡ text.old.items ++ entry_text (Missing name.now)) }
{
    text.extend_from_slice(b"none ")?;
    text.extend_from_slice(name.text().as_bytes())?;
    text.extend_from_slice(b"\n")?;
    Ok(())
}

// Adds the entry of a file that is there.
fn add_file<T: Tree>(
    name: &Name,
    size: u64,
    text: &mut Vec<u8>,
    tree: &mut T,
) -> Result<(), StackFault>
    requires size { (f : Files) → (T.view tree.old).told ≡ Some f → get f name.now ≡ Some (bytes_at f name.now) }
    requires long { (f : Files) → (T.view tree.old).told ≡ Some f → size ≡ length (bytes_at f name.now) }
    ensures untouched { IsUntouched (T.view tree.old) (T.view tree.new) }
    ensures entry { OnOk result ((f : Files) → (T.view tree.old).told ≡ Some f → text.new.items ≡ text.old.items ++ entry_text (Held name.now (bytes_at f name.now))) }
    ensures short { OnOk result (size < 2 ^ 32) }
    ensures form { OnOk result (HasEntryMore text.old.items text.new.items name.now) }
    ensures cause { IfErr result (λ e. HasEntryCause e (T.view tree.old) (T.view tree.new) name.now) }
    ensures size { IfErr result (HasSize size) }
{
    if size > LONGEST {
        return Err(StackFault::FileTooLong { length: size });
    }
    match add_head(name, size, text) {
        Ok(()) => add_bytes(name, size as usize, text, tree),
        Err(_) => Err(StackFault::Memory),
    }
}

// Adds what stands in front of the bytes.
fn add_head(name: &Name, size: u64, text: &mut Vec<u8>) -> Result<(), AllocError>
    ensures { OnOk result (text.new.items ≡ text.old.items ++ (codes "file " ++ (decimal size ++ 32 ∷ (name.now ++ 10 ∷ [])))) }
{
    let mut digits = [0; 20];
    let count = put_number(size, &mut digits);
    text.extend_from_slice(b"file ")?;
    text.extend_from_slice(&digits[..count])?;
    text.extend_from_slice(b" ")?;
    add_line(name, text)
}

fn add_line(name: &Name, text: &mut Vec<u8>) -> Result<(), AllocError>
    ensures { OnOk result (text.new.items ≡ text.old.items ++ (name.now ++ 10 ∷ [])) }
{
    text.extend_from_slice(name.text().as_bytes())?;
    text.extend_from_slice(b"\n")?;
    Ok(())
}

// Adds the bytes of a file and a line feed; they are read to where they stay.
fn add_bytes<T: Tree>(
    name: &Name,
    size: usize,
    text: &mut Vec<u8>,
    tree: &mut T,
) -> Result<(), StackFault>
    requires there { IsThere (T.view tree.old) name.now }
    requires small { size < 2 ^ 32 }
    requires long { (f : Files) → (T.view tree.old).told ≡ Some f → size ≡ length (bytes_at f name.now) }
    ensures untouched { IsUntouched (T.view tree.old) (T.view tree.new) }
    ensures bytes { OnOk result ((f : Files) → (T.view tree.old).told ≡ Some f → text.new.items ≡ text.old.items ++ (bytes_at f name.now ++ 10 ∷ [])) }
    ensures form { OnOk result ((bytes : List ℕ) × ((length bytes ≡ size) × (text.new.items ≡ text.old.items ++ (bytes ++ 10 ∷ [])))) }
    ensures cause { IfErr result (λ e. HasEntryCause e (T.view tree.old) (T.view tree.new) name.now) }
    ensures size { IfErr result (HasSize size) }
{
    let start = text.len();
    if text.resize(start + size, 0).is_err() {
        return Err(StackFault::Memory);
    }
    read_whole(name, &mut text[start..], tree)?;
    match text.push(b'\n') {
        Ok(()) => Ok(()),
        Err(_) => Err(StackFault::Memory),
    }
}

// Fills the buffer with the bytes of a file that has so many.
fn read_whole<T: Tree>(name: &Name, buf: &mut [u8], tree: &mut T) -> Result<(), StackFault>
    requires there { IsThere (T.view tree.old) name.now }
    requires long { (f : Files) → (T.view tree.old).told ≡ Some f → length buf.old ≡ length (bytes_at f name.now) }
    ensures untouched { IsUntouched (T.view tree.old) (T.view tree.new) }
    ensures bytes { OnOk result ((f : Files) → (T.view tree.old).told ≡ Some f → buf.new ≡ bytes_at f name.now) }
    ensures cause { IfErr result (λ e. HasEntryCause e (T.view tree.old) (T.view tree.new) name.now) }
    ensures size { IfErr result (HasSize (length buf.old)) }
{
    match tree.read_at(name, 0, buf) {
        Ok(count) => match came(buf.len(), count) {
            Ok(()) => Ok(()),
            Err(fault) => Err(fault),
        },
        Err(_) => Err(StackFault::Tree),
    }
}

// Whether as many bytes came as were wanted.
fn came(want: usize, got: usize) -> Result<(), StackFault>
    ensures whole { OnOk result (want ≤ got) }
    ensures fewer { IfErr result (λ e. (e ≡ StackFault.Disagree want got) × (got < want)) }
{
    if got < want {
        return Err(StackFault::Disagree {
            want: want as u64,
            got: got as u64,
        });
    }
    Ok(())
}
