//! A file of the tree, read whole, however long it is.
ghost use Rattle.std.specs.Prelude.{◌≡◌, ◌≤◌, ◌<◌, Some, None, length, IfOk, IfErr, OnOk, option_map, vec_items};
ghost use Rattle.std.specs.FinMap.{get};
ghost use Rattle.outside.specs.Files.{Files, bytes_at};
ghost use Rattle.outside.specs.Calls.{IsThere, IsUntouched};
ghost use Rattle.stack_state.specs.Causes.{HasReadCause, HasSize};

use crate::fault::StateFault;
use outside::{Name, Tree};
use std::alloc::{AllocError, Global};

/// The bytes of a file, or none where nothing has the name. The tree is left untouched. The faults are `Tree`, `Disagree`
/// with the file's size and how many bytes came, which are fewer, and `Memory`.
pub fn read_whole<T: Tree>(
    alloc: Global,
    name: &Name,
    tree: &mut T,
) -> Result<Option<Vec<u8>>, StateFault>
    ensures untouched { IsUntouched (T.view tree.old) (T.view tree.new) }
    ensures bytes { IfOk result (λ held. (f : Files) → (T.view tree.old).told ≡ Some f → get f name.now ≡ option_map vec_items held) }
    ensures cause { IfErr result (λ e. HasReadCause e (T.view tree.old) (T.view tree.new)) }
{
    match tree.size(name) {
        Ok(Some(size)) => read_file(alloc, name, size, tree),
        Ok(None) => Ok(None),
        Err(_) => Err(StateFault::Tree),
    }
}

// The bytes of a file that is there, and has so many.
fn read_file<T: Tree>(
    alloc: Global,
    name: &Name,
    size: u64,
    tree: &mut T,
) -> Result<Option<Vec<u8>>, StateFault>
    requires there { (f : Files) → (T.view tree.old).told ≡ Some f → get f name.now ≡ Some (bytes_at f name.now) }
    requires long { (f : Files) → (T.view tree.old).told ≡ Some f → size ≡ length (bytes_at f name.now) }
    ensures untouched { IsUntouched (T.view tree.old) (T.view tree.new) }
    ensures bytes { IfOk result (λ held. (f : Files) → (T.view tree.old).told ≡ Some f → get f name.now ≡ option_map vec_items held) }
    ensures cause { IfErr result (λ e. HasReadCause e (T.view tree.old) (T.view tree.new)) }
    ensures size { IfErr result (HasSize size) }
{
    let mut text = room(alloc, size)?;
    read_into(name, &mut text, tree)?;
    Ok(Some(text))
}

fn room(alloc: Global, size: u64) -> Result<Vec<u8>, AllocError>
    ensures { IfOk result (λ text. length text.items ≡ size) }
{
    vec![in alloc; 0u8; size as usize]
}

// Fills the buffer with the bytes of a file that has so many.
fn read_into<T: Tree>(name: &Name, buf: &mut [u8], tree: &mut T) -> Result<(), StateFault>
    requires there { IsThere (T.view tree.old) name.now }
    requires long { (f : Files) → (T.view tree.old).told ≡ Some f → length buf.old ≡ length (bytes_at f name.now) }
    ensures untouched { IsUntouched (T.view tree.old) (T.view tree.new) }
    ensures bytes { OnOk result ((f : Files) → (T.view tree.old).told ≡ Some f → buf.new ≡ bytes_at f name.now) }
    ensures cause { IfErr result (λ e. HasReadCause e (T.view tree.old) (T.view tree.new)) }
    ensures size { IfErr result (HasSize (length buf.old)) }
{
    match tree.read_at(name, 0, buf) {
        Ok(count) => match came(buf.len(), count) {
            Ok(()) => Ok(()),
            Err(fault) => Err(fault),
        },
        Err(_) => Err(StateFault::Tree),
    }
}

// Whether as many bytes came as were wanted.
fn came(want: usize, got: usize) -> Result<(), StateFault>
    ensures whole { OnOk result (want ≤ got) }
    ensures fewer { IfErr result (λ e. (e ≡ StateFault.Disagree want got) × (got < want)) }
{
    if got < want {
        return Err(StateFault::Disagree {
            want: want as u64,
            got: got as u64,
        });
    }
    Ok(())
}
