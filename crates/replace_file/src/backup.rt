//! A backup: a file's bytes are put at another name.
ghost use Rattle.std.specs.Prelude.{◌≡◌, ◌<◌, ◌≤◌, ◌++◌, ℕ, List, true, false, Some, length, min, IfOk, OnOk};
ghost use Rattle.outside.specs.Files.{Files, is_temp, bytes_at};
ghost use Rattle.outside.specs.TreeView.{IsRun};
ghost use Rattle.outside.specs.Calls.{IsThere, SealsStay};
ghost use Rattle.outside.specs.Quiet.{IsQuiet, WorksOn, MakesEffect};
ghost use Rattle.outside.specs.Quiet.Effect.{Put};
ghost use Rattle.replace_file.specs.Copies.{Copies};
ghost use Rattle.replace_file.specs.Puts.{Puts};

use crate::put::put_begun;
use crate::temp::{Temp, begin_temp};
use outside::{Failed, Name, Tree};

// How many bytes are read at once.
const PIECE: usize = 16_384;

// How many of the bytes that are left are read next.
fn piece_length(left: u64) -> usize
    ensures { result ≡ min left PIECE }
{
    if left < PIECE as u64 {
        left as usize
    } else {
        PIECE
    }
}

// Adds as much of a file, from a place on, as the buffer takes.
fn copy_piece<T: Tree>(
    tree: &mut T,
    from: &Name,
    at: u64,
    buffer: &mut [u8],
    begun: &mut Temp<'_>,
) -> Result<usize, Failed>
    requires quiet { IsQuiet (T.view tree.old) }
    requires lasting { is_temp from.now ≡ false }
    requires there { IsThere (T.view tree.old) from.now }
    requires begun { IsThere (T.view tree.old) begun.old.name.now }
    ensures name { begun.new.name.now ≡ begun.old.name.now }
    ensures run { IsRun (T.view tree.old) (T.view tree.new) result }
    ensures works { WorksOn (T.view tree.old) (T.view tree.new) begun.old.name.now }
    ensures seals { SealsStay (T.view tree.old) (T.view tree.new) begun.old.name.now }
    ensures count { IfOk result (λ n. n ≤ length buffer.old) }
    ensures copies { IfOk result (λ n. Copies (T.view tree.old) (T.view tree.new) begun.old.name.now from.now at n) }
    ensures end { IfOk result (λ n. n ≡ 0 → 0 < length buffer.old → (f : Files) → (T.view tree.old).told ≡ Some f → length (bytes_at f from.now) ≤ at) }
{
    let count = tree.read_at(from, at, buffer)?;
    begun.put(tree, &buffer[..count])?;
    Ok(count)
}

// Adds the first bytes of a file that has so many. Over a tree that tells nothing it ends where a read gives none.
fn copy_bytes<T: Tree>(
    tree: &mut T,
    from: &Name,
    size: u64,
    begun: &mut Temp<'_>,
) -> Result<(), Failed>
    requires quiet { IsQuiet (T.view tree.old) }
    requires lasting { is_temp from.now ≡ false }
    requires there { IsThere (T.view tree.old) from.now }
    requires begun { IsThere (T.view tree.old) begun.old.name.now }
    requires size { (f : Files) → (T.view tree.old).told ≡ Some f → size ≡ length (bytes_at f from.now) }
    ensures name { begun.new.name.now ≡ begun.old.name.now }
    ensures run { IsRun (T.view tree.old) (T.view tree.new) result }
    ensures works { WorksOn (T.view tree.old) (T.view tree.new) begun.old.name.now }
    ensures seals { SealsStay (T.view tree.old) (T.view tree.new) begun.old.name.now }
    ensures copies { OnOk result (Copies (T.view tree.old) (T.view tree.new) begun.old.name.now from.now 0 size) }
{
    let mut buffer = [0u8; PIECE];
    let mut at = 0;
    'pieces: while at < size {
        let wanted = piece_length(size - at);
        let count = copy_piece(tree, from, at, &mut buffer[..wanted], begun)?;
        if count == 0 {
            return Ok(());
        }
        at += count as u64;
    }
    Ok(())
}

// Adds all bytes of a file, none where it is missing.
fn copy_file<T: Tree>(tree: &mut T, from: &Name, begun: &mut Temp<'_>) -> Result<(), Failed>
    requires quiet { IsQuiet (T.view tree.old) }
    requires lasting { is_temp from.now ≡ false }
    requires begun { IsThere (T.view tree.old) begun.old.name.now }
    ensures name { begun.new.name.now ≡ begun.old.name.now }
    ensures run { IsRun (T.view tree.old) (T.view tree.new) result }
    ensures works { WorksOn (T.view tree.old) (T.view tree.new) begun.old.name.now }
    ensures seals { SealsStay (T.view tree.old) (T.view tree.new) begun.old.name.now }
    ensures there { OnOk result (IsThere (T.view tree.new) begun.old.name.now) }
    ensures bytes { OnOk result ((f g : Files) → (T.view tree.old).told ≡ Some f → (T.view tree.new).told ≡ Some g → bytes_at g begun.old.name.now ≡ bytes_at f begun.old.name.now ++ bytes_at f from.now) }
{
    match tree.size(from)? {
        Some(size) => copy_bytes(tree, from, size, begun),
        None => Ok(()),
    }
}

// Adds all bytes of a file. A copy of a symbolic link, whose bytes are its text, becomes a link.
fn copy_whole<T: Tree>(tree: &mut T, from: &Name, begun: &mut Temp<'_>) -> Result<(), Failed>
    requires quiet { IsQuiet (T.view tree.old) }
    requires lasting { is_temp from.now ≡ false }
    requires begun { IsThere (T.view tree.old) begun.old.name.now }
    ensures name { begun.new.name.now ≡ begun.old.name.now }
    ensures run { IsRun (T.view tree.old) (T.view tree.new) result }
    ensures works { WorksOn (T.view tree.old) (T.view tree.new) begun.old.name.now }
    ensures seals { SealsStay (T.view tree.old) (T.view tree.new) begun.old.name.now }
    ensures there { OnOk result (IsThere (T.view tree.new) begun.old.name.now) }
    ensures bytes { OnOk result ((f g : Files) → (T.view tree.old).told ≡ Some f → (T.view tree.new).told ≡ Some g → bytes_at g begun.old.name.now ≡ bytes_at f begun.old.name.now ++ bytes_at f from.now) }
{
    copy_file(tree, from, begun)?;
    begun.set_like(tree, from)
}

/// Puts the bytes of a file at another name, an empty file where it is missing: whole at every moment, by way of the
/// temporary.
pub fn copy_backup<T: Tree>(tree: &mut T, from: &Name, temp: &Name, to: &Name) -> Result<(), Failed>
    requires temporary { is_temp temp.now ≡ true }
    requires lasting_from { is_temp from.now ≡ false }
    requires lasting { is_temp to.now ≡ false }
    requires quiet { IsQuiet (T.view tree.old) }
    ensures puts { Puts (T.view tree.old) (T.view tree.new) result temp.now to.now (λ f. bytes_at f from.now) }
    ensures makes { (f : Files) → (T.view tree.old).told ≡ Some f → MakesEffect (T.view tree.old) (T.view tree.new) result (Put to.now (bytes_at f from.now)) }
{
    copy_to_temp(tree, from, temp, to)
}

// Copies to the temporary, and puts it.
fn copy_to_temp<T: Tree>(tree: &mut T, from: &Name, temp: &Name, to: &Name) -> Result<(), Failed>
    requires temporary { is_temp temp.now ≡ true }
    requires lasting_from { is_temp from.now ≡ false }
    requires lasting { is_temp to.now ≡ false }
    requires quiet { IsQuiet (T.view tree.old) }
    ensures { Puts (T.view tree.old) (T.view tree.new) result temp.now to.now (λ f. bytes_at f from.now) }
{
    let mut begun = begin_temp(tree, temp)?;
    copy_whole(tree, from, &mut begun)?;
    put_begun(tree, begun, to)
}
