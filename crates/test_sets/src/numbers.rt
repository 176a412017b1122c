//! A set over a tree that has a numbered backup of its file.

ghost use Rattle.patch_options.specs.PlainJob.{plain_options, IsLawful};

use crate::sets::{is_told, plain};
use apply_backup_numbers::number_backups;
use mem_world::MemTree;
use outside::Name;
use patch_options::{BackupNumbers, Options};
use patch_set::{PatchSet, read_set};
use std::alloc::{AllocError, Global};

const TEXT: &[u8] = b"--- f\n+++ f\n@@ -1 +1 @@\n-a\n+b\n";

const BACKUP: &str = "\"f.~3~\" \"f.~3~.ptmp\"";

/// What `patch -b -V numbered` asks for.
fn numbering() -> Options
    ensures { IsLawful (plain_options result) }
{
    let mut options = plain();
    options.backup = true;
    options.numbers = BackupNumbers::Always;
    options
}

/// A tree with the second backup of `f`.
fn tree_of(alloc: Global) -> Result<MemTree, AllocError> {
    let mut tree = MemTree::new(alloc, Vec::new(alloc));
    match Name::new(alloc, b"f.~2~") {
        Ok(name) => tree.add(name, Vec::new(alloc))?,
        Err(_) => return Err(AllocError),
    }
    Ok(tree)
}

fn backup_told(alloc: Global, set: &PatchSet) -> Result<String, AllocError> {
    match set.patches() {
        [only] => match only.targets.as_slice() {
            [target, ..] => format!(in alloc; "{:?} {:?}", target.backup, target.backup_temp),
            _ => Err(AllocError),
        },
        _ => Err(AllocError),
    }
}

/// Whether the set's backup is the one that comes next.
fn is_numbered(alloc: Global, options: &Options, set: PatchSet) -> bool {
    match tree_of(alloc) {
        Ok(mut tree) => match number_backups(alloc, options, set, &mut tree) {
            Ok(set) => is_told(backup_told(alloc, &set), BACKUP),
            Err(_) => false,
        },
        Err(_) => false,
    }
}

fn numbers_come_next(alloc: Global) -> bool {
    let options = numbering();
    match Vec::from_slice(alloc, TEXT) {
        Ok(text) => match read_set(alloc, text, &options) {
            Ok(set) => is_numbered(alloc, &options, set),
            Err(_) => false,
        },
        Err(_) => false,
    }
}

#[test]
fn backups_get_numbers(rt: HostRuntime) {
    assert!(rt; numbers_come_next(rt.alloc()));
}
