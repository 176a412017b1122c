//! Who owns a file, and who may read, write and run it.

use std::fs::{File, Metadata, Permissions};
use std::io;
use std::os::unix::fs::{MetadataExt, PermissionsExt, fchown};

/// Reading, writing and running for the owner, the group and others. The bits that lend the owner's or the group's rights to
/// whoever runs the file are never carried.
const PERMISSION_BITS: u32 = 0o777;

const EXECUTE_BITS: u32 = 0o111;

/// The owner, the group and the permission bits of a file. Access lists and extended attributes aren't carried.
#[derive(Clone, Copy)]
pub struct Rights {
    owner: u32,
    group: u32,
    bits: u32,
}

impl Rights {
    /// That all may do all, whoever owns it.
    pub const ALL: Rights = Rights {
        owner: 0,
        group: 0,
        bits: PERMISSION_BITS,
    };

    /// Those of nothing.
    pub const NONE: Rights = Rights {
        owner: 0,
        group: 0,
        bits: 0,
    };

    pub fn of(found: &Metadata) -> Rights {
        Rights {
            owner: found.uid(),
            group: found.gid(),
            bits: found.mode() & PERMISSION_BITS,
        }
    }

    /// The same owner and group, with no bit that the other file lacks.
    pub fn limited(self, most: Rights) -> Rights {
        Rights {
            owner: self.owner,
            group: self.group,
            bits: self.bits & most.bits,
        }
    }

    /// These rights, but that nobody may execute the file.
    pub fn inert(self) -> Rights {
        Rights {
            owner: self.owner,
            group: self.group,
            bits: self.bits & !EXECUTE_BITS,
        }
    }

    /// These rights, but that those may execute the file who may read it, as far as `most` lets them.
    pub fn executable(self, most: Rights) -> Rights {
        let readers = (self.bits / 4) & EXECUTE_BITS;
        Rights {
            owner: self.owner,
            group: self.group,
            bits: self.bits | (readers & most.bits),
        }
    }

    /// What both files let others do, where one is given the group of the second.
    pub fn met(self, other: Rights) -> Rights {
        Rights {
            owner: other.owner,
            group: other.group,
            bits: bits_for(self, other) & other.bits,
        }
    }

    /// The rights of a new file for those alone who have `most`, and for its owner.
    pub fn shown_to(self, most: Rights) -> Rights {
        Rights {
            owner: self.owner,
            group: self.group,
            bits: self.bits & (0o700 | bits_for(most, self)),
        }
    }

    /// What a directory lets be done with the files in it: all by those who may search it, nothing by others.
    pub fn inside(self) -> Rights {
        Rights {
            owner: self.owner,
            group: self.group,
            bits: (self.bits & EXECUTE_BITS) * 7,
        }
    }
}

/// Gives a file these rights: the owner and the group first, or the group alone, or neither, whichever the system allows, and
/// then the bits. It is called while the file is its owner's alone, so that no bit ever speaks of another owner or group than it
/// was meant for; which ones it has is asked of the file itself, since whoever owns its directory can change what new files get.
pub fn give(file: &File, wanted: Rights) -> io::Result<()> {
    let mut now = rights_of(file)?;
    if now.owner != wanted.owner || now.group != wanted.group {
        if fchown(file, Some(wanted.owner), Some(wanted.group)).is_err() {
            let _ = fchown(file, None, Some(wanted.group));
        }
        now = rights_of(file)?;
    }
    let bits = bits_for(wanted, now);
    if now.bits == bits {
        return Ok(());
    }
    file.set_permissions(Permissions::from_mode(bits))
}

pub fn rights_of(file: &File) -> io::Result<Rights> {
    match file.metadata() {
        Ok(found) => Ok(Rights::of(&found)),
        Err(error) => Err(error),
    }
}

/// The bits for a file that may have another group: then its members and all others get what both had.
fn bits_for(wanted: Rights, now: Rights) -> u32 {
    if wanted.group == now.group {
        return wanted.bits;
    }
    let both = (wanted.bits / 8) & wanted.bits & 0o7;
    (wanted.bits & 0o700) | (both * 8) | both
}
