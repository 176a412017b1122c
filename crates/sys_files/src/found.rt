//! What stands at a name, as the system tells it.

use crate::rights::Rights;
use std::fs::Metadata;
use std::io::ErrorKind;
use std::os::unix::fs::{FileTypeExt, MetadataExt};
use std::rt::Files;
use std::{fs, io};

/// Which file or directory it is.
#[derive(Clone, Copy)]
pub struct Identity {
    device: u64,
    number: u64,
}

impl Identity {
    /// The working directory, to which no name leads: it is never another one.
    pub const HERE: Identity = Identity {
        device: 0,
        number: 0,
    };

    pub fn is_same(self, other: Identity) -> bool {
        self.device == other.device && self.number == other.number
    }
}

/// What stands at a name, if anything does: the few things that are asked of it, in place of all that the system tells.
#[derive(Clone, Copy)]
pub struct Found {
    pub is_there: bool,
    pub is_file: bool,
    pub is_directory: bool,
    pub is_link: bool,
    pub is_pipe: bool,
    /// Nothing is there, since something on the way is no directory.
    pub is_cut_off: bool,
    /// What is there isn't told, since it can't be reached.
    pub is_closed: bool,
    pub identity: Identity,
    pub rights: Rights,
    pub length: u64,
    /// When its bytes were written last, in seconds since 1970.
    pub seconds: i64,
    /// Nanoseconds since that second.
    pub nanoseconds: i64,
}

impl Found {
    pub const NOTHING: Found = Found {
        is_there: false,
        is_file: false,
        is_directory: false,
        is_link: false,
        is_pipe: false,
        is_cut_off: false,
        is_closed: false,
        identity: Identity::HERE,
        rights: Rights::NONE,
        length: 0,
        seconds: 0,
        nanoseconds: 0,
    };

    /// What is told of what stands there.
    pub fn kind(self) -> &'static str {
        if self.is_directory {
            "is a directory"
        } else if self.is_link {
            "is a symbolic link"
        } else if self.is_file {
            "is a regular file"
        } else if self.is_there {
            "not a regular file"
        } else {
            "not found"
        }
    }

    /// Whether no file can be put in its place, or no link.
    pub fn is_barring(self, link: bool) -> bool {
        self.is_cut_off || self.is_other(link)
    }

    /// Whether something is there that is no file, or no link where one is meant.
    pub fn is_other(self, link: bool) -> bool {
        let is_meant = if link { self.is_link } else { self.is_file };
        self.is_there && !is_meant
    }

    /// Whether something stands in the way of it.
    pub fn is_in_the_way(self) -> bool {
        self.is_there || self.is_cut_off || self.is_closed
    }

    /// Whether it has bytes: those of a file, or a link's text.
    pub fn has_bytes(self) -> bool {
        self.is_file || self.is_link
    }

    /// How many bytes it has. Of a directory, a pipe or a device that is none.
    pub fn size(self) -> u64 {
        if self.has_bytes() { self.length } else { 0 }
    }

    /// Whether it is a pipe or a device.
    pub fn is_special(self) -> bool {
        self.is_there && !self.is_file && !self.is_directory && !self.is_link
    }
}

/// What stands where a path leads to, links followed.
pub fn found_behind<R: Files>(rt: &R, path: &str) -> io::Result<Found> {
    told(fs::metadata(rt, path))
}

/// What stands at a path, a link itself and not what it points to.
pub fn found_itself<R: Files>(rt: &R, path: &str) -> io::Result<Found> {
    told(fs::symlink_metadata(rt, path))
}

/// What stands at a path, which may be a link where the operator gave it.
pub fn found_at_path<R: Files>(rt: &R, path: &str, is_given: bool) -> io::Result<Found> {
    if is_given {
        found_behind(rt, path)
    } else {
        found_itself(rt, path)
    }
}

/// What the system answered: nothing, where the error says so.
pub fn told(answer: io::Result<Metadata>) -> io::Result<Found> {
    match answer {
        Ok(found) => Ok(Found {
            is_there: true,
            is_file: found.is_file(),
            is_directory: found.is_dir(),
            is_link: found.is_symlink(),
            is_pipe: found.file_type().is_fifo(),
            is_cut_off: false,
            is_closed: false,
            identity: Identity {
                device: found.dev(),
                number: found.ino(),
            },
            rights: Rights::of(&found),
            length: found.len(),
            seconds: found.mtime(),
            nanoseconds: found.mtime_nsec(),
        }),
        Err(error) => match error.kind() {
            ErrorKind::NotFound | ErrorKind::NotADirectory => Ok(Found::NOTHING),
            _ => Err(error),
        },
    }
}
