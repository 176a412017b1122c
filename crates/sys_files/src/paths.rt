//! Names, and what is answered where one leads to no file.

use crate::found::Found;
use outside::Name;
use std::io;
use std::io::ErrorKind;

/// The system's number for a path that is too long.
const NAME_TOO_LONG: i32 = 36;

pub const PERMISSION_DENIED: i32 = 13;

const CUT_OFF: &str = "what is on the way to it is no directory (a symbolic link isn't followed)";

const NOWHERE: &str = "a symbolic link on the way to it leads nowhere";

/// A name, or a directory that it goes through.
#[derive(Clone, Copy)]
pub struct Path<'a> {
    pub text: &'a str,
    /// How many of the first bytes the operator gave.
    pub given: usize,
}

impl<'a> Path<'a> {
    pub fn of(name: &'a Name) -> Path<'a> {
        Path {
            text: name.text(),
            given: name.given_bytes(),
        }
    }

    /// Its directories, with the slash behind the last one.
    pub fn directories(self) -> &'a str {
        match self.text.rfind('/') {
            Some(slash) => self.text.get(..=slash).unwrap_or(self.text),
            None => "",
        }
    }

    /// Its last component.
    pub fn last(self) -> &'a str {
        match self.text.rsplit_once('/') {
            Some((_, last)) => last,
            None => self.text,
        }
    }

    /// What of it stands behind these bytes.
    pub fn behind(self, from: usize) -> &'a str {
        self.text.get(from..).unwrap_or("")
    }

    /// Whether the other one stands in the same directory, with as much of that given.
    pub fn is_beside(self, other: Path<'_>) -> bool {
        let directories = self.directories();
        directories == other.directories()
            && self.given.min(directories.len()) == other.given.min(directories.len())
    }

    /// Whether the operator gave all of it, so that its last component may be a link.
    pub fn is_given(self) -> bool {
        self.text.len() <= self.given
    }

    /// Whether it is a name for temporaries alone.
    pub fn is_temporary(self) -> bool {
        self.text.ends_with(".ptmp")
    }
}

/// What was found, or nothing where the error says that it can't be reached: a name longer than the system takes, or one behind
/// a directory that can't be searched. So a candidate costs its file patch and not the run. For a stack's commands it is a
/// fault: else a stack would look as if nothing of it were applied, or a file as if it were taken away.
pub fn or_out_of_reach(found: io::Result<Found>) -> io::Result<Found> {
    match found {
        Ok(found) => Ok(found),
        Err(error) => match error.kind() {
            ErrorKind::InvalidFilename | ErrorKind::PermissionDenied | ErrorKind::FilesystemLoop =>
                Ok(Found {
                    is_closed: true,
                    ..Found::NOTHING
                }),
            _ => Err(error),
        },
    }
}

/// Whether a file may be put in the place of what was found, or a link: where anything else stands there that is an error.
pub fn replaceable(found: io::Result<Found>, link: bool) -> io::Result<()> {
    match found {
        Ok(found) if found.is_other(link) => Err(not_a_file(found)),
        Ok(_) => Ok(()),
        Err(error) => Err(error),
    }
}

/// What was found, or the error where that is neither a regular file nor a link.
pub fn with_bytes(found: io::Result<Found>) -> io::Result<Found> {
    match found {
        Ok(found) if found.has_bytes() => Ok(found),
        Ok(_) => Err(no_file()),
        Err(error) => Err(error),
    }
}

/// The name that a temporary is for.
pub fn target_of(temp: Path<'_>) -> Path<'_> {
    Path {
        text: temp.text.strip_suffix(".ptmp").unwrap_or(temp.text),
        given: temp.given,
    }
}

/// The answer where no regular file stands.
pub fn no_file() -> io::Error {
    io::Error::new(ErrorKind::NotFound, "No such file or directory")
}

/// The answer where this stands in place of what is meant.
pub fn not_a_file(found: Found) -> io::Error {
    io::Error::new(ErrorKind::AlreadyExists, found.kind())
}

/// The answer where a directory is to be made at the name of a link that leads nowhere.
pub fn leads_nowhere() -> io::Error {
    io::Error::new(ErrorKind::NotADirectory, NOWHERE)
}

/// The answer where something on the way is no directory.
pub fn not_a_directory() -> io::Error {
    io::Error::new(ErrorKind::NotADirectory, "Not a directory")
}

/// The answer where a file that is kept for the run isn't found, since its way isn't open to it.
pub fn no_way(found: Found) -> io::Error {
    if found.is_closed {
        io::Error::from_raw_os_error(PERMISSION_DENIED)
    } else if found.is_cut_off {
        io::Error::new(ErrorKind::NotADirectory, CUT_OFF)
    } else {
        not_a_file(found)
    }
}

/// The answer where a path is longer than the system takes.
pub fn too_long() -> io::Error {
    io::Error::from_raw_os_error(NAME_TOO_LONG)
}
