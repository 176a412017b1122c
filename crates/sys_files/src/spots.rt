//! How far the way to a name has gone, and the path that leads on from there.

use crate::held::AllHeld;
use crate::paths::{PERMISSION_DENIED, Path};
use crate::rights::Rights;
use crate::text::Text;
use std::io;
use std::io::ErrorKind;

/// The system's numbers for too many open files, of this process and of all.
const TOO_MANY_OPEN: [i32; 2] = [24, 23];

const UNREADABLE: &str = "Permission denied (its directory can't be read, so it can't be synced)";

/// How far the way to a name has gone.
#[derive(Clone, Copy)]
pub struct WalkedPath {
    /// The held directory in which the path begins, or none: the path is the name itself.
    pub base: Option<usize>,
    /// Where in the name the path begins.
    pub from: usize,
    /// Where in the name the next component begins.
    pub walked: usize,
    /// The place of the directory itself, where it is held.
    pub held: Option<usize>,
    /// Why it isn't held.
    pub refusal: i32,
    /// What all directories on the way let others do with what stands at its end.
    pub inside: Rights,
}

impl WalkedPath {
    pub const HERE: WalkedPath = WalkedPath {
        base: None,
        from: 0,
        walked: 0,
        held: None,
        refusal: PERMISSION_DENIED,
        inside: Rights::ALL,
    };
}

/// A name and the way to it; or another last component in its directory.
#[derive(Clone, Copy)]
pub struct LocatedName<'a> {
    pub spot: WalkedPath,
    pub name: Path<'a>,
    pub other: Option<&'a str>,
}

impl<'a> LocatedName<'a> {
    /// A name to which the system itself goes the way.
    pub fn as_given(name: Path<'a>) -> LocatedName<'a> {
        LocatedName {
            spot: WalkedPath::HERE,
            name,
            other: None,
        }
    }

    /// What stands beside it under this name.
    pub fn beside(self, last: &'a str) -> LocatedName<'a> {
        LocatedName {
            spot: self.spot,
            name: self.name,
            other: Some(last),
        }
    }
}

/// Puts the front of a path: how the directory is reached in which it begins.
pub fn put_front(held: &AllHeld, spot: WalkedPath, path: &mut Text) -> io::Result<()> {
    match spot.base {
        Some(base) => held.add_path(base, path),
        None => Ok(()),
    }
}

pub fn put_path(held: &AllHeld, place: LocatedName<'_>, path: &mut Text) -> io::Result<()> {
    path.clear();
    put_front(held, place.spot, path)?;
    match place.other {
        Some(last) => {
            let directories = place.name.directories();
            path.add(directories.get(place.spot.from..).unwrap_or(""))?;
            path.add(last)
        }
        None => path.add(place.name.behind(place.spot.from)),
    }
}

/// A directory that was seen and can't be opened is passed by its name, where the system lets it be searched or has no descriptor
/// left; where it is gone by now, there is no way.
pub fn passed(error: io::Error, spot: WalkedPath) -> io::Result<Option<WalkedPath>> {
    if is_too_many(&error) || matches!(error.kind(), ErrorKind::PermissionDenied) {
        let refusal = error.raw_os_error().unwrap_or(PERMISSION_DENIED);
        return Ok(Some(WalkedPath { refusal, ..spot }));
    }
    match error.kind() {
        ErrorKind::NotFound | ErrorKind::NotADirectory => Ok(None),
        _ => Err(error),
    }
}

/// The answer where this error keeps a directory from being opened in which a name is to change.
pub fn unsynced(error: io::Error) -> io::Error {
    if matches!(error.kind(), ErrorKind::PermissionDenied) {
        io::Error::new(ErrorKind::Other, UNREADABLE)
    } else {
        error
    }
}

pub fn is_too_many(error: &io::Error) -> bool {
    match error.raw_os_error() {
        Some(number) => TOO_MANY_OPEN.contains(&number),
        None => false,
    }
}
