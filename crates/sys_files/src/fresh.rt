//! New files under names that no file has, so that none is ever lost to them.

use crate::directories::Directories;
use crate::origins::{Due, Grant};
use crate::paths::Path;
use crate::rights::rights_of;
use crate::spots::LocatedName;
use crate::text::Text;
use std::fs::{File, OpenOptions};
use std::io::ErrorKind;
use std::os::unix::fs::OpenOptionsExt;
use std::rt::Files;
use std::{fs, io};

/// How many names are tried for a new file.
const MOST_NAMES: u32 = 10_000;

/// How much of a file's name stands in that of its temporary, which the system takes up to 255 bytes.
const LONGEST_FRONT: usize = 240;

/// How a new file is opened, where none is there.
fn as_new(mode: u32) -> OpenOptions {
    let mut how = OpenOptions::new();
    how.read(true).write(true).create_new(true).mode(mode);
    how
}

/// Makes a file beside the one that it is for, under a name of the form `.f.1.ptmp` that no file has, and tells that name.
pub fn make_beside<R: Files<File = File>>(
    rt: &R,
    directories: &mut Directories,
    place: LocatedName<'_>,
    last: &str,
    name: &mut Text,
    mode: u32,
) -> io::Result<File> {
    let how = as_new(mode);
    for number in 1..MOST_NAMES {
        name.clear();
        name.add(".")?;
        put_name(name, front_of(last), number)?;
        match directories.open(rt, &how, place.beside(name.as_str())) {
            Ok(file) => return Ok(file),
            Err(error) => {
                if !matches!(error.kind(), ErrorKind::AlreadyExists) {
                    return Err(error);
                }
                directories.note_taken(place, name.as_str());
            }
        }
    }
    Err(io::Error::from(ErrorKind::AlreadyExists))
}

/// Makes a link with this text beside the file that it is for, in the same way.
pub fn link_beside<R: Files<File = File>>(
    rt: &R,
    directories: &mut Directories,
    place: LocatedName<'_>,
    last: &str,
    name: &mut Text,
    text: &str,
) -> io::Result<()> {
    for number in 1..MOST_NAMES {
        name.clear();
        name.add(".")?;
        put_name(name, front_of(last), number)?;
        match directories.link(rt, text, place.beside(name.as_str())) {
            Ok(()) => return Ok(()),
            Err(error) => {
                if !matches!(error.kind(), ErrorKind::AlreadyExists) {
                    return Err(error);
                }
            }
        }
    }
    Err(io::Error::from(ErrorKind::AlreadyExists))
}

fn put_name(name: &mut Text, front: &str, number: u32) -> io::Result<()> {
    name.add(front)?;
    name.add(".")?;
    name.add_number(number)?;
    name.add(".ptmp")
}

/// As much of a name as there is room for, in whole characters.
fn front_of(last: &str) -> &str {
    if last.len() <= LONGEST_FRONT {
        return last;
    }
    for less in 0..4 {
        if let Some(front) = last.get(..LONGEST_FRONT - less) {
            return front;
        }
    }
    ""
}

/// Makes a file in a directory that only its owner reads, and takes its name away at once, so that nothing is left of it.
pub fn make_nameless<R: Files<File = File>>(
    rt: &R,
    directory: &str,
    path: &mut Text,
) -> io::Result<File> {
    let how = as_new(0o600);
    for number in 1..MOST_NAMES {
        path.set(directory)?;
        path.add("/.")?;
        put_name(path, "patchkit", number)?;
        match how.open(rt, path.as_str()) {
            Ok(file) => {
                return match fs::remove_file(rt, path.as_str()) {
                    Ok(()) => Ok(file),
                    Err(error) => Err(error),
                };
            }
            Err(error) => {
                if !matches!(error.kind(), ErrorKind::AlreadyExists) {
                    return Err(error);
                }
            }
        }
    }
    Err(io::Error::from(ErrorKind::AlreadyExists))
}

/// The rights that a temporary is to get once it is sealed. Those that the system gives to a new file are told by one that is taken
/// away at once, the first time in each directory: nothing tells the mask of permission bits without a change of it.
pub fn rights_due<R: Files<File = File>>(
    rt: &R,
    directories: &mut Directories,
    place: LocatedName<'_>,
    target: Path<'_>,
    name: &mut Text,
    due: Due,
) -> io::Result<Grant> {
    if let Due::Exactly(rights) = due {
        return Ok(Grant::as_old(rights));
    }
    if let Some(usual) = directories.usual_rights(place) {
        return Ok(Grant::as_new(due, usual));
    }
    let file = match make_beside(rt, directories, place, target.last(), name, 0o777) {
        Ok(file) => file,
        Err(error) => return Err(error),
    };
    let usual = rights_of(&file);
    directories.remove(rt, place.beside(name.as_str()))?;
    match usual {
        Ok(usual) => {
            directories.know_usual(place, usual);
            Ok(Grant::as_new(due, usual))
        }
        Err(error) => Err(error),
    }
}
