//! The numbers of the backups that stand beside a name.

use crate::directories::Directories;
use crate::spots::{LocatedName, put_path};
use numbered_name::number_of;
use std::fs::File;
use std::io;
use std::io::{ErrorKind, Read};
use std::rt::Files;

/// More reads than the names of any directory take.
const MOST_READS: u32 = 1 << 24;

/// How many bytes of names are read at once. No name of the system is longer.
const ROOM: usize = 4_096;

impl Directories {
    /// The greatest number that a backup of the name has, 0 where none has one.
    pub fn last_number<R: Files<File = File>>(
        &mut self,
        rt: &R,
        place: LocatedName<'_>,
    ) -> io::Result<u64> {
        put_path(&self.held, place.beside(""), &mut self.path)?;
        if self.path.len() == 0 {
            self.path.add(".")?;
        }
        match rt.open_dir(self.path.as_str()) {
            Ok(names) => last_in(names, place.name.last().as_bytes()),
            Err(error) => Err(error),
        }
    }
}

/// The greatest number of a backup among names of which each has a zero behind it.
fn last_in<D: Read + Drop>(names: D, name: &[u8]) -> io::Result<u64> {
    let mut names = names;
    let mut read = [0; ROOM];
    let mut last = 0;
    for _ in 0..MOST_READS {
        let count = match names.read(&mut read) {
            Ok(count) => count,
            Err(error) => return Err(error),
        };
        if count == 0 {
            return Ok(last);
        }
        last = last_among(read.get(..count).unwrap_or(&read), name).max(last);
    }
    Err(io::Error::from(ErrorKind::FileTooLarge))
}

fn last_among(names: &[u8], name: &[u8]) -> u64 {
    let mut last = 0;
    for entry in names.split(is_end) {
        if let Some(number) = number_of(name, entry) {
            last = number.max(last);
        }
    }
    last
}

fn is_end(byte: &u8) -> bool {
    *byte == 0
}
