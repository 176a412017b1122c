//! Links: their texts are read, and temporaries become links, each with what was put into it as its text.

use crate::files::OpenFiles;
use crate::found::Found;
use crate::fresh::link_beside;
use crate::paths::{Path, no_file, target_of, too_long};
use crate::reading::{Content, FoundFile, read_whole};
use crate::spots::LocatedName;
use std::fs::File;
use std::io;
use std::io::ErrorKind;
use std::rt::Files;

/// The system takes no text of so many bytes.
const LONGEST_TEXT: usize = 4_096;

const EMPTY: &str = "a symbolic link can't have an empty text";

const UNFIT: &str = "a symbolic link can't have this text (it isn't UTF-8, or has a byte 0)";

/// The text of a link that has these bytes, where one can have them.
fn link_text(bytes: &[u8]) -> io::Result<&str> {
    if bytes.is_empty() {
        return Err(io::Error::new(ErrorKind::InvalidInput, EMPTY));
    }
    if bytes.len() >= LONGEST_TEXT {
        return Err(too_long());
    }
    match std::str::from_utf8(bytes) {
        Ok(text) if !bytes.contains(&0) => Ok(text),
        _ => Err(io::Error::new(ErrorKind::InvalidInput, UNFIT)),
    }
}

impl<'r, R: Files<File = File>> OpenFiles<'r, R> {
    /// Reads the text of a link. What it leads to is never looked at.
    pub fn opened_link(
        &mut self,
        name: Path<'_>,
        place: LocatedName<'_>,
        found: Found,
    ) -> io::Result<Option<FoundFile>> {
        if self.temporaries.find(name.text).is_some() {
            return Err(no_file());
        }
        let text = match self.directories.link_text(self.rt, self.alloc, place) {
            Ok(text) => text,
            Err(error) => return Err(error),
        };
        let audience = found.rights;
        let seen = FoundFile { found, audience };
        self.reading.keep(name.text, Content::Text(text), seen)?;
        Ok(Some(seen))
    }

    /// Makes a link in the place of a temporary that is written, under a name that no file has.
    pub fn make_link(&mut self, number: usize, temp: Path<'_>) -> io::Result<()> {
        let mut bytes = [0u8; LONGEST_TEXT];
        let count = self.bytes_of(number, &mut bytes)?;
        let text = match link_text(bytes.get(..count).unwrap_or(&[])) {
            Ok(text) => text,
            Err(error) => return Err(error),
        };
        let target = target_of(temp);
        let place = match self.directories.open_way(self.rt, target, false) {
            Ok(place) => place,
            Err(error) => return Err(error),
        };
        let Some(temporary) = self.temporaries.get_mut(number) else {
            return Err(no_file());
        };
        let directories = &mut self.directories;
        directories.remove(self.rt, place.beside(temporary.real.as_str()))?;
        let name = &mut temporary.real;
        let done = link_beside(self.rt, directories, place, target.last(), name, text);
        if done.is_err() {
            // (nothing of it is left, and what has the name that was tried last isn't its own)
            name.clear();
        }
        done
    }

    /// Reads what a temporary holds, up to the buffer's length.
    fn bytes_of(&self, number: usize, bytes: &mut [u8]) -> io::Result<usize> {
        match self.temporaries.get(number) {
            Some(temporary) => match &temporary.file {
                Some(file) => read_whole(file, 0, bytes),
                None => Err(no_file()),
            },
            None => Err(no_file()),
        }
    }
}
