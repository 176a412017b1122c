//! The file that was read last, or the link. It stays open for its next piece.
ghost use Rattle.std.specs.Prelude.{◌≤◌, length, IfOk};

use crate::found::Found;
use crate::paths::no_file;
use crate::pipes::part_of;
use crate::rights::Rights;
use crate::text::{LONGEST_PATH, Text};
use std::alloc::{AllocError, Global};
use std::fs::File;
use std::io;
use std::io::ErrorKind;
use std::os::unix::fs::FileExt;

/// What a file is that is read.
#[derive(Clone, Copy)]
pub struct FoundFile {
    pub found: Found,
    /// What those may do with it who can come to it.
    pub audience: Rights,
}

/// Where its bytes are.
#[derive(Drop)]
pub enum Content {
    File(File),
    /// The text of a link.
    Text(String),
}

#[derive(Drop)]
struct Open {
    content: Content,
    seen: FoundFile,
}

#[derive(Drop)]
pub struct Reading {
    name: Text,
    /// The file that is open to be read, if there is one.
    open: Option<Open>,
}

impl Reading {
    pub fn new(alloc: Global) -> Result<Reading, AllocError> {
        let name = Text::new(alloc, LONGEST_PATH + 8)?;
        Ok(Reading { name, open: None })
    }

    /// Keeps what has this name.
    pub fn keep(&mut self, name: &str, content: Content, seen: FoundFile) -> io::Result<()> {
        self.open = None;
        self.name.set(name)?;
        self.open = Some(Open { content, seen });
        Ok(())
    }

    /// What the file is, if it has this name.
    pub fn seen_at(&self, name: &str) -> Option<FoundFile> {
        match &self.open {
            Some(open) if self.name.is(name) => Some(open.seen),
            _ => None,
        }
    }

    /// Closes the file, if it has this name.
    pub fn close(&mut self, name: &str) {
        if self.seen_at(name).is_some() {
            self.open = None;
        }
    }

    /// Reads all that is there from a place on, up to the buffer's length.
    pub fn read_at(&self, at: u64, buf: &mut [u8]) -> io::Result<usize>
        ensures { IfOk result (λ n. n ≤ length buf.old) }
    {
        match &self.open {
            Some(open) => match &open.content {
                Content::File(file) => read_whole(file, at, buf),
                Content::Text(text) => Ok(part_of(text.as_bytes(), at, buf)),
            },
            None => Err(no_file()),
        }
    }
}

/// Reads all that is there from a place on, up to the buffer's length.
pub fn read_whole(file: &File, at: u64, buf: &mut [u8]) -> io::Result<usize>
    ensures { IfOk result (λ n. n ≤ length buf.old) }
{
    let mut filled = 0;
    for _ in 0..u64::MAX {
        if filled >= buf.len() {
            break;
        }
        match file.read_at(&mut buf[filled..], at.saturating_add(filled as u64)) {
            Ok(0) => break,
            Ok(n) => filled += n,
            Err(error) if error.kind() == ErrorKind::Interrupted => {}
            Err(error) => return Err(error),
        }
    }
    Ok(filled)
}
