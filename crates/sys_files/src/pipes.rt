//! What pipes and devices gave that stand in place of files: each is read to its end once, and its bytes are what it holds from then on.
ghost use Rattle.std.specs.Prelude.{◌≤◌, length};

use std::alloc::{AllocError, Global};
use std::fs::File;
use std::io;
use std::io::{ErrorKind, Read};

/// How many bytes are read at once.
const PIECE: usize = 65_536;

/// What is read of one that doesn't end: one byte more than a patch text may have.
const MOST: usize = 268_435_457;

#[derive(Drop)]
struct Pipe {
    name: String,
    bytes: Vec<u8>,
}

#[derive(Drop)]
pub struct Pipes {
    alloc: Global,
    all: Vec<Pipe>,
}

impl Pipes {
    pub fn new(alloc: Global) -> Pipes {
        Pipes {
            alloc,
            all: Vec::new(alloc),
        }
    }

    /// How many bytes the one of this name gave, if it was read.
    pub fn length(&self, name: &str) -> Option<u64> {
        match self.bytes(name) {
            Some(bytes) => Some(bytes.len() as u64),
            None => None,
        }
    }

    /// What the one of this name gave, if it was read.
    pub fn bytes(&self, name: &str) -> Option<&[u8]> {
        for pipe in &self.all {
            if pipe.name.as_str() == name {
                return Some(&pipe.bytes);
            }
        }
        None
    }

    /// Reads it to its end, and answers how many bytes it gave.
    pub fn keep(&mut self, name: &str, file: File) -> io::Result<u64> {
        let bytes = match read_all(self.alloc, file) {
            Ok(bytes) => bytes,
            Err(error) => return Err(error),
        };
        let length = bytes.len() as u64;
        let name = String::from_str(self.alloc, name)?;
        self.all.push(Pipe { name, bytes })?;
        Ok(length)
    }
}

fn read_all(alloc: Global, mut file: File) -> io::Result<Vec<u8>> {
    let mut bytes = Vec::new(alloc);
    let mut piece = vec![in alloc; 0u8; PIECE]?;
    for _ in 0..u64::MAX {
        if bytes.len() >= MOST {
            break;
        }
        match file.read(&mut piece) {
            Ok(0) => break,
            Ok(count) => bytes.extend_from_slice(piece.get(..count).unwrap_or(&[]))?,
            Err(error) if error.kind() == ErrorKind::Interrupted => {}
            Err(error) => return Err(error),
        }
    }
    Ok(bytes)
}

/// Fills a buffer from a place on, as far as there are bytes.
pub fn part_of(bytes: &[u8], at: u64, buf: &mut [u8]) -> usize
    ensures { result ≤ length buf.old }
{
    let rest = bytes.get(at as usize..).unwrap_or(&[]);
    let count = rest.len().min(buf.len());
    buf[..count].copy_from_slice(&rest[..count]);
    count
}
