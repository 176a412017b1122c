//! What is put into a temporary is gathered, and written in large pieces.

use crate::paths::no_file;
use crate::temporaries::Temporaries;
use std::alloc::{AllocError, Global};
use std::io;
use std::io::Write;

/// How many bytes are gathered before they are written.
const PIECE: usize = 65_536;

/// The bytes that are gathered, and the number of the temporary that they are for.
#[derive(Drop)]
pub struct Writing {
    bytes: Vec<u8>,
    of: Option<usize>,
}

impl Writing {
    pub fn new(alloc: Global) -> Result<Writing, AllocError> {
        let bytes = Vec::with_capacity(alloc, PIECE)?;
        Ok(Writing { bytes, of: None })
    }

    /// Gathers a piece, and writes what was gathered where there is no room for it.
    pub fn append(
        &mut self,
        temporaries: &mut Temporaries,
        number: usize,
        piece: &[u8],
    ) -> io::Result<()> {
        if self.of != Some(number) {
            self.flush(temporaries)?;
            self.of = Some(number);
        }
        if self.bytes.len().saturating_add(piece.len()) <= PIECE {
            self.bytes.extend_from_slice(piece)?;
            return Ok(());
        }
        self.flush(temporaries)?;
        if piece.len() >= PIECE {
            return write(temporaries, number, piece);
        }
        self.of = Some(number);
        self.bytes.extend_from_slice(piece)?;
        Ok(())
    }

    /// Writes what was gathered.
    pub fn flush(&mut self, temporaries: &mut Temporaries) -> io::Result<()> {
        let Some(number) = self.of else {
            return Ok(());
        };
        let done = if self.bytes.is_empty() {
            Ok(())
        } else {
            write(temporaries, number, &self.bytes)
        };
        self.leave(number);
        done
    }

    /// Lets go what was gathered for a temporary.
    pub fn leave(&mut self, number: usize) {
        if self.of == Some(number) {
            self.of = None;
            self.bytes.clear();
        }
    }
}

/// Writes all of a piece. Where that fails, nothing more is written to the temporary.
fn write(temporaries: &mut Temporaries, number: usize, piece: &[u8]) -> io::Result<()> {
    let Some(temporary) = temporaries.get_mut(number) else {
        return Err(no_file());
    };
    let Some(file) = &mut temporary.file else {
        return Err(no_file());
    };
    let done = file.write_all(piece);
    if done.is_err() {
        temporary.file = None;
    }
    done
}
