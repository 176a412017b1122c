//! Standard input, and the two standard outputs.
ghost use Rattle.std.specs.Prelude.{◌≤◌, length, IfOk, IsErr};
ghost use Rattle.outside.specs.Faults.{HasRisen};
ghost use Rattle.outside.specs.Silent.{silent_source, silent_sink};

use crate::faults::Faults;
use crate::output_notes::OutputNotes;
use crate::passed::Passed;
use outside::{Failed, Sink, Source};
use std::alloc::Global;
use std::io;
use std::io::{BufWriter, ErrorKind, Read, Write};
use sys_files::Trouble;

/// How many bytes are gathered before they are written.
const PIECE: usize = 65_536;

/// Standard input, and what is kept of the text that it gave.
#[derive(Drop)]
pub struct Input<R: Read + Drop> {
    reader: R,
    is_patch: bool,
    passed: Passed,
    faults: Faults,
}

impl<R: Read + Drop> Input<R> {
    /// Of a patch text that is applied something is kept.
    pub fn new(alloc: Global, reader: R, is_patch: bool) -> Input<R> {
        Input {
            reader,
            is_patch,
            passed: Passed::new(alloc, false),
            faults: Faults::new(alloc),
        }
    }

    /// What is kept of the text.
    pub fn passed(&self) -> &Passed {
        &self.passed
    }

    /// What failed last.
    pub fn trouble(&self) -> Option<&Trouble> {
        self.faults.trouble.as_ref()
    }
}

impl<R: Read + Drop> Source for Input<R> {
    ghost view = { λ s. silent_source s.faults.count };

    fn read(&mut self, buf: &mut [u8]) -> Result<usize, Failed> {
        let read = read_some(&mut self.reader, buf);
        if self.is_patch {
            see(&mut self.passed, &read, buf);
        }
        self.faults.answer("standard input", read)
    }
}

/// Lets what was read go by.
fn see(passed: &mut Passed, read: &io::Result<usize>, buf: &[u8]) {
    if let Ok(count) = read {
        passed.piece(buf.get(..*count).unwrap_or(&[]));
    }
}

/// Reads once, and again where a signal came between.
fn read_some<R: Read>(reader: &mut R, buf: &mut [u8]) -> io::Result<usize>
    ensures { IfOk result (λ n. n ≤ length buf.old) }
{
    for _ in 0..u64::MAX {
        match reader.read(buf) {
            Err(error) if error.kind() == ErrorKind::Interrupted => {}
            done => return done,
        }
    }
    Err(io::Error::from(ErrorKind::Interrupted))
}

/// Standard output or standard error, written in large pieces.
#[derive(Drop)]
pub struct Output<W: Write + Drop> {
    writer: BufWriter<W>,
    heard: OutputNotes,
    faults: Faults,
}

impl<W: Write + Drop> Output<W> {
    pub fn new(alloc: Global, writer: W) -> io::Result<Output<W>> {
        Ok(Output {
            writer: BufWriter::with_capacity(alloc, PIECE, writer)?,
            heard: OutputNotes::nothing(),
            faults: Faults::new(alloc),
        })
    }

    /// Writes what was gathered.
    pub fn flush(&mut self) -> io::Result<()>
        ensures cause { IsErr result → HasRisen self.old.faults.count self.new.faults.count }
    {
        match self.writer.flush() {
            Ok(()) => Ok(()),
            Err(error) => {
                self.faults.note("standard output", error);
                Err(error)
            }
        }
    }

    /// What failed last.
    pub fn trouble(&self) -> Option<&Trouble> {
        self.faults.trouble.as_ref()
    }

    /// What was said that more is told of.
    pub fn heard(&self) -> OutputNotes {
        self.heard
    }
}

impl<W: Write + Drop> Sink for Output<W> {
    ghost view = { λ s. silent_sink s.faults.count };

    ghost same_rest = { λ _ _. Unit {0} };

    ghost rest_none = { λ _. tt };

    ghost rest_both = { λ _ _ _ _ _. tt };

    fn write(&mut self, piece: &[u8]) -> Result<usize, Failed> {
        self.heard.hear(piece);
        let put = self.writer.write_all(piece);
        match self.faults.answer("standard output", put) {
            Ok(()) => Ok(piece.len()),
            Err(fault) => Err(fault),
        }
    }
}
