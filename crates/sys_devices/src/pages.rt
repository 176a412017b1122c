//! The scratch of a run that pages its lines: a file in the directory for temporary files whose name is taken away at once.
ghost use Rattle.std.specs.Prelude.{◌≤◌, length, IfOk};
ghost use Rattle.outside.specs.Silent.{silent_scratch};

use crate::faults::Faults;
use outside::{Failed, Scratch};
use std::alloc::Global;
use std::fs::File;
use std::io;
use std::io::ErrorKind;
use std::os::unix::fs::FileExt;
use std::rt::Files;
use sys_files::{LONGEST_PATH, Text, Trouble, make_nameless, read_whole};

/// The scratch file, made at its first restart.
#[derive(Drop)]
pub struct Pages<'r, R: Files<File = File>> {
    rt: &'r R,
    /// The directory that the file is made in.
    directory: Text,
    path: Text,
    file: Option<File>,
    faults: Faults,
    reads: u64,
}

impl<'r, R: Files<File = File>> Pages<'r, R> {
    /// The room for its path is taken here.
    pub fn new(alloc: Global, rt: &'r R, directory: &str) -> io::Result<Pages<'r, R>> {
        let mut kept = Text::new(alloc, LONGEST_PATH)?;
        kept.set(directory)?;
        let path = Text::new(alloc, LONGEST_PATH)?;
        Ok(Pages {
            rt,
            directory: kept,
            path,
            file: None,
            faults: Faults::new(alloc),
            reads: 0,
        })
    }

    /// What failed last.
    pub fn trouble(&self) -> Option<&Trouble> {
        self.faults.trouble.as_ref()
    }

    fn write(&self, at: u64, piece: &[u8]) -> io::Result<()> {
        match &self.file {
            Some(file) => file.write_all_at(piece, at),
            None => Err(io::Error::from(ErrorKind::NotFound)),
        }
    }

    fn read(&self, at: u64, buf: &mut [u8]) -> io::Result<usize>
        ensures { IfOk result (λ n. n ≤ length buf.old) }
    {
        match &self.file {
            Some(file) => read_whole(file, at, buf),
            None => Err(io::Error::from(ErrorKind::NotFound)),
        }
    }
}

/// Takes away what the file holds, or makes a new one, through no link. Only its owner reads it, since it holds the lines of files
/// that may be private.
fn empty<R: Files<File = File>>(
    rt: &R,
    directory: &str,
    path: &mut Text,
    kept: &mut Option<File>,
) -> io::Result<()> {
    match kept {
        Some(file) => file.set_len(0),
        None => match make_nameless(rt, directory, path) {
            Ok(file) => {
                *kept = Some(file);
                Ok(())
            }
            Err(error) => Err(error),
        },
    }
}

impl<'r, R: Files<File = File>> Scratch for Pages<'r, R> {
    ghost view = { λ s. silent_scratch s.faults.count s.reads };

    fn restart(&mut self) -> Result<(), Failed> {
        let done = empty(
            self.rt,
            self.directory.as_str(),
            &mut self.path,
            &mut self.file,
        );
        self.faults.answer(self.directory.as_str(), done)
    }

    fn write_at(&mut self, at: u64, piece: &[u8]) -> Result<(), Failed> {
        let done = self.write(at, piece);
        self.faults.answer(self.directory.as_str(), done)
    }

    fn read_at(&mut self, at: u64, buf: &mut [u8]) -> Result<usize, Failed> {
        self.reads = self.reads.saturating_add(1);
        let done = self.read(at, buf);
        self.faults.answer(self.directory.as_str(), done)
    }
}
