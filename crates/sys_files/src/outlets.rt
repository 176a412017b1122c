//! Outputs that are pipes or devices, or standard output: what is put there is written through once it is whole, and no name changes.

use crate::fresh::make_nameless;
use crate::paths::no_file;
use crate::reading::read_whole;
use crate::text::{LONGEST_PATH, Text};
use std::alloc::{AllocError, Global};
use std::fs::{File, OpenOptions};
use std::io;
use std::io::Write;
use std::rt::{Files, Stdout};

/// The output and the reject file.
const MOST: usize = 2;

/// How many bytes go through at once.
const PIECE: usize = 4_096;

#[derive(Drop)]
struct Outlet {
    name: Text,
    standard: Option<Stdout>,
    /// It stays open once something was put there, so that who reads a pipe gets all of it.
    device: Option<File>,
    /// How many bytes went through. What is put there next goes on from them.
    written: u64,
}

#[derive(Drop)]
pub struct Outlets {
    all: Vec<Outlet>,
    count: usize,
    /// Where temporaries for them are made.
    directory: Text,
    standard: Stdout,
}

impl Outlets {
    pub fn new(alloc: Global, standard: Stdout, directory: &str) -> Result<Outlets, AllocError> {
        let mut all = Vec::with_capacity(alloc, MOST)?;
        for _ in 0..MOST {
            let name = Text::new(alloc, LONGEST_PATH)?;
            all.push(Outlet {
                name,
                standard: None,
                device: None,
                written: 0,
            })?;
        }
        let mut kept = Text::new(alloc, LONGEST_PATH)?;
        if kept.set(directory).is_err() {
            kept.clear();
        }
        Ok(Outlets {
            all,
            count: 0,
            directory: kept,
            standard,
        })
    }

    /// Takes a name for an outlet from now on.
    pub fn note(&mut self, name: &str, is_standard: bool) -> io::Result<()> {
        if let Some(outlet) = self.all.get_mut(self.count) {
            outlet.name.set(name)?;
            outlet.standard = if is_standard {
                Some(self.standard)
            } else {
                None
            };
            self.count = self.count.saturating_add(1);
        }
        Ok(())
    }

    /// The number of the outlet that has this name.
    fn find(&self, name: &str) -> Option<usize> {
        for number in 0..self.count {
            if let Some(outlet) = self.all.get(number) {
                if outlet.name.is(name) {
                    return Some(number);
                }
            }
        }
        None
    }

    pub fn has(&self, name: &str) -> bool {
        self.find(name).is_some()
    }

    /// Whether a name stands for standard output.
    pub fn is_standard(&self, name: &str) -> bool {
        match self.find(name) {
            Some(number) =>
                matches!(self.all.get(number), Some(outlet) if outlet.standard.is_some()),
            None => false,
        }
    }

    /// Where their temporaries are made.
    pub fn directory(&self) -> &str {
        self.directory.as_str()
    }

    /// Makes a temporary that has no name.
    pub fn make<R: Files<File = File>>(&self, rt: &R, path: &mut Text) -> io::Result<File> {
        make_nameless(rt, self.directory.as_str(), path)
    }

    /// Writes a file through, behind what went through before.
    pub fn write<R: Files<File = File>>(
        &mut self,
        rt: &R,
        name: &str,
        whole: &File,
    ) -> io::Result<()> {
        let Some(number) = self.find(name) else {
            return Err(no_file());
        };
        match self.all.get_mut(number) {
            Some(outlet) => outlet.write(rt, whole),
            None => Err(no_file()),
        }
    }
}

impl Outlet {
    fn open<R: Files<File = File>>(&self, rt: &R) -> io::Result<File> {
        let mut how = OpenOptions::new();
        how.append(true);
        how.open(rt, self.name.as_str())
    }

    fn write<R: Files<File = File>>(&mut self, rt: &R, whole: &File) -> io::Result<()> {
        if let Some(mut standard) = self.standard {
            return write_behind(&mut standard, whole, &mut self.written);
        }
        if self.device.is_none() {
            self.device = match self.open(rt) {
                Ok(device) => Some(device),
                Err(error) => return Err(error),
            };
        }
        match &mut self.device {
            Some(device) => write_behind(device, whole, &mut self.written),
            None => Err(no_file()),
        }
    }
}

/// Writes all of a file behind what was written of it before.
fn write_behind<W: Write>(device: &mut W, whole: &File, written: &mut u64) -> io::Result<()> {
    let mut piece = [0u8; PIECE];
    for _ in 0..u64::MAX {
        let count = read_whole(whole, *written, &mut piece)?;
        if count == 0 {
            break;
        }
        device.write_all(piece.get(..count).unwrap_or(&[]))?;
        *written = written.saturating_add(count as u64);
    }
    Ok(())
}
