//! The files: what is open, what is gathered, and whose rights each new file gets.
//!
//! Links are followed in the part of a name that the operator gave, and nowhere else. To `patch` a name that is one is there, as its
//! text; to the other tools it is no file. A name that goes through one is no file, and nothing is written below it. A link is
//! replaced by a link alone, and a file by a file.
//!
//! A temporary goes by its file's name with `.ptmp` behind it, and stands under another name that no file has. So a file of the
//! user's that is so named is read as any other.
//!
//! A pipe or a device has no bytes, but where the operator gave its name for a text: then it is read to its end.
ghost use Rattle.std.specs.Prelude.{◌≤◌, length, IfOk};

use crate::dated::Undated;
use crate::directories::{Directories, Syncs};
use crate::emptied::Emptied;
use crate::found::{Found, told};
use crate::kind::Kind;
use crate::looks::Looks;
use crate::missing::Missing;
use crate::outlets::Outlets;
use crate::paths::{Path, no_file, no_way, or_out_of_reach, target_of, with_bytes};
use crate::pipes::{Pipes, part_of};
use crate::reading::{Content, FoundFile, Reading};
use crate::saves::Saves;
use crate::spots::LocatedName;
use crate::temporaries::Temporaries;
use crate::writing::Writing;
use std::alloc::{AllocError, Global};
use std::fs::{File, OpenFile, OpenOptions};
use std::io;
use std::io::ErrorKind;
use std::rt::{Files, Stdout};

#[derive(Drop)]
pub struct OpenFiles<'r, R: Files<File = File>> {
    pub(crate) rt: &'r R,
    pub(crate) alloc: Global,
    pub(crate) kind: Kind,
    pub(crate) syncs: Syncs,
    pub(crate) reading: Reading,
    pub(crate) pipes: Pipes,
    pub(crate) writing: Writing,
    pub(crate) saves: Saves,
    pub(crate) temporaries: Temporaries,
    pub(crate) looks: Looks,
    pub(crate) missing: Missing,
    pub(crate) outlets: Outlets,
    pub(crate) directories: Directories,
    pub(crate) emptied: Emptied,
    pub(crate) undated: Undated,
}

impl<'r, R: Files<File = File>> OpenFiles<'r, R> {
    /// Takes all the memory that calls on files want, but for many temporaries at once and for the saves of a stack. `follows` says
    /// that a file that is a link is the one behind it, and that what is written replaces the link. `temporary` is the directory for
    /// temporary files, and `standard` the output where that is asked for.
    pub fn new(
        alloc: Global,
        rt: &'r R,
        kind: Kind,
        syncs: Syncs,
        follows: bool,
        temporary: &str,
        standard: Stdout,
    ) -> Result<OpenFiles<'r, R>, AllocError> {
        let reading = Reading::new(alloc)?;
        let writing = Writing::new(alloc)?;
        let temporaries = Temporaries::new(alloc)?;
        let looks = Looks::new(alloc)?;
        let missing = Missing::new(alloc)?;
        let outlets = Outlets::new(alloc, standard, temporary)?;
        let directories = Directories::new(alloc, syncs, follows)?;
        let emptied = Emptied::new(alloc)?;
        let undated = Undated::new(alloc)?;
        Ok(OpenFiles {
            rt,
            alloc,
            kind,
            syncs,
            reading,
            pipes: Pipes::new(alloc),
            writing,
            saves: Saves::new(alloc, kind.is_stack()),
            temporaries,
            looks,
            missing,
            outlets,
            directories,
            emptied,
            undated,
        })
    }

    /// The size of a text, a file's or, where the operator gave its name, what a pipe or a device gives.
    pub fn size_of_text(&mut self, name: Path<'_>) -> io::Result<Option<u64>> {
        let is_read = self.pipes.length(name.text).is_some();
        if !is_read && name.is_given() {
            match self.look(name) {
                Ok(found) if found.is_special() => return self.read_pipe(name),
                Ok(_) => {}
                Err(error) => return Err(error),
            }
        }
        self.size_of(name, false)
    }

    fn read_pipe(&mut self, name: Path<'_>) -> io::Result<Option<u64>> {
        let file = match File::open(self.rt, name.text) {
            Ok(file) => file,
            Err(error) => return Err(error),
        };
        match self.pipes.keep(name.text, file) {
            Ok(length) => Ok(Some(length)),
            Err(error) => Err(error),
        }
    }

    /// The size of what stands at a name.
    pub fn size(&mut self, name: Path<'_>) -> io::Result<Option<u64>> {
        self.size_of(name, self.kind.is_patch())
    }

    /// The size of what stands at a name, where no file alone has one, or `all` have.
    fn size_of(&mut self, name: Path<'_>, all: bool) -> io::Result<Option<u64>> {
        if let Some(length) = self.pipes.length(name.text) {
            return Ok(Some(length));
        }
        let is_idle = self.temporaries.is_idle();
        if is_idle && self.looks.was_read {
            self.looks.forget();
        }
        if self.outlets.has(name.text) {
            return Ok(None);
        }
        let found = match self.look(name) {
            Ok(found) => found,
            Err(error) => return Err(error),
        };
        self.saves.look(name.text, found);
        self.temporaries.saw(found, false);
        if found.is_file || (found.is_there && all) {
            return Ok(Some(found.size()));
        }
        if self.saves.is_own(name.text) && found.is_in_the_way() {
            return Err(no_way(found));
        }
        if found.is_closed && self.kind.is_stack() {
            // (a pop would end as if the file were gone)
            return Err(no_way(found));
        }
        self.missing.note(name);
        Ok(None)
    }

    /// Whether no file can be put at a name, or no link. What is written through is put nowhere.
    pub fn is_barred(&mut self, name: Path<'_>, link: bool) -> io::Result<bool> {
        if self.outlets.has(name.text) {
            return Ok(false);
        }
        match self.look(name) {
            Ok(found) => Ok(found.is_barring(link && !self.kind.is_stack())),
            Err(error) => Err(error),
        }
    }

    /// Whether the system doesn't let the file at a name be opened to be written to.
    pub fn is_read_only(&mut self, name: Path<'_>) -> io::Result<bool> {
        let place = match self.directories.open_way(self.rt, name, false) {
            Ok(place) => place,
            Err(error) => return Err(error),
        };
        let mut how = OpenOptions::new();
        how.write(true);
        match self.directories.open(self.rt, &how, place) {
            Ok(_) => Ok(false),
            Err(error) => Ok(matches!(
                error.kind(),
                ErrorKind::PermissionDenied | ErrorKind::ReadOnlyFilesystem
            )),
        }
    }

    /// The greatest number that a backup of a name has. What can't be reached has none.
    pub fn last_number(&mut self, name: Path<'_>) -> io::Result<u64> {
        match self.directories.way(self.rt, name, false) {
            Ok(Some(place)) => self.directories.last_number(self.rt, place),
            Ok(None) => Ok(0),
            Err(error) => match or_out_of_reach(Err(error)) {
                Ok(_) => Ok(0),
                Err(error) => Err(error),
            },
        }
    }

    /// The lines on files that keep their own times.
    pub fn undated(&self) -> &str {
        self.undated.lines()
    }

    /// What stands at a name: as it was looked at last, unless the run has changed a name since.
    pub(crate) fn look(&mut self, name: Path<'_>) -> io::Result<Found> {
        if let Some(number) = self.temporaries.find(name.text) {
            return self.look_at_temporary(number, name);
        }
        if let Some(found) = self.looks.kept(name) {
            return Ok(found);
        }
        let found = match self.directories.found(self.rt, name) {
            Ok(found) => found,
            Err(error) => return Err(error),
        };
        if !found.is_closed {
            self.looks.keep(name, found);
        }
        Ok(found)
    }

    fn look_at_temporary(&mut self, number: usize, name: Path<'_>) -> io::Result<Found> {
        self.writing.flush(&mut self.temporaries)?;
        let place = match self.directories.open_way(self.rt, target_of(name), false) {
            Ok(place) => place,
            Err(error) => return Err(error),
        };
        match self.temporaries.get(number) {
            Some(temporary) => {
                let real = place.beside(temporary.real.as_str());
                self.directories.look_itself(self.rt, real)
            }
            None => Err(no_file()),
        }
    }

    /// The name of the last file whose size was asked and that isn't there, and why.
    pub fn missing(&self, alloc: Global) -> Result<Option<String>, AllocError> {
        self.missing.text(alloc, self.rt)
    }

    pub fn read_at(&mut self, name: Path<'_>, at: u64, buf: &mut [u8]) -> io::Result<usize>
        ensures { IfOk result (λ n. n ≤ length buf.old) }
    {
        if let Some(bytes) = self.pipes.bytes(name.text) {
            return Ok(part_of(bytes, at, buf));
        }
        match self.open_to_read(name) {
            Ok(seen) => {
                self.temporaries.saw(seen.found, true);
                self.looks.was_read = true;
                self.saves.read(seen.audience);
                self.reading.read_at(at, buf)
            }
            Err(error) => Err(error),
        }
    }

    /// Has a file open: the one that was looked at last, else the name is looked at anew, once.
    fn open_to_read(&mut self, name: Path<'_>) -> io::Result<FoundFile> {
        if self.temporaries.find(name.text).is_some() {
            self.writing.flush(&mut self.temporaries)?;
        }
        if let Some(seen) = self.reading.seen_at(name.text) {
            return Ok(seen);
        }
        for _ in 0..2 {
            let found = match with_bytes(self.look(name)) {
                Ok(found) => found,
                Err(error) => return Err(error),
            };
            match self.opened(name, found) {
                Ok(Some(seen)) => return Ok(seen),
                Ok(None) => self.looks.forget(),
                Err(error) => return Err(error),
            }
        }
        Err(no_file())
    }

    /// Opens a file that was seen, if it is still there, or reads a link's text.
    fn opened(&mut self, name: Path<'_>, meant: Found) -> io::Result<Option<FoundFile>> {
        let place = match self.reached(name) {
            Ok(place) => place,
            Err(error) => return Err(error),
        };
        if meant.is_link {
            return self.opened_link(name, place, meant);
        }
        let mut how = OpenOptions::new();
        how.read(true);
        let opened = match self.temporaries.find(name.text) {
            Some(number) => match self.temporaries.get(number) {
                Some(temporary) => {
                    let real = place.beside(temporary.real.as_str());
                    self.directories.open(self.rt, &how, real)
                }
                None => Err(no_file()),
            },
            None => self.directories.open(self.rt, &how, place),
        };
        let file = match opened {
            Ok(file) => file,
            Err(error) => return Err(error),
        };
        let found = match told(file.metadata()) {
            Ok(found) => found,
            Err(error) => return Err(error),
        };
        if !found.identity.is_same(meant.identity) {
            return Ok(None);
        }
        let audience = if self.kind.is_stack() {
            place.spot.inside.met(found.rights)
        } else {
            found.rights
        };
        let seen = FoundFile { found, audience };
        self.reading.keep(name.text, Content::File(file), seen)?;
        Ok(Some(seen))
    }

    /// How a name is reached that is to be read. The system itself goes the way of one that the operator gave whole.
    fn reached<'a>(&mut self, name: Path<'a>) -> io::Result<LocatedName<'a>> {
        if name.is_given() && !self.kind.is_stack() {
            return Ok(LocatedName::as_given(name));
        }
        self.directories.open_way(self.rt, name, false)
    }

    /// Whether the first components of the name are a directory.
    pub fn has_dir(&mut self, name: Path<'_>, parts: u64) -> io::Result<bool> {
        let Some(last) = parts.checked_sub(1) else {
            return Ok(true);
        };
        let Some((slash, _)) = name.text.match_indices('/').nth(last as usize) else {
            return match self.look(name) {
                Ok(found) => Ok(found.is_directory),
                Err(error) => Err(error),
            };
        };
        let front = Path {
            text: name.text.get(..=slash).unwrap_or(name.text),
            given: name.given,
        };
        match self.directories.way(self.rt, front, false) {
            Ok(way) => Ok(way.is_some()),
            Err(error) => match or_out_of_reach(Err(error)) {
                Ok(_) => Ok(false),
                Err(error) => Err(error),
            },
        }
    }

    /// Syncs each directory in which a name was made, moved or taken away.
    pub fn sync_directories(&mut self) -> io::Result<()> {
        self.looks.forget();
        self.directories.sync()
    }

    /// The first name that was taken already when a temporary was to be made, or nothing: a run that was stopped has left it.
    pub fn taken(&self) -> &str {
        self.directories.taken()
    }

    /// A directory that isn't synced yet.
    pub fn unsynced(&self) -> &str {
        self.directories.unsynced()
    }
}
