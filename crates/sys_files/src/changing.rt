//! Files are made, filled, put at their names and taken away.

use crate::dated::give_time;
use crate::files::OpenFiles;
use crate::found::Found;
use crate::fresh::{make_beside, rights_due};
use crate::origins::{Grant, usual};
use crate::paths::{Path, no_file, replaceable, target_of, with_bytes};
use crate::rights::give;
use crate::spots::LocatedName;
use outside::TimeChange;
use std::fs::File;
use std::io;
use std::rt::Files;

impl<'r, R: Files<File = File>> OpenFiles<'r, R> {
    /// Makes the directories that are missing, and a new file that is empty, for the temporary of that name; what was made for it
    /// before is taken away. Until it is sealed, only its owner reads it. Where that fails, nothing of it is left.
    pub fn start(&mut self, temp: Path<'_>) -> io::Result<()> {
        self.give_up(temp, true);
        self.writing.flush(&mut self.temporaries)?;
        let number = self.temporaries.place()?;
        let target = target_of(temp);
        if self.outlets.has(target.text) {
            return self.start_outlet(temp, number);
        }
        let place = match self.directories.open_way(self.rt, target, true) {
            Ok(place) => place,
            Err(error) => return Err(error),
        };
        self.directories.will_change(self.rt, place)?;
        let old = match self.look_in(place, target) {
            Ok(old) => old,
            Err(error) => return Err(error),
        };
        let due = usual(self.temporaries.origin, old);
        let due = self.saves.due(target.text, old, due);
        let Some(temporary) = self.temporaries.get_mut(number) else {
            return Err(no_file());
        };
        let name = &mut temporary.real;
        let directories = &mut self.directories;
        let granted = match rights_due(self.rt, directories, place, target, name, due) {
            Ok(granted) => self.saves.grant(target.text, old, granted),
            Err(error) => return Err(error),
        };
        let file = match make_beside(self.rt, directories, place, target.last(), name, 0o600) {
            Ok(file) => file,
            Err(error) => return Err(error),
        };
        self.saves.start(target.text);
        self.begin(temp, number, file, granted)
    }

    /// Makes the temporary of an output that is written through.
    fn start_outlet(&mut self, temp: Path<'_>, number: usize) -> io::Result<()> {
        let file = match self.outlets.make(self.rt, &mut self.directories.path) {
            Ok(file) => file,
            Err(error) => return Err(error),
        };
        if let Some(temporary) = self.temporaries.get_mut(number) {
            temporary.real.clear();
        }
        self.begin(temp, number, file, Grant::NONE)
    }

    /// Keeps a temporary that was made.
    fn begin(&mut self, temp: Path<'_>, number: usize, file: File, due: Grant) -> io::Result<()> {
        let done = self.temporaries.begin(number, temp, file, due);
        self.give_up(temp, done.is_err());
        done
    }

    /// What stands at a name itself, whose directory is open.
    fn look_in(&mut self, place: LocatedName<'_>, name: Path<'_>) -> io::Result<Found> {
        if !name.is_given() {
            if let Some(found) = self.looks.kept(name) {
                return Ok(found);
            }
        }
        self.directories.look(self.rt, place)
    }

    /// Gathers a piece, and writes what was gathered where there is no room for it. Where that fails, the file is taken away.
    pub fn append(&mut self, temp: Path<'_>, piece: &[u8]) -> io::Result<()> {
        let done = match self.temporaries.find(temp.text) {
            Some(number) => self.writing.append(&mut self.temporaries, number, piece),
            None => Err(no_file()),
        };
        self.give_up(temp, done.is_err());
        done
    }

    /// Keeps whether the file may be executed, until it gets its rights.
    pub fn set_executable(&mut self, temp: Path<'_>, executable: bool) -> io::Result<()> {
        self.temporaries.set_executable(temp.text, executable)
    }

    /// Keeps that it becomes a link, which it is from its seal on. A stack has none: its saves don't tell them from files.
    pub fn set_link(&mut self, temp: Path<'_>) -> io::Result<()> {
        self.temporaries.set_link(temp.text, !self.kind.is_stack())
    }

    /// Keeps the time that the file is to get, unless what stands at its name, or its bytes, don't allow it, which is told.
    pub fn set_time(&mut self, temp: Path<'_>, to: Path<'_>, change: TimeChange) -> io::Result<()> {
        let now = match self.look(to) {
            Ok(now) => now,
            Err(error) => return Err(error),
        };
        let time = self.undated.time_of(to.text, now, change);
        self.temporaries.set_time(temp.text, time)
    }

    /// Writes what was gathered, gives the file its rights, and syncs it, or makes a link of it. Where that fails, it is taken away.
    pub fn seal(&mut self, temp: Path<'_>) -> io::Result<()> {
        let done = self.sealed(temp);
        self.give_up(temp, done.is_err());
        done
    }

    fn sealed(&mut self, temp: Path<'_>) -> io::Result<()> {
        let Some(number) = self.temporaries.find(temp.text) else {
            return Err(no_file());
        };
        self.writing.flush(&mut self.temporaries)?;
        self.settle_kind(number, temp)?;
        if let Some(temporary) = self.temporaries.get_mut(number) {
            temporary.close();
        }
        Ok(())
    }

    /// Makes of a temporary what it is to be. One of an output has no name.
    fn settle_kind(&mut self, number: usize, temp: Path<'_>) -> io::Result<()> {
        let Some(temporary) = self.temporaries.get(number) else {
            return Err(no_file());
        };
        let Some(file) = &temporary.file else {
            return Err(no_file());
        };
        if temporary.is_nameless() {
            return Ok(());
        }
        if temporary.is_link {
            return self.make_link(number, temp);
        }
        give(file, temporary.rights())?;
        give_time(file, temporary.time)?;
        if self.syncs.are_made() {
            file.sync_all()?;
        }
        Ok(())
    }

    /// Renames the temporary. A file alone is replaced by a file, and a link by a link, and no name changes while another temporary is
    /// being filled that can't take its own.
    pub fn swap(&mut self, temp: Path<'_>, to: Path<'_>) -> io::Result<()> {
        self.reading.close(temp.text);
        self.reading.close(to.text);
        let Some(number) = self.temporaries.find(temp.text) else {
            return Err(no_file());
        };
        self.check_filled()?;
        if self.outlets.has(to.text) {
            return self.write_through(number, to);
        }
        let (to, from) = match self.directories.both_ways(self.rt, to, target_of(temp)) {
            Ok(both) => both,
            Err(error) => return Err(error),
        };
        self.directories.will_change(self.rt, from)?;
        self.directories.will_change(self.rt, to)?;
        let Some(temporary) = self.temporaries.get(number) else {
            return Err(no_file());
        };
        replaceable(self.directories.look(self.rt, to), temporary.is_link)?;
        let real = from.beside(temporary.real.as_str());
        self.directories.rename(self.rt, real, to)?;
        self.looks.forget();
        self.temporaries.end(number);
        Ok(())
    }

    /// Writes the temporary of an output through.
    fn write_through(&mut self, number: usize, to: Path<'_>) -> io::Result<()> {
        let Some(temporary) = self.temporaries.get(number) else {
            return Err(no_file());
        };
        let Some(file) = &temporary.file else {
            return Err(no_file());
        };
        self.outlets.write(self.rt, to.text, file)?;
        self.temporaries.end(number);
        Ok(())
    }

    /// Whether the temporary that is being filled, if there is one, can take its name. That it becomes a link is said at its end.
    fn check_filled(&mut self) -> io::Result<()> {
        let Some(target) = self.temporaries.last_target() else {
            return Ok(());
        };
        if self.outlets.has(target.text) {
            return Ok(());
        }
        match self.directories.open_way(self.rt, target, false) {
            Ok(place) => match self.directories.look(self.rt, place) {
                Ok(found) => replaceable(Ok(found), found.is_link && self.kind.is_patch()),
                Err(error) => Err(error),
            },
            Err(error) => Err(error),
        }
    }

    /// The name that stands in the way of a swap that failed: one that a temporary which is being filled can't take, else the one
    /// given.
    pub fn blamed<'a>(&'a mut self, name: Path<'a>, failed: bool) -> Path<'a> {
        if failed && self.check_filled().is_err() {
            self.temporaries.last_target().unwrap_or(name)
        } else {
            name
        }
    }

    /// Takes a temporary away whose call failed, as far as the system lets it.
    pub fn give_up(&mut self, temp: Path<'_>, failed: bool) {
        if failed {
            if let Some(number) = self.temporaries.find(temp.text) {
                self.reading.close(temp.text);
                let _ = self.take_away(number);
            }
        }
    }

    /// Takes a temporary away.
    fn take_away(&mut self, number: usize) -> io::Result<()> {
        self.writing.leave(number);
        let Some(temporary) = self.temporaries.get(number) else {
            return Err(no_file());
        };
        if temporary.is_nameless() {
            self.temporaries.end(number);
            return Ok(());
        }
        let target = target_of(temporary.path());
        let place = match self.directories.open_way(self.rt, target, false) {
            Ok(place) => place,
            Err(error) => return Err(error),
        };
        self.directories.will_change(self.rt, place)?;
        let real = place.beside(temporary.real.as_str());
        let done = self.directories.remove(self.rt, real);
        self.temporaries.end(number);
        done
    }

    /// A run begins, behind another one it may be: what that left is taken away, and what it saw says nothing of this one.
    pub fn begin_run(&mut self) {
        self.end_run();
        self.saves.forget();
        self.temporaries.origin = None;
    }

    /// Takes away the temporaries that a run left which a fault of another file broke off, and the last directories that are empty.
    pub fn end_run(&mut self) {
        self.give_up_all();
        self.drop_emptied();
    }

    /// Takes away what is still there of temporaries, as far as the system lets it.
    fn give_up_all(&mut self) {
        for number in 0..self.temporaries.count() {
            let is_there = match self.temporaries.get(number) {
                Some(temporary) => temporary.is_there(),
                None => false,
            };
            if is_there {
                let _ = self.take_away(number);
            }
        }
    }

    /// The name to be told where a temporary could not be started: for an output that is written through it is made elsewhere.
    pub fn blamed_in_start<'a>(&'a self, temp: Path<'a>, failed: bool) -> &'a str {
        if failed && self.outlets.has(target_of(temp).text) {
            self.outlets.directory()
        } else {
            temp.text
        }
    }

    /// Takes a name away, and in time the directories that it leaves empty. None that is for temporaries alone is taken from a file
    /// of the user's.
    pub fn remove(&mut self, name: Path<'_>) -> io::Result<()> {
        self.reading.close(name.text);
        if let Some(number) = self.temporaries.find(name.text) {
            return self.take_away(number);
        }
        if name.is_temporary() {
            return Err(no_file());
        }
        let place = match self.directories.open_way(self.rt, name, false) {
            Ok(place) => place,
            Err(error) => return Err(error),
        };
        self.directories.will_change(self.rt, place)?;
        let found = match with_bytes(self.directories.look(self.rt, place)) {
            Ok(found) => found,
            Err(error) => return Err(error),
        };
        self.saves.take_away(name.text, found.rights)?;
        self.looks.forget();
        self.directories.remove(self.rt, place)?;
        self.note_emptied(name);
        Ok(())
    }
}
