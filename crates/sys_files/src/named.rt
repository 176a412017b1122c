//! What stands at names, and what is done with them, in directories that are held open.

use crate::directories::Directories;
use crate::found::{Found, found_behind, found_itself};
use crate::paths::{Path, or_out_of_reach};
use crate::spots::{LocatedName, is_too_many, put_path};
use std::alloc::Global;
use std::fs::{File, OpenOptions};
use std::os::unix::fs::symlink;
use std::rt::Files;
use std::{fs, io};

impl Directories {
    /// What stands at a name that goes through directories alone. One that can't be reached has nothing.
    pub fn found<R: Files<File = File>>(&mut self, rt: &R, name: Path<'_>) -> io::Result<Found> {
        if name.is_given() {
            return or_out_of_reach(found_behind(rt, name.text));
        }
        match self.way(rt, name, false) {
            Ok(Some(place)) => or_out_of_reach(self.look(rt, place)),
            Ok(None) => Ok(Found {
                is_cut_off: self.is_cut_off,
                ..Found::NOTHING
            }),
            Err(error) => or_out_of_reach(Err(error)),
        }
    }

    /// What stands there itself, a link and not what it points to, but where links are followed.
    pub fn look<R: Files<File = File>>(
        &mut self,
        rt: &R,
        place: LocatedName<'_>,
    ) -> io::Result<Found> {
        match self.look_itself(rt, place) {
            Ok(found) if found.is_link && self.follows => found_behind(rt, self.path.as_str()),
            found => found,
        }
    }

    /// What stands there itself.
    pub fn look_itself<R: Files<File = File>>(
        &mut self,
        rt: &R,
        place: LocatedName<'_>,
    ) -> io::Result<Found> {
        put_path(&self.held, place, &mut self.path)?;
        found_itself(rt, self.path.as_str())
    }

    /// The text of a link.
    pub fn link_text<R: Files<File = File>>(
        &mut self,
        rt: &R,
        alloc: Global,
        place: LocatedName<'_>,
    ) -> io::Result<String> {
        put_path(&self.held, place, &mut self.path)?;
        match rt.read_link(alloc, self.path.as_str()) {
            Ok(text) => Ok(text.into_string()),
            Err(error) => Err(error),
        }
    }

    /// Makes a link with this text, where nothing has the name.
    pub fn link<R: Files<File = File>>(
        &mut self,
        rt: &R,
        text: &str,
        place: LocatedName<'_>,
    ) -> io::Result<()> {
        put_path(&self.held, place, &mut self.path)?;
        symlink(rt, text, self.path.as_str())
    }

    pub fn open<R: Files<File = File>>(
        &mut self,
        rt: &R,
        how: &OpenOptions,
        place: LocatedName<'_>,
    ) -> io::Result<File> {
        put_path(&self.held, place, &mut self.path)?;
        match how.open(rt, self.path.as_str()) {
            Ok(file) => return Ok(file),
            Err(error) => {
                if !is_too_many(&error) {
                    return Err(error);
                }
            }
        }
        self.held.let_go([place.spot.base, place.spot.held]);
        how.open(rt, self.path.as_str())
    }

    pub fn remove<R: Files<File = File>>(
        &mut self,
        rt: &R,
        place: LocatedName<'_>,
    ) -> io::Result<()> {
        put_path(&self.held, place, &mut self.path)?;
        fs::remove_file(rt, self.path.as_str())
    }

    /// Takes a directory away that is empty, which the text names with the slash behind it. A link there isn't followed.
    pub fn remove_directory<R: Files<File = File>>(
        &mut self,
        rt: &R,
        front: Path<'_>,
    ) -> io::Result<()> {
        let name = Path {
            text: front.text.strip_suffix("/").unwrap_or(front.text),
            given: front.given,
        };
        let place = match self.open_way(rt, name, false) {
            Ok(place) => place,
            Err(error) => return Err(error),
        };
        put_path(&self.held, place, &mut self.path)?;
        fs::remove_dir(rt, self.path.as_str())?;
        self.held.forget(front);
        Ok(())
    }

    pub fn rename<R: Files<File = File>>(
        &mut self,
        rt: &R,
        from: LocatedName<'_>,
        to: LocatedName<'_>,
    ) -> io::Result<()> {
        put_path(&self.held, from, &mut self.path)?;
        put_path(&self.held, to, &mut self.second)?;
        fs::rename(rt, self.path.as_str(), self.second.as_str())
    }

    /// The ways to two names, both open at once.
    pub fn both_ways<'a, R: Files<File = File>>(
        &mut self,
        rt: &R,
        first: Path<'a>,
        second: Path<'a>,
    ) -> io::Result<(LocatedName<'a>, LocatedName<'a>)> {
        let one = match self.open_way(rt, first, false) {
            Ok(one) => one,
            Err(error) => return Err(error),
        };
        if first.is_beside(second) {
            let other = LocatedName {
                spot: one.spot,
                name: second,
                other: None,
            };
            return Ok((one, other));
        }
        self.staying = one.spot.base;
        let other = self.open_way(rt, second, false);
        self.staying = None;
        match other {
            Ok(other) => Ok((one, other)),
            Err(error) => Err(error),
        }
    }
}
