//! The directories that are held open. Each stays open until its place is wanted for another one.

use crate::found::Identity;
use crate::paths::Path;
use crate::rights::Rights;
use crate::text::{LONGEST_PATH, Text};
use std::alloc::{AllocError, Global};
use std::fs::File;
use std::io;
use std::os::fd::AsRawFd;

/// How many are held open. A deeper way is gone with the last ones of it.
const MOST: usize = 6;

/// A directory that is open, and the text that led to it: with the slash behind it, or empty for the working directory.
#[derive(Drop)]
pub struct Held {
    text: Text,
    /// How many bytes of the text the operator gave.
    given: usize,
    file: Option<File>,
    identity: Identity,
    /// What all directories on the way let others do with what stands in it.
    pub inside: Rights,
    /// The rights that the system gives to a new file in it that is executed.
    pub usual: Option<Rights>,
    /// Whether a name in it has changed since it was synced last.
    is_changed: bool,
    /// When it was used last.
    used: u64,
}

impl Held {
    fn new(alloc: Global) -> Result<Held, AllocError> {
        match Text::new(alloc, LONGEST_PATH) {
            Ok(text) => Ok(Held {
                text,
                given: 0,
                file: None,
                identity: Identity::HERE,
                inside: Rights::ALL,
                usual: None,
                is_changed: false,
                used: 0,
            }),
            Err(error) => Err(error),
        }
    }

    /// Whether it is open, and the text that led to it is this front of a name.
    fn is_at(&self, front: Path<'_>) -> bool {
        self.file.is_some()
            && self.text.is(front.text)
            && self.given == front.given.min(front.text.len())
    }

    /// Whether it is open, and the name goes through it.
    fn is_on_way(&self, name: Path<'_>) -> bool {
        let length = self.text.len();
        self.file.is_some()
            && length > 0
            && self.given == name.given.min(length)
            && name.text.starts_with(self.text.as_str())
    }
}

#[derive(Drop)]
pub struct AllHeld {
    places: Vec<Held>,
    time: u64,
}

impl AllHeld {
    pub fn new(alloc: Global) -> Result<AllHeld, AllocError> {
        let mut places = Vec::with_capacity(alloc, MOST)?;
        for _ in 0..MOST {
            match Held::new(alloc) {
                Ok(held) => places.push(held)?,
                Err(error) => return Err(error),
            }
        }
        Ok(AllHeld { places, time: 0 })
    }

    pub fn get(&self, place: usize) -> Option<&Held> {
        self.places.get(place)
    }

    pub fn get_mut(&mut self, place: usize) -> Option<&mut Held> {
        self.places.get_mut(place)
    }

    /// How far the text goes that led to the directory.
    pub fn length(&self, place: usize) -> usize {
        match self.places.get(place) {
            Some(held) => held.text.len(),
            None => 0,
        }
    }

    /// Adds how the directory is reached by its open file.
    pub fn add_path(&self, place: usize, path: &mut Text) -> io::Result<()> {
        let Some(held) = self.places.get(place) else {
            return Ok(());
        };
        let Some(file) = &held.file else {
            return Ok(());
        };
        path.add("/proc/self/fd/")?;
        path.add_number(file.as_raw_fd().unsigned_abs())?;
        path.add("/")
    }

    /// The place of the last directory on the way that a name goes which is held.
    pub fn nearest(&mut self, name: Path<'_>) -> Option<usize> {
        let mut nearest = None;
        let mut longest = 0;
        for place in 0..self.places.len() {
            if let Some(held) = self.places.get(place) {
                if held.text.len() > longest && held.is_on_way(name) {
                    longest = held.text.len();
                    nearest = Some(place);
                }
            }
        }
        if let Some(place) = nearest {
            self.touch(place);
        }
        nearest
    }

    /// The place of the directory that this front of a name led to, if it is held, and if it is this one.
    pub fn place_of(&mut self, front: Path<'_>, identity: Identity) -> Option<usize> {
        for place in 0..self.places.len() {
            let is_it = match self.places.get(place) {
                Some(held) => held.is_at(front) && held.identity.is_same(identity),
                None => false,
            };
            if is_it {
                self.touch(place);
                return Some(place);
            }
        }
        None
    }

    fn touch(&mut self, place: usize) {
        self.time = self.time.saturating_add(1);
        if let Some(held) = self.places.get_mut(place) {
            held.used = self.time;
        }
    }

    /// Holds a directory to which this front of a name led. The one whose place it takes is synced first where a name in it has
    /// changed; it is none of the two that stay.
    pub fn hold(
        &mut self,
        front: Path<'_>,
        file: File,
        identity: Identity,
        inside: Rights,
        staying: [Option<usize>; 2],
    ) -> io::Result<usize> {
        let place = self.oldest(staying);
        self.sync_at(place)?;
        self.touch(place);
        if let Some(held) = self.places.get_mut(place) {
            held.file = None;
            held.text.set(front.text)?;
            held.given = front.given.min(front.text.len());
            held.file = Some(file);
            held.identity = identity;
            held.inside = inside;
            held.usual = None;
        }
        Ok(place)
    }

    /// The place that was used the longest time ago, one without changed names where there is one.
    fn oldest(&self, staying: [Option<usize>; 2]) -> usize {
        let mut oldest = None;
        let mut least = (true, u64::MAX);
        for place in 0..self.places.len() {
            if staying[0] == Some(place) || staying[1] == Some(place) {
                continue;
            }
            if let Some(held) = self.places.get(place) {
                let is_less = if held.is_changed == least.0 {
                    held.used < least.1
                } else {
                    least.0
                };
                if is_less || oldest.is_none() {
                    oldest = Some(place);
                    least = (held.is_changed, held.used);
                }
            }
        }
        oldest.unwrap_or(0)
    }

    /// Lets go each one in which no name has changed, but for those that stay, so that there are descriptors again.
    pub fn let_go(&mut self, staying: [Option<usize>; 2]) {
        for place in 0..self.places.len() {
            if staying[0] == Some(place) || staying[1] == Some(place) {
                continue;
            }
            if let Some(held) = self.places.get_mut(place) {
                if !held.is_changed {
                    held.file = None;
                }
            }
        }
    }

    /// Lets the directory go that this front of a name led to: it was taken away, and another one may come in its place.
    pub fn forget(&mut self, front: Path<'_>) {
        for held in self.places.iter_mut() {
            if held.text.is(front.text) {
                held.file = None;
            }
        }
    }

    /// A name in it is about to change.
    pub fn change(&mut self, place: usize) {
        if let Some(held) = self.places.get_mut(place) {
            held.is_changed = true;
        }
    }

    /// Syncs each in which a name has changed.
    pub fn sync(&mut self) -> io::Result<()> {
        for place in 0..self.places.len() {
            self.sync_at(place)?;
        }
        Ok(())
    }

    fn sync_at(&mut self, place: usize) -> io::Result<()> {
        let Some(held) = self.places.get_mut(place) else {
            return Ok(());
        };
        if !held.is_changed {
            return Ok(());
        }
        if let Some(file) = &held.file {
            file.sync_all()?;
        }
        held.is_changed = false;
        Ok(())
    }

    /// The first in which a name has changed.
    pub fn first_changed(&self) -> &str {
        for held in &self.places {
            if held.is_changed {
                let text = held.text.as_str();
                return match text.strip_suffix("/") {
                    Some("") => "/",
                    Some(directory) => directory,
                    None => ".",
                };
            }
        }
        "."
    }
}
