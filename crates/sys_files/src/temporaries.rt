//! The temporaries, each with the name that the system knows it by, and the file that the next one is filled from.

use crate::found::Found;
use crate::origins::{Grant, Origin};
use crate::paths::{Path, no_file, target_of};
use crate::rights::Rights;
use crate::text::{LONGEST_PATH, Text};
use std::alloc::{AllocError, Global};
use std::fs::File;
use std::io;
use std::time::SystemTime;

/// How many there is room for from the beginning. A file patch fills two at once.
const MOST: usize = 4;

/// More than the system takes of a name in a directory.
const LONGEST_LAST: usize = 264;

/// How far a temporary has come.
#[derive(Clone, Copy)]
enum Stage {
    /// There is none.
    Gone,
    Filled,
    Sealed,
}

#[derive(Drop)]
pub struct Temporary {
    name: Text,
    given: usize,
    /// Its last component as the system knows it.
    pub real: Text,
    pub file: Option<File>,
    /// The rights that it is to get.
    due: Grant,
    /// Whether it may be executed, where that was said.
    executable: Option<bool>,
    /// Whether it becomes a link.
    pub is_link: bool,
    /// The time that it gets, if it isn't that of its writing.
    pub time: Option<SystemTime>,
    stage: Stage,
    /// When it was started.
    started: u64,
}

impl Temporary {
    fn new(alloc: Global) -> Result<Temporary, AllocError> {
        let name = Text::new(alloc, LONGEST_PATH + 8)?;
        let real = Text::new(alloc, LONGEST_LAST)?;
        Ok(Temporary {
            name,
            given: 0,
            real,
            file: None,
            due: Grant::NONE,
            executable: None,
            is_link: false,
            time: None,
            stage: Stage::Gone,
            started: 0,
        })
    }

    /// The name that it goes by here.
    pub fn path(&self) -> Path<'_> {
        Path {
            text: self.name.as_str(),
            given: self.given,
        }
    }

    /// The rights that it gets.
    pub fn rights(&self) -> Rights {
        self.due.rights(self.executable)
    }

    pub fn is_there(&self) -> bool {
        !matches!(self.stage, Stage::Gone)
    }

    fn is_filled(&self) -> bool {
        matches!(self.stage, Stage::Filled)
    }

    /// It is whole, and closed, but where it has no name by which to open it again.
    pub fn close(&mut self) {
        if !self.is_nameless() {
            self.file = None;
        }
        self.stage = Stage::Sealed;
    }

    /// Whether it is one of an output that is written through.
    pub fn is_nameless(&self) -> bool {
        self.real.len() == 0
    }
}

#[derive(Drop)]
pub struct Temporaries {
    alloc: Global,
    all: Vec<Temporary>,
    time: u64,
    pub origin: Option<Origin>,
}

impl Temporaries {
    pub fn new(alloc: Global) -> Result<Temporaries, AllocError> {
        let mut all = Vec::with_capacity(alloc, MOST)?;
        for _ in 0..MOST {
            match Temporary::new(alloc) {
                Ok(temporary) => all.push(temporary)?,
                Err(error) => return Err(error),
            }
        }
        Ok(Temporaries {
            alloc,
            all,
            time: 0,
            origin: None,
        })
    }

    pub fn get(&self, number: usize) -> Option<&Temporary> {
        self.all.get(number)
    }

    pub fn get_mut(&mut self, number: usize) -> Option<&mut Temporary> {
        self.all.get_mut(number)
    }

    pub fn count(&self) -> usize {
        self.all.len()
    }

    /// The number of the one that goes by this name.
    pub fn find(&self, name: &str) -> Option<usize> {
        for number in 0..self.all.len() {
            if let Some(temporary) = self.all.get(number) {
                if temporary.is_there() && temporary.name.is(name) {
                    return Some(number);
                }
            }
        }
        None
    }

    /// The number of a place for one more. Only where many are there at once does that want memory.
    pub fn place(&mut self) -> io::Result<usize> {
        for number in 0..self.all.len() {
            if let Some(temporary) = self.all.get(number) {
                if !temporary.is_there() {
                    return Ok(number);
                }
            }
        }
        let number = self.all.len();
        let temporary = Temporary::new(self.alloc)?;
        self.all.push(temporary)?;
        Ok(number)
    }

    /// Keeps one that was started, whose real name stands there already.
    pub fn begin(
        &mut self,
        number: usize,
        temp: Path<'_>,
        file: File,
        due: Grant,
    ) -> io::Result<()> {
        if let Some(origin) = &mut self.origin {
            origin.was_read = false;
        }
        self.time = self.time.saturating_add(1);
        if let Some(temporary) = self.all.get_mut(number) {
            temporary.name.set(temp.text)?;
            temporary.given = temp.given;
            temporary.file = Some(file);
            temporary.due = due;
            temporary.executable = None;
            temporary.is_link = false;
            temporary.time = None;
            temporary.stage = Stage::Filled;
            temporary.started = self.time;
        }
        Ok(())
    }

    /// Whether none is being filled.
    pub fn is_idle(&self) -> bool {
        self.last().is_none()
    }

    /// The number of the one that was started last of those that are being filled.
    fn last(&self) -> Option<usize> {
        let mut last = None;
        let mut latest = 0;
        for number in 0..self.all.len() {
            if let Some(temporary) = self.all.get(number) {
                if temporary.is_filled() && temporary.started > latest {
                    latest = temporary.started;
                    last = Some(number);
                }
            }
        }
        last
    }

    /// The name that this one is for.
    pub fn last_target(&self) -> Option<Path<'_>> {
        let number = self.last()?;
        match self.all.get(number) {
            Some(last) => Some(target_of(last.path())),
            None => None,
        }
    }

    /// Keeps a file that was looked at, or that none is there. While temporaries are being filled it is what the last of them
    /// is filled from.
    pub fn saw(&mut self, found: Found, was_read: bool) {
        match self.last() {
            Some(number) => {
                if let Some(last) = self.all.get_mut(number) {
                    if found.is_file {
                        last.due = last.due.filled_from(found.rights);
                    }
                }
            }
            None if found.is_file => self.origin = Some(Origin { found, was_read }),
            None => self.origin = None,
        }
    }

    /// Keeps whether the one that goes by this name may be executed.
    pub fn set_executable(&mut self, name: &str, executable: bool) -> io::Result<()> {
        let Some(number) = self.find(name) else {
            return Err(no_file());
        };
        if let Some(temporary) = self.all.get_mut(number) {
            temporary.executable = Some(executable);
        }
        Ok(())
    }

    /// Keeps whether the one that goes by this name becomes a link.
    pub fn set_link(&mut self, name: &str, link: bool) -> io::Result<()> {
        let Some(number) = self.find(name) else {
            return Err(no_file());
        };
        if let Some(temporary) = self.all.get_mut(number) {
            temporary.is_link = link;
        }
        Ok(())
    }

    /// Keeps the time that the one gets that goes by this name.
    pub fn set_time(&mut self, name: &str, time: Option<SystemTime>) -> io::Result<()> {
        let Some(number) = self.find(name) else {
            return Err(no_file());
        };
        if let Some(temporary) = self.all.get_mut(number) {
            temporary.time = time;
        }
        Ok(())
    }

    /// Forgets one, and closes it.
    pub fn end(&mut self, number: usize) {
        if let Some(temporary) = self.all.get_mut(number) {
            temporary.file = None;
            temporary.stage = Stage::Gone;
        }
    }
}
