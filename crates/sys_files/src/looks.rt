//! The files that were looked at last, so that another look at one asks the system nothing.
//!
//! What is kept holds until the run changes a name itself, or comes to another file patch: none is taken on trust for long, and
//! the file that is opened must be the one that was seen.

use crate::found::Found;
use crate::paths::Path;
use crate::text::{LONGEST_PATH, Text};
use std::alloc::{AllocError, Global};

/// How many are kept: the names of a file patch.
const MOST: usize = 4;

#[derive(Drop)]
struct Look {
    name: Text,
    given: usize,
    found: Option<Found>,
}

#[derive(Drop)]
pub struct Looks {
    looks: Vec<Look>,
    next: usize,
    /// The bytes of a file were read.
    pub was_read: bool,
}

impl Looks {
    pub fn new(alloc: Global) -> Result<Looks, AllocError> {
        let mut looks = Vec::with_capacity(alloc, MOST)?;
        for _ in 0..MOST {
            let name = Text::new(alloc, LONGEST_PATH)?;
            looks.push(Look {
                name,
                given: 0,
                found: None,
            })?;
        }
        Ok(Looks {
            looks,
            next: 0,
            was_read: false,
        })
    }

    /// What stood at the path when it was looked at last.
    pub fn kept(&self, path: Path<'_>) -> Option<Found> {
        for look in &self.looks {
            if look.found.is_some() && look.given == path.given && look.name.is(path.text) {
                return look.found;
            }
        }
        None
    }

    /// Keeps what stands at a path, in place of the oldest look.
    pub fn keep(&mut self, path: Path<'_>, found: Found) {
        if let Some(look) = self.looks.get_mut(self.next) {
            look.found = None;
            if look.name.set(path.text).is_ok() {
                look.given = path.given;
                look.found = Some(found);
            }
        }
        self.next = if self.next.saturating_add(1) < MOST {
            self.next.saturating_add(1)
        } else {
            0
        };
    }

    pub fn forget(&mut self) {
        for look in self.looks.iter_mut() {
            look.found = None;
        }
        self.was_read = false;
    }
}
