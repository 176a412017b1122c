//! The directories that a file's removal may have left empty. They wait until names are taken away elsewhere, or for the end of the
//! run: where another file comes in the place of the last one, its directory stays the one that it was.

use crate::files::OpenFiles;
use crate::paths::Path;
use crate::text::{LONGEST_PATH, Text};
use std::alloc::{AllocError, Global};
use std::fs::File;
use std::io;
use std::rt::Files;

/// The directory from which a name was taken away last, with the slash behind it, or nothing.
#[derive(Drop)]
pub struct Emptied {
    front: Text,
    /// How many bytes of it the operator gave.
    given: usize,
}

impl Emptied {
    pub fn new(alloc: Global) -> Result<Emptied, AllocError> {
        match Text::new(alloc, LONGEST_PATH) {
            Ok(front) => Ok(Emptied { front, given: 0 }),
            Err(error) => Err(error),
        }
    }
}

impl<'r, R: Files<File = File>> OpenFiles<'r, R> {
    /// Keeps the directory of a name that was taken away, and takes the one away that was kept before, unless it is the same. That
    /// of a stack's own files stays.
    pub fn note_emptied(&mut self, name: Path<'_>) {
        if self.saves.is_own(name.text) {
            return;
        }
        let kept = Path {
            text: self.emptied.front.as_str(),
            given: self.emptied.given,
        };
        if name.is_beside(kept) {
            return;
        }
        self.drop_emptied();
        self.emptied.given = name.given;
        if self.emptied.front.set(name.directories()).is_err() {
            self.emptied.front.clear();
        }
    }

    /// Takes the directory away that was kept, and those around it, from the innermost to the first that isn't empty or that the
    /// operator gave.
    pub(crate) fn drop_emptied(&mut self) {
        self.looks.forget();
        let given = self.emptied.given;
        for (slash, _) in self.emptied.front.as_str().rmatch_indices('/') {
            let front = Path {
                text: self.emptied.front.as_str().get(..=slash).unwrap_or(""),
                given,
            };
            if slash.max(1) <= given || self.directories.remove_directory(self.rt, front).is_err() {
                break;
            }
        }
        self.emptied.front.clear();
    }
}
