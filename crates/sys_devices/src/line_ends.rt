//! How the lines of the files end that are read to be patched, for the line behind a run in which hunks failed.

use memchr::memchr;
use std::alloc::Global;

/// The first file of either kind, as its first line has it, and the last file.
#[derive(Drop)]
pub struct LineEnds {
    returned: String,
    plain: String,
    last: String,
}

impl LineEnds {
    pub fn new(alloc: Global) -> LineEnds {
        LineEnds {
            returned: String::new(alloc),
            plain: String::new(alloc),
            last: String::new(alloc),
        }
    }

    /// Forgets the files.
    pub fn forget(&mut self) {
        self.returned.clear();
        self.plain.clear();
        self.last.clear();
    }

    /// The first file whose first line ends in carriage return and line feed, or nothing.
    pub fn returned(&self) -> &str {
        self.returned.as_str()
    }

    /// The first file whose first line ends in a line feed alone, or nothing.
    pub fn plain(&self) -> &str {
        self.plain.as_str()
    }

    /// The file that was read last, or nothing.
    pub fn last(&self) -> &str {
        self.last.as_str()
    }

    /// A file is read from its front.
    pub fn note(&mut self, name: &str, front: &[u8]) {
        self.last.clear();
        let _ = self.last.push_str(name);
        if let Some(length) = memchr(b'\n', front) {
            if front.get(..length).unwrap_or(&[]).ends_with(b"\r") {
                keep(&mut self.returned, name);
            } else {
                keep(&mut self.plain, name);
            }
        }
    }
}

/// Keeps the first name. Without memory that is nothing.
fn keep(kept: &mut String, name: &str) {
    if kept.is_empty() {
        let _ = kept.push_str(name);
    }
}
