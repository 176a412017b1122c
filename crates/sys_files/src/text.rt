//! Texts whose room is taken once, so that no call on a file wants memory behind the first change.

use crate::paths::too_long;
use std::alloc::{AllocError, Global};
use std::io;

/// The system takes no path of so many bytes.
pub const LONGEST_PATH: usize = 4_096;

/// What a number of 32 bits is counted in, the largest first.
const UNITS: [u32; 10] = [
    1_000_000_000,
    100_000_000,
    10_000_000,
    1_000_000,
    100_000,
    10_000,
    1_000,
    100,
    10,
    1,
];

const DIGITS: [&str; 10] = ["0", "1", "2", "3", "4", "5", "6", "7", "8", "9"];

#[derive(Drop)]
pub struct Text {
    text: String,
    room: usize,
}

impl Text {
    pub fn new(alloc: Global, room: usize) -> Result<Text, AllocError> {
        match String::with_capacity(alloc, room) {
            Ok(text) => Ok(Text { text, room }),
            Err(error) => Err(error),
        }
    }

    pub fn as_str(&self) -> &str {
        self.text.as_str()
    }

    pub fn len(&self) -> usize {
        self.text.len()
    }

    pub fn is(&self, other: &str) -> bool {
        self.text.as_str() == other
    }

    pub fn clear(&mut self) {
        self.text.clear();
    }

    pub fn set(&mut self, text: &str) -> io::Result<()> {
        self.text.clear();
        self.add(text)
    }

    /// A text for which there is no room is longer than the system takes.
    pub fn add(&mut self, text: &str) -> io::Result<()> {
        if !self.has_room(text.len()) {
            return Err(too_long());
        }
        match self.text.push_str(text) {
            Ok(()) => Ok(()),
            Err(error) => Err(error.into()),
        }
    }

    pub fn has_room(&self, size: usize) -> bool {
        self.text.len().saturating_add(size) <= self.room
    }

    pub fn add_number(&mut self, number: u32) -> io::Result<()> {
        for unit in UNITS {
            if number >= unit || unit == 1 {
                let digit = (number / unit) % 10;
                self.add(DIGITS.get(digit as usize).unwrap_or(&""))?;
            }
        }
        Ok(())
    }
}
