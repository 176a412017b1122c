//! The times that files are to have, and what is told where one keeps its own.

use crate::found::Found;
use crate::text::Text;
use outside::{Time, TimeChange};
use std::alloc::{AllocError, Global};
use std::fs::{File, FileTimes};
use std::io;
use std::time::{Duration, SystemTime, UNIX_EPOCH};

/// How many bytes of such lines are kept.
const ROOM: usize = 65_536;

const BEFORE: &str = "Not setting time of file ";

const OTHER_TIME: &str = " (time mismatch)\n";

const OTHER_BYTES: &str = " (contents mismatch)\n";

/// The lines on files that keep their own times.
#[derive(Drop)]
pub struct Undated {
    lines: Text,
}

impl Undated {
    pub fn new(alloc: Global) -> Result<Undated, AllocError> {
        Ok(Undated {
            lines: Text::new(alloc, ROOM)?,
        })
    }

    pub fn lines(&self) -> &str {
        self.lines.as_str()
    }

    /// Keeps the line on a file, while there is room.
    fn note(&mut self, name: &str, why: &str) {
        let size = BEFORE.len().saturating_add(name.len());
        if self.lines.has_room(size.saturating_add(why.len())) {
            for part in [BEFORE, name, why] {
                let _ = self.lines.add(part);
            }
        }
    }

    /// The time that a file gets, if what stands at its name now, and its bytes, allow that.
    pub fn time_of(&mut self, name: &str, now: Found, change: TimeChange) -> Option<SystemTime> {
        if is_other(now, change.was) {
            self.note(name, OTHER_TIME);
            return None;
        }
        if !change.is_exact {
            self.note(name, OTHER_BYTES);
            return None;
        }
        told(change.time)
    }
}

/// Whether a file is there, and has another time than it must have.
fn is_other(now: Found, was: Option<Time>) -> bool {
    match was {
        Some(time) => {
            now.is_there
                && (now.seconds != time.seconds || now.nanoseconds != i64::from(time.nanoseconds))
        }
        None => false,
    }
}

/// A time as the system takes it, whatever its clock: that of UTC is the only one that is known here. None before 1970 can be told.
fn told(time: Time) -> Option<SystemTime> {
    match u64::try_from(time.seconds) {
        Ok(seconds) => UNIX_EPOCH.checked_add(Duration::new(seconds, time.nanoseconds)),
        Err(_) => None,
    }
}

/// Gives an open file its time, if there is one.
pub fn give_time(file: &File, time: Option<SystemTime>) -> io::Result<()> {
    match time {
        Some(time) => file.set_times(FileTimes::new().set_accessed(time).set_modified(time)),
        None => Ok(()),
    }
}
