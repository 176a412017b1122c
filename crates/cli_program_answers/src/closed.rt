//! Standard streams that are closed stay so.

use std::fs::File;
use std::os::fd::AsRawFd;

/// Neither read nor written, whoever asks.
const NO_FILE: &str = "/";

/// Standard input, output and error are the descriptors up to this one.
const LAST_STREAM: i32 = 2;

/// What stands in place of the standard streams that are closed. Else the next file that is opened would become one of them, and
/// what a run says would be written into it.
#[derive(Drop)]
pub struct Closed {
    first: Option<File>,
    second: Option<File>,
    third: Option<File>,
}

impl Closed {
    /// Takes their places, until it is dropped.
    pub fn new(rt: &HostRuntime) -> Closed {
        let first = in_place(rt);
        let second = if first.is_some() { in_place(rt) } else { None };
        let third = if second.is_some() { in_place(rt) } else { None };
        Closed {
            first,
            second,
            third,
        }
    }

    /// Lets them go.
    pub fn end(self) {}
}

/// The file that takes the place of the first stream that is closed, if one is.
fn in_place(rt: &HostRuntime) -> Option<File> {
    match File::open(rt, NO_FILE) {
        Ok(file) if file.as_raw_fd() <= LAST_STREAM => Some(file),
        _ => None,
    }
}
