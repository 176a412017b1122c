//! What failed last, for the line that says where a fault was.

use std::alloc::{AllocError, Global};
use std::io;
use std::io::ErrorKind;

/// Behind the system's words where a temporary can't be made, since it may be the directory that doesn't let it.
const BESIDE: &str = " (a file beside it could not be made)";

/// The name of a device or a file, and what the system answered.
#[derive(Drop)]
pub struct Trouble {
    pub name: String,
    pub error: io::Error,
}

/// What failed, or nothing without memory.
pub fn trouble_of(alloc: Global, name: &str, error: io::Error) -> Option<Trouble> {
    match String::from_str(alloc, name) {
        Ok(name) => Some(Trouble { name, error }),
        Err(_) => None,
    }
}

/// A temporary is shown as the file that it is for, unless a directory stands at its own name; and what is to be told of that.
fn shown(name: &str, kind: ErrorKind) -> (&str, &'static str) {
    let Some(target) = name.strip_suffix(".ptmp") else {
        return (name, "");
    };
    if matches!(kind, ErrorKind::IsADirectory) || target.is_empty() || target.ends_with('/') {
        return (name, "");
    }
    if matches!(kind, ErrorKind::PermissionDenied) {
        (target, BESIDE)
    } else {
        (target, "")
    }
}

impl Trouble {
    /// The name and the system's words, as `d/n: Permission denied`.
    pub fn text(&self, alloc: Global) -> Result<String, AllocError> {
        let said = format!(in alloc; "{}", self.error)?;
        let (name, more) = shown(self.name.as_str(), self.error.kind());
        let words = words_in(said.as_str());
        format!(in alloc; "{name}: {words}{more}")
    }
}

/// The system's words without their number.
fn words_in(said: &str) -> &str {
    match said.split_once(" (os error ") {
        Some((words, _)) => words,
        None => said,
    }
}
