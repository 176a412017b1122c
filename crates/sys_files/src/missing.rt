//! The file that was looked for last and isn't there, for the line that says which it is.

use crate::found::found_at_path;
use crate::paths::Path;
use crate::text::Text;
use crate::trouble::Trouble;
use outside::Name;
use std::alloc::{AllocError, Global};
use std::io;
use std::rt::Files;

/// More than the system takes of a name, so that it is told of one that is too long.
const LONGEST_NAME: usize = 8_192;

/// What is told of a regular file that isn't reached through directories alone.
const NO_WAY: &str = "a symbolic link is on the way to it, and isn't followed";

#[derive(Drop)]
pub struct Missing {
    name: Text,
    given: usize,
}

impl Missing {
    pub fn new(alloc: Global) -> Result<Missing, AllocError> {
        let name = Text::new(alloc, LONGEST_NAME)?;
        Ok(Missing { name, given: 0 })
    }

    /// Keeps the name. Of one for which there is no room it keeps nothing.
    pub fn note(&mut self, name: Path<'_>) {
        self.given = name.given;
        if self.name.set(name.text).is_err() {
            self.name.clear();
        }
    }

    /// The name, and why no file is read there.
    pub fn text<R: Files>(&self, alloc: Global, rt: &R) -> Result<Option<String>, AllocError> {
        if self.name.len() == 0 {
            return Ok(None);
        }
        let path = Path {
            text: self.name.as_str(),
            given: self.given,
        };
        text_at(alloc, rt, path)
    }
}

/// A name, and why no file is read there, as `d/n: not found`: what stands there is no regular file, as a directory, a link or a
/// pipe; a link is on the way; the system doesn't let it be looked at; or nothing is there. Where a regular file is there, it is
/// nothing.
pub fn missing_text<R: Files>(
    alloc: Global,
    rt: &R,
    name: &Name,
) -> Result<Option<String>, AllocError> {
    text_at(alloc, rt, Path::of(name))
}

/// The same where the system doesn't let the name be looked at, else nothing.
pub fn unreached_text<R: Files>(
    alloc: Global,
    rt: &R,
    name: &Name,
) -> Result<Option<String>, AllocError> {
    let path = Path::of(name);
    match found_at_path(rt, path.text, path.is_given()) {
        Ok(_) => Ok(None),
        Err(error) => trouble_text(alloc, path.text, error),
    }
}

fn text_at<R: Files>(alloc: Global, rt: &R, path: Path<'_>) -> Result<Option<String>, AllocError> {
    let found = match found_at_path(rt, path.text, path.is_given()) {
        Ok(found) => found,
        Err(error) => return trouble_text(alloc, path.text, error),
    };
    if found.is_file && is_behind_directories(rt, path) {
        return Ok(None);
    }
    let name = path.text;
    let what = if found.is_file { NO_WAY } else { found.kind() };
    match format!(in alloc; "{name}: {what}") {
        Ok(text) => Ok(Some(text)),
        Err(error) => Err(error),
    }
}

/// Whether a name goes through directories alone.
fn is_behind_directories<R: Files>(rt: &R, path: Path<'_>) -> bool {
    for (slash, _) in path.text.match_indices('/') {
        let end = slash.max(1);
        let directory = path.text.get(..end).unwrap_or(path.text);
        match found_at_path(rt, directory, end <= path.given) {
            Ok(found) if found.is_directory => {}
            _ => return false,
        }
    }
    true
}

fn trouble_text(alloc: Global, name: &str, error: io::Error) -> Result<Option<String>, AllocError> {
    let name = String::from_str(alloc, name)?;
    let trouble = Trouble { name, error };
    match trouble.text(alloc) {
        Ok(text) => Ok(Some(text)),
        Err(error) => Err(error),
    }
}
