//! Whose rights the files of a stack of patches get.
//!
//! A save holds the bytes of many files. It is for those who may read each of them, and for its owner. What is put back from a
//! save keeps the rights of what it replaces. Where nothing is there, it gets those of what this run took away there, or else
//! no more than the save's. It can't bring back the bits of a file that an earlier push took away, nor, where a push fails,
//! those of an old reject file that one for a more private file replaced. Both get fewer bits, never more.

use crate::found::Found;
use crate::origins::{Due, Grant, own};
use crate::rights::Rights;
use std::alloc::Global;
use std::io;

/// What the names of the stack's files begin with.
const OWN: &str = ".pc/";

/// A file that was taken away.
#[derive(Drop)]
struct Gone {
    name: String,
    rights: Rights,
}

/// What was seen of a stack's files.
#[derive(Drop)]
pub struct Saves {
    alloc: Global,
    /// Whether the tree is a stack's at all.
    is_stack: bool,
    /// What all files let others do that were read since a temporary was started last.
    audience: Option<Rights>,
    /// The rights of the save that was looked at last: what is put is from it, until another save is started.
    source: Option<Rights>,
    gone: Vec<Gone>,
}

impl Saves {
    pub fn new(alloc: Global, is_stack: bool) -> Saves {
        Saves {
            alloc,
            is_stack,
            audience: None,
            source: None,
            gone: Vec::new(alloc),
        }
    }

    /// Forgets what was seen.
    pub fn forget(&mut self) {
        self.audience = None;
        self.source = None;
        self.gone.clear();
    }

    /// Whether the stack keeps this file for itself.
    pub fn is_own(&self, name: &str) -> bool {
        self.is_stack && name.starts_with(OWN)
    }

    /// A name was looked at.
    pub fn look(&mut self, name: &str, found: Found) {
        if self.is_stack && found.is_file && is_save(name) {
            self.source = Some(found.rights);
        }
    }

    /// The bytes of a file were read. This is what those may do with it who can come to it.
    pub fn read(&mut self, audience: Rights) {
        let all = match self.audience {
            Some(others) => others.met(audience),
            None => audience,
        };
        self.audience = Some(all);
    }

    /// The temporary of this name was started.
    pub fn start(&mut self, name: &str) {
        self.audience = None;
        if is_save(name) {
            self.source = None;
        }
    }

    /// A file with these rights is taken away.
    pub fn take_away(&mut self, name: &str, rights: Rights) -> io::Result<()> {
        if !self.is_stack {
            return Ok(());
        }
        match String::from_str(self.alloc, name) {
            Ok(name) => {
                self.gone.push(Gone { name, rights })?;
                Ok(())
            }
            Err(error) => Err(error.into()),
        }
    }

    /// The rights that are due where `old` stands, if anything does: `other` where no stack has a say.
    pub fn due(&self, name: &str, old: Found, other: Due) -> Due {
        if !self.is_stack {
            return other;
        }
        if is_save(name) {
            return match self.audience {
                Some(audience) => Due::ShownTo(audience),
                None => Due::New,
            };
        }
        // What else the stack keeps holds nothing of others.
        if name.starts_with(OWN) {
            return own(old);
        }
        if old.is_file {
            return match self.source {
                Some(_) => Due::Exactly(old.rights),
                None => other,
            };
        }
        match (self.source, self.rights_gone(name)) {
            // It is put back from a save.
            (Some(_), Some(gone)) => Due::Exactly(gone),
            (Some(source), None) => Due::AtMost(source),
            // A patch makes it: no more than what was taken away had, since its bytes may come over this one.
            (None, Some(gone)) => within(other, gone),
            (None, None) => other,
        }
    }

    /// What a patch may make of rights where `old` stands, if anything does. In a stack a file that is there, or was, keeps its
    /// own, since no save tells them when the patch is taken off again.
    pub fn grant(&self, name: &str, old: Found, granted: Grant) -> Grant {
        if self.is_stack && (old.is_file || self.rights_gone(name).is_some()) {
            granted.settled()
        } else {
            granted
        }
    }

    /// The rights of the first file of this name that was taken away.
    fn rights_gone(&self, name: &str) -> Option<Rights> {
        for gone in &self.gone {
            if gone.name.as_str() == name {
                return Some(gone.rights);
            }
        }
        None
    }
}

/// No more than these rights.
fn within(due: Due, most: Rights) -> Due {
    match due {
        Due::Exactly(rights) => Due::Exactly(rights.met(most)),
        Due::AtMost(rights) => Due::AtMost(rights.met(most)),
        Due::ShownTo(rights) => Due::ShownTo(rights.met(most)),
        Due::New => Due::AtMost(most),
    }
}

/// Whether it is the name of a save. No patch of a stack changes a file below `.pc/`.
fn is_save(name: &str) -> bool {
    name.starts_with(OWN) && name.ends_with(".save")
}
