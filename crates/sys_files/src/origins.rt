//! Whose rights each file gets that a run makes.
//!
//! What a temporary holds comes from the patch text or from the file that was looked at last: a target's lines are taken from
//! the file just before its temporary is started, and a backup's bytes are read while its temporary is filled. So that file's
//! rights are those that the new one gets, or the most that it gets. What a stack of patches makes has other rules
//! (`saves.rt`). A run that filled a temporary from two files would have to look at the more private one last. The rights of
//! the patch text count for nothing, as with GNU patch.

use crate::found::Found;
use crate::rights::Rights;

/// The regular file that was looked at last while no temporary was being filled.
#[derive(Clone, Copy)]
pub struct Origin {
    pub found: Found,
    /// Its bytes were read, and no temporary was started since.
    pub was_read: bool,
}

/// The rights that a temporary is to get.
#[derive(Clone, Copy)]
pub enum Due {
    /// These.
    Exactly(Rights),
    /// Those of any new file, but no more than these, and with their owner.
    AtMost(Rights),
    /// Those of any new file, but for others than its owner no more than these.
    ShownTo(Rights),
    /// Those of any new file.
    New,
}

impl Due {
    /// The rights that are due where the system gives these to a new file.
    pub fn of_new(self, new: Rights) -> Rights {
        match self {
            Due::Exactly(rights) => rights,
            Due::AtMost(most) => most.limited(new),
            Due::ShownTo(most) => new.shown_to(most),
            Due::New => new,
        }
    }
}

/// The rights that a temporary gets, and what may become of them where a patch says whether it may be executed.
#[derive(Clone, Copy)]
pub struct Grant {
    rights: Rights,
    /// Those may execute it that these let, if they may read it. Without them what the patch says counts for nothing.
    most: Option<Rights>,
}

impl Grant {
    pub const NONE: Grant = Grant {
        rights: Rights::NONE,
        most: None,
    };

    /// The rights of a file that is there.
    pub fn as_old(rights: Rights) -> Grant {
        Grant {
            rights,
            most: Some(Rights::ALL),
        }
    }

    /// What is due where the system gives `all` to a new file that is executed.
    pub fn as_new(due: Due, all: Rights) -> Grant {
        Grant {
            rights: due.of_new(all.inert()),
            most: Some(all),
        }
    }

    /// What is due for a file that is filled from one with these rights.
    pub fn filled_from(self, rights: Rights) -> Grant {
        match self.most {
            Some(_) => Grant::as_old(rights),
            None => Grant { rights, most: None },
        }
    }

    /// These rights, whatever a patch says.
    pub fn settled(self) -> Grant {
        Grant {
            rights: self.rights,
            most: None,
        }
    }

    /// The rights that it gets, where a patch says so.
    pub fn rights(self, executable: Option<bool>) -> Rights {
        match (executable, self.most) {
            (Some(true), Some(most)) => self.rights.executable(most),
            (Some(false), Some(_)) => self.rights.inert(),
            _ => self.rights,
        }
    }
}

/// The rights of a temporary that is started now, to stand where `old` stands, if anything does. What was filled from a file's
/// bytes gets its rights, and so does a file's own successor; anything else, as rejects, no more than them.
pub fn usual(origin: Option<Origin>, old: Found) -> Due {
    let Some(origin) = origin else {
        return own(old);
    };
    let rights = origin.found.rights;
    if origin.was_read {
        return Due::Exactly(rights);
    }
    if !old.is_file {
        return Due::AtMost(rights);
    }
    if old.identity.is_same(origin.found.identity) {
        Due::Exactly(rights)
    } else {
        Due::AtMost(rights.limited(old.rights))
    }
}

/// The rights that what stands there has, if anything does.
pub fn own(old: Found) -> Due {
    if old.is_file {
        Due::Exactly(old.rights)
    } else {
        Due::New
    }
}
