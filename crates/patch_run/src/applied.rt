//! The receipt of a run.

ghost use Rattle.std.specs.Prelude.{◌≡◌, ◌||◌, if◌then◌else◌};

use std::marker::Model;

/// What a run has done. Only `apply_set` makes one.
#[derive(Drop)]
pub struct Applied {
    is_bad: bool,
    done: u32,
    effects: u64,
}

impl Model for Applied {
    ghost use Rattle.patch_run.specs.Applied.{Receipt};

    ghost Value = { Receipt };

    ghost view = { λ a. record { is_bad = a.is_bad; done = a.done; effects = a.effects } };
}

impl Applied {
    pub(crate) fn new(is_bad: bool, done: u32, effects: u64) -> Applied
        ensures { result ≡ record { is_bad = is_bad; done = done; effects = effects } }
    {
        Applied {
            is_bad,
            done,
            effects,
        }
    }

    /// The same receipt of a run that is bad for another reason, if it is.
    pub fn bad_if(self, is_bad: bool) -> Applied
        ensures { result ≡ record { is_bad = self.is_bad || is_bad; done = self.done; effects = self.effects } }
    {
        Applied {
            is_bad: self.is_bad || is_bad,
            done: self.done,
            effects: self.effects,
        }
    }

    /// 1 where a hunk failed, a file patch was skipped, also one without hunks, a file that was to be deleted wasn't, or an image
    /// isn't put in, or `bad_if` said so; else 0.
    pub fn status(&self) -> u8
        ensures { result ≡ (if self.now.is_bad then 1 else 0) }
    {
        u8::from(self.is_bad)
    }

    /// The number of file patches, all of which had their turn.
    pub fn done(&self) -> u32
        ensures { result ≡ self.now.done }
    {
        self.done
    }

    /// The number of effects on the tree.
    pub fn effects(&self) -> u64
        ensures { result ≡ self.now.effects }
    {
        self.effects
    }
}
