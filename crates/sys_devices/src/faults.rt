//! What a device's calls come to: its count of faults rises at each `Err` of the system, and what failed last is kept.
ghost use Rattle.std.specs.Prelude.{◌≡◌, ◌≤◌, Ok, IfOk, IsErr};
ghost use Rattle.outside.specs.Faults.{HasRisen};

use outside::Failed;
use std::alloc::Global;
use std::io;
use sys_files::{Trouble, trouble_of};

#[derive(Drop)]
pub struct Faults {
    alloc: Global,
    /// What failed last.
    pub trouble: Option<Trouble>,
    pub count: u64,
}

impl Faults {
    pub fn new(alloc: Global) -> Faults {
        Faults {
            alloc,
            trouble: None,
            count: 0,
        }
    }

    /// The answer of a call on the device or the file of this name. A fault is counted where the system answered one.
    pub fn answer<T: Drop>(&mut self, name: &str, done: io::Result<T>) -> Result<T, Failed>
        ensures kept { IfOk result (λ value. done ≡ Ok value) }
        ensures counts { self.old.count ≤ self.new.count }
        ensures cause { IsErr result → HasRisen self.old.count self.new.count }
    {
        match done {
            Ok(value) => Ok(value),
            Err(error) => {
                self.note(name, error);
                Err(Failed)
            }
        }
    }

    /// Counts a fault, and keeps what failed. Without memory that is nothing.
    pub fn note(&mut self, name: &str, error: io::Error)
        ensures counts { self.old.count ≤ self.new.count }
        ensures cause { HasRisen self.old.count self.new.count }
    {
        self.count = self.count.saturating_add(1);
        self.trouble = trouble_of(self.alloc, name, error);
    }
}
