//! Numbers for names.
ghost use Rattle.std.specs.Prelude.{◌≡◌, [], IfOk, OnErr};
ghost use Rattle.read_file_patch.specs.Numbered.{number_in, with_name};

use outside::Name;
use std::alloc::{AllocError, Global};
use std::collections::BTreeMap;
use std::marker::Model;

/// Numbers for names, from 0 in the order in which the names first come; equal names have equal numbers.
#[derive(Drop)]
pub struct Numbers {
    numbers: BTreeMap<String, u32>,
}

impl Model for Numbers {
    ghost use Rattle.std.specs.Prelude.{ℕ, List};
    ghost use Rattle.read_file_patch.specs.Numbered.{texts, AreNumbered};

    ghost Value = { List (List ℕ) };

    ghost view = { λ n. texts n.numbers };

    ghost invariant = { λ n. AreNumbered n.numbers };
}

impl Numbers {
    /// No name has a number.
    pub fn new(alloc: Global) -> Numbers
        ensures { result ≡ [] }
    {
        Numbers {
            numbers: BTreeMap::new(alloc),
        }
    }

    /// The number of the name, which is a new one if the name has none. There are 2^32 numbers, and no more
    /// names are taken than that.
    pub fn number(&mut self, alloc: Global, name: &Name) -> Result<u32, AllocError>
        ensures names { IfOk result (λ number. self.new ≡ with_name self.old name.now) }
        ensures number { IfOk result (λ number. number ≡ number_in self.new name.now) }
        ensures err { OnErr result (self.new ≡ self.old) }
    {
        if let Some(number) = self.numbers.get(name.text()) {
            return Ok(*number);
        }
        let Ok(number) = u32::try_from(self.numbers.len()) else {
            return Err(AllocError);
        };
        let text = String::from_str(alloc, name.text())?;
        self.numbers.insert(text, number)?;
        Ok(number)
    }
}
