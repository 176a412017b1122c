//! Marks at names.

ghost use Rattle.std.specs.Prelude.{◌≡◌, ◌||◌, ℕ, List, true, false, bytes_eq, OnOk, OnErr};
ghost use Rattle.outside.specs.Marked.{has_room, is_marked};

use crate::Name;
use std::alloc::{AllocError, Global};
use std::collections::BTreeMap;

/// Names, of which some are marked. Room is made for a name first, so that a mark needs no memory.
#[derive(Drop)]
pub struct WrittenNames {
    marks: BTreeMap<String, bool>,
}

impl WrittenNames {
    /// There is room for no name, and none is marked.
    pub fn new(alloc: Global) -> WrittenNames
        ensures room { (q : List ℕ) → has_room result q ≡ false }
        ensures marks { (q : List ℕ) → is_marked result q ≡ false }
    {
        WrittenNames {
            marks: BTreeMap::new(alloc),
        }
    }

    /// Makes room for a name.
    pub fn add(&mut self, alloc: Global, name: &Name) -> Result<(), AllocError>
        ensures room { OnOk result ((q : List ℕ) → has_room self.new q ≡ (bytes_eq q name.now || has_room self.old q)) }
        ensures refused { OnErr result ((q : List ℕ) → has_room self.new q ≡ has_room self.old q) }
        ensures marks { (q : List ℕ) → is_marked self.new q ≡ is_marked self.old q }
    {
        if let Some(_mark) = self.marks.get(name.text()) {
            return Ok(());
        }
        let text = String::from_str(alloc, name.text())?;
        self.marks.insert(text, false)?;
        Ok(())
    }

    /// Whether a name is marked.
    pub fn has(&self, name: &Name) -> bool
        ensures { result ≡ is_marked self.now name.now }
    {
        match self.marks.get(name.text()) {
            Some(mark) => *mark,
            None => false,
        }
    }

    /// Marks a name, and says whether there was room for it; where there was none, no mark changes.
    pub fn mark(&mut self, name: &Name) -> bool
        ensures room { result ≡ has_room self.old name.now }
        ensures rooms { (q : List ℕ) → has_room self.new q ≡ has_room self.old q }
        ensures marked { result ≡ true → (q : List ℕ) → is_marked self.new q ≡ (bytes_eq q name.now || is_marked self.old q) }
        ensures kept { result ≡ false → (q : List ℕ) → is_marked self.new q ≡ is_marked self.old q }
    {
        match self.marks.get_mut(name.text()) {
            Some(mark) => {
                *mark = true;
                true
            }
            None => false,
        }
    }
}
