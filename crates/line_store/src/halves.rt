//! Which line each half holds.

ghost use Rattle.std.specs.Prelude.{◌≡◌, ◌≢◌, None};
ghost use Rattle.line_store.specs.declared.Half.{Half};
ghost use Rattle.line_store.specs.Halves.{half_of};

use crate::Half;

/// The number of the line that each half holds, counted from 1, for stores that need no more than that.
#[derive(Clone, Copy)]
pub struct Halves {
    pub first: Option<u64>,
    pub second: Option<u64>,
}

impl Halves {
    pub fn new() -> Halves
        ensures { (h : Half) → half_of result h ≡ None }
    {
        Halves {
            first: None,
            second: None,
        }
    }

    pub fn get(&self, half: Half) -> Option<u64>
        ensures { result ≡ half_of self.now half }
    {
        match half {
            Half::First => self.first,
            Half::Second => self.second,
        }
    }

    pub fn set(&mut self, half: Half, held: Option<u64>)
        ensures held { half_of self.new half ≡ held }
        ensures other { (h : Half) → h ≢ half → half_of self.new h ≡ half_of self.old h }
    {
        match half {
            Half::First => self.first = held,
            Half::Second => self.second = held,
        }
    }
}
