//! Where the record of the line that each half holds stands.

ghost use Rattle.std.specs.Prelude.{◌≡◌, ◌≢◌};
ghost use Rattle.line_store.specs.declared.Half.{Half};
ghost use Rattle.plan_b.specs.Spots.{spot_of};

use line_store::Half;

/// A record: how many stand before it on its page, and its place there.
#[derive(Clone, Copy)]
pub struct RecordOnPage {
    pub index: u64,
    pub at: usize,
}

/// The record of the line that each half holds, if it holds one.
#[derive(Clone, Copy)]
pub struct Spots {
    pub first: RecordOnPage,
    pub second: RecordOnPage,
}

impl Spots {
    /// Those of halves that hold no line.
    pub fn new() -> Spots {
        let spot = RecordOnPage { index: 0, at: 0 };
        Spots {
            first: spot,
            second: spot,
        }
    }

    pub fn get(&self, half: Half) -> RecordOnPage
        ensures { result ≡ spot_of self.now half }
    {
        match half {
            Half::First => self.first,
            Half::Second => self.second,
        }
    }

    pub fn set(&mut self, half: Half, spot: RecordOnPage)
        ensures set { spot_of self.new half ≡ spot }
        ensures other { (h : Half) → h ≢ half → spot_of self.new h ≡ spot_of self.old h }
    {
        match half {
            Half::First => self.first = spot,
            Half::Second => self.second = spot,
        }
    }
}
