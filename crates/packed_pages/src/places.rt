//! Where the line that each half holds stands.

ghost use Rattle.std.specs.Prelude.{◌≡◌, ◌≢◌, None};
ghost use Rattle.line_store.specs.declared.Half.{Half};
ghost use Rattle.packed_pages.specs.Held.{place_of};
ghost use Rattle.packed_pages.specs.Steps.{moved};
ghost use Rattle.std.specs.Option.{option_map};

use line_store::Half;

/// A line and the place of its record on a page, whose lines go from `first` up to before `next`.
#[derive(Clone, Copy)]
pub struct RecordPlace {
    pub line: u64,
    pub at: usize,
    pub first: u64,
    pub next: u64,
    pub page: u64,
}

/// The place of the line that each half holds.
#[derive(Clone, Copy)]
pub struct Places {
    pub first: Option<RecordPlace>,
    pub second: Option<RecordPlace>,
}

impl Places {
    pub fn new() -> Places
        ensures { (h : Half) → place_of result h ≡ None }
    {
        Places {
            first: None,
            second: None,
        }
    }

    pub fn get(&self, half: Half) -> Option<RecordPlace>
        ensures { result ≡ place_of self.now half }
    {
        match half {
            Half::First => self.first,
            Half::Second => self.second,
        }
    }

    pub fn set(&mut self, half: Half, held: Option<RecordPlace>)
        ensures held { place_of self.new half ≡ held }
        ensures other { (h : Half) → h ≢ half → place_of self.new h ≡ place_of self.old h }
    {
        match half {
            Half::First => self.first = held,
            Half::Second => self.second = held,
        }
    }

    /// The place of line `k` on the same page.
    pub fn go_to(&mut self, half: Half, k: u64, at: usize)
        ensures held { place_of self.new half ≡ option_map (moved k at) (place_of self.old half) }
        ensures other { (h : Half) → h ≢ half → place_of self.new h ≡ place_of self.old h }
    {
        match half {
            Half::First => self.first = moved(self.first, k, at),
            Half::Second => self.second = moved(self.second, k, at),
        }
    }
}

fn moved(held: Option<RecordPlace>, k: u64, at: usize) -> Option<RecordPlace>
    ensures { result ≡ option_map (moved k at) held }
{
    match held {
        Some(place) => Some(RecordPlace {
            line: k,
            at,
            ..place
        }),
        None => None,
    }
}
