//! Places in a text.

ghost use Rattle.std.specs.Prelude.{◌≡◌, ◌<◌, ◌++◌, ◌∷◌, ℕ, [], length, slice_index_or, IfOk, OnOk};
ghost use Rattle.plan_a.specs.Places.{places_of, Takes};

use std::alloc::{AllocError, Global};

/// Places in a text, in four bytes each where the text is short enough for that, else in eight.
#[derive(Drop)]
pub enum Places {
    Short(Vec<u32>),
    Long(Vec<u64>),
}

impl Places {
    pub fn none(alloc: Global) -> Places
        ensures { places_of result ≡ [] }
    {
        Places::Short(Vec::new(alloc))
    }

    /// Room for so many places, of which none is above `last`.
    pub fn with_room(alloc: Global, room: usize, last: u64) -> Result<Places, AllocError>
        ensures none { IfOk result (λ places. places_of places ≡ []) }
        ensures takes { IfOk result (λ places. Takes places last) }
    {
        if last <= u32::MAX as u64 {
            let places = Vec::with_capacity(alloc, room)?;
            return Ok(Places::Short(places));
        }
        let places = Vec::with_capacity(alloc, room)?;
        Ok(Places::Long(places))
    }

    pub fn len(&self) -> usize
        ensures { result ≡ length (places_of self.now) }
    {
        match self {
            Places::Short(places) => places.len(),
            Places::Long(places) => places.len(),
        }
    }

    /// The place with so many places before it.
    pub fn at(&self, before: usize) -> usize
        requires { before < length (places_of self.now) }
        ensures { result ≡ slice_index_or (places_of self.now) before 0 }
    {
        match self {
            Places::Short(places) => places[before] as usize,
            Places::Long(places) => places[before] as usize,
        }
    }

    pub fn push(&mut self, place: usize) -> Result<(), AllocError>
        requires { Takes self.old place }
        ensures pushed { OnOk result (places_of self.new ≡ places_of self.old ++ place ∷ []) }
        ensures takes { OnOk result ((p : ℕ) → Takes self.old p → Takes self.new p) }
    {
        match self {
            Places::Short(places) => {
                places.push(place as u32)?;
                Ok(())
            }
            Places::Long(places) => {
                places.push(place as u64)?;
                Ok(())
            }
        }
    }
}
