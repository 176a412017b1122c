//! A text in memory that grows as a sink does.

ghost use Rattle.std.specs.Prelude.{◌≡◌, [], Some};
ghost use Rattle.filter_style.specs.Memory.{memory_view};

use outside::{Failed, Sink};
use std::alloc::Global;

/// A text in memory. A piece for which there is no room is a fault.
#[derive(Drop)]
pub struct Memory {
    pub bytes: Vec<u8>,
    pub starved: u64,
}

impl Memory {
    /// An empty text.
    pub fn new(alloc: Global) -> Memory
        ensures { (memory_view result).told ≡ Some [] }
    {
        Memory {
            bytes: Vec::new(alloc),
            starved: 0,
        }
    }
}

impl Sink for Memory {
    ghost view = { memory_view };

    ghost same_rest = { λ x y. Unit {0} };

    ghost rest_none = { λ x. tt };

    ghost rest_both = { λ x y z p q. tt };

    // It takes the whole piece.
    fn write(&mut self, piece: &[u8]) -> Result<usize, Failed> {
        match self.bytes.extend_from_slice(piece) {
            Ok(()) => Ok(piece.len()),
            Err(_) => {
                if self.starved < u64::MAX {
                    self.starved += 1;
                }
                Err(Failed)
            }
        }
    }
}
