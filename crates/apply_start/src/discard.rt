//! A sink for a dry run.

ghost use Rattle.std.specs.Prelude.{None};

use outside::{Failed, Sink};

/// A sink that keeps nothing and never fails.
#[derive(Drop)]
pub struct Discard {}

impl Sink for Discard {
    ghost view = { λ _. record { told = None; faults = 0 } };

    ghost same_rest = { λ _ _. Unit {0} };

    ghost rest_none = { λ _. tt };

    ghost rest_both = { λ _ _ _ _ _. tt };

    fn write(&mut self, piece: &[u8]) -> Result<usize, Failed> {
        Ok(piece.len())
    }
}
