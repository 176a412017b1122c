//! A finder of patterns in lines.
ghost use Rattle.std.specs.Prelude.{◌≡◌, ℕ, List, Some, IsSome, IfOk};
ghost use Rattle.outside.specs.FinderView.{FinderView, FinderPasses, IsSet};

use std::alloc::{AllocError, Global};

/// Why a finder doesn't keep a pattern.
#[derive(Clone, Copy)]
pub enum FindFault {
    /// It isn't a pattern that this finder takes.
    Refused,
    /// Memory ran out.
    Memory,
}

pub trait Finder {
    /// What it tells.
    ghost view: { Self → FinderView };

    /// Keeps the pattern. After a refusal none is kept.
    fn set(&mut self, alloc: Global, pattern: &str) -> Result<(), FindFault>
        ensures passes { FinderPasses (view self.old) (view self.new) }
        ensures set { IsSet (view self.old) (view self.new) pattern.now result };

    /// Whether the line has what the pattern asks for. The pattern stays kept.
    fn hits(&mut self, alloc: Global, line: &[u8]) -> Result<bool, AllocError>
        requires kept { IsSome (view self.old).kept }
        ensures passes { FinderPasses (view self.old) (view self.new) }
        ensures same { (view self.new).kept ≡ (view self.old).kept }
        ensures hit { IfOk result (λ b. (pattern : List ℕ) → (view self.old).kept ≡ Some pattern → b ≡ (view self.old).hit pattern line.now) };
}
