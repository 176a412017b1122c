//! A scratch: one list of bytes that is written and read at any place.
ghost use Rattle.std.specs.Prelude.{◌≡◌, ◌+◌, ◌-◌, ◌≤◌, ◌++◌, [], ℕ, List, length, take, drop, min, Some, IfOk, OnOk, OnErr};
ghost use Rattle.outside.specs.ScratchView.{ScratchView, IsScratchCall, ReachesTo, overwritten, counted};

use crate::Failed;

pub trait Scratch {
    /// What it tells.
    ghost view: { Self → ScratchView };

    /// Empties it. After `Failed` it may hold any bytes.
    fn restart(&mut self) -> Result<(), Failed>
        ensures call { IsScratchCall (view self.old) (view self.new) result }
        ensures reads { (view self.new).reads ≡ (view self.old).reads }
        ensures ok { OnOk result ((b : List ℕ) → (view self.old).told ≡ Some b → (view self.new).told ≡ Some []) };

    /// Writes a piece at a place that isn't past the end. After `Failed` it may hold any bytes.
    fn write_at(&mut self, at: u64, piece: &[u8]) -> Result<(), Failed>
        requires { ReachesTo (view self.old) at }
        ensures call { IsScratchCall (view self.old) (view self.new) result }
        ensures reads { (view self.new).reads ≡ (view self.old).reads }
        ensures ok { OnOk result ((b : List ℕ) → (view self.old).told ≡ Some b → (view self.new).told ≡ Some (overwritten b at piece.now)) };

    /// Reads all that is there from a place on, up to the buffer's length. The bytes stay as they are, also after
    /// `Failed`, when the buffer may hold any bytes.
    fn read_at(&mut self, at: u64, buf: &mut [u8]) -> Result<usize, Failed>
        ensures call { IsScratchCall (view self.old) (view self.new) result }
        ensures same { (view self.new).told ≡ (view self.old).told }
        ensures reads { (view self.new).reads ≡ counted (view self.old).reads }
        ensures count { IfOk result (λ n. n ≤ length buf.old) }
        ensures bytes { IfOk result (λ n. (b : List ℕ) → (view self.old).told ≡ Some b → take n buf.new ≡ take (length buf.old) (drop at b)) };
}
