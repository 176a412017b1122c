//! A source of bytes.
ghost use Rattle.std.specs.Prelude.{◌≡◌, ◌<◌, ◌≤◌, [], ℕ, List, length, take, drop, Some, IfOk, OnErr};
ghost use Rattle.outside.specs.SourceView.{SourceView, IsSourceCall};

use crate::Failed;

pub trait Source {
    /// What it tells.
    ghost view: { Self → SourceView };

    /// Takes the next bytes, up to the buffer's length, and answers how many; 0 for a buffer that isn't empty says
    /// that nothing is left. After `Failed` nothing was taken, and the buffer may hold any bytes.
    fn read(&mut self, buf: &mut [u8]) -> Result<usize, Failed>
        ensures call { IsSourceCall (view self.old) (view self.new) result }
        ensures count { IfOk result (λ n. n ≤ length buf.old) }
        ensures bytes { IfOk result (λ n. (left : List ℕ) → (view self.old).told ≡ Some left → (n ≤ length left) × (take n buf.new ≡ take n left)) }
        ensures left { IfOk result (λ n. (left : List ℕ) → (view self.old).told ≡ Some left → (view self.new).told ≡ Some (drop n left)) }
        ensures end { IfOk result (λ n. n ≡ 0 → 0 < length buf.old → (left : List ℕ) → (view self.old).told ≡ Some left → left ≡ []) }
        ensures failed { OnErr result ((view self.new).told ≡ (view self.old).told) };
}
