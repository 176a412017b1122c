//! What an order is, whatever is asked.

ghost use Rattle.std.specs.Prelude.{ℕ, Bool, List, length};
ghost use Rattle.std.specs.List.{range_with_len};
ghost use Rattle.std.specs.List.Sorted.{IsPermutation};
ghost use Rattle.read_git_order.specs.declared.pieces.Piece.{Piece};
ghost use Rattle.read_git_order.specs.Batches.{in_order};

/// An order has each file patch of the text once: none is lost, and none comes twice.
pub fn orders_are_whole()
    ensures { (text : List ℕ) (reverse : Bool) (ps : List Piece) → IsPermutation (range_with_len 0 (length ps)) (in_order text reverse ps) }
{}
