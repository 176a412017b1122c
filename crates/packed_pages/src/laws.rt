//! What the definition of packed pages says, in words of its own.

ghost use Rattle.std.specs.Prelude.{◌≡◌, ◌≤◌, ◌+◌, ℕ, List};
ghost use Rattle.page_pair.specs.Records.{longest};
ghost use Rattle.packed_pages.specs.Packs.{pages_of, joined};
ghost use Rattle.packed_pages.specs.Packing.{ArePacked};

/// The pages hold the lines in their order. Where a page can hold the longest line, each has a line and holds as many of
/// the next ones as fit it.
pub fn packing_laws()
    ensures order { (size : ℕ) (ls : List (List ℕ)) → joined (pages_of size ls) ≡ ls }
    ensures packed { (size : ℕ) (ls : List (List ℕ)) → 4 + longest ls ≤ size → ArePacked size (pages_of size ls) }
{}
