//! How a set turned round reads.
ghost use Rattle.std.specs.Prelude.{◌≡◌, None, Ok};
ghost use Rattle.std.specs.List.{AllByRecursion};
ghost use Rattle.patch_set.specs.SetView.{SetView, IsWhole, plain_patches};
ghost use Rattle.flip_patch.specs.Flipped.{flipped};
ghost use Rattle.flip_patch.specs.Refusals.{refused};
ghost use Rattle.law_reading.specs.Joins.{read_unnumbered};
ghost use Rattle.law_reading.specs.AsShown.{AreShown};
ghost use Rattle.law_reading.specs.TurnedPatches.{turned_patches};

/// What is written of a set that isn't refused reads as its file patches from the last to the first, each turned round, line
/// numbers aside. It is read in the ways in which the set was read. In the context and in the normal form a hunk then has its
/// dropped lines first between two kept ones, with the same lines on each side; in the unified form nothing is reordered.
pub fn flip_reads()
    ensures read { (v : SetView) → IsWhole v → refused (plain_patches v) ≡ None → read_unnumbered v.ways (flipped v) ≡ Ok (turned_patches v) }
    ensures shown { (v : SetView) → IsWhole v → AllByRecursion (λ p. AreShown p.header.form p.change) (plain_patches v) }
{}
