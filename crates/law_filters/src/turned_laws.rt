//! What a file patch undoes that is turned round.
ghost use Rattle.std.specs.Prelude.{◌≡◌, ℕ, List, map, false};
ghost use Rattle.std.specs.List.{flat_map};
ghost use Rattle.line_list.specs.Lines.{lines};
ghost use Rattle.line_list.specs.Join.{join};
ghost use Rattle.hunk_core.specs.PlainHunk.{PlainHunk};
ghost use Rattle.hunk_core.specs.Turned.{swapped};
ghost use Rattle.hunk_apply.specs.Applied.{applied};
ghost use Rattle.hunk_apply.specs.Splice.{spliced};
ghost use Rattle.law_filters.specs.Turnable.{ArePlacedExactly, AreTurnable, HaveLines, edits_in};

/// Hunks that are placed in some lines without fuzz and offsets, each behind the old lines of the one before it, undo
/// themselves: turned round they are placed in what was made of the lines, again without fuzz and offsets, and give the
/// lines back. Where joining added no line feed, the text that was written gives back the text that was read.
pub fn flip_laws()
    ensures placed { (ls : List (List ℕ)) (fuzz most : ℕ) (hs : List PlainHunk) → ArePlacedExactly ls fuzz hs → AreTurnable hs
        → ArePlacedExactly (spliced ls (edits_in ls fuzz hs)) most (map swapped hs) }
    ensures undone { (ls : List (List ℕ)) (fuzz most : ℕ) (hs : List PlainHunk) → ArePlacedExactly ls fuzz hs → AreTurnable hs
        → spliced (spliced ls (edits_in ls fuzz hs)) (edits_in (spliced ls (edits_in ls fuzz hs)) most (map swapped hs)) ≡ ls }
    ensures read { (text : List ℕ) (fuzz most : ℕ) (hs : List PlainHunk) → ArePlacedExactly (lines text) fuzz hs → AreTurnable hs → HaveLines hs
        → join (spliced (lines text) (edits_in (lines text) fuzz hs)) ≡ flat_map (λ line. line) (spliced (lines text) (edits_in (lines text) fuzz hs))
        → lines (applied (lines text) fuzz false hs) ≡ spliced (lines text) (edits_in (lines text) fuzz hs) }
    ensures text { (text : List ℕ) (fuzz most : ℕ) (hs : List PlainHunk) → ArePlacedExactly (lines text) fuzz hs → AreTurnable hs → HaveLines hs
        → join (spliced (lines text) (edits_in (lines text) fuzz hs)) ≡ flat_map (λ line. line) (spliced (lines text) (edits_in (lines text) fuzz hs))
        → applied (lines (applied (lines text) fuzz false hs)) most false (map swapped hs) ≡ text }
{}
