//! What makes a fault the first one, and the tests of the grammar in words.

ghost use Rattle.std.specs.Prelude.{◌≡◌, ◌≢◌, ◌↔◌, ◌⊎◌, false, replicate, ℕ, List, ◌∷◌, ◌++◌, Err, true, ◌+◌, ◌<◌, ◌≤◌, length};
ghost use Rattle.hunk_core.specs.PlainHunk.{Marked, PlainHunk};
ghost use Rattle.hunk_core.specs.Reading.{Fault};
ghost use Rattle.context_form.specs.Openings.{begins_hunk};
ghost use Rattle.context_form.specs.Merging.{kept_count, part_of};
ghost use Rattle.num_text.specs.Numbers.{is_digit};
ghost use Rattle.hunk_core.specs.declared.Side.{Side};
ghost use Rattle.context_form.specs.Grammar.{AreBlanks, IsPiece, SpellsHunk, stated_as, written};
ghost use Rattle.context_form.specs.FirstFault.{decided_by};
ghost use Rattle.hunk_core.specs.FirstFault.{AgreeTo};
ghost use Rattle.context_form.specs.Hunks.{reading};
ghost use Rattle.context_form.specs.Presence.{Begins, BeginsChange, is_there};

use hunk_core::BadKind;

/// What makes a fault the first one. A fault in the lines of the parts is decided by its own line, or
/// by the one behind it, and one of two whole parts by the line behind them.
pub fn first_faults()
    // It stays whatever lines come after the one that decides it, unless the text ends too early.
    ensures stays { (number : ℕ) (lines others : List (List ℕ)) (e : Fault) → reading number lines ≡ Err e → e.kind ≢ BadKind.ShortEnd
        → AgreeTo (decided_by number lines) number lines others → reading number others ≡ Err e }
    // No lines that are the same up to there are spelled.
    ensures unspelled { (number : ℕ) (lines others : List (List ℕ)) (e : Fault) (hs : List PlainHunk) (next : ℕ) (rest : List (List ℕ))
        → reading number lines ≡ Err e → e.kind ≢ BadKind.ShortEnd → AgreeTo (decided_by number lines) number lines others → IsPiece number others hs next rest → ⊥ }
    // Only three kinds can be decided later than by their own line.
    ensures own { (number : ℕ) (lines : List (List ℕ)) (e : Fault) → reading number lines ≡ Err e
        → e.kind ≢ BadKind.Count → e.kind ≢ BadKind.NumberTooLarge → e.kind ≢ BadKind.SidesDiffer → decided_by number lines ≡ e.line }
    // A text that ends too early is at fault one line after its last.
    ensures short { (number : ℕ) (lines : List (List ℕ)) (e : Fault) → reading number lines ≡ Err e → e.kind ≡ BadKind.ShortEnd → e.line ≡ number + length lines }
    // No fault is decided before the end of lines that hunks begin with.
    ensures late { (number : ℕ) (front behind others : List (List ℕ)) (e : Fault) (hs : List PlainHunk) (next : ℕ) (rest : List (List ℕ))
        → IsPiece number (front ++ others) hs next rest → reading number (front ++ behind) ≡ Err e → number + length front ≤ decided_by number (front ++ behind) }
{}

/// The tests of the grammar, in the words of the diffutils manual.
pub fn grammar_laws()
    // 15 asterisks, and behind their line '*** ', blanks if there are any, and a digit.
    ensures opening { (lines : List (List ℕ)) → begins_hunk lines ≡ true
        ↔ ((bytes : List ℕ) × (blanks : List ℕ) × (d : ℕ) × (more : List ℕ) × (rest : List (List ℕ))
        × (lines ≡ (replicate 15 42 ++ bytes) ∷ (42 ∷ 42 ∷ 42 ∷ 32 ∷ (blanks ++ d ∷ more)) ∷ rest) × AreBlanks blanks × (is_digit d ≡ true)) }
    // A new part that lost no blank is left out for 0.
    ensures zero { (olds : List Marked) (rest : List (List ℕ)) → is_there (stated_as true 0 0) olds rest ≡ false }
    // Behind one number, and an old part that is there and keeps no line, it is there where '+ ' or '! ' follows.
    ensures alone { (start n : ℕ) (olds : List Marked) (rest : List (List ℕ)) → 0 < start → 0 < length olds → kept_count olds ≡ 0
        → is_there (stated_as true start n) olds rest ≡ true ↔ BeginsChange rest }
    // Behind another old part, or two numbers, it is there where two spaces follow too.
    ensures other { (start n : ℕ) (olds : List Marked) (rest : List (List ℕ)) → 0 < start → (length olds ≡ 0) ⊎ (0 < kept_count olds)
        → is_there (stated_as true start n) olds rest ≡ true ↔ (Begins 32 rest ⊎ BeginsChange rest) }
    ensures two { (start n : ℕ) (olds : List Marked) (rest : List (List ℕ)) → is_there (stated_as false start n) olds rest ≡ true ↔ (Begins 32 rest ⊎ BeginsChange rest) }
{}
