//! What the definitions of a choice say, in words of their own.
ghost use Rattle.std.specs.Prelude.{◌≡◌, ℕ, ◌+◌, List, ◌∷◌, ◌++◌, Bool, true, None, Some, ◌↔◌};
ghost use Rattle.outside.specs.Files.{Files, HasFileBelow};
ghost use Rattle.name_choice.specs.Better.{best_among, is_better, IsBest, IsNone};
ghost use Rattle.name_choice.specs.Choice.{has_file_below, new_directories, new_in_front, new_behind};

/// The best of the admitted names is one of them, none of them is better, and each of those in front
/// of it is worse. It is missing only where no name is admitted. A directory in front of all names
/// leaves the better of two the same, and adds as many new directories to each.
pub fn choice_laws()
    ensures best { (admits : List ℕ → Bool) (names : List (List ℕ)) (k : ℕ) → (best_among admits names ≡ Some k) ↔ IsBest admits names k }
    ensures none { (admits : List ℕ → Bool) (names : List (List ℕ)) → (best_among admits names ≡ None) ↔ IsNone admits names }
    ensures front { (directory a b : List ℕ) → is_better (directory ++ 47 ∷ a) (directory ++ 47 ∷ b) ≡ is_better a b }
    ensures directories { (files : Files) (directory name : List ℕ)
        → new_directories files (directory ++ 47 ∷ name) ≡ new_in_front files directory + new_behind files directory name }
    ensures below { (files : Files) (directory : List ℕ) → (has_file_below files directory ≡ true) ↔ HasFileBelow files directory }
{}
