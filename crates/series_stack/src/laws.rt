//! What the definitions of the stack's files come to.
ghost use Rattle.std.specs.Prelude.{◌≡◌, ◌↔◌, ◌^◌, ◌<◌, ◌≤◌, ℕ, List, take, false, None, Some};
ghost use Rattle.std.specs.List.{AllByRecursion};
ghost use Rattle.std.specs.FinMap.{get};
ghost use Rattle.outside.specs.Files.{Files, is_temp, SameLasting};
ghost use Rattle.outside.specs.Quiet.{after_all};
ghost use Rattle.series_stack.specs.Count.{count_of, count_text};
ghost use Rattle.series_stack.specs.Saves.{Entry, IsSaved, entries_of, save_text};
ghost use Rattle.series_stack.specs.Restoring.{restored, restoring, saved_at};
ghost use Rattle.series_stack.specs.Undoing.{SameBeside, entries_at};
ghost use Rattle.series_stack.specs.Taking.{AreSaved, too_long};

/// A count is read exactly where the text is its own and it isn't above the most.
pub fn counts_are_their_texts()
    ensures { (most n : ℕ) (text : List ℕ) → most < 2 ^ 32 → (count_of most text ≡ Some n) ↔ ((text ≡ count_text n) × (n ≤ most)) }
{}

/// A text is a save exactly where it is the text of entries that may be saved, and it is read as these.
pub fn saves_are_their_texts()
    ensures { (text : List ℕ) (es : List Entry) → (entries_of text ≡ Some es) ↔ ((text ≡ save_text es) × AllByRecursion IsSaved es) }
{}

/// Once a save is restored, each name that isn't temporary stands for what the save's last entry with that name holds, or
/// for what it stood for, if there is none.
pub fn restored_names_stand_as_saved()
    ensures { (es : List Entry) (f : Files) (q : List ℕ) → is_temp q ≡ false → get (restored es f) q ≡ saved_at es q (get f q) }
{}

/// A save of what some names stood for gives back the files, whatever was done at these names since, and also where a
/// restoring of it was stopped before: the files are then still the same beside these names. Temporary names aside.
pub fn saves_undo_what_was_done()
    ensures undone { (names : List (List ℕ)) (f g : Files) → SameBeside names f g → SameLasting f (restored (entries_at f names) g) }
    ensures stopped { (names : List (List ℕ)) (f g c : Files) (k : ℕ) → SameBeside names f g → SameLasting (after_all (take k (restoring (entries_at f names) g)) g) c → SameBeside names f c }
{}

/// The save of what some names stood for is read as its entries, where the names may be saved and no file is too long.
pub fn taken_saves_are_read()
    ensures { (names : List (List ℕ)) (f : Files) → AreSaved names → too_long (entries_at f names) ≡ None → entries_of (save_text (entries_at f names)) ≡ Some (entries_at f names) }
{}
