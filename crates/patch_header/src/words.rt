//! What the definitions of lines, names and words come to, in the words of the manuals.

ghost use Rattle.std.specs.Prelude.{◌≡◌, ◌↔◌, ◌⊎◌, ℕ, List, [], ◌∷◌, ◌++◌, ◌==◌, ◌||◌, ◌+◌, length, true, false, not, Some, None, codes};
ghost use Rattle.std.specs.List.{list_any, AllByRecursion};
ghost use Rattle.read_header_record.specs.Quoted.{begins_quoted, quoted_length};
ghost use Rattle.hunk_core.specs.LineTests.{ends_line};
ghost use Rattle.patch_header.specs.Content.{content, is_binary, is_dot};
ghost use Rattle.patch_header.specs.Region.{Row, tail_of, last_tail};
ghost use Rattle.patch_header.specs.Values.{is_blank, is_white, unblanked, bare_length, name_length, index_length, word_length};
ghost use Rattle.unified_form.specs.Hunks.{begins_hunk};
ghost use Rattle.patch_header.specs.NamesFit.{old_fits, new_fits, tells, fits};
ghost use Rattle.patch_header.specs.GitHeaders.{starts, is_git_line, is_index_line, is_extended, extended_run, behind_run, has_line, action_of, begins_range, leads, begins_bare};
ghost use Rattle.patch_header.specs.GitRows.{led_rows, are_alike, has_halves};
ghost use Rattle.patch_header.specs.declared.region.Tail.{Tail};

use read_header_record::Action;

/// Lines that are told by all of them.
pub fn whole_lines_laws()
    // The content of a line is what stands in front of its line feed, or all of it.
    ensures feed { (front : List ℕ) → content (front ++ 10 ∷ []) ≡ front }
    ensures no_feed { (line : List ℕ) → ends_line line ≡ false → content line ≡ line }
    ensures binary { (line : List ℕ) → is_binary line ≡ true ↔ ((content line ≡ codes "GIT binary patch")
        ⊎ (((rest : List ℕ) × (content line ≡ codes "Binary files " ++ rest)) × ((front : List ℕ) × (content line ≡ front ++ codes " differ")))) }
    ensures dot { (line : List ℕ) → is_dot line ≡ true ↔ content line ≡ codes "." }
{}

/// The last line of a kind, and what it says.
pub fn header_lines_laws()
    // The last line that begins with the mark counts, and other lines don't.
    ensures nothing { (mark : List ℕ) → last_tail mark [] ≡ None }
    ensures last { (mark rest : List ℕ) (rs : List Row) (r : Row) → content r.line ≡ mark ++ rest
        → last_tail mark (rs ++ r ∷ []) ≡ Some (record { number = r.number; start = r.start + length mark; end = r.start + length (mark ++ rest) }) }
    ensures other { (mark : List ℕ) (rs : List Row) (r : Row) → ((rest : List ℕ) → ¬ (content r.line ≡ mark ++ rest))
        → last_tail mark (rs ++ r ∷ []) ≡ last_tail mark rs }
    // Blanks in front are skipped.
    ensures blanks { (front rest : List ℕ) (b : ℕ) → list_any (λ x. not (is_blank x)) front ≡ false → is_blank b ≡ false → unblanked (front ++ b ∷ rest) ≡ b ∷ rest }
    ensures all_blanks { (front : List ℕ) → list_any (λ x. not (is_blank x)) front ≡ false → unblanked front ≡ [] }
    // A name in quotes ends with them; any other one is as long as it is without quotes.
    ensures quoted { (bytes : List ℕ) (n : ℕ) → quoted_length bytes ≡ Some n → (name_length bytes ≡ n) × (index_length bytes ≡ n) }
    ensures bare { (bytes : List ℕ) → begins_quoted bytes ≡ false → name_length bytes ≡ bare_length bytes }
    // In an `Index:` line that goes up to the first tab, or to the end.
    ensures index_tab { (name rest : List ℕ) → begins_quoted (name ++ 9 ∷ rest) ≡ false → list_any (λ b. b == 9) name ≡ false → index_length (name ++ 9 ∷ rest) ≡ length name }
    ensures index { (name : List ℕ) → begins_quoted name ≡ false → list_any (λ b. b == 9) name ≡ false → index_length name ≡ length name }
    // In other lines it ends at the first tab; where there is none, at the first space; else at the end.
    ensures tab { (name rest : List ℕ) → list_any (λ b. b == 9) name ≡ false → bare_length (name ++ 9 ∷ rest) ≡ length name }
    ensures space { (name rest : List ℕ) → list_any (λ b. b == 9) (name ++ 32 ∷ rest) ≡ false → list_any (λ b. b == 32) name ≡ false
        → bare_length (name ++ 32 ∷ rest) ≡ length name }
    ensures whole { (name : List ℕ) → list_any (λ b. b == 9) name ≡ false → list_any (λ b. b == 32) name ≡ false → bare_length name ≡ length name }
    // A word ends at the first white space, or at the end.
    ensures white { (word rest : List ℕ) (b : ℕ) → list_any is_white word ≡ false → is_white b ≡ true → word_length (word ++ b ∷ rest) ≡ length word }
    ensures word { (word : List ℕ) → list_any is_white word ≡ false → word_length word ≡ length word }
{}

/// What a git header says, and which lines it has.
pub fn git_headers_laws()
    // A line begins so where these bytes stand in front.
    ensures starts { (mark line : List ℕ) → starts mark line ≡ true ↔ ((rest : List ℕ) × (content line ≡ mark ++ rest)) }
    // The extended lines go up to the first line that is none.
    ensures run { (xs : List (List ℕ)) (line : List ℕ) (rest : List (List ℕ)) → AllByRecursion (λ l. is_extended l ≡ true) xs → is_extended line ≡ false
        → (extended_run (xs ++ line ∷ rest) ≡ xs) × (behind_run (xs ++ line ∷ rest) ≡ line ∷ rest) }
    ensures all { (xs : List (List ℕ)) → AllByRecursion (λ l. is_extended l ≡ true) xs → (extended_run xs ≡ xs) × (behind_run xs ≡ []) }
    // A file is new exactly where some line says so, and deleted exactly where some line does and none that it is new.
    ensures new { (ls : List (List ℕ)) → action_of ls ≡ Action.New ↔ has_line (codes "new file mode ") ls ≡ true }
    ensures deleted { (ls : List (List ℕ)) → action_of ls ≡ Action.Deleted ↔ ((has_line (codes "new file mode ") ls ≡ false) × (has_line (codes "deleted file mode ") ls ≡ true)) }
    // A rename has both lines, and so has a copy.
    ensures rename { (ls : List (List ℕ)) → action_of ls ≡ Action.Rename → (has_line (codes "rename from ") ls ≡ true) × (has_line (codes "rename to ") ls ≡ true) }
    ensures copy { (ls : List (List ℕ)) → action_of ls ≡ Action.Copy → (has_line (codes "copy from ") ls ≡ true) × (has_line (codes "copy to ") ls ≡ true) }
    // A git header that tells both modes is bare, where it leads nothing.
    ensures modes { (git : List ℕ) (rest : List (List ℕ)) → is_git_line git ≡ true → leads (extended_run rest) (behind_run rest) ≡ false → has_line (codes "old mode ") (extended_run rest) ≡ true → has_line (codes "new mode ") (extended_run rest) ≡ true
        → begins_bare (git ∷ rest) ≡ true }
    // It leads no hunk behind a line of the old name with another name than it gives, nor behind such a line of the new name.
    ensures old_apart { (old : List ℕ) (run rest : List (List ℕ)) → begins_range (old ∷ rest) ≡ false → old_fits run old ≡ false → leads run (old ∷ rest) ≡ false }
    ensures new_apart { (old new : List ℕ) (run rest : List (List ℕ)) → begins_range (old ∷ new ∷ rest) ≡ false → new_fits run new ≡ false → leads run (old ∷ new ∷ rest) ≡ false }
    // Where its extended lines give no name to a side, each name fits, and `/dev/null` always does.
    ensures unnamed { (one two name : List ℕ) (run : List (List ℕ)) → list_any (tells one two) run ≡ false → fits one two run name ≡ true }
    ensures no_file { (one two : List ℕ) (run : List (List ℕ)) → fits one two run (codes "/dev/null") ≡ true }
    // The range line of a hunk begins as one, so a git header that leads a hunk is never bare, and none is before a damaged one.
    ensures range { (rest : List (List ℕ)) → begins_hunk rest ≡ true → begins_range rest ≡ true }
    ensures leading { (git : List ℕ) (rest : List (List ℕ)) → leads (extended_run rest) (behind_run rest) ≡ true → begins_bare (git ∷ rest) ≡ false }
    // One whose extended lines are all of contents is ordinary text.
    ensures contents { (git : List ℕ) (rest : List (List ℕ)) → AllByRecursion (λ l. is_index_line l ≡ true) (extended_run rest) → begins_bare (git ∷ rest) ≡ false }
    // A git header leads an opening where a line of each name, and nothing else, stands between.
    ensures led { (front gs : List Row) (git old new : Row) → is_git_line git.line ≡ true → AllByRecursion (λ r. (is_git_line r.line ≡ false) × (is_extended r.line ≡ true)) gs
        → starts (codes "--- ") old.line ≡ true → starts (codes "+++ ") new.line ≡ true → led_rows (front ++ git ∷ (gs ++ old ∷ new ∷ [])) ≡ gs }
    // The names of a bare header are the halves beside the middle byte of its git line.
    ensures halves { (old new : List ℕ) → length old ≡ length new → are_alike old new ≡ true → has_halves (old ++ 32 ∷ new) ≡ true }
{}
