//! The law of clean joins.
ghost use Rattle.std.specs.Prelude.{◌≡◌, ◌↔◌, ℕ, List, [], map, Ok};
ghost use Rattle.line_list.specs.Lines.{lines};
ghost use Rattle.read_file_patch.specs.PlainPatch.{PlainPatch};
ghost use Rattle.patch_header.specs.declared.read_options.ReadOptions.{ReadOptions};
ghost use Rattle.read_patch_text.specs.Patches.{patches_of};
ghost use Rattle.read_patch_text.specs.Texts.{HasPatches};
ghost use Rattle.law_reading.specs.Following.{IsFilePatch, AreFilePatches};
ghost use Rattle.law_reading.specs.Joins.{Part, JoinCleanly, FitTogether, all_lines, read_unnumbered};

/// A text is read as exactly the file patches that it has by the grammars. Line numbers set aside, these are told by its
/// lines alone, wherever they stand. Lines that are a file patch where they stand alone are the same one in front of others
/// that join it cleanly; so parts that fit together are read as their file patches.
pub fn join_laws()
    ensures stands { (ways : ReadOptions) (text : List ℕ) (ps : List PlainPatch) → (patches_of ways text ≡ Ok ps) ↔ HasPatches ways text ps }
    ensures read { (ways : ReadOptions) (text : List ℕ) (ps : List PlainPatch) → (read_unnumbered ways text ≡ Ok ps) ↔ AreFilePatches ways (lines text) ps }
    ensures joined { (ways : ReadOptions) (own others : List (List ℕ)) (p : PlainPatch) → IsFilePatch ways own [] p → JoinCleanly ways own others p → IsFilePatch ways own others p }
    ensures parts { (ways : ReadOptions) (text : List ℕ) (parts : List Part) → lines text ≡ all_lines parts → FitTogether ways parts → read_unnumbered ways text ≡ Ok (map (λ p. p.patch) parts) }
{}
