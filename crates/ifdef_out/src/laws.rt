//! What the written lines are.

ghost use Rattle.std.specs.Prelude.{◌≡◌, ◌^◌, ℕ, List, map, Bool, false, true};
ghost use Rattle.std.specs.List.{AllByRecursion};
ghost use Rattle.hunk_core.specs.declared.Side.{Side};
ghost use Rattle.hunk_core.specs.PlainHunk.{PlainHunk};
ghost use Rattle.ed_form.specs.PlainEdit.{PlainEdit, AreLawful};
ghost use Rattle.read_file_patch.specs.PlainPatch.{hunks, script};
ghost use Rattle.hunk_apply.specs.Change.{change_output};
ghost use Rattle.hunk_apply.specs.Splice.{Edit, spliced};
ghost use Rattle.ifdef_out.specs.Reading.{fed, new_text, reader_gets, IsPlain};
ghost use Rattle.ifdef_out.specs.Tagged.{new_of, old_of, tagged};
ghost use Rattle.patch_options.specs.Forms.{is_macro_name};

/// The old lines are the file's, and the new ones those of the file with the edits made; these join to what applying
/// the hunks, or carrying out the script, gives.
pub fn both_files_are_kept()
    ensures old { (name : List ℕ) → (lines : List (List ℕ)) → (es : List Edit) → old_of (tagged name lines es) ≡ lines }
    ensures new { (name : List ℕ) → (lines : List (List ℕ)) → (es : List Edit) → new_of (tagged name lines es) ≡ spliced lines es }
    ensures applied { (name : List ℕ) → (lines : List (List ℕ)) → (fuzz : ℕ) → (loose : Bool) → (side : Side) → (hs : List PlainHunk) → new_text name lines fuzz loose side (hunks hs) ≡ change_output lines fuzz loose side (hunks hs) }
    ensures carried_out { (name : List ℕ) → (lines : List (List ℕ)) → (fuzz : ℕ) → (loose : Bool) → (side : Side) → (es : List PlainEdit) → AreLawful (2 ^ 32) es → new_text name lines fuzz loose side (script es) ≡ change_output lines fuzz loose side (script es) }
{}

/// A reader of the completed text who takes the branch of an undefined name gets the file's lines, and one who takes that
/// of a defined name the lines of the file with the edits made, each with its line feed; where no line of either is one
/// of the four marking lines.
pub fn readers_get_both_files()
    ensures undefined { (name : List ℕ) → (lines : List (List ℕ)) → (es : List Edit) → is_macro_name name ≡ true → AllByRecursion (IsPlain name) lines → AllByRecursion (IsPlain name) (spliced lines es) → reader_gets name false lines es ≡ map fed lines }
    ensures defined { (name : List ℕ) → (lines : List (List ℕ)) → (es : List Edit) → is_macro_name name ≡ true → AllByRecursion (IsPlain name) lines → AllByRecursion (IsPlain name) (spliced lines es) → reader_gets name true lines es ≡ map fed (spliced lines es) }
{}
