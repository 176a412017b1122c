//! Laws of the numbers of targets, and of a set while its rows and verdicts change.
ghost use Rattle.std.specs.Prelude.{◌≡◌, ◌↔◌, ◌++◌, ℕ, List, map, true};
ghost use Rattle.std.specs.List.{AllByRecursion};
ghost use Rattle.std.specs.Option.{option_to_list};
ghost use Rattle.hunk_core.specs.declared.Verdict.{Verdict};
ghost use Rattle.read_file_patch.specs.PlainPatch.{PlainPatch, row_count};
ghost use Rattle.outside.specs.Names.{is_absolute};
ghost use Rattle.patch_options.specs.PlainJob.{PlainOptions};
ghost use Rattle.read_file_patch.specs.Numbered.{is_among};
ghost use Rattle.patch_set.specs.declared.set.Row.{Row};
ghost use Rattle.patch_set.specs.Named.{known_names, patch_names, target_in};
ghost use Rattle.patch_set.specs.OneView.{AreOne};
ghost use Rattle.patch_set.specs.SetView.{SetView, IsRead, IsWhole, with_row, with_verdicts, without_marks};
ghost use Rattle.read_patch_text.specs.Spelled.{spelled_in, spelled_of};

/// Two targets of a run, the output's among them, have the same number exactly where they have the same name; of one that is
/// given by an absolute name and one that isn't, only that the same number is the same name.
pub fn numbers_tell_targets_apart()
    ensures names { (o : PlainOptions) (ps : List PlainPatch) (one other : List ℕ)
        → is_among (patch_names o ps ++ option_to_list o.output) one ≡ true
        → (target_in o (known_names o ps) one).number ≡ (target_in o (known_names o ps) other).number
        → (target_in o (known_names o ps) one).name ≡ (target_in o (known_names o ps) other).name }
    ensures numbers { (o : PlainOptions) (ps : List PlainPatch) (one other : List ℕ)
        → is_absolute one ≡ is_absolute other
        → (target_in o (known_names o ps) one).name ≡ (target_in o (known_names o ps) other).name
        → (target_in o (known_names o ps) one).number ≡ (target_in o (known_names o ps) other).number }
{}

/// What was read stays whatever is noted of the file patches and their hunks, and once the marks were handed out.
pub fn what_was_read_stays()
    ensures rows { (o : PlainOptions) (given : List ℕ) (v : SetView) (patch : ℕ) (row : Row) → IsRead o given v → IsRead o given (with_row v patch row) }
    ensures verdicts { (o : PlainOptions) (given : List ℕ) (v : SetView) (verdicts : List Verdict) → IsRead o given v → IsRead o given (with_verdicts v verdicts) }
    ensures marks { (o : PlainOptions) (given : List ℕ) (v : SetView) → IsRead o given v → IsRead o given (without_marks v) }
{}

/// A text that is read twice for the same options gives the same file patches, at the same places, with the same verdict rows and targets.
pub fn one_view()
    ensures { (o : PlainOptions) (given : List ℕ) (v w : SetView) → IsRead o given v → IsRead o given w → AreOne v w }
{}

/// The bytes of a set's file patches, those in front of their openings and those of their hunks, are told by its text and
/// by how that was read.
pub fn a_set_in_bytes()
    ensures { (v : SetView) → IsWhole v → map (spelled_of v.text) v.patches ≡ spelled_in v.ways v.text }
{}

/// A file patch of a set has no hunk exactly where its header is a bare one of git.
pub fn bare_headers_have_no_hunk()
    ensures { (v : SetView) → IsWhole v → AllByRecursion (λ p. (p.header.bare ≡ true) ↔ (row_count p.change ≡ 0)) v.patches }
{}
