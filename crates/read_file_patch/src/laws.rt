//! Laws of stripping, of names below a directory, and of numbering.
ghost use Rattle.std.specs.Prelude.{◌≡◌, ◌↔◌, ◌<◌, ◌++◌, ◌∷◌, [], ℕ, List, Option, Some, length, true, false};
ghost use Rattle.read_file_patch.specs.Stripped.{behind_slashes, IsStripped};
ghost use Rattle.std.specs.List.{AllByRecursion};
ghost use Rattle.read_header_record.specs.Quoted.{IsNameByte, begins_quoted, quoted};
ghost use Rattle.read_file_patch.specs.Candidates.{candidate, header_candidate, left_name};
ghost use Rattle.patch_options.specs.PlainJob.{PlainOptions};
ghost use Rattle.outside.specs.Names.{is_absolute};
ghost use Rattle.read_file_patch.specs.Targets.{below};
ghost use Rattle.read_file_patch.specs.Numbered.{number_in, is_among, with_name, joined_by, distinct, numbered};

/// What stands behind so many slashes is what is left of a text whose front holds them all and ends with the last.
pub fn stripped_fronts_hold_the_slashes()
    ensures { (n : ℕ) (text left : List ℕ) → (behind_slashes n text ≡ Some left) ↔ IsStripped n text left }
{}

/// A name in quotes, as git writes it, is the name that it is without them, but for one that begins with a quote itself.
pub fn quoted_names_are_the_same()
    ensures header { (strip : Option ℕ) (name : List ℕ) → AllByRecursion IsNameByte name → begins_quoted name ≡ false → header_candidate strip (quoted name) ≡ header_candidate strip name }
    ensures other { (strip : Option ℕ) (name : List ℕ) → AllByRecursion IsNameByte name → candidate strip (quoted name) ≡ left_name strip name }
{}

/// Each name has a number below their count, equal numbers are those of equal names, a name keeps its number when
/// others join, and a new name has the count of those before it.
pub fn numbers_tell_names_apart()
    ensures below { (names : List (List ℕ)) (name : List ℕ) → is_among names name ≡ true → number_in names name < length names }
    ensures apart { (names : List (List ℕ)) (one other : List ℕ) → is_among names one ≡ true → number_in names one ≡ number_in names other → one ≡ other }
    ensures stays { (names others : List (List ℕ)) (name : List ℕ) → is_among names name ≡ true → number_in (joined_by names others) name ≡ number_in names name }
    ensures next { (names : List (List ℕ)) (name : List ℕ) → is_among names name ≡ false → number_in (with_name names name) name ≡ length names }
    ensures all { (names others : List (List ℕ)) (name : List ℕ) → is_among others name ≡ true → is_among (joined_by names others) name ≡ true }
{}

/// Where names are numbered one after another, the distinct names and all numbers are those of the names so far.
pub fn numbers_come_in_order()
    ensures names { (names : List (List ℕ)) (name : List ℕ) → distinct (names ++ name ∷ []) ≡ with_name (distinct names) name }
    ensures numbers { (names : List (List ℕ)) (name : List ℕ) → numbered (names ++ name ∷ []) ≡ numbered names ++ number_in (distinct (names ++ name ∷ [])) name ∷ [] }
{}

/// Names that are the same below a directory are the same, where both are absolute or neither is.
pub fn targets_tell_names_apart()
    ensures { (o : PlainOptions) (one other : List ℕ) → is_absolute one ≡ is_absolute other → below o.dir one ≡ below o.dir other → one ≡ other }
{}
