//! What cleaning leaves as it is.

ghost use Rattle.std.specs.Prelude.{◌≡◌, ℕ, Bool, false, not, List};
ghost use Rattle.std.specs.List.{list_any};
ghost use Rattle.line_list.specs.Lines.{lines};
ghost use Rattle.patch_header.specs.Values.{is_blank};
ghost use Rattle.patch_header.specs.declared.read_options.ReadOptions.{ReadOptions};
ghost use Rattle.read_clean_text.specs.Cleaned.{cleaned, IsLineForLine};
ghost use Rattle.read_clean_text.specs.Indents.{indent_of, unindented, AreUnindented};

/// A cleaned text has the lines of the given one, one for one, so a line of it has the number that it has there.
pub fn cleaned_line_for_line()
    ensures { (ways : ReadOptions) (keeps : Bool) (text : List ℕ) → IsLineForLine (lines (cleaned ways keeps text)) (lines text) }
{}

/// So has a text without its indent, which is made of blanks and tabs alone.
pub fn unindented_line_for_line()
    ensures lines { (ways : ReadOptions) (text : List ℕ) → AreUnindented (indent_of (lines text)) (lines (unindented ways text)) (lines text) }
    ensures blanks { (text : List ℕ) → list_any (λ b. not (is_blank b)) (indent_of (lines text)) ≡ false }
{}
