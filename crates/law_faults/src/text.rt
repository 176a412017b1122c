//! The faults of a patch text.
ghost use Rattle.std.specs.Prelude.{◌≡◌, ◌≢◌, ℕ, ◌+◌, List, length};
ghost use Rattle.line_list.specs.Lines.{lines};
ghost use Rattle.hunk_core.specs.declared.BadKind.{BadKind};
ghost use Rattle.patch_header.specs.declared.read_options.ReadOptions.{ReadOptions};
ghost use Rattle.read_patch_text.specs.Texts.{IsFaulty};
ghost use Rattle.law_faults.specs.NamedLines.{NamesLine};
ghost use Rattle.law_faults.specs.TextFaults.{IsAtFault};

/// A refused text has the named line: a binary line, or one of hunks or of a script that is at fault there. Where the text
/// ends too early the line behind its last one is named.
pub fn text_faults()
    ensures named { (ways : ReadOptions) (text : List ℕ) (line : ℕ) (kind : BadKind) → IsFaulty ways text line kind → kind ≢ BadKind.ShortEnd
        → NamesLine (IsAtFault kind) 1 (lines text) line }
    ensures short { (ways : ReadOptions) (text : List ℕ) (line : ℕ) → IsFaulty ways text line BadKind.ShortEnd → line ≡ length (lines text) + 1 }
{}
