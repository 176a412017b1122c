//! The faults of context hunks.
ghost use Rattle.std.specs.Prelude.{◌≡◌, ◌≢◌, ℕ, List, Err};
ghost use Rattle.hunk_core.specs.declared.BadKind.{BadKind};
ghost use Rattle.hunk_core.specs.Reading.{Fault};
ghost use Rattle.context_form.specs.Hunks.{reading};
ghost use Rattle.law_faults.specs.NamedLines.{NamesLine};
ghost use Rattle.law_faults.specs.ContextFaults.{IsAtFault};

/// A fault names a line behind whole hunks: a range line that is none or states what it may not, or a line of a part that
/// lacks its mark or is a backslash line. Of lines that are too many or too few, and of parts that differ, its own bytes don't tell.
pub fn context_faults()
    ensures named { (number : ℕ) (lines : List (List ℕ)) (e : Fault) → reading number lines ≡ Err e → e.kind ≢ BadKind.ShortEnd
        → NamesLine (IsAtFault 0 e.kind) number lines e.line }
{}
