//! The faults of unified hunks.
ghost use Rattle.std.specs.Prelude.{◌≡◌, ◌≢◌, ℕ, List, Err};
ghost use Rattle.hunk_core.specs.declared.BadKind.{BadKind};
ghost use Rattle.hunk_core.specs.Reading.{Fault};
ghost use Rattle.unified_form.specs.Hunks.{reading};
ghost use Rattle.law_faults.specs.NamedLines.{NamesLine};
ghost use Rattle.law_faults.specs.UnifiedFaults.{IsAtFault};

/// A fault names a line that is at fault by its own bytes: behind whole hunks, a range line that is none or states what it
/// may not, or a line of a body that hasn't its mark, that is one too many, or that is a backslash line.
pub fn unified_faults()
    ensures named { (number : ℕ) (lines : List (List ℕ)) (e : Fault) → reading number lines ≡ Err e → e.kind ≢ BadKind.ShortEnd
        → NamesLine (IsAtFault 0 e.kind) number lines e.line }
{}
