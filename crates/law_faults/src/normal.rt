//! The faults of normal hunks.
ghost use Rattle.std.specs.Prelude.{◌≡◌, ◌≢◌, ℕ, List, Err};
ghost use Rattle.hunk_core.specs.declared.BadKind.{BadKind};
ghost use Rattle.hunk_core.specs.Reading.{Fault};
ghost use Rattle.normal_form.specs.Hunks.{reading};
ghost use Rattle.law_faults.specs.NamedLines.{NamesLine};
ghost use Rattle.law_faults.specs.NormalFaults.{IsAtFault};

/// A fault names a line that is at fault by its own bytes: behind whole hunks, a command that states what it may not, or
/// behind a command and lines of it a line that lacks the mark which must stand there, or is a backslash line.
pub fn normal_faults()
    ensures named { (number : ℕ) (lines : List (List ℕ)) (e : Fault) → reading number lines ≡ Err e → e.kind ≢ BadKind.ShortEnd
        → NamesLine (IsAtFault 0 e.kind) number lines e.line }
{}
