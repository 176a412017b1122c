//! The faults of ed scripts.
ghost use Rattle.std.specs.Prelude.{◌≡◌, ◌^◌, ℕ, List, Err};
ghost use Rattle.hunk_core.specs.Reading.{Fault};
ghost use Rattle.ed_form.specs.Scripts.{reading};
ghost use Rattle.law_faults.specs.NamedLines.{NamesLine};
ghost use Rattle.law_faults.specs.EdFaults.{IsAtFault};

/// A fault names a line behind whole edits: a command that is none or out of order, or whose text has no end, or a substitution.
pub fn ed_faults()
    ensures named { (number : ℕ) (lines : List (List ℕ)) (e : Fault) → reading number lines ≡ Err e → NamesLine (IsAtFault (2 ^ 32) e.kind) number lines e.line }
{}
