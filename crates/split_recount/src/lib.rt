//! Unified hunks whose counts aren't trusted, written with the true ones; and a text cut between its file patches. Stands on
//! `unified_form` and `patch_header`. Begin with `specs/Recounted.antt`, then `specs/Parts.antt`.
#![tactic(auto)]

ghost use Rattle.std.specs.Prelude.{◌≡◌, ◌↔◌, ℕ, List, None, option_map};
ghost use Rattle.hunk_core.specs.PlainHunk.{Marked};
ghost use Rattle.unified_form.specs.Ranges.{range_line};
ghost use Rattle.unified_form.specs.Grammar.{SpellsBody};
ghost use Rattle.split_recount.specs.Bodies.{body_of, misplaced};
ghost use Rattle.split_recount.specs.RangeLines.{range_parts};

mod body;
mod parts;
mod ranges;
mod recounting;
mod starts;

pub use parts::{part_laws, split_parts};
pub use recounting::recount;

/// What is believed of a range line is what the reader of unified hunks reads there.
pub fn ranges_are_as_read()
    ensures { (line : List ℕ) → option_map (λ p. p.0) (range_parts line) ≡ range_line line }
{}

/// No backslash line of a body is misplaced exactly where the grammar of unified hunks spells it.
pub fn bodies_are_as_spelled()
    ensures { (number : ℕ) (ls : List (List ℕ)) → misplaced None number (body_of ls) ≡ None ↔ ((body : List Marked) × SpellsBody (body_of ls) body) }
{}
