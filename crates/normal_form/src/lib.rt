//! The normal form of a patch (GNU diffutils manual, "Detailed Description of Normal Format"): how hunks are read and written.
//! Stands on `hunk_core`. Begin with `specs/Grammar.antt`.
#![tactic(auto)]

mod command;
mod hunks;
mod stretch;
mod writing;

pub use hunks::{at_opening, first_faults, grammar_laws, read_hunks};
pub use writing::{is_in_order, put_hunk};
