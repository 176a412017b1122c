//! The context form of a patch (GNU diffutils manual, "Detailed Description of Context Format"): how hunks of two parts are read
//! and written. Stands on `hunk_core`. Begin with `specs/Grammar.antt`.
#![tactic(auto)]

mod hunks;
mod laws;
mod merging;
mod numbers;
mod opening;
mod part;
mod range;
mod showing;
mod writing;

pub use hunks::read_hunks;
pub use laws::{first_faults, grammar_laws};
pub use opening::at_opening;
pub use showing::put_shown;
pub use writing::put_hunk;
