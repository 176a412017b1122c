//! What one run of `patch` does with the file patches of a set, with the plan that the options name, and what it comes to, for
//! every tool that applies a patch. Stands on `apply_start`, `apply_outcome` and the plans. Begin with `src/set.rt`, then
//! `specs/Run.antt`.
#![tactic(auto)]

mod applied;
mod exit;
mod laws;
mod one_patch;
mod plans;
mod refusing;
mod set;
mod trying;

pub use applied::Applied;
pub use exit::{Exit, exit_of};
pub use laws::{effect_laws, name_laws, run_laws};
pub use plans::apply;
pub use set::apply_set;
