//! The order in which the file patches of a git diff are carried out: who renames or copies a file comes before whoever changes it,
//! as git means it. Stands on `patch_set`. Begin with `specs/Ordered.antt`.
#![tactic(auto)]

mod batches;
mod laws;
mod laying;
mod pieces;
mod reading;
mod waiting;

pub use laws::orders_are_whole;
pub use reading::read_in_order;
