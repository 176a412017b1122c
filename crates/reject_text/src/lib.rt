//! The text of a reject file, of a file patch or of one of a set: the hunks that have no place, in the unified or the context form.
//! Stands on the writers of both forms. Begin with `specs/Rejects.antt`.
#![tactic(auto)]

mod header;
mod moving;
mod rejects;
mod set;

pub use moving::{nets_laws, placed_growth};
pub use rejects::put_reject;
pub use set::put_rejects;
