//! What each filter reads; and `recountdiff`, `reversediff` and `splitdiff`, which take a text whole: counted anew, turned round,
//! or split into parts. Stands on `split_recount`, `flip_patch` and `cli_run_answers`. Begin with `src/opening.rt`, then
//! `specs/Outcomes.antt`.
#![tactic(auto)]

mod counting;
mod defaults;
mod fault;
mod flipping;
mod naming;
mod opening;
mod patterns;
mod splitting;

pub use counting::run_recount;
pub use fault::FilterFault;
pub use flipping::{run_flip, texts_turn_as_sets};
pub use opening::{open_digest, open_outline, open_text};
pub use splitting::run_split;
