//! How a file patch begins: its file, whether it is skipped, and from which side it is tried; then its hunks are tried, and the
//! output goes to a temporary. Stands on `name_choice`, `hunk_apply` and `apply_task`. Begin with `specs/Start.antt`, then
//! `src/starting.rt`.
#![tactic(auto)]

mod choices;
mod discard;
mod ends;
mod fill;
mod fitting;
mod indexed;
mod naming;
mod obstacles;
mod prereq_and_reversal;
mod refusing;
mod skipping;
mod starting;
mod word;

pub use ends::first_end;
pub use fill::{Attempt, try_hunks};
pub use obstacles::{Barrier, obstacle_to_backup, obstacle_to_rejects};
pub use refusing::say_barrier;
pub use skipping::fails_first;
pub use starting::{Decision, start};
