//! All that `patchgen` does with its words, over any tree, scratch and sink: the made files are put, and the made patch is applied
//! to them. Stands on `patch_gen` and `patch_run`. Begin with `src/running.rt`, then `specs/Command.antt`.
#![tactic(auto)]

mod carrying;
mod laws;
mod options;
mod places;
mod putting;
mod reading;
mod ready;
mod running;
mod tally;
mod telling;

pub use laws::gen_laws;
pub use running::{run_gen, run_words};
