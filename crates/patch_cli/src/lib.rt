//! All that `patch` does with its words, over any tree, scratch, source and sinks. Stands on `patch_run`, `read_clean_text` and
//! `cli_run_answers`. Begin with `src/cli.rt` (`run`), then `specs/Command.antt`.
#![tactic(auto)]

mod cli;
mod damaged;
mod laws;
mod opening;
mod returns;

pub use cli::run;
pub use cli_run_answers::Why;
pub use laws::command_laws;
pub use patch_run::{Applied, Exit};
