//! What is said and written of a file patch whose hunks were tried: its target, backups and rejects. Stands on `apply_task`,
//! `say_text` and `reject_text`. Begin with `specs/Outcome.antt`, then `src/effects.rt`.
#![tactic(auto)]

mod context;
mod effects;
mod past;
mod rejects;
mod saying;
mod written;

pub use context::FilePatchContext;
pub use effects::{is_mismatch_kept, is_rejected, make_effects};
pub use rejects::swap_rejects;
pub use saying::{is_kept, is_unrejected, tell};
pub use written::with_row;
