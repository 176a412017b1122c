//! What a file patch asks for, and the effects on its target in their order: mode, time, rename or copy, backup; and why a run
//! doesn't come to its end. Stands on `patch_set` and `replace_file`. Begin with `specs/Asking.antt`, then
//! `specs/TargetEffects.antt`.
#![tactic(auto)]

mod asking;
mod ends;
mod fault;
mod kinds;
mod moved;
mod names;
mod placed;
mod sources;
mod task;
mod times;

pub use asking::{acts_deleted, acts_new, is_bare, moves_at, renames, source_at, takes_files};
pub use ends::{ends_otherwise, is_returned};
pub use fault::RunFault;
pub use kinds::{Manner, Mode, Subject, is_link, mode_asked, subject_of};
pub use moved::write_moved;
pub use names::{chosen, shown, shown_reject, target_in, written, written_at};
pub use placed::{Made, keep_old, write_placed};
pub use sources::{is_same, is_source};
pub use task::Task;
pub use times::time_asked;
