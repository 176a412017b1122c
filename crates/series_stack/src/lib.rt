//! The files of a stack of patches: the series, the count of those that are applied, and what each of them found (a save), as quilt
//! keeps them; what its commands do to files, and what holds at every moment. Stands on `replace_file`. Begin with
//! `specs/Outcomes.antt`, then `specs/Laws.antt`; `src/series.rt`, `src/count.rt` and `src/save.rt` say what the files hold.
#![tactic(auto)]

mod command_laws;
mod count;
mod entry;
mod fault;
mod files;
mod laws;
mod save;
mod series;
mod take;
mod text;

pub use command_laws::stack_laws;
pub use count::read_count;
pub use fault::{StackFault, StateFile};
pub use files::restore;
pub use laws::{
    counts_are_their_texts, restored_names_stand_as_saved, saves_are_their_texts,
    saves_undo_what_was_done, taken_saves_are_read,
};
pub use save::check_save;
pub use series::read_series;
pub use take::take_names;
