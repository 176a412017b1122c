//! The state of a stack of patches, read from its files, and the steps of its commands: what is said, the count and the saves that
//! are put, and a save that is undone. Reading changes nothing. A step starts on a tree of which all is synced to disk and leaves
//! it so, or a fault leaves a first part of the step. Stands on `series_stack`. Begin with `src/state.rt`, then `src/closing.rt`.
#![tactic(auto)]

mod closing;
mod fault;
mod names;
mod putting;
mod saves;
mod saying;
mod state;
mod undoing;
mod whole;

pub use closing::{keep, recover, reject, take_back};
pub use fault::StateFault;
pub use names::{count_name, save_name};
pub use putting::put_save;
pub use saves::{read_last_save, read_next_save};
pub use saying::{say_applying, say_tally};
pub use state::{Standing, read_stack};
pub use undoing::undo;
pub use whole::read_whole;
