//! The output of a file with a change as `patch -D` writes it: both the old and the new lines, parted by conditions of the C
//! preprocessor. Stands on `hunk_apply`. Begin with `specs/Tagged.antt`, then `src/put.rt`.
#![tactic(auto)]

mod block;
mod blocks;
mod edits;
mod found;
mod hunks;
mod laws;
mod marking;
mod place;
mod put;
mod script;
mod writing;

pub use laws::{both_files_are_kept, readers_get_both_files};
use line_store::LineFault;
pub use put::put_ifdef;

/// Why the output isn't whole.
#[derive(Clone, Copy)]
pub enum IfdefFault {
    /// A line of the store couldn't be fetched.
    Line(LineFault),
    /// The sink has failed.
    Write,
}
