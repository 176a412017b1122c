//! A set of file patches turned round, written to any sink: what undoes all of them; and the lines that a file patch begins with
//! where it is written anew, its `Index:` line and the lines of its names. No memory is taken. Stands on `patch_set` and the
//! writers of the forms. Begin with `specs/Flipped.antt`.
#![tactic(auto)]

mod fault;
mod headers;
mod hunks;
mod marks;
mod names;
mod patches;
mod refusals;
mod writing;

pub use fault::FlipFault;
pub use headers::put_header_lines;
pub use writing::flip_patches;
