//! The file patches of a patch text as one set, with their targets, their verdicts and what was done with them. Stands on
//! `read_patch_text` and `read_file_patch`. Begin with `specs/Refusals.antt`, which says what text makes no set, then `src/reading.rt`.
#![tactic(auto)]

mod asked;
mod fault;
mod header_name;
mod laws;
mod marks;
mod names;
mod reading;
mod refusals;
mod reserving;
mod set;
mod skipped;

pub use asked::{is_posix, ways_of};
pub use fault::SetFault;
pub use header_name::plain_name;
pub use laws::{
    a_set_in_bytes, bare_headers_have_no_hunk, numbers_tell_targets_apart, one_view,
    what_was_read_stays,
};
pub use marks::are_asked;
pub use names::{NamedPatches, bytes_in};
pub use read_file_patch::{Change, FilePatch, Target};
pub use reading::{give_targets, read_set, whole_text};
pub use reserving::refuse;
pub use set::{Parts, PatchSet, Row, take_apart, untried};
pub use skipped::BinaryChange;
