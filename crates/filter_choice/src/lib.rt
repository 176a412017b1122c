//! Which file patches and which hunks the words of a filter mean, by names, numbers and old lines; and the file patches of a text
//! without their hunks: outlines for who lists them, digests for who leaves some out. Stands on `patch_set` and `cli_tool_words`. Begin
//! with `specs/Selected.antt`, then `specs/Kept.antt`.
#![tactic(auto)]

mod digest;
mod hunks;
mod kept;
mod numbers;
mod outline;
mod set;

pub use digest::{HunkIndex, read_digest};
pub use hunks::addressed;
pub use kept::keeps;
pub use numbers::{Lines, is_meant, is_one_meant, is_selected};
pub use outline::{FilePatchList, read_outline};
pub use set::patch_at;
