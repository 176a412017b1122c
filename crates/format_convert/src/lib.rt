//! The kept hunks of a file patch, or its ed script, written in another form: as blocks of changed lines in the commands of the
//! normal form or of an ed script, or hunk by hunk. It takes no memory. A refusal comes before anything is written, and after a
//! failure the sink received a first part. Stands on `filter_choice` and `flip_patch`. Begin with `specs/Converted.antt`.
#![tactic(auto)]

mod behind;
mod block;
mod commands;
mod convert;
mod ed;
mod edits;
mod fault;
mod fitting;
mod forms;
mod hunks;
mod kept;
mod lines;
mod normal;
mod numbers;
mod place;
mod refusing;
mod script;
mod writing;

pub use commands::{has_blocks, is_unfit, put_commands};
pub use convert::convert_patches;
pub use fault::ConvertFault;
pub use kept::has_kept;
