//! What `filterdiff` does to the names and the text of the file patches that it writes: from a text to a text, behind filtering.
//! Stands on `read_patch_text` and `cli_tool_words`. Begin with `specs/Styled.antt`.
#![tactic(auto)]

mod fronts;
mod hunks;
mod memory;
mod names;
mod rows;
mod styling;

pub use fronts::{put_front, put_side_front, put_text_front};
pub use hunks::put_noted;
pub use memory::Memory;
pub use styling::{is_plain, restyle};
