//! A patch text as `patch` reads it, without the indent that it was pasted with, and without the carriage returns that mail or
//! another system put in front of its line feeds. Stands on `patch_set` and `read_git_order`. Begin with `specs/Cleaned.antt`.
#![tactic(auto)]

mod bare;
mod cleaning;
mod indents;
mod laws;
mod losing;
mod reading;

pub use cleaning::clean;
pub use indents::{loses_indent, unindented};
pub use laws::{cleaned_line_for_line, unindented_line_for_line};
pub use reading::{read_clean, read_telling};
