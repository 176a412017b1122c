//! Ed scripts as `diff -e` writes them (GNU diffutils manual, "Detailed Description of ed Scripts"): how they are read. Stands on
//! `hunk_core`. Begin with `specs/Grammar.antt`.
#![tactic(auto)]

mod added;
mod command;
mod script;

pub use command::{Command, command_at, is_command_line};
pub use script::{EdEdit, EdScript, at_command, first_faults, lines_laws, read_script};
