//! The words that the program was called with, and the texts that help its caller: the help, and lines on standard error beside
//! that of the answer. The words are as the system gives them. Stands on `cli_tool_words` and `sys_devices`. Begin with
//! `src/called.rt`, then `src/ended.rt`.
#![tactic(auto)]

mod barred;
mod behind;
mod called;
mod count;
mod cut;
mod emptied;
mod ended;
mod help;
mod indents;
mod lacking;
mod line_ends;
mod lines;
mod mending;
mod modes;
mod names;
mod nuls;
mod pattern;
mod places;
mod ranges;
mod skipped;
mod state;
mod unbuilt;
mod unfit;
mod unsuited;
mod wanted;
mod which;

pub use behind::{put_detail, put_long, put_usage};
pub use called::{called_tool, tool_of, words_of};
pub use ended::{Ended, put_before, put_texts};
pub use help::{HelpRequest, no_command_is_told, told, version_of};
pub use lines::Lines;
pub use pattern::put_pattern;
pub use places::places_of;
pub use state::put_state;
pub use unbuilt::{put_unbuilt, why_unbuilt};
pub use which::put_patch;
