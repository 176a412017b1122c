//! From the words that the program was called with to its exit status: what was asked is told, or the words are carried out over
//! real devices, and what helps is written behind the answer. Stands on `cli_program_words` and `sys_devices`. Begin with
//! `src/carrying.rt`.
#![tactic(auto)]

mod asking;
mod carrying;
mod closed;
mod helping;
mod outputs;
mod refusing;
mod runner;

pub use asking::answer;
pub use cli_program_words::words_of;
pub use runner::{Ending, Runner};
