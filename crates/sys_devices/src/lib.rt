//! The devices of a run over real files and streams: the traits of `outside`, met by the system. Stands on `sys_files`. Begin with
//! `src/disk.rt`, then `src/streams.rt`.
#![tactic(auto)]

mod disk;
mod faults;
mod line_ends;
mod modes;
mod output_notes;
mod pages;
mod passed;
mod streams;

pub use disk::{Disk, TreeWords};
pub use line_ends::LineEnds;
pub use output_notes::OutputNotes;
pub use pages::Pages;
pub use passed::Passed;
pub use streams::{Input, Output};
pub use sys_files::{Kind, Syncs, Trouble, missing_text, unreached_text};
