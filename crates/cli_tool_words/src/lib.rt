//! The words of the tools beside `patch`: what each tool takes, what its words ask for, and the text that tells them. Stands on the
//! tables of `patch_options`. Begin with `specs/Tables.antt`, then `src/rows.rt`.
#![tactic(auto)]

mod calls;
mod choosing_rows;
mod filtering;
mod help;
mod jobs;
mod listing;
mod listing_rows;
mod marking;
mod operands;
mod ranges;
mod readers;
mod retooling;
mod rows;
mod searching;
mod selecting;
mod showing;
mod splitting;
mod styling;
mod tables;
mod tools;
mod words;
mod writing_rows;

pub use calls::calls_of;
pub use help::usage;
pub use jobs::{
    FilterJob, GenJob, GrepJob, GrepOut, ListJob, Marks, Numbered, PartNames, Ranges, Searched,
    Select, Shown, SplitJob, StackJob, StackOp, Style, ToolJob,
};
pub use retooling::asked_words;
pub use tools::{Tool, tool_named};
pub use words::read_tool_words;
