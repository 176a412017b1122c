//! The words of `patch`, the options that they give and the text that tells them; tables of words, for other tools too. Stands on
//! `clap`, which matches words against a table. Begin with `src/groups.rt` (the table), then `specs/Table.antt` and
//! `specs/Words.antt`.
#![tactic(auto)]

mod admitted;
mod forms;
mod groups;
mod names;
mod options;
mod simple;
mod table;
mod telling;
mod whole;
mod words;

pub use admitted::{is_buffer, is_number, is_plan, is_sync};
pub use forms::number_of;
pub use groups::patch_table;
pub use names::{input_of, lasting_name_of, read_name};
pub use options::{
    BackupNumbers, FileTimes, Input, Job, Options, PlanKind, ReadOnlyFiles, SyncKind, WordFault,
};
pub use simple::{Group, Word, WordForm, last_values_count, matched_by, values_of};
pub use table::{buffer_in, is_used, number_in, plan_in, sync_in, value_of};
pub use telling::{patch_usage, usage_of};
pub use whole::{whole_words, whole_words_stay};
pub use words::read_words;
