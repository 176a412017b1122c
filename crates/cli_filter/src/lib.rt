//! All that a filter does with its words, over any tree, finder, source and sink: one run for each FILE. Stands on `patch_filters`,
//! `filter_whole_text` and `format_convert`. Begin with `src/turns.rt`, then `src/tools.rt` and `specs/Command.antt`.
#![tactic(auto)]

mod carrying;
pub mod converting;
mod fault;
mod form_fault;
mod reading;
pub mod sifting;
mod styling;
mod tools;
mod turns;

pub use converting::texts_convert_as_sets;
pub use form_fault::FormFault;
pub use sifting::digests_are_filtered_as_sets;
pub use turns::run_filters;
