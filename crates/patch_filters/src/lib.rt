//! What `lsdiff`, `filterdiff` and `grepdiff` write: the list of file patches, the text with some of them or of their hunks left
//! out, those of which a line is found. Listing and filtering take no memory. After a failure the sink received a first part.
//! Stands on `filter_choice`. Begin with `specs/Listed.antt`, `specs/Filtered.antt` and `specs/Grepped.antt`.
#![tactic(auto)]

mod all_told;
mod appending;
mod fault;
mod filter;
mod grep;
mod grep_told;
mod hunk_lines;
mod hunks;
mod laws;
mod list;
mod noting;
mod numbering;
mod pieces;
mod regex_finder;
mod row_parts;
mod search;

pub use all_told::{asks_told, told_patches};
pub use fault::GrepFault;
pub use filter::filter_patches;
pub use grep::grep_patches;
pub use laws::filter_laws;
pub use list::{asks_hunks, list_patches, list_whole};
pub use regex_finder::RegexFinder;
