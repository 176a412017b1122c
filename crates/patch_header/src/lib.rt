//! Where the next file patch of a patch text opens, and what the lines in front of it say. Stands on `read_header_record` and the
//! readers of the four forms. Begin with `specs/Openings.antt` (`stop_at`), then `src/search.rt`.
#![tactic(auto)]

mod bare;
mod content;
mod git_lines;
mod git_names;
mod git_trail;
mod header;
mod names_fit;
mod openings;
mod read_options;
mod region;
mod search;
mod values;
mod words;

pub use bare::bare_end;
pub use content::is_binary;
pub use git_lines::is_git_line;
pub use openings::{Stop, one_thing_stands};
pub use read_options::{ReadOptions, plainly};
pub use search::{HeaderStep, header_from, next_header};
pub use words::{git_headers_laws, header_lines_laws, whole_lines_laws};
