//! The files of a run on the real disk: what stands at a name, what is open, and whose rights each new file gets. No contract can
//! say what a disk holds; what is believed of it is in `docs/TRUST.md`. Stands on the names of `outside`. Begin with
//! `src/files.rt`.
#![tactic(auto)]

mod asked;
mod changing;
mod dated;
mod directories;
mod emptied;
mod files;
mod found;
mod fresh;
mod held;
mod kind;
mod links;
mod looks;
mod missing;
mod named;
mod numbers;
mod origins;
mod outlets;
mod paths;
mod pipes;
mod reading;
mod rights;
mod saves;
mod spots;
mod temporaries;
mod text;
mod trouble;
mod writing;

pub use directories::Syncs;
pub use files::OpenFiles;
pub use fresh::make_nameless;
pub use kind::Kind;
pub use missing::{missing_text, unreached_text};
pub use paths::Path;
pub use reading::read_whole;
pub use text::{LONGEST_PATH, Text};
pub use trouble::{Trouble, trouble_of};
