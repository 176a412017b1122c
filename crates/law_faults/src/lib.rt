//! What is wrong with the line that a fault names, in the words of the manuals: laws of reading, with no code. Stands on
//! `read_patch_text` and the readers of the forms. Begin with `specs/TextFaults.antt`.
#![tactic(auto)]

mod context;
mod ed;
mod normal;
mod text;
mod unified;

pub use context::context_faults;
pub use ed::ed_faults;
pub use normal::normal_faults;
pub use text::text_faults;
pub use unified::unified_faults;
