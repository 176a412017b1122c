//! What the filters write, in laws with no code: it reads as the file patches that a filter leaves, where the joins are clean; how
//! a set reads that was written in another form; and what a file patch undoes that is turned round. Stands on all filters and on
//! `law_reading`. Begin with `specs/ReadAgain.antt`.
#![tactic(auto)]

mod format_laws;
mod laws;
mod turned_laws;

pub use format_laws::format_reads;
pub use laws::filter_reads;
pub use turned_laws::flip_laws;
