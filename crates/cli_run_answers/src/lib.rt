//! How a run's patch text is read, from a file of the tree or from the source, and how a run ends, for every tool: its answer and
//! status, the line on standard error, and what stands at each moment before. Each run first settles the tree: all that reads give
//! is synced to disk. Stands on the devices of `outside`. Begin with `specs/Answers.antt`, then `specs/Moments.antt`.
#![tactic(auto)]

mod fault;
mod file;
mod input;
mod reporting;
mod settling;
mod stream;
mod why;

pub use fault::InputFault;
pub use file::read_file;
pub use input::read_input;
pub use reporting::report;
pub use settling::settle;
pub use why::Why;
