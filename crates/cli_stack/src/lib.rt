//! All that `patchstack` does with its words, over any tree, scratch and sink. Stands on `stack_state` and `stack_patch`. Begin
//! with `src/turns.rt`, then `src/carrying.rt` and `specs/Command.antt`.
#![tactic(auto)]

mod carrying;
mod closing;
mod fault;
mod pushing;
mod reading;
mod taking;
mod turns;

pub use turns::run_stack;
