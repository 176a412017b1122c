//! How texts of file patches read that are joined, turned round or made: laws with no code. Texts can be put one behind the other
//! so that each is read as it is read alone; a set is turned round by `flip_patch`, a patch made by `patch_gen`. Stands on
//! `read_patch_text`. Begin with `specs/Joins.antt`.
#![tactic(auto)]

mod flip_laws;
mod gen_laws;
mod laws;

pub use flip_laws::flip_reads;
pub use gen_laws::gen_reads;
pub use laws::join_laws;
