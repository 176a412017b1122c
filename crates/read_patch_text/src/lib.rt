//! All file patches of a patch text, and where each of them lies: whole, without hunks (outlines), or with no more of a hunk than
//! its place and old lines (digests). Stands on `patch_header`, `read_file_patch` and the readers of the forms. Begin with
//! `specs/Texts.antt`, then `src/patches.rt`.
#![tactic(auto)]

mod absent;
mod change;
mod digest;
mod outline;
mod patches;
mod walking;

pub use digest::{Digests, read_digests};
pub use outline::read_outlines;
pub use patches::read_patches;
