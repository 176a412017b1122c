//! Tests of the plans over pages: a file that changes while it is taken, and a scratch that gives its bytes back cut or changed.
//! Stands on `plan_b`, `packed_pages` and `mem_world`. Begin with `src/taking.rt`.
#![tactic(auto)]

#[cfg(test)]
mod changing;
#[cfg(test)]
mod rows;
#[cfg(test)]
mod spoiling;
#[cfg(test)]
mod taking;
