//! Tests of names and sets: each call that takes memory, once with enough of it. What they answer for many texts are rows of the
//! scripts in `tests/`. Stands on `patch_set` and the devices of `mem_world`. Begin with `src/sets.rt`.
#![tactic(auto)]

#[cfg(test)]
mod clean;
#[cfg(test)]
mod indents;
#[cfg(test)]
mod names;
#[cfg(test)]
mod numbers;
#[cfg(test)]
mod sets;
