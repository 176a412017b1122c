//! A run over devices in memory, which `tests/starved` refuses each allocation in turn. Stands on `cli_gen` and `mem_world`. Begin
//! with `src/starving.rt`.
#![tactic(auto)]

#[cfg(test)]
mod starving;
