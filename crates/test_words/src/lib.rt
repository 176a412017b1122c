//! Tests of the words of commands. Words that are refused are rows of `tests/tables`; more of the filters' words are cases of
//! `tests/cases`. Stands on `patch_options` and `cli_tool_words`. Begin with `src/words.rt`.
#![tactic(auto)]

#[cfg(test)]
mod rows;
#[cfg(test)]
mod words;
