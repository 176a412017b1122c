//! Tests of what is read of a patch text: the headers in front of file patches, their stamps, and hunks and scripts in each form.
//! Stands on `patch_header`. Begin with `src/forms.rt`.
#![tactic(auto)]

#[cfg(test)]
mod forms;
#[cfg(test)]
mod headers;
#[cfg(test)]
mod stamps;
