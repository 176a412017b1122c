//! What `patch` says on standard output while it works, over any sink: a call for each message. Names are handed in as they are
//! shown. With `-s` most calls write nothing; each says where it does, and all take the options, so that they look alike. After a
//! failure the sink received a first part. A line number below 0 has its minus sign. Stands on `patch_options`. Begin with
//! `specs/Messages.antt`.
#![tactic(auto)]

mod files;
mod hunks;
mod lines;
mod origin;
mod pieces;
mod skipping;
mod standing;

pub use files::{
    say_barred, say_no_file, say_not_deleting, say_patching, say_prereq, say_read_only,
    say_reversed, say_submodule, say_type_change, say_unfit,
};
pub use hunks::{say_failed, say_failures, say_ignored, say_placed, say_refused};
pub use origin::Origin;
pub use skipping::{say_image, say_skipped};
pub use standing::Standing;
