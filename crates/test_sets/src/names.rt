//! The names of a header, the names that a run can need for one, and their numbers.

ghost use Rattle.patch_options.specs.PlainJob.{plain_options, IsLawful};

use crate::sets::is_told;
use outside::Name;
use patch_options::Options;
use read_file_patch::{Numbers, Target, candidates, moved_names};
use std::alloc::{AllocError, Global};

fn candidates_told(alloc: Global) -> Result<String, AllocError> {
    let found = candidates(
        alloc,
        Some(1),
        Some(b"a/f"),
        Some(b"b/g"),
        Some(b"c/h"),
        true,
    );
    format!(in alloc; "{found:?}")
}

fn moved_told(alloc: Global) -> Result<String, AllocError> {
    format!(in alloc;
        "{:?}",
        moved_names(alloc, Some(2), Some(b"a/x"), Some(b"b/y"))
    )
}

fn number_of(alloc: Global, numbers: &mut Numbers, text: &[u8]) -> Option<u32> {
    match Name::given(alloc, text) {
        Ok(name) => numbers.number(alloc, &name).ok(),
        Err(_) => None,
    }
}

/// Whether equal names get one number, and others another.
fn are_numbered(alloc: Global) -> bool {
    let mut numbers = Numbers::new(alloc);
    number_of(alloc, &mut numbers, b"f") == Some(0)
        && number_of(alloc, &mut numbers, b"a") == Some(1)
        && number_of(alloc, &mut numbers, b"./f") == Some(0)
        && number_of(alloc, &mut numbers, b"g") == Some(2)
}

const TARGET: &str =
    "Ok(Target { number: 7, shown_from: 0, reject_shown_from: 0, name: \"e/f\", temp: \"e/f.ptmp\", backup: \"e/f.orig\", backup_temp: \"e/f.orig.ptmp\", reject: \"e/f.rej\", reject_temp: \"e/f.rej.ptmp\" })";

/// Whether the target of a name is told.
pub fn has_target(alloc: Global, options: &Options) -> bool
    requires { IsLawful (plain_options options.now) }
{
    match Name::given(alloc, b"e/f") {
        Ok(name) => is_told(
            format!(in alloc; "{:?}", Target::new(alloc, options, &name, 7)),
            TARGET,
        ),
        Err(_) => false,
    }
}

#[test]
fn names_are_told(rt: HostRuntime) {
    assert!(rt; is_told(candidates_told(rt.alloc()), "Ok([\"f\", \"g\", \"h\"])"));
    assert!(rt; is_told(moved_told(rt.alloc()), "Ok([\"x\", \"y\"])"));
    assert!(rt; are_numbered(rt.alloc()));
}
