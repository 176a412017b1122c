//! The names of a stack's files.
ghost use Rattle.std.specs.Prelude.{◌≡◌, ◌++◌, codes, IfOk, OnOk};
ghost use Rattle.num_text.specs.Numbers.{decimal};
ghost use Rattle.outside.specs.Names.{IsPatchName};
ghost use Rattle.series_stack.specs.Stack.{series_name, count_name, save_name};

use num_text::put_number;
use outside::Name;
use std::alloc::{AllocError, Global};

/// The list of the patches.
pub fn series_name(alloc: Global) -> Result<Name, AllocError>
    ensures { IfOk result (λ name. name ≡ series_name) }
{
    named(alloc, b"patches/series")
}

/// How many are applied.
pub fn count_name(alloc: Global) -> Result<Name, AllocError>
    ensures { IfOk result (λ name. name ≡ count_name) }
{
    named(alloc, b".pc/applied")
}

/// What the patch with this number found, counted from 1.
pub fn save_name(alloc: Global, number: u32) -> Result<Name, AllocError>
    ensures { IfOk result (λ name. name ≡ save_name number) }
{
    let text = save_text(alloc, number)?;
    let name = named(alloc, &text)?;
    Ok(name)
}

fn save_text(alloc: Global, number: u32) -> Result<Vec<u8>, AllocError>
    ensures { IfOk result (λ text. text.items ≡ codes ".pc/" ++ (decimal number ++ codes ".save")) }
{
    let mut digits = [0; 20];
    let count = put_number(u64::from(number), &mut digits);
    let mut text = Vec::new(alloc);
    text.extend_from_slice(b".pc/")?;
    text.extend_from_slice(&digits[..count])?;
    text.extend_from_slice(b".save")?;
    Ok(text)
}

// The name with a text that is a name's.
fn named(alloc: Global, text: &[u8]) -> Result<Name, AllocError>
    requires { IsPatchName text.now }
    ensures { IfOk result (λ name. name ≡ text.now) }
{
    match Name::new(alloc, text) {
        Ok(name) => Ok(name),
        // The text breaks no rule, so memory ran out.
        Err(_) => Err(AllocError),
    }
}
