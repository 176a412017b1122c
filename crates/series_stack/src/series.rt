//! The list of the patches of a stack, one name per line; empty lines and lines that begin with `#` are skipped.
ghost use Rattle.std.specs.Prelude.{◌≡◌, ◌≤◌, ◌<◌, ◌++◌, ◌∷◌, [], ◌⊎◌, None, Some, true, false, length, IfOk, IfErr, OnOk};
ghost use Rattle.outside.specs.Names.{normal_form};
ghost use Rattle.series_stack.specs.Series.{is_skipped, is_lawful, series_of};
ghost use Rattle.series_stack.specs.Causes.{IsBadOr};
ghost use Rattle.series_stack.specs.declared.fault.StateFile.TheVariants.{Series};

use crate::fault::{StackFault, StateFile};
use outside::{Name, NameFault};
use std::alloc::{AllocError, Global};

/// The most patches that a stack may have.
const MOST: usize = 9_999;

/// The names of the patches in their order, from a text with one name per line. Empty lines and lines that begin with `#`
/// are skipped, and the last line may lack its line feed. At most 9,999 names. The only faults are `BadState` and `Memory`.
pub fn read_series(alloc: Global, text: &[u8]) -> Result<Vec<Name>, StackFault>
    ensures names { IfOk result (λ names. series_of text.now ≡ Some names.items) }
    ensures cause { IfErr result (λ e. IsBadOr e Series (series_of text.now ≡ None)) }
{
    let mut names = Vec::new(alloc);
    for line in text.split(|byte| *byte == b'\n') {
        if !is_skipped(line) {
            add_name(alloc, &mut names, line)?;
        }
    }
    Ok(names)
}

// Whether the line is empty, or begins with `#`.
fn is_skipped(line: &[u8]) -> bool
    ensures { result ≡ is_skipped line.now }
{
    match line {
        [] => true,
        [first, ..] => *first == b'#',
    }
}

// Adds the name that a line writes.
fn add_name(alloc: Global, names: &mut Vec<Name>, line: &[u8]) -> Result<(), StackFault>
    ensures lawful { OnOk result (is_lawful line.now ≡ true) }
    ensures room { OnOk result (length names.old.items < 9999) }
    ensures added { OnOk result (names.new.items ≡ names.old.items ++ normal_form line.now ∷ []) }
    ensures cause { IfErr result (λ e. IsBadOr e Series ((9999 ≤ length names.old.items) ⊎ (is_lawful line.now ≡ false))) }
{
    if names.len() >= MOST {
        return Err(StackFault::BadState {
            file: StateFile::Series,
        });
    }
    match Name::new(alloc, line) {
        Ok(name) => Ok(push(names, name)?),
        Err(NameFault::Refused { .. }) => Err(StackFault::BadState {
            file: StateFile::Series,
        }),
        Err(NameFault::Memory) => Err(StackFault::Memory),
    }
}

fn push(names: &mut Vec<Name>, name: Name) -> Result<(), AllocError>
    ensures { OnOk result (names.new.items ≡ names.old.items ++ name ∷ []) }
{
    names.push(name)?;
    Ok(())
}
