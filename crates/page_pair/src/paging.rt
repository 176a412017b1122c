//! Records made on the second page, and the page written behind others.

ghost use Rattle.std.specs.Prelude.{◌≡◌, ◌≤◌, ◌+◌, ◌-◌, ◌++◌, [], ℕ, List, length, take, drop, replicate, Some, IfErr, OnOk};
ghost use Rattle.std.specs.Int.{w32, to_le_bytes};
ghost use Rattle.line_store.specs.declared.Half.TheVariants.{First, Second};
ghost use Rattle.outside.specs.ScratchView.{ScratchPasses, overwritten};
ghost use Rattle.page_pair.specs.Pair.{page_of};
ghost use Rattle.page_pair.specs.Records.{Extends, padded, record_of, IsWriteFault};

use crate::PagePair;
use line_store::{Half, OpenFault};
use outside::Scratch;

/// Empties the scratch.
pub fn restart<C: Scratch>(scratch: &mut C) -> Result<(), OpenFault>
    ensures passes { ScratchPasses (C.view scratch.old) (C.view scratch.new) }
    ensures empty { OnOk result ((bytes : List ℕ) → (C.view scratch.new).told ≡ Some bytes → bytes ≡ []) }
    ensures cause { IfErr result (λ e. IsWriteFault e (C.view scratch.old) (C.view scratch.new)) }
{
    match scratch.restart() {
        Ok(()) => Ok(()),
        Err(_) => Err(OpenFault::Scratch),
    }
}

/// Writes 4 bytes of the second page, the lowest first.
fn put_number(pair: &mut PagePair, at: usize, value: u32)
    requires { at + 4 ≤ pair.old.size }
    ensures size { pair.new.size ≡ pair.old.size }
    ensures first { page_of pair.new First ≡ page_of pair.old First }
    ensures second { page_of pair.new Second ≡ overwritten (page_of pair.old Second) at (to_le_bytes w32 value) }
{
    write_number(pair.page_mut(Half::Second), at, value);
}

fn write_number(page: &mut [u8], at: usize, value: u32)
    requires { at + 4 ≤ length page.old }
    ensures { page.new ≡ overwritten page.old at (to_le_bytes w32 value) }
{
    page[at..at + 4].copy_from_slice(&value.to_le_bytes());
}

/// Writes zero bytes of the second page.
fn put_zeros(pair: &mut PagePair, from: usize, to: usize)
    requires low { from ≤ to }
    requires high { to ≤ pair.old.size }
    ensures size { pair.new.size ≡ pair.old.size }
    ensures first { page_of pair.new First ≡ page_of pair.old First }
    ensures second { page_of pair.new Second ≡ overwritten (page_of pair.old Second) from (replicate (to - from) 0) }
{
    write_zeros(pair.page_mut(Half::Second), from, to);
}

fn write_zeros(page: &mut [u8], from: usize, to: usize)
    requires low { from ≤ to }
    requires high { to ≤ length page.old }
    ensures { page.new ≡ overwritten page.old from (replicate (to - from) 0) }
{
    page[from..to].fill(0);
}

/// Makes the record of a line of the first page at a place of the second.
pub fn make_record(pair: &mut PagePair, from: usize, count: usize, at: usize, width: usize)
    requires read { from + count ≤ pair.old.size }
    requires fits { count + 4 ≤ width }
    requires within { at + width ≤ pair.old.size }
    ensures size { pair.new.size ≡ pair.old.size }
    ensures first { page_of pair.new First ≡ page_of pair.old First }
    ensures made { Extends (page_of pair.old Second) (page_of pair.new Second) at (record_of width (take count (drop from (page_of pair.old First)))) }
{
    // That a page is small keeps the places in range.
    let _size = pair.size();
    put_number(pair, at, count as u32);
    pair.copy_across(Half::First, from, at + 4, count);
    put_zeros(pair, at + 4 + count, at + width);
}

/// Zero bytes from a place of the second page on, which is then written behind the pages before it.
pub fn write_page<C: Scratch>(
    pair: &mut PagePair,
    scratch: &mut C,
    filled: usize,
    at: u64,
) -> Result<(), OpenFault>
    requires filled { filled ≤ pair.old.size }
    requires behind { (bytes : List ℕ) → (C.view scratch.old).told ≡ Some bytes → length bytes ≡ at }
    ensures size { pair.new.size ≡ pair.old.size }
    ensures first { page_of pair.new First ≡ page_of pair.old First }
    ensures passes { ScratchPasses (C.view scratch.old) (C.view scratch.new) }
    ensures written { OnOk result ((bytes : List ℕ) → (C.view scratch.old).told ≡ Some bytes → (C.view scratch.new).told ≡ Some (bytes ++ padded pair.old.size (take filled (page_of pair.old Second)))) }
    ensures cause { IfErr result (λ e. IsWriteFault e (C.view scratch.old) (C.view scratch.new)) }
{
    let size = pair.size();
    put_zeros(pair, filled, size);
    match scratch.write_at(at, pair.page(Half::Second)) {
        Ok(()) => Ok(()),
        Err(_) => Err(OpenFault::Scratch),
    }
}
