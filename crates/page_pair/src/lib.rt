//! Two pages of bytes, lent apart: the buffers of the plans that hold a file on disk. A file is read in pieces as large as a page,
//! and the records of its lines are made on another page. Stands on `line_store`. Begin with this file.
#![tactic(auto)]

ghost use Rattle.std.specs.Prelude.{◌≡◌, ◌+◌, ◌≤◌, ℕ, length, take, drop, replicate, IfOk};
ghost use Rattle.std.specs.Borrow.{sem};
ghost use Rattle.outside.specs.ScratchView.{overwritten};
ghost use Rattle.line_store.specs.Taking.{IsSize};
ghost use Rattle.line_store.specs.declared.Half.TheVariants.{First, Second};
ghost use Rattle.page_pair.specs.Pair.{Pair, IsPair, page_of, other_half};
ghost use Rattle.page_pair.specs.Lending.{LendsPage, LendsOther};

mod block;
pub mod long;
pub mod measuring;
pub mod paging;
pub mod reading;
pub mod record;
pub mod room;

use block::{Page, Room, Title};
use line_store::Half;
use std::alloc::{AllocError, Global};
use std::marker::Model;

/// Two pages of one size, side by side in one block of memory that is freed with the pair.
pub struct PagePair {
    first: Page,
    second: Page,
    title: Title,
    alloc: Global,
}

/// One page for reading, and the other for writing.
#[derive(Drop)]
pub struct Pages<'a> {
    pub fixed: &'a [u8],
    pub free: &'a mut [u8],
}

impl Model for PagePair {
    ghost use Rattle.std.specs.Prelude.{◌≡◌};
    ghost use Rattle.line_store.specs.Taking.{IsSize};
    ghost use Rattle.page_pair.specs.Pair.{Pair};
    ghost use Rattle.page_pair.specs.Halves.{AreHalves};

    ghost Value = { Pair };

    ghost view = { λ p. record { size = p.first.count; first = p.first.bytes; second = p.second.bytes } };

    ghost invariant = { λ p. IsSize p.first.count × AreHalves p.first p.second p.title p.alloc };
}

impl Drop for PagePair {
    fn drop(self) {
        let PagePair {
            first,
            second,
            title,
            alloc,
        } = self;
        let whole = first.as_slice().len() + second.as_slice().len();
        title.give_back(&alloc, first, second, whole);
    }
}

impl PagePair {
    /// Two pages of zero bytes. A size is from 512 to 1,048,576.
    pub fn new(alloc: Global, size: usize) -> Result<PagePair, AllocError>
        requires { IsSize size }
        ensures size { IfOk result (λ pair. pair.size ≡ size) }
        ensures zero { IfOk result (λ pair. (h : Half) → page_of pair h ≡ replicate size 0) }
    {
        let (block, title) = Room::take(&alloc, 2 * size)?;
        let (first, second) = block.cut(size);
        let first = first.zeroed();
        let second = second.zeroed();
        Ok(PagePair {
            first,
            second,
            title,
            alloc,
        })
    }

    /// The size of each page in bytes.
    pub fn size(&self) -> usize
        ensures size { result ≡ self.now.size }
        ensures pair { IsPair self.now }
    {
        self.first.as_slice().len()
    }

    /// The bytes of a page.
    pub fn page(&self, half: Half) -> &[u8]
        ensures is { result.now ≡ page_of self.now half }
        ensures pair { IsPair self.now }
    {
        match half {
            Half::First => self.first.as_slice(),
            Half::Second => self.second.as_slice(),
        }
    }

    /// A page to be written. The other page stays as it is.
    pub fn page_mut(&mut self, half: Half) -> &mut [u8]
        ensures* writes_back { sem 𝓛 (LendsPage self.entry half result) }
        ensures is { result.now ≡ page_of self.old half }
        ensures pair { IsPair self.old }
    {
        match half {
            Half::First => self.first.as_mut_slice(),
            Half::Second => self.second.as_mut_slice(),
        }
    }

    /// The named page for reading, and the other for writing. The named page stays as it is.
    pub fn page_and_other(&mut self, half: Half) -> Pages<'_>
        ensures* writes_back { sem 𝓛 (LendsOther self.entry half result.free) }
        ensures fixed { result.fixed.now ≡ page_of self.old half }
        ensures free { result.free.now ≡ page_of self.old (other_half half) }
        ensures pair { IsPair self.old }
    {
        match half {
            Half::First => self.first_and_other(),
            Half::Second => self.second_and_other(),
        }
    }

    fn first_and_other(&mut self) -> Pages<'_>
        ensures* writes_back { sem 𝓛 (LendsOther self.entry First result.free) }
        ensures fixed { result.fixed.now ≡ self.old.first }
        ensures free { result.free.now ≡ self.old.second }
        ensures pair { IsPair self.old }
    {
        let fixed = self.first.as_slice();
        let free = self.second.as_mut_slice();
        Pages { fixed, free }
    }

    fn second_and_other(&mut self) -> Pages<'_>
        ensures* writes_back { sem 𝓛 (LendsOther self.entry Second result.free) }
        ensures fixed { result.fixed.now ≡ self.old.second }
        ensures free { result.free.now ≡ self.old.first }
        ensures pair { IsPair self.old }
    {
        let fixed = self.second.as_slice();
        let free = self.first.as_mut_slice();
        Pages { fixed, free }
    }

    /// Copies bytes of the named page into the other one, from a place in each on.
    pub fn copy_across(&mut self, half: Half, from: usize, to: usize, count: usize)
        requires read { from + count ≤ self.old.size }
        requires written { to + count ≤ self.old.size }
        ensures same { page_of self.new half ≡ page_of self.old half }
        ensures copied { page_of self.new (other_half half) ≡ overwritten (page_of self.old (other_half half)) to (take count (drop from (page_of self.old half))) }
        ensures size { self.new.size ≡ self.old.size }
    {
        let Pages { fixed, free } = self.page_and_other(half);
        free[to..to + count].copy_from_slice(&fixed[from..from + count]);
    }
}
