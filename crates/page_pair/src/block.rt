//! One block of memory from the allocator, cut into pages.

ghost use Rattle.std.specs.Prelude.{◌≡◌, ℕ, ◌+◌, ◌-◌, ◌<◌, ◌≤◌, ◌^◌, List, length, replicate, IfOk};
ghost use Rattle.std.specs.Borrow.{sem, full_share, Array, u8};
ghost use Rattle.std.specs.Global.{Global};
ghost use Rattle.std.specs.Ptr.{lies_at, room_at, Ptr};
ghost use denote.Struct.Lending.{lent_at};
ghost use Rattle.page_pair.specs.Block.{right_to_free, ptr_behind};

use std::alloc::{AllocError, Allocator, Global};
use std::marker::Model;

// Memory for `count` bytes, none of them written.
pub(crate) struct Room {
    pub(crate) at: *mut u8,
    pub(crate) count: usize,
}

impl Model for Room {
    ghost also_owns = { λ r. room_at (Array u8 r.count) r.at };
}

// `count` bytes that were written.
pub(crate) struct Page {
    pub(crate) at: *mut u8,
    pub(crate) count: usize,
    pub(crate) ghost bytes: { List ℕ },
    pub(crate) ghost counted: { count ≡ length bytes },
    pub(crate) ghost fits: { count < 2 ^ 63 },
}

impl Model for Page {
    ghost use Rattle.std.specs.Borrow.{full_share, Array, u8};
    ghost use Rattle.std.specs.Ptr.{lies_at};
    ghost use denote.Struct.Lending.{lent_at};

    ghost also_owns = { λ p. lies_at (Array u8 p.count) full_share p.at p.bytes };

    ghost also_shares = { λ p _ κ. lent_at (Array u8 p.count) p.at p.bytes κ };
}

// The right to give back the block of `count` bytes at `at`.
pub(crate) struct Title {
    pub(crate) ghost alloc: { Global },
    pub(crate) ghost at: { Ptr },
    pub(crate) ghost count: { ℕ },
}

impl Model for Title {
    ghost use Rattle.page_pair.specs.Block.{right_to_free};

    ghost also_owns = { λ t. right_to_free t.alloc t.count t.at };
}

impl Room {
    ghost use Rattle.page_pair.specs.Halves.{IsTaken};

    pub(crate) fn take(alloc: &Global, count: usize) -> Result<(Room, Title), AllocError>
        requires { count < 2 ^ 63 }
        ensures { IfOk result (λ taken. IsTaken alloc.now count taken.0 taken.1) }
    {
        match alloc.allocate(count, 1) {
            Ok(at) => Ok((Room { at, count }, Title {})),
            Err(refused) => Err(refused),
        }
    }

    // The first `size` bytes, and those behind them.
    pub(crate) fn cut(self, size: usize) -> (Room, Room)
        requires { size ≤ self.count }
        ensures { (result.0.at ≡ self.at) × (result.0.count ≡ size) × (result.1.at ≡ ptr_behind size self.at) × (result.1.count ≡ self.count - size) }
    {
        let Room { at, count } = self;
        let behind = unsafe { at.add(size) };
        let rest = count - size;
        (
            Room { at, count: size },
            Room {
                at: behind,
                count: rest,
            },
        )
    }

    pub(crate) fn zeroed(self) -> Page
        requires { self.count < 2 ^ 63 }
        ensures { (result.at ≡ self.at) × (result.count ≡ self.count) × (result.bytes ≡ replicate self.count 0) }
    {
        let Room { at, count } = self;
        let mut i = 0;
        while i < count {
            unsafe { at.add(i).write(0) };
            i += 1;
        }
        Page { at, count }
    }
}

impl Page {
    ghost use Rattle.page_pair.specs.PageLending.{LendsBytes};

    pub(crate) fn as_slice(&self) -> &[u8]
        ensures { result.now ≡ self.now.bytes }
    {
        unsafe { std::slice::from_raw_parts(self.at, self.count) }
    }

    pub(crate) fn as_mut_slice(&mut self) -> &mut [u8]
        ensures* writes_back { sem 𝓛 (LendsBytes self.entry result) }
        ensures is { result.now ≡ self.old.bytes }
    {
        unsafe { std::slice::from_raw_parts_mut(self.at, self.count) }
    }
}

impl Title {
    ghost use Rattle.page_pair.specs.Halves.{Fills, IsTitle};

    // Frees the block, which the two pages fill.
    pub(crate) fn give_back(self, alloc: &Global, first: Page, second: Page, count: usize)
        requires { Fills first second count × IsTitle self alloc.now count first.at }
    {
        let Title {} = self;
        let Page { at, count: _ } = first;
        let Page { at: _, count: _ } = second;
        unsafe { alloc.deallocate(at, count, 1) };
    }
}
