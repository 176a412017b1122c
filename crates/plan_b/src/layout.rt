//! Where the records of lines stand.

ghost use Rattle.std.specs.Prelude.{◌≡◌, ◌≤◌, ◌+◌, ◌^◌, ◌<◌};
ghost use Rattle.plan_b.specs.Layout.{IsLayout, page_number, place_on_page};
ghost use Rattle.plan_b.specs.Spots.{IsSpot};
ghost use Rattle.line_store.specs.Taking.{IsSize};

use crate::spots::RecordOnPage;

/// The records of so many lines, each of one width in bytes, on pages of one size.
#[derive(Clone, Copy)]
pub struct Layout {
    pub size: u64,
    pub width: u64,
    pub per_page: u64,
    pub count: u64,
}

impl Layout {
    /// The layout of records that hold lines of at most `longest` bytes.
    pub fn new(size: usize, longest: u64, count: u64) -> Layout
        requires sized { IsSize size }
        requires fits { longest + 4 ≤ size }
        requires few { count ≤ 2 ^ 40 }
        ensures is { IsLayout result }
        ensures size { result.size ≡ size }
        ensures width { result.width ≡ 4 + longest }
        ensures count { result.count ≡ count }
    {
        let width = longest + 4;
        let size = size as u64;
        let per_page = size / width;
        Layout {
            size,
            width,
            per_page,
            count,
        }
    }

    /// The page of the record that has `k` before it.
    pub fn page_number(&self, k: u64) -> u64
        requires is { IsLayout self.now }
        ensures is { result ≡ page_number self.now k }
    {
        k / self.per_page
    }

    /// Where that record stands on its page.
    pub fn place_on_page(&self, k: u64) -> usize
        requires is { IsLayout self.now }
        ensures is { result ≡ place_on_page self.now k }
        ensures within { result + self.now.width ≤ self.now.size }
    {
        (k % self.per_page * self.width) as usize
    }

    /// That record on its page.
    pub fn spot(&self, k: u64) -> RecordOnPage
        requires is { IsLayout self.now }
        ensures { IsSpot self.now (k + 1) result }
    {
        RecordOnPage {
            index: k % self.per_page,
            at: self.place_on_page(k),
        }
    }
}
