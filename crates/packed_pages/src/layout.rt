//! How the lines of a file lie on pages.

ghost use Rattle.std.specs.Prelude.{◌≡◌};
ghost use Rattle.line_store.specs.Taking.{IsSize};
ghost use Rattle.packed_pages.specs.Layout.{IsLayout};

/// So many lines on so many pages of one size in bytes.
#[derive(Clone, Copy)]
pub struct Layout {
    pub size: u64,
    pub pages: u64,
    pub count: u64,
}

impl Layout {
    /// No lines, and so no pages.
    pub fn new(size: usize) -> Layout
        requires { IsSize size }
        ensures is { IsLayout result }
        ensures size { result.size ≡ size }
        ensures pages { result.pages ≡ 0 }
        ensures count { result.count ≡ 0 }
    {
        Layout {
            size: size as u64,
            pages: 0,
            count: 0,
        }
    }
}
