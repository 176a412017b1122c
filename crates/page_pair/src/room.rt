//! The room that records without padding take on pages.

ghost use Rattle.std.specs.Prelude.{◌≡◌, ◌≤◌, ◌+◌, ◌^◌, min};
ghost use Rattle.page_pair.specs.Room.{room_with, page_count};

/// So many whole pages, and so many bytes of the next one.
#[derive(Clone, Copy)]
pub struct Room {
    pub pages: u64,
    pub filled: u64,
}

impl Room {
    /// A record more: on the page that is begun where it fits, and else on the next one.
    pub fn with(self, size: u64, bytes: u64) -> Room
        requires pages { self.pages ≤ 2 ^ 40 }
        requires filled { self.filled ≤ 2 ^ 40 }
        requires small { bytes ≤ 2 ^ 40 }
        ensures { result ≡ room_with size self bytes }
    {
        let filled = self.filled + bytes;
        if filled <= size {
            return Room {
                pages: self.pages,
                filled,
            };
        }
        Room {
            pages: self.pages + 1,
            filled: bytes,
        }
    }

    /// The number of pages, with the one that is begun.
    pub fn page_count(self) -> u64
        requires { self.pages ≤ 2 ^ 40 }
        ensures { result ≡ page_count self }
    {
        self.pages + u64::min(1, self.filled)
    }
}
