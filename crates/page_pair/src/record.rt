//! One record of a page: 4 bytes that state the line's length, the lowest first, and the line.

ghost use Rattle.std.specs.Prelude.{◌≡◌, ◌≤◌, ◌<◌, ◌+◌, length};
ghost use Rattle.page_pair.specs.Records.{stated, line_in};

/// The length that the record at a place states.
pub fn stated_length(page: &[u8], at: usize) -> u64
    requires { at + 4 ≤ length page.now }
    ensures { result ≡ stated page.now at }
{
    let bytes = [page[at], page[at + 1], page[at + 2], page[at + 3]];
    u32::from_le_bytes(bytes) as u64
}

/// The line that the record at a place holds.
pub fn line_of(page: &[u8], at: usize) -> &[u8]
    requires { at + 4 + stated page.now at ≤ length page.now }
    ensures { result.now ≡ line_in page.now at }
{
    let length = stated_length(page, at) as usize;
    &page[at + 4..at + 4 + length]
}
