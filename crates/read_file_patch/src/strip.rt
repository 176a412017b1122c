//! The front of a name that is stripped.
ghost use Rattle.std.specs.Prelude.{◌≡◌, ◌<◌, length, IfSome};
ghost use Rattle.std.specs.List.{position};
ghost use Rattle.std.specs.Option.{option_copied};
ghost use Rattle.memchr.specs.Find.{IsLastByte, is_byte};
ghost use Rattle.outside.specs.Names.{is_slash, last_component};
ghost use Rattle.read_file_patch.specs.Stripped.{without_slashes, behind_slash, behind_slashes, stripped, shortened};

use memchr::{memchr, memrchr};

/// What is left of a name once its front is stripped, if it has slashes enough.
pub fn stripped(strip: Option<u32>, text: &[u8]) -> Option<&[u8]>
    ensures { option_copied result ≡ stripped strip text.now }
{
    match strip {
        Some(count) => behind_slashes(text, count),
        None => Some(last_component(text)),
    }
}

/// What is left of a name, as it is written, once so many slashes are stripped with what stands before them; of one that
/// has too few slashes its last component.
pub fn shortened(count: u32, text: &[u8]) -> &[u8]
    ensures { result.now ≡ shortened count text.now }
{
    match behind_slashes(text, count) {
        Some(left) => left,
        None => last_component(text),
    }
}

fn behind_slashes(text: &[u8], count: u32) -> Option<&[u8]>
    ensures { option_copied result ≡ behind_slashes count text.now }
{
    let mut left = text;
    for _ in 0..count {
        left = behind_slash(left)?;
    }
    Some(left)
}

fn behind_slash(text: &[u8]) -> Option<&[u8]>
    ensures { option_copied result ≡ behind_slash text.now }
{
    let at = memchr(b'/', text)?;
    Some(without_slashes(&text[at..]))
}

fn without_slashes(text: &[u8]) -> &[u8]
    ensures { result.now ≡ without_slashes text.now }
{
    let mut at = 0;
    while at < text.len() && text[at] == b'/' {
        at += 1;
    }
    &text[at..]
}

/// What stands behind the last slash.
pub fn last_component(text: &[u8]) -> &[u8]
    ensures { result.now ≡ last_component text.now }
{
    match memrchr(b'/', text) {
        Some(at) => &text[at + 1..],
        None => text,
    }
}
