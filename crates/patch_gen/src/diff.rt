//! The patch over a made file, in the unified form.

ghost use Rattle.std.specs.Prelude.{◌≡◌, ◌+◌, ◌*◌, ◌^◌, ◌≤◌, ◌<◌, ◌++◌, ◌∷◌, [], length, OnOk};
ghost use Rattle.std.specs.List.{flat_map, range_with_len};
ghost use Rattle.num_text.specs.Numbers.{decimal};
ghost use Rattle.patch_gen.specs.Texts.{line_in};
ghost use Rattle.patch_gen.specs.Patches.{new_line, range_line, header_lines, kept_lines, hunk_from, hunk_text, file_patch};

use crate::text::digit;
use num_text::put_number;
use std::alloc::AllocError;

/// A header line's front, the file's number and a line feed.
fn add_name(patch: &mut Vec<u8>, front: &[u8], number: u32) -> Result<(), AllocError>
    ensures { OnOk result (patch.new.items ≡ patch.old.items ++ front.now ++ decimal number ++ 10 ∷ []) }
{
    let mut digits = [0; 20];
    let count = put_number(u64::from(number), &mut digits);
    patch.extend_from_slice(front)?;
    patch.extend_from_slice(&digits[..count])?;
    patch.push(b'\n')?;
    Ok(())
}

fn add_range_line(patch: &mut Vec<u8>, start: u32) -> Result<(), AllocError>
    ensures { OnOk result (patch.new.items ≡ patch.old.items ++ range_line start) }
{
    let mut digits = [0; 20];
    let count = put_number(u64::from(start), &mut digits);
    patch.extend_from_slice(b"@@ -")?;
    patch.extend_from_slice(&digits[..count])?;
    patch.extend_from_slice(b",7 +")?;
    patch.extend_from_slice(&digits[..count])?;
    patch.extend_from_slice(b",7 @@\n")
}

fn new_bytes(number: u32) -> [u8; 12]
    ensures { result ≡ new_line number }
{
    [
        b'n',
        b'e',
        b'w',
        b' ',
        digit(number / 1_000_000),
        digit(number / 100_000),
        digit(number / 10_000),
        digit(number / 1_000),
        digit(number / 100),
        digit(number / 10),
        digit(number),
        b'\n',
    ]
}

fn line_bytes(lines: &[u8], number: u32) -> &[u8]
    requires { (1 ≤ number) × (12 * number ≤ length lines.now) }
    ensures { result.now ≡ line_in lines.now number }
{
    let end = 12 * number as usize;
    &lines[end - 12..end]
}

fn add_marked(patch: &mut Vec<u8>, mark: u8, line: &[u8]) -> Result<(), AllocError>
    ensures { OnOk result (patch.new.items ≡ patch.old.items ++ mark ∷ line.now) }
{
    patch.push(mark)?;
    patch.extend_from_slice(line)
}

/// Adds three lines of context.
fn add_kept(patch: &mut Vec<u8>, lines: &[u8], first: u32) -> Result<(), AllocError>
    requires within { (1 ≤ first) × (12 * (first + 2) ≤ length lines.now) }
    requires small { first < 2 ^ 31 }
    ensures { OnOk result (patch.new.items ≡ patch.old.items ++ kept_lines (line_in lines.now) first) }
{
    add_marked(patch, b' ', line_bytes(lines, first))?;
    add_marked(patch, b' ', line_bytes(lines, first + 1))?;
    add_marked(patch, b' ', line_bytes(lines, first + 2))
}

/// Adds the hunk whose seven lines begin at this one.
fn add_hunk(patch: &mut Vec<u8>, lines: &[u8], start: u32, new: &[u8]) -> Result<(), AllocError>
    requires within { (1 ≤ start) × (12 * (start + 6) ≤ length lines.now) }
    requires small { start < 2 ^ 30 }
    ensures { OnOk result (patch.new.items ≡ patch.old.items ++ hunk_from (line_in lines.now) start new.now) }
{
    add_range_line(patch, start)?;
    add_kept(patch, lines, start)?;
    add_marked(patch, b'-', line_bytes(lines, start + 3))?;
    add_marked(patch, b'+', new)?;
    add_kept(patch, lines, start + 4)
}

fn add_hunks(patch: &mut Vec<u8>, lines: &[u8], count: u32) -> Result<(), AllocError>
    requires { (count ≤ 500_000) × (240 * count ≤ length lines.now) }
    ensures { OnOk result (patch.new.items ≡ patch.old.items ++ flat_map (hunk_text (line_in lines.now)) (range_with_len 1 count)) }
{
    for done in 0..count {
        let number = done + 1;
        let new = new_bytes(20 * number - 10);
        add_hunk(patch, lines, 20 * number - 13, &new)?;
    }
    Ok(())
}

/// Adds the part of the patch over the file of this number.
pub fn add_file_patch(
    patch: &mut Vec<u8>,
    lines: &[u8],
    number: u32,
    hunks: u32,
) -> Result<(), AllocError>
    requires { (hunks ≤ 500_000) × (240 * hunks ≤ length lines.now) }
    ensures { OnOk result (patch.new.items ≡ patch.old.items ++ file_patch (line_in lines.now) number hunks) }
{
    add_name(patch, b"--- gen/f", number)?;
    add_name(patch, b"+++ gen/f", number)?;
    add_hunks(patch, lines, hunks)
}
