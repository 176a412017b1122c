//! The text of a made file.

ghost use Rattle.std.specs.Prelude.{◌≡◌, ◌+◌, ◌-◌, ◌*◌, ◌%◌, ◌≤◌, ◌++◌, length, drop, IfOk, OnOk};
ghost use Rattle.std.specs.List.{flat_map, range_with_len};
ghost use Rattle.patch_gen.specs.Lcg.{draw, state_after};
ghost use Rattle.patch_gen.specs.Texts.{extra_line, numbered_line, extra_lines, file_text};

use crate::lcg::Lcg;
use std::alloc::{AllocError, Global};

/// The last digit.
pub fn digit(value: u32) -> u8
    ensures { result ≡ 48 + value % 10 }
{
    b'0' + (value % 10) as u8
}

fn extra_bytes(number: u32) -> [u8; 12]
    ensures { result ≡ extra_line number }
{
    [
        b'e',
        b'x',
        b't',
        b'r',
        b'a',
        b' ',
        digit(number / 10_000),
        digit(number / 1_000),
        digit(number / 100),
        digit(number / 10),
        digit(number),
        b'\n',
    ]
}

fn numbered_bytes(number: u32, value: u32) -> [u8; 12]
    ensures { result ≡ numbered_line number value }
{
    [
        digit(number / 1_000_000),
        digit(number / 100_000),
        digit(number / 10_000),
        digit(number / 1_000),
        digit(number / 100),
        digit(number / 10),
        digit(number),
        b' ',
        digit(value / 100),
        digit(value / 10),
        digit(value),
        b'\n',
    ]
}

fn add_extras(text: &mut Vec<u8>, count: u32) -> Result<(), AllocError>
    ensures { OnOk result (text.new.items ≡ text.old.items ++ extra_lines count) }
{
    for done in 0..count {
        text.extend_from_slice(&extra_bytes(done + 1))?;
    }
    Ok(())
}

/// Adds the numbered lines, one draw for each.
fn add_numbered(text: &mut Vec<u8>, draws: &mut Lcg, lines: u32) -> Result<(), AllocError>
    ensures text { OnOk result (text.new.items ≡ text.old.items ++ flat_map (λ j. numbered_line j (draw draws.old.state j % 1000)) (range_with_len 1 lines)) }
    ensures state { OnOk result (draws.new.state ≡ state_after draws.old.state lines) }
{
    for done in 0..lines {
        let value = draws.next_draw() % 1000;
        text.extend_from_slice(&numbered_bytes(done + 1, value))?;
    }
    Ok(())
}

/// Makes a file of so many numbered lines.
pub fn file_of(alloc: Global, draws: &mut Lcg, lines: u32) -> Result<Vec<u8>, AllocError>
    ensures text { IfOk result (λ text. text.items ≡ file_text draws.old.state lines) }
    ensures state { OnOk result (draws.new.state ≡ state_after draws.old.state (1 + lines)) }
{
    let count = draws.next_draw() % 5;
    let mut text = Vec::with_capacity(alloc, (count as usize + lines as usize) * 12)?;
    add_extras(&mut text, count)?;
    add_numbered(&mut text, draws, lines)?;
    Ok(text)
}

/// The numbered lines of a file.
pub fn without_extras(text: &[u8], lines: u32) -> &[u8]
    requires { 12 * lines ≤ length text.now }
    ensures { result.now ≡ drop (length text.now - 12 * lines) text.now }
{
    &text[text.len() - 12 * lines as usize..]
}
