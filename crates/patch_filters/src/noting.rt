//! Hunks that are told by their numbers, or of which the lines of one side are written with numbers.

ghost use Rattle.std.specs.Prelude.{◌≡◌, ◌<◌, ◌++◌, IfOk, OnOk};
ghost use Rattle.std.specs.List.{flat_map, range_with_len};
ghost use Rattle.read_file_patch.specs.PlainPatch.{hunk_count, row_count};
ghost use Rattle.patch_filters.specs.Told.{note, noted_hunks, noted_if, numbered_change, told_hunks};
ghost use Rattle.patch_filters.specs.Rows.{IsRow, front, plain, telling, texts};

use crate::appending::{put, put_decimal};
use crate::numbering::put_numbered_hunks;
use crate::row_parts::{Row, front, is_kept, name, piece};
use cli_tool_words::Numbered;
use filter_style::{put_front, put_noted, put_side_front};
use read_file_patch::Change;
use std::alloc::{AllocError, Global};

/// Adds what a hunk is told by, if it is: its number in its file patch, and the name of that.
fn put_note(out: &mut Vec<u8>, annotate: bool, number: u64, name: &[u8]) -> Result<(), AllocError>
    ensures { OnOk result (out.new.items ≡ out.old.items ++ note annotate number name.now) }
{
    if !annotate {
        return Ok(());
    }
    put(out, b" Hunk #")?;
    put_decimal(out, number)?;
    put(out, b", ")?;
    put(out, name)
}

fn note(alloc: Global, annotate: bool, number: u64, name: &[u8]) -> Result<Vec<u8>, AllocError>
    ensures { IfOk result (λ made. made.items ≡ note annotate number name.now) }
{
    let mut made = Vec::new(alloc);
    put_note(&mut made, annotate, number, name)?;
    Ok(made)
}

/// Adds the text of a hunk, if it is kept.
fn put_noted_if(
    alloc: Global,
    row: &Row<'_>,
    hunk: u32,
    out: &mut Vec<u8>,
) -> Result<(), AllocError>
    requires row { IsRow row.now }
    requires hunk { hunk < row_count row.now.row.now.change }
    ensures { OnOk result (out.new.items ≡ out.old.items ++ noted_if (telling row.now) row.now.flags.now (plain row.now) (texts row.now) hunk) }
{
    if !is_kept(row, hunk) {
        return Ok(());
    }
    let number = u64::from(hunk) + 1;
    let note = note(alloc, row.marks.annotate, number, name(row))?;
    let form = row.row.header.form;
    let done = put_noted(out, row.style.clean, &note, form, piece(row, hunk));
    drop(note);
    done
}

/// Adds the lines in front of the hunks of a file patch, and the hunks that are kept.
fn put_noted_hunks(alloc: Global, row: &Row<'_>, out: &mut Vec<u8>) -> Result<(), AllocError>
    requires { IsRow row.now }
    ensures { OnOk result (out.new.items ≡ out.old.items ++ noted_hunks (telling row.now) row.now.flags.now (plain row.now) (front row.now) (texts row.now)) }
{
    put_front(out, row.style, row.row.header.form, front(row))?;
    put_noted_each(alloc, row, out)
}

fn put_noted_each(alloc: Global, row: &Row<'_>, out: &mut Vec<u8>) -> Result<(), AllocError>
    requires { IsRow row.now }
    ensures { OnOk result (out.new.items ≡ out.old.items ++ flat_map (noted_if (telling row.now) row.now.flags.now (plain row.now) (texts row.now)) (range_with_len 0 (hunk_count (plain row.now).change))) }
{
    for hunk in 0..row.row.hunks() {
        put_noted_if(alloc, row, hunk, out)?;
    }
    Ok(())
}

/// Adds the lines of one side of a file patch.
fn put_numbered_change(
    alloc: Global,
    row: &Row<'_>,
    side: Numbered,
    out: &mut Vec<u8>,
) -> Result<(), AllocError>
    requires { IsRow row.now }
    ensures { OnOk result (out.new.items ≡ out.old.items ++ numbered_change (telling row.now) side row.now.flags.now (plain row.now) (front row.now) (texts row.now) (plain row.now).change) }
{
    match &row.row.change {
        Change::Hunks(hunks) => {
            let form = row.row.header.form;
            put_side_front(out, row.style, row.verbose, side, form, front(row))?;
            put_numbered_hunks(row, side, hunks, out)
        }
        Change::Script(_) => put_noted_hunks(alloc, row, out),
    }
}

/// Adds what is written of a file patch of which a hunk is kept.
pub fn put_told_hunks(alloc: Global, row: &Row<'_>, out: &mut Vec<u8>) -> Result<(), AllocError>
    requires { IsRow row.now }
    ensures { OnOk result (out.new.items ≡ out.old.items ++ told_hunks (telling row.now) row.now.marks.numbered row.now.flags.now (plain row.now) (front row.now) (texts row.now)) }
{
    match row.marks.numbered {
        Some(side) => put_numbered_change(alloc, row, side, out),
        None => put_noted_hunks(alloc, row, out),
    }
}
