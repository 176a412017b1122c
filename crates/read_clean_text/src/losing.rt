//! Which lines lose their carriage returns.

ghost use Rattle.std.specs.Prelude.{◌≡◌, ◌≤◌, length, map, slice_get};
ghost use Rattle.read_patch_text.specs.Regions.{region_of};
ghost use Rattle.read_clean_text.specs.Cleaned.{comes_with_returns, is_in_front, is_of_file, is_own, loses, loses_in, one_tells, telling_line, tells_returns};
ghost use Rattle.read_clean_text.specs.Cleaning.{IsFoundFrom};

use hunk_core::Form;
use read_file_patch::FilePatch;
use read_header_record::Header;

fn telling_line(form: Form, opening: u64) -> u64
    ensures { result ≡ telling_line form opening }
{
    match form {
        Form::Unified | Form::Context => opening.saturating_sub(2),
        Form::Normal | Form::Ed => opening.saturating_sub(1),
    }
}

fn comes_with_returns(returns: &[bool], header: &Header) -> bool
    ensures { result ≡ comes_with_returns returns.now header.now }
{
    let index = telling_line(header.form, header.opening) as usize;
    returns.get(index).copied().unwrap_or(false)
}

fn tells_returns(returns: &[bool], header: &Header) -> bool
    ensures { result ≡ tells_returns returns.now header.now }
{
    !header.bare && comes_with_returns(returns, header)
}

/// Whether one of the file patches has hunks and comes with carriage returns.
pub fn one_tells(patches: &[FilePatch], returns: &[bool]) -> bool
    ensures { result ≡ one_tells returns.now (map region_of patches.now) }
{
    patches
        .iter()
        .any(|patch| tells_returns(returns, &patch.header))
}

fn is_in_front(header: &Header, at: usize) -> bool
    ensures { result ≡ is_in_front header.now at }
{
    header.bare || at < header.at
}

fn is_of_file(line: &[u8]) -> bool
    ensures { result ≡ is_of_file line.now }
{
    line.starts_with(b"<") || (line.starts_with(b">") || line.starts_with(b"\\"))
}

fn is_own(form: Form, line: &[u8]) -> bool
    ensures { result ≡ is_own form line.now }
{
    match form {
        Form::Unified => line.starts_with(b"@"),
        Form::Context => line.starts_with(b"**") || line.starts_with(b"--"),
        Form::Normal => !is_of_file(line),
        Form::Ed => false,
    }
}

fn loses_of(header: &Header, keeps: bool, returns: &[bool], at: usize, line: &[u8]) -> bool
    ensures { result ≡ loses keeps returns.now header.now at line.now }
{
    if is_in_front(header, at) {
        return true;
    }
    if !keeps && comes_with_returns(returns, header) {
        return true;
    }
    is_own(header.form, line)
}

/// Whether a line at a place loses its carriage return, where the place stands in the file patch with this number, or behind all.
pub fn loses_at(
    patches: &[FilePatch],
    next: usize,
    keeps: bool,
    returns: &[bool],
    at: usize,
    line: &[u8],
) -> bool
    ensures { result ≡ loses_in keeps returns.now (slice_get (map region_of patches.now) next) at line.now }
{
    match patches.get(next) {
        Some(patch) => loses_of(&patch.header, keeps, returns, at, line),
        None => false,
    }
}

/// The file patch in which a place stands, counted from 0: the first, from this one on, that ends behind it.
pub fn patch_at(patches: &[FilePatch], first: usize, at: usize) -> usize
    requires { first ≤ length patches.now }
    ensures { IsFoundFrom patches.now first result at }
{
    let mut next = first;
    'patches: while next < patches.len() {
        let patch = &patches[next];
        if at < patch.span.end as usize {
            return next;
        }
        next += 1;
    }
    next
}
