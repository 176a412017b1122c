//! Lines with and without their carriage returns.

ghost use Rattle.std.specs.Prelude.{◌≡◌, ◌≤◌, ◌++◌, true, length, IfOk};
ghost use Rattle.read_clean_text.specs.Bare.{bare_line, bare_text, has_return, returns_of};
ghost use Rattle.read_clean_text.specs.Cleaned.{line_unless};

use line_list::next_line;
use std::alloc::{AllocError, Global};

/// Whether the line ends with a carriage return and a line feed.
pub fn has_return(line: &[u8]) -> bool
    ensures is { result ≡ has_return line.now }
    ensures bound { result ≡ true → 2 ≤ length line.now }
{
    line.ends_with(b"\r\n")
}

/// How long the line is without its carriage return.
pub fn bare_length(line: &[u8]) -> usize
    ensures is { result ≡ length (bare_line line.now) }
    ensures less { result ≤ length line.now }
{
    if has_return(line) {
        line.len() - 1
    } else {
        line.len()
    }
}

/// Puts the line down, without its carriage return.
fn put_bare(out: &mut Vec<u8>, line: &[u8]) -> Result<(), AllocError>
    ensures { IfOk result (λ done. out.new.items ≡ out.old.items ++ bare_line line.now) }
{
    if !has_return(line) {
        out.extend_from_slice(line)?;
        return Ok(());
    }
    out.extend_from_slice(&line[..line.len() - 2])?;
    out.push(b'\n')?;
    Ok(())
}

/// Puts the line down, without its carriage return where it loses it.
pub fn put_line(out: &mut Vec<u8>, line: &[u8], loses: bool) -> Result<(), AllocError>
    ensures { IfOk result (λ done. out.new.items ≡ out.old.items ++ line_unless loses line.now) }
{
    if loses {
        return put_bare(out, line);
    }
    out.extend_from_slice(line)?;
    Ok(())
}

/// The text without its carriage returns, and which lines had one.
pub fn bare_of(alloc: Global, text: &[u8]) -> Result<(Vec<u8>, Vec<bool>), AllocError>
    ensures text { IfOk result (λ x. x.0.items ≡ bare_text text.now) }
    ensures returns { IfOk result (λ x. x.1.items ≡ returns_of text.now) }
    ensures length { IfOk result (λ x. length x.0.items ≤ length text.now) }
{
    let mut out = Vec::with_capacity(alloc, text.len())?;
    let mut returns = Vec::new(alloc);
    let mut at = 0;
    'lines: while let Some(end) = next_line(text, at) {
        let line = &text[at..end];
        put_bare(&mut out, line)?;
        returns.push(has_return(line))?;
        at = end;
    }
    Ok((out, returns))
}
