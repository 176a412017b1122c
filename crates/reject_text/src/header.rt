//! The two lines in front of the hunks.

ghost use Rattle.std.specs.Prelude.{◌≡◌};
ghost use Rattle.outside.specs.Puts.{Puts};
ghost use Rattle.reject_text.specs.Headers.{IsRejectForm, name_line, headers};
ghost use Rattle.patch_header.specs.Written.{old_mark, new_mark, holds_space, name_end};

use hunk_core::Form;
use outside::{Failed, Sink, put_all};

fn old_mark(form: Form) -> &'static [u8]
    ensures { result.now ≡ old_mark form }
{
    match form {
        Form::Unified => b"--- ",
        Form::Context => b"*** ",
        Form::Normal | Form::Ed => b"",
    }
}

fn new_mark(form: Form) -> &'static [u8]
    ensures { result.now ≡ new_mark form }
{
    match form {
        Form::Unified => b"+++ ",
        Form::Context => b"--- ",
        Form::Normal | Form::Ed => b"",
    }
}

fn has_space(name: &[u8]) -> bool
    ensures { result ≡ holds_space name.now }
{
    name.contains(&b' ')
}

fn name_end(name: &[u8]) -> &'static [u8]
    ensures { result.now ≡ name_end name.now }
{
    if has_space(name) { b"\t\n" } else { b"\n" }
}

fn put_name_line<O: Sink>(out: &mut O, mark: &[u8], name: &[u8]) -> Result<(), Failed>
    ensures { Puts O.view O.same_rest out.old out.new result (name_line mark.now name.now) }
{
    put_all(out, mark)?;
    put_all(out, name)?;
    put_all(out, name_end(name))
}

/// The name is the same on both sides.
pub fn put_headers<O: Sink>(out: &mut O, form: Form, name: &[u8]) -> Result<(), Failed>
    ensures { Puts O.view O.same_rest out.old out.new result (headers form name.now) }
{
    put_name_line(out, old_mark(form), name)?;
    put_name_line(out, new_mark(form), name)
}
