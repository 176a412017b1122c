//! What stands around a name in a header line.

ghost use Rattle.std.specs.Prelude.{◌≡◌};
ghost use Rattle.flip_patch.specs.Marks.{shows_names};
ghost use Rattle.patch_header.specs.Written.{holds_space, name_end, new_mark, old_mark};

use hunk_core::Form;

/// Whether a form has a line for each name.
pub fn shows_names(form: Form) -> bool
    ensures { result ≡ shows_names form }
{
    match form {
        Form::Unified | Form::Context => true,
        Form::Normal | Form::Ed => false,
    }
}

pub fn old_mark(form: Form) -> &'static [u8]
    ensures { result.now ≡ old_mark form }
{
    match form {
        Form::Unified => b"--- ",
        Form::Context => b"*** ",
        Form::Normal | Form::Ed => b"",
    }
}

pub fn new_mark(form: Form) -> &'static [u8]
    ensures { result.now ≡ new_mark form }
{
    match form {
        Form::Unified => b"+++ ",
        Form::Context => b"--- ",
        Form::Normal | Form::Ed => b"",
    }
}

fn has_space(name: &[u8]) -> bool
    ensures { result ≡ holds_space name.now }
{
    name.contains(&b' ')
}

/// A tab keeps a name with a space in one piece.
pub fn name_end(name: &[u8]) -> &'static [u8]
    ensures { result.now ≡ name_end name.now }
{
    if has_space(name) { b"\t\n" } else { b"\n" }
}
