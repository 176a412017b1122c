//! What forms show.

ghost use Rattle.std.specs.Prelude.{◌≡◌};
ghost use Rattle.format_convert.specs.Fitting.{is_ed};
ghost use Rattle.format_convert.specs.Refusals.{is_normal, shows_context};

use hunk_core::Form;

/// Whether a form shows lines that aren't changed.
pub fn shows_context(form: Form) -> bool
    ensures { result ≡ shows_context form }
{
    match form {
        Form::Unified | Form::Context => true,
        Form::Normal | Form::Ed => false,
    }
}

pub fn is_normal(form: Form) -> bool
    ensures { result ≡ is_normal form }
{
    match form {
        Form::Unified | Form::Context | Form::Ed => false,
        Form::Normal => true,
    }
}

pub fn is_ed(form: Form) -> bool
    ensures { result ≡ is_ed form }
{
    match form {
        Form::Unified | Form::Context | Form::Normal => false,
        Form::Ed => true,
    }
}
