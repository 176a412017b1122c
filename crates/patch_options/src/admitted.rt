//! Whether the value of an option, if it was given, has its form.
ghost use Rattle.std.specs.Prelude.{◌≡◌, true, is_some};
ghost use Rattle.patch_options.specs.Forms.{number_of, buffer_of, plan_of, reject_form_of, is_suffix, backup_numbers_of, is_get, is_quoting_style, read_only_of, sync_of, is_macro_name};
ghost use Rattle.patch_options.specs.Table.{text_of, has_form};

use crate::forms::{
    backup_numbers_of, buffer_of, is_get, is_macro_name, is_quoting_style, is_suffix, number_of,
    plan_of, read_only_of, reject_form_of, sync_of,
};

/// Whether the text, if it was given, writes a number.
pub fn is_number(text: Option<&str>) -> bool
    ensures { result ≡ has_form (λ t. is_some (number_of t)) (text_of text.entry) }
{
    match text {
        Some(text) => number_of(text).is_some(),
        None => true,
    }
}

/// Whether the text, if it was given, writes the size of a buffer.
pub fn is_buffer(text: Option<&str>) -> bool
    ensures { result ≡ has_form (λ t. is_some (buffer_of t)) (text_of text.entry) }
{
    match text {
        Some(text) => buffer_of(text).is_some(),
        None => true,
    }
}

/// Whether the text, if it was given, names a plan.
pub fn is_plan(text: Option<&str>) -> bool
    ensures { result ≡ has_form (λ t. is_some (plan_of t)) (text_of text.entry) }
{
    match text {
        Some(text) => plan_of(text).is_some(),
        None => true,
    }
}

/// Whether the text, if it was given, says when what is written is on the disk.
pub fn is_sync(text: Option<&str>) -> bool
    ensures { result ≡ has_form (λ t. is_some (sync_of t)) (text_of text.entry) }
{
    match text {
        Some(text) => sync_of(text).is_some(),
        None => true,
    }
}

pub fn has_quoting_style(text: Option<&str>) -> bool
    ensures { result ≡ has_form is_quoting_style (text_of text.entry) }
{
    match text {
        Some(text) => is_quoting_style(text),
        None => true,
    }
}

pub fn has_read_only(text: Option<&str>) -> bool
    ensures { result ≡ has_form (λ t. is_some (read_only_of t)) (text_of text.entry) }
{
    match text {
        Some(text) => read_only_of(text).is_some(),
        None => true,
    }
}

pub fn is_reject_form(text: Option<&str>) -> bool
    ensures { result ≡ has_form (λ t. is_some (reject_form_of t)) (text_of text.entry) }
{
    match text {
        Some(text) => reject_form_of(text).is_some(),
        None => true,
    }
}

pub fn has_suffix_form(text: Option<&str>) -> bool
    ensures { result ≡ has_form is_suffix (text_of text.entry) }
{
    match text {
        Some(text) => is_suffix(text),
        None => true,
    }
}

pub fn has_backup_kind(text: Option<&str>) -> bool
    ensures { result ≡ has_form (λ t. is_some (backup_numbers_of t)) (text_of text.entry) }
{
    match text {
        Some(text) => backup_numbers_of(text).is_some(),
        None => true,
    }
}

pub fn has_macro_name(text: Option<&str>) -> bool
    ensures { result ≡ has_form is_macro_name (text_of text.entry) }
{
    match text {
        Some(text) => is_macro_name(text),
        None => true,
    }
}

pub fn has_get_form(text: Option<&str>) -> bool
    ensures { result ≡ has_form is_get (text_of text.entry) }
{
    match text {
        Some(text) => is_get(text),
        None => true,
    }
}
