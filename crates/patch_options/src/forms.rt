//! The forms that values have.
ghost use Rattle.std.specs.Prelude.{◌≡◌, ◌&&◌, ◌||◌, nat_le};
ghost use Rattle.std.specs.List.{list_all};
ghost use Rattle.outside.specs.Files.{is_temp};
ghost use Rattle.patch_options.specs.Forms.{number_of, buffer_of, plan_of, reject_form_of, is_suffix, is_front, names_simple, names_existing, names_numbered, backup_numbers_of, is_digit, are_digits, is_get, is_quoting_style, read_only_of, sync_of, begins_name, goes_on_name, is_macro_name};

use crate::{BackupNumbers, PlanKind, ReadOnlyFiles, SyncKind};
use hunk_core::Form;
use num_text::{Number, read_number};
use outside::is_ending;

/// The number that the text writes: digits and nothing else.
#[tactic(auto, unfolding(crate::specs::Forms::number_of))]
pub fn number_of(text: &str) -> Option<u32>
    ensures { result ≡ number_of text.now }
{
    match read_number(text.as_bytes(), 0) {
        Number::Value { value, end } if end == text.len() => Some(value),
        _ => None,
    }
}

/// The size of a buffer, from 512 to 1,048,576.
#[tactic(auto, unfolding(crate::specs::Forms::buffer_of))]
pub fn buffer_of(text: &str) -> Option<u32>
    ensures { result ≡ buffer_of text.now }
{
    match number_of(text) {
        Some(size) if 512 <= size && size <= 1_048_576 => Some(size),
        _ => None,
    }
}

#[tactic(auto, unfolding(crate::specs::Forms::plan_of))]
pub fn plan_of(text: &str) -> Option<PlanKind>
    ensures { result ≡ plan_of text.now }
{
    match text {
        "a" => Some(PlanKind::Whole),
        "b" => Some(PlanKind::Padded),
        "packed" => Some(PlanKind::Packed),
        "auto" => Some(PlanKind::Auto),
        _ => None,
    }
}

#[tactic(auto, unfolding(crate::specs::Forms::reject_form_of))]
pub fn reject_form_of(text: &str) -> Option<Form>
    ensures { result ≡ reject_form_of text.now }
{
    match text {
        "context" => Some(Form::Context),
        "unified" => Some(Form::Unified),
        _ => None,
    }
}

/// Whether it may be the suffix of backups.
#[tactic(auto, unfolding(crate::specs::Forms::is_suffix))]
pub fn is_suffix(text: &str) -> bool
    ensures { result ≡ is_suffix text.now }
{
    if text.is_empty() || !is_ending(text) {
        return false;
    }
    !ends_as_temporary(text)
}

/// Whether the text is the word, or a front of it.
#[tactic(auto, unfolding(crate::specs::Forms::is_front))]
pub fn is_front(text: &str, word: &str) -> bool
    ensures { result ≡ is_front text.now word.now }
{
    word.as_bytes().starts_with(text.as_bytes())
}

/// The kind of backups that the text names, whole or cut short, where it names no other kind.
#[tactic(auto, unfolding(crate::specs::Forms::backup_numbers_of))]
pub fn backup_numbers_of(text: &str) -> Option<BackupNumbers>
    ensures { result ≡ backup_numbers_of text.now }
{
    match (
        names_simple(text),
        names_existing(text),
        names_numbered(text),
    ) {
        (true, false, false) => Some(BackupNumbers::Never),
        (false, true, false) => Some(BackupNumbers::Existing),
        (false, false, true) => Some(BackupNumbers::Always),
        _ => None,
    }
}

fn names_simple(text: &str) -> bool
    ensures { result ≡ names_simple text.now }
{
    is_one_front(text, "none", "off") || is_one_front(text, "simple", "never")
}

fn names_existing(text: &str) -> bool
    ensures { result ≡ names_existing text.now }
{
    is_one_front(text, "existing", "nil")
}

fn names_numbered(text: &str) -> bool
    ensures { result ≡ names_numbered text.now }
{
    is_one_front(text, "numbered", "t")
}

fn is_one_front(text: &str, one: &str, other: &str) -> bool
    ensures { result ≡ (is_front text.now one.now || is_front text.now other.now) }
{
    is_front(text, one) || is_front(text, other)
}

/// Whether the text writes a number, behind a sign or none. Files are got from no other system, whatever it is.
#[tactic(auto, unfolding(crate::specs::Forms::is_get))]
pub fn is_get(text: &str) -> bool
    ensures { result ≡ is_get text.now }
{
    match text.as_bytes() {
        [b'+' | b'-', rest @ ..] => are_digits(rest),
        digits => are_digits(digits),
    }
}

fn are_digits(text: &[u8]) -> bool
    ensures { result ≡ are_digits text.now }
{
    !text.is_empty() && all_digits(text)
}

fn all_digits(text: &[u8]) -> bool
    ensures { result ≡ list_all is_digit text.now }
{
    text.iter().all(|byte| is_digit(*byte))
}

fn is_digit(byte: u8) -> bool
    ensures { result ≡ is_digit byte }
{
    b'0' <= byte && byte <= b'9'
}

/// Whether GNU `patch` writes names in a way that the text names. Here they are written as they are.
#[tactic(auto, unfolding(crate::specs::Forms::is_quoting_style))]
pub fn is_quoting_style(text: &str) -> bool
    ensures { result ≡ is_quoting_style text.now }
{
    match text {
        "literal" | "shell" | "shell-always" | "c" | "escape" => true,
        _ => false,
    }
}

/// What is done about files that may not be written to, if the text says that.
#[tactic(auto, unfolding(crate::specs::Forms::read_only_of))]
pub fn read_only_of(text: &str) -> Option<ReadOnlyFiles>
    ensures { result ≡ read_only_of text.now }
{
    match text {
        "warn" => Some(ReadOnlyFiles::Told),
        "ignore" => Some(ReadOnlyFiles::Replaced),
        "fail" => Some(ReadOnlyFiles::Refused),
        _ => None,
    }
}

/// When what is written is on the disk, if the text says that.
#[tactic(auto, unfolding(crate::specs::Forms::sync_of))]
pub fn sync_of(text: &str) -> Option<SyncKind>
    ensures { result ≡ sync_of text.now }
{
    match text {
        "each" => Some(SyncKind::Each),
        "none" => Some(SyncKind::Never),
        _ => None,
    }
}

/// Whether a condition of the C preprocessor can test the name.
pub fn is_macro_name(text: &str) -> bool
    ensures { result ≡ is_macro_name text.now }
{
    match text.as_bytes() {
        [first, rest @ ..] => begins_name(*first) && all_go_on(rest),
        [] => false,
    }
}

/// Whether each byte may stand behind the first one of such a name.
fn all_go_on(bytes: &[u8]) -> bool
    ensures { result ≡ list_all goes_on_name bytes.now }
{
    bytes.iter().all(|byte| goes_on_name(*byte))
}

fn goes_on_name(byte: u8) -> bool
    ensures { result ≡ goes_on_name byte }
{
    begins_name(byte) || (b'0' <= byte && byte <= b'9')
}

fn begins_name(byte: u8) -> bool
    ensures { result ≡ begins_name byte }
{
    byte == b'_' || is_letter(byte)
}

fn is_letter(byte: u8) -> bool
    ensures { result ≡ ((nat_le 65 byte && nat_le byte 90) || (nat_le 97 byte && nat_le byte 122)) }
{
    (b'A' <= byte && byte <= b'Z') || (b'a' <= byte && byte <= b'z')
}

/// Whether the text ends as the name of a temporary does.
#[tactic(auto, unfolding(outside::specs::Files::is_temp))]
fn ends_as_temporary(text: &str) -> bool
    ensures { result ≡ is_temp text.now }
{
    text.as_bytes().ends_with(b".ptmp")
}
