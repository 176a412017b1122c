//! The one name by which a filter knows a file patch.
ghost use Rattle.std.specs.Prelude.{◌≡◌};
ghost use Rattle.std.specs.Option.{option_copied, option_or};
ghost use Rattle.read_file_patch.specs.PlainPatch.{header_of};
ghost use Rattle.patch_set.specs.PlainName.{better_of, file_name, plain_name};

use crate::names::bytes_in;
use name_choice::is_better;
use read_header_record::Header;

/// The better one of the old and the new name of a header, or else the name that its file is renamed or copied to, or else
/// the name of its `Index:` line, or else the empty text.
pub fn plain_name<'t>(text: &'t [u8], header: &Header) -> &'t [u8]
    ensures { result.now ≡ plain_name (header_of text.now header.now) }
{
    let old = file_name(bytes_in(text, header.old_name));
    let new = file_name(bytes_in(text, header.new_name));
    let other = first_of(bytes_in(text, header.to), bytes_in(text, header.index));
    match first_of(better_of(old, new), other) {
        Some(name) => name,
        None => b"",
    }
}

/// The name, unless it is `/dev/null`.
fn file_name(name: Option<&[u8]>) -> Option<&[u8]>
    ensures { option_copied result ≡ file_name (option_copied name.entry) }
{
    let name = name?;
    if name == b"/dev/null".as_slice() {
        return None;
    }
    Some(name)
}

fn better_of<'t>(first: Option<&'t [u8]>, second: Option<&'t [u8]>) -> Option<&'t [u8]>
    ensures { option_copied result ≡ better_of (option_copied first.entry) (option_copied second.entry) }
{
    match (first, second) {
        (None, _) => second,
        (_, None) => first,
        (Some(one), Some(other)) => { if is_better(other, one) { second } else { first } }
    }
}

fn first_of<'t>(one: Option<&'t [u8]>, other: Option<&'t [u8]>) -> Option<&'t [u8]>
    ensures { option_copied result ≡ option_or (option_copied one.entry) (option_copied other.entry) }
{
    match one {
        Some(_) => one,
        None => other,
    }
}
