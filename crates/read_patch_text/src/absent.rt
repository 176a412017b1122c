//! Which side of a file patch is no file.

ghost use Rattle.std.specs.Prelude.{◌≡◌, ◌<◌, ◌^◌, ℕ, List, IfSome, length, sum_by};
ghost use Rattle.hunk_core.specs.PlainHunk.{hunks_of};
ghost use Rattle.patch_header.specs.Steps.{HasPieces};
ghost use Rattle.patch_header.specs.Values.{IsPieceOf};
ghost use Rattle.read_file_patch.specs.PlainPatch.{bytes_in, header_of, change_of, IsLawfulChange};
ghost use Rattle.read_file_patch.specs.Absent.{name_on, stamp_on, is_null, is_epoch, is_near_zero, is_one_empty, is_empty_on, is_empty_file, is_said_absent, is_absent};
ghost use Rattle.read_file_patch.specs.Actions.{is_new, is_deleted};
ghost use Rattle.read_patch_text.specs.Patches.{patch_with};

use hunk_core::{Hunk, Side};
use line_list::Span;
use read_file_patch::Change;
use read_header_record::{Action, Header};
use stamp::Stamp;

/// Whether a name is `/dev/null`.
fn is_null(text: &[u8], name: Option<Span>) -> bool
    requires { IfSome name (IsPieceOf text.now) }
    ensures { result ≡ is_null (bytes_in text.now name) }
{
    match name {
        None => false,
        Some(name) => &text[name.start as usize..name.end as usize] == b"/dev/null".as_slice(),
    }
}

fn is_epoch(stamp: Stamp) -> bool
    ensures { result ≡ is_epoch stamp }
{
    match stamp {
        Stamp::Known(time) if time.is_local => is_near_zero(time.seconds),
        Stamp::Known(time) => time.seconds == 0,
        Stamp::Unknown => false,
    }
}

/// Whether these are seconds that a clock of some zone may show where that of UTC shows 0.
fn is_near_zero(seconds: i64) -> bool
    ensures { result ≡ is_near_zero seconds }
{
    -90_000 < seconds && seconds < 93_600
}

/// Whether there is one hunk, which has no line on this side.
#[tactic(auto, using(crate::proofs::ChangeLemmas::one_empty))]
fn is_one_empty(side: Side, hunks: &[Hunk]) -> bool
    requires { sum_by (λ x. length x.body.items) hunks.now < 2 ^ 32 }
    ensures { (text : List ℕ) → result ≡ is_one_empty side (hunks_of text hunks.now) }
{
    hunks.len() == 1 && hunks[0].count(side) == 0
}

/// Whether a change has one hunk alone, which has no line on this side.
fn is_empty_on(side: Side, text: &[u8], change: &Change) -> bool
    requires { IsLawfulChange text.now change.now }
    ensures { result ≡ is_empty_on side (change_of text.now change.now) }
{
    match change {
        Change::Hunks(hunks) => is_one_empty(side, hunks),
        Change::Script(_) => false,
    }
}

fn name_on(side: Side, header: &Header) -> Option<Span>
    ensures is { (text : List ℕ) → bytes_in text result ≡ name_on side (header_of text header.now) }
    ensures piece { (text : List ℕ) → HasPieces text header.now → IfSome result (IsPieceOf text) }
{
    match side {
        Side::Forward => header.old_name,
        Side::Reversed => header.new_name,
    }
}

fn stamp_on(side: Side, header: &Header) -> Stamp
    ensures { (text : List ℕ) → result ≡ stamp_on side (header_of text header.now) }
{
    match side {
        Side::Forward => header.old_stamp,
        Side::Reversed => header.new_stamp,
    }
}

/// Whether a git header says that this side is no file.
fn is_said_absent(side: Side, action: Action) -> bool
    ensures { result ≡ is_said_absent side action }
{
    match side {
        Side::Forward => is_new(action),
        Side::Reversed => is_deleted(action),
    }
}

fn is_new(action: Action) -> bool
    ensures { result ≡ is_new action }
{
    match action {
        Action::New => true,
        Action::Plain | Action::Deleted | Action::Rename | Action::Copy => false,
    }
}

fn is_deleted(action: Action) -> bool
    ensures { result ≡ is_deleted action }
{
    match action {
        Action::Deleted => true,
        Action::Plain | Action::New | Action::Rename | Action::Copy => false,
    }
}

/// Whether a change has one hunk alone, which has no line on this side, and the side's stamp is the epoch.
fn is_empty_file(text: &[u8], side: Side, header: &Header, change: &Change) -> bool
    requires { IsLawfulChange text.now change.now }
    ensures { result ≡ is_empty_file side (patch_with text.now header.now (change_of text.now change.now)) }
{
    is_empty_on(side, text, change) && is_epoch(stamp_on(side, header))
}

/// Whether this side of a file patch is no file.
pub fn is_absent(text: &[u8], side: Side, header: &Header, change: &Change) -> bool
    requires pieces { HasPieces text.now header.now }
    requires lawful { IsLawfulChange text.now change.now }
    ensures { result ≡ is_absent side (patch_with text.now header.now (change_of text.now change.now)) }
{
    is_null(text, name_on(side, header))
        || is_said_absent(side, header.action)
        || is_empty_file(text, side, header, change)
}
