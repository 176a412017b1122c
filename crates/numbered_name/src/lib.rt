//! The names of numbered backups, as `f.~2~` (GNU patch manual, "Backup Files"). Stands on the names of `outside`. Begin with this
//! file.
#![tactic(auto)]

ghost use Rattle.std.specs.Prelude.{◌≡◌, ◌≢◌, ◌↔◌, ◌-◌, ◌^◌, ◌<◌, ◌++◌, ℕ, List, IsTrue, Some, IfOk, MatchOption, codes, min};
ghost use Rattle.num_text.specs.Numbers.{decimal, is_digit, value_after};
ghost use Rattle.outside.specs.Names.{IsPatchName};
ghost use Rattle.outside.specs.Numbered.{numbered};

use num_text::put_number;
use outside::Name;
use std::alloc::{AllocError, Global};

/// The name of the backup with this number.
pub fn numbered(alloc: Global, name: &Name, n: u64) -> Result<Name, AllocError>
    ensures text { IfOk result (λ made. made ≡ numbered name.now n) }
    ensures patch { IsPatchName name.now → IfOk result IsPatchName }
{
    let ending = format!(in alloc; ".~{n}~")?;
    name.followed_by(alloc, ending.as_str())
}

/// The number of the backup of a name that another one is, if it is one. The greatest `u64` is no number of a backup.
pub fn number_of(name: &[u8], entry: &[u8]) -> Option<u64>
    ensures { (n : ℕ) → (result ≡ Some n) ↔ ((entry.now ≡ numbered name.now n) × (n < 2 ^ 64 - 1)) }
{
    let Some(digits) = digits_of(name, entry) else {
        return None;
    };
    let number = value_of(digits);
    if number < u64::MAX && is_decimal(digits, number) {
        Some(number)
    } else {
        None
    }
}

// What stands between the name with `.~` behind it and a `~` at the end.
fn digits_of<'a>(name: &[u8], entry: &'a [u8]) -> Option<&'a [u8]>
    ensures { MatchOption result ((ds : List ℕ) → entry.now ≢ name.now ++ codes ".~" ++ ds ++ codes "~") (λ ds. entry.now ≡ name.now ++ codes ".~" ++ ds.now ++ codes "~") }
{
    let Some(front) = entry.strip_suffix(b"~") else {
        return None;
    };
    let Some(ending) = front.strip_prefix(name) else {
        return None;
    };
    ending.strip_prefix(b".~")
}

fn is_digit(byte: u8) -> bool
    ensures { result ≡ is_digit byte }
{
    b'0' <= byte && byte <= b'9'
}

// The number that the digits at the front write, the greatest `u64` for a greater one.
fn value_of(digits: &[u8]) -> u64
    ensures { result ≡ min (value_after 0 digits.now) (2 ^ 64 - 1) }
{
    let mut value: u64 = 0;
    for i in 0..digits.len() {
        let digit = digits[i];
        if !is_digit(digit) {
            return value;
        }
        value = value
            .saturating_mul(10)
            .saturating_add(u64::from(digit - b'0'));
    }
    value
}

// Whether these are the digits of the number: no zero stands in front of others.
fn is_decimal(digits: &[u8], number: u64) -> bool
    ensures { IsTrue result ↔ (digits.now ≡ decimal number) }
{
    let mut written = [0; 20];
    let count = put_number(number, &mut written);
    digits == &written[..count]
}

#[test]
fn backups_have_numbers(rt: HostRuntime) {
    let rows: [(&[u8], &[u8], Option<u64>); 8] = [
        (b"f", b"f.~1~", Some(1)),
        (b"f", b"f.~0~", Some(0)),
        (b"f", b"f.~01~", None),
        (b"f", b"f.~12~", Some(12)),
        (
            b"f",
            b"f.~18446744073709551614~",
            Some(18446744073709551614),
        ),
        (b"f", b"f.~18446744073709551615~", None),
        (b"f", b"g.~1~", None),
        (b"f", b"f.~~", None),
    ];
    for (name, entry, number) in rows {
        assert_eq!(rt; number_of(name, entry), number);
    }
}
