//! The time that a stamp in a header line says, as `diff` and git write dates there; or that it says none. Stands on `jiff` for the
//! calendar. Begin with `specs/Forms.antt`.
#![tactic(auto)]

ghost use Rattle.std.specs.Prelude.{◌≡◌, ◌↔◌, ℕ, ◌<◌, ◌≤◌, ◌+◌, length, drop, IfSome, ℤ, pos, neg_ℤ, ◌+ℤ◌, ◌*ℤ◌, option_map, slice_range};
ghost use Rattle.jiff.specs.Words.{IsBetween};
ghost use Rattle.stamp.specs.Forms.{IsStamp};
ghost use Rattle.stamp.specs.Reading.{stands, digit_at, two_at, four_at, day_number, clock_of, numeric_day, offset_of, zone_of, after_fraction, worth_in, nanoseconds_in, numeric_of, place_among, day_of, named_day, named_of, stamp_of};

use jiff::civil::Date;
use num_text::digits_end;
use outside::Time;

/// What a stamp says: a time, or nothing that is known.
#[derive(Clone, Copy, Debug)]
pub enum Stamp {
    Known(Time),
    Unknown,
}

const WEEKDAYS: [[u8; 3]; 7] = [
    *b"Mon", *b"Tue", *b"Wed", *b"Thu", *b"Fri", *b"Sat", *b"Sun",
];

const MONTHS: [[u8; 3]; 12] = [
    *b"Jan", *b"Feb", *b"Mar", *b"Apr", *b"May", *b"Jun", *b"Jul", *b"Aug", *b"Sep", *b"Oct",
    *b"Nov", *b"Dec",
];

// Seconds since 1970-01-01 00:00:00, by the day and the seconds since midnight.
fn seconds_from(day: i64, clock: u32) -> i64
    requires days { IsBetween (neg_ℤ (pos 10000000)) (pos 10000000) day }
    requires clocks { clock < 86400 }
    ensures value { result ≡ day *ℤ pos 86_400 +ℤ pos clock }
    ensures bound { IsBetween (neg_ℤ (pos 1000000000000)) (pos 1000000000000) result }
{
    day * 86400 + i64::from(clock)
}

fn is_byte(text: &[u8], at: usize, byte: u8) -> bool
    requires { 0 < byte }
    ensures { result ≡ stands text.now at byte }
{
    at < text.len() && text[at] == byte
}

#[tactic(auto, unfolding(crate::specs::Reading::digit_at))]
fn digit(text: &[u8], at: usize) -> Option<u32>
    ensures value { result ≡ digit_at text.now at }
    ensures bound { IfSome result (λ n. n < 10) }
{
    if at < text.len() && b'0' <= text[at] && text[at] <= b'9' {
        Some(u32::from(text[at] - b'0'))
    } else {
        None
    }
}

#[tactic(auto, unfolding(crate::specs::Reading::two_at))]
fn two_digits(text: &[u8], at: usize) -> Option<u32>
    requires { at < 100 }
    ensures value { result ≡ two_at text.now at }
    ensures bound { IfSome result (λ n. n < 100) }
{
    let tens = digit(text, at)?;
    let ones = digit(text, at + 1)?;
    Some(tens * 10 + ones)
}

#[tactic(auto, unfolding(crate::specs::Reading::four_at))]
fn four_digits(text: &[u8], at: usize) -> Option<u32>
    requires { at < 90 }
    ensures value { result ≡ four_at text.now at }
    ensures bound { IfSome result (λ n. n < 10000) }
{
    let high = two_digits(text, at)?;
    let low = two_digits(text, at + 2)?;
    Some(high * 100 + low)
}

// Days since 1970-01-01.
#[tactic(auto, unfolding(crate::specs::Reading::day_number))]
fn day_from(year: u32, month: u32, day: u32) -> Option<i64>
    requires years { year < 10000 }
    requires months { month < 100 }
    requires days { day < 100 }
    ensures value { result ≡ day_number year month day }
    ensures bound { IfSome result (IsBetween (neg_ℤ (pos 10000000)) (pos 10000000)) }
{
    if year == 0 {
        return None;
    }
    match Date::new(year as i16, month as i8, day as i8) {
        Ok(date) => Some(i64::from(date.to_plain().to_unix_epoch_day())),
        Err(_) => None,
    }
}

// Seconds since midnight.
#[tactic(auto, unfolding(crate::specs::Reading::clock_of))]
fn clock(text: &[u8]) -> Option<u32>
    ensures value { result ≡ clock_of text.now }
    ensures bound { IfSome result (λ n. n < 86400) }
{
    let hour = two_digits(text, 11)?;
    let minute = two_digits(text, 14)?;
    let second = two_digits(text, 17)?;
    if is_byte(text, 13, b':')
        && is_byte(text, 16, b':')
        && hour <= 23
        && minute <= 59
        && second <= 59
    {
        Some(hour * 3600 + minute * 60 + second)
    } else {
        None
    }
}

#[tactic(auto, unfolding(crate::specs::Reading::numeric_day))]
fn numeric_date(text: &[u8]) -> Option<i64>
    ensures value { result ≡ numeric_day text.now }
    ensures bound { IfSome result (IsBetween (neg_ℤ (pos 10000000)) (pos 10000000)) }
{
    let year = four_digits(text, 0)?;
    let month = two_digits(text, 5)?;
    let day = two_digits(text, 8)?;
    if is_byte(text, 4, b'-') && is_byte(text, 7, b'-') && is_byte(text, 10, b' ') {
        day_from(year, month, day)
    } else {
        None
    }
}

// Seconds to the east of UTC.
#[tactic(auto, unfolding(crate::specs::Reading::offset_of))]
fn offset(rest: &[u8]) -> Option<i64>
    ensures value { result ≡ offset_of rest.now }
    ensures bound { IfSome result (IsBetween (neg_ℤ (pos 86400)) (pos 86400)) }
{
    let hours = two_digits(rest, 2)?;
    let minutes = two_digits(rest, 4)?;
    if rest.len() == 6 && is_byte(rest, 0, b' ') && hours <= 23 && minutes <= 59 {
        let seconds = i64::from(hours * 3600 + minutes * 60);
        match rest[1] {
            b'+' => Some(seconds),
            b'-' => Some(-seconds),
            _ => None,
        }
    } else {
        None
    }
}

// Seconds to the east of UTC, which are 0 where no zone is told.
#[tactic(auto, unfolding(crate::specs::Reading::zone_of))]
fn zone(rest: &[u8]) -> Option<i64>
    ensures value { result ≡ zone_of rest.now }
    ensures bound { IfSome result (IsBetween (neg_ℤ (pos 86400)) (pos 86400)) }
{
    if rest.is_empty() {
        Some(0)
    } else {
        offset(rest)
    }
}

// The place after a fraction at `at`, which is `at` where there is none.
#[tactic(auto, unfolding(crate::specs::Reading::after_fraction))]
fn fraction_end(text: &[u8], at: usize) -> usize
    requires { at ≤ length text.now }
    ensures low { at ≤ result }
    ensures high { result ≤ length text.now }
    ensures rest { drop result text.now ≡ after_fraction (drop at text.now) }
{
    if is_byte(text, at, b'.') {
        let end = digits_end(text, at + 1);
        if end > at + 1 {
            return end;
        }
    }
    at
}

// What the digits at `at` come to in billionths: the first counts 100,000,000.
fn billionths(text: &[u8], at: usize) -> u32
    ensures value { result ≡ worth_in 100_000_000 (drop at text.now) }
    ensures bound { result < 1_000_000_000 }
{
    let mut value = 0;
    let mut unit = 100_000_000;
    let mut place = at;
    while let Some(digit) = digit(text, place) {
        value += digit * unit;
        unit /= 10;
        place += 1;
    }
    value
}

// The nanoseconds of a fraction at `at`, 0 where there is none.
#[tactic(auto, unfolding(crate::specs::Reading::nanoseconds_in))]
fn nanoseconds(text: &[u8], at: usize) -> u32
    ensures value { result ≡ nanoseconds_in (drop at text.now) }
    ensures bound { result < 1_000_000_000 }
{
    if is_byte(text, at, b'.') {
        billionths(text, at + 1)
    } else {
        0
    }
}

#[tactic(auto, unfolding(crate::specs::Reading::numeric_of))]
fn numeric(text: &[u8]) -> Option<Time>
    ensures { result ≡ numeric_of text.now }
{
    let day = numeric_date(text)?;
    let clock = clock(text)?;
    let rest = &text[fraction_end(text, 19)..];
    let zone = zone(rest)?;
    Some(Time {
        seconds: seconds_from(day, clock) - zone,
        nanoseconds: nanoseconds(text, 19),
        is_local: rest.is_empty(),
    })
}

#[tactic(auto, unfolding(crate::specs::Reading::named_of))]
fn named(text: &[u8]) -> Option<Time>
    ensures { result ≡ named_of text.now }
{
    if text.len() != 24 {
        return None;
    }
    let day = named_date(text)?;
    let clock = clock(text)?;
    Some(Time {
        seconds: seconds_from(day, clock),
        nanoseconds: 0,
        is_local: true,
    })
}

#[tactic(auto, unfolding(crate::specs::Reading::place_among))]
fn place_of(names: &[[u8; 3]], name: &[u8]) -> Option<usize>
    ensures value { result ≡ place_among names.now name.now }
    ensures bound { IfSome result (λ n. n < length names.now) }
{
    names.iter().position(|each| each.as_slice() == name)
}

// The day of the month, which a space may pad.
#[tactic(auto, unfolding(crate::specs::Reading::day_of))]
fn day_of_month(text: &[u8]) -> Option<u32>
    ensures value { result ≡ day_of text.now }
    ensures bound { IfSome result (λ n. n < 100) }
{
    if is_byte(text, 8, b' ') {
        digit(text, 9)
    } else {
        two_digits(text, 8)
    }
}

#[tactic(auto, unfolding(crate::specs::Reading::named_day))]
fn named_date(text: &[u8]) -> Option<i64>
    requires { 24 ≤ length text.now }
    ensures value { result ≡ named_day text.now }
    ensures bound { IfSome result (IsBetween (neg_ℤ (pos 10000000)) (pos 10000000)) }
{
    place_of(&WEEKDAYS, &text[..3])?;
    let month = place_of(&MONTHS, &text[4..7])?;
    let day = day_of_month(text)?;
    let year = four_digits(text, 20)?;
    if is_byte(text, 3, b' ')
        && is_byte(text, 7, b' ')
        && is_byte(text, 10, b' ')
        && is_byte(text, 19, b' ')
    {
        day_from(year, month as u32 + 1, day)
    } else {
        None
    }
}

/// The time that a stamp says: `YYYY-MM-DD HH:MM:SS`, perhaps a fraction, and perhaps an offset as `+0100`,
/// or `Www Mmm DD HH:MM:SS YYYY`. Without an offset it is that of a clock of no known zone, as GNU `patch` reads it.
/// The text has neither blanks around it nor a line feed.
pub fn read_stamp(text: &[u8]) -> Stamp
    ensures known { (t : Time) → (result ≡ Stamp.Known t) ↔ IsStamp text.now t }
    ensures unknown { (result ≡ Stamp.Unknown) ↔ ((t : Time) → ¬ IsStamp text.now t) }
    ensures exact { result ≡ stamp_of text.now }
{
    match numeric(text) {
        Some(time) => Stamp::Known(time),
        None => match named(text) {
            Some(time) => Stamp::Known(time),
            None => Stamp::Unknown,
        },
    }
}
