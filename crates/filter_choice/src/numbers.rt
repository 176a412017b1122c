//! Which names and which numbers are meant.

ghost use Rattle.std.specs.Prelude.{◌≡◌, map, max, min, nat_le};
ghost use Rattle.std.specs.List.{list_any};
ghost use Rattle.cli_tool_words.specs.PlainJobs.{plain_ranges, plain_select};
ghost use Rattle.filter_choice.specs.Selected.{by_others, is_in, is_meant, is_one_meant, is_selected, matches_any};
ghost use Rattle.filter_choice.specs.OldLines.{numbers_of};

use cli_tool_words::{Ranges, Select};
use glob_match::matches;
use read_file_patch::shortened;

/// The numbers from a first to a last.
#[derive(Clone, Copy)]
pub struct Lines {
    pub first: u64,
    pub last: u64,
}

fn matches_any(patterns: &[Vec<u8>], name: &[u8]) -> bool
    ensures { result ≡ matches_any (map (λ p. p.items) patterns.now) name.now }
{
    patterns.iter().any(|pattern| matches(pattern, name))
}

/// Whether a name is meant, as it is once its front is stripped.
pub fn is_selected(select: &Select, name: &[u8]) -> bool
    ensures { result ≡ is_selected (plain_select select.now) name.now }
{
    let name = shortened(select.strip, name);
    if matches_any(&select.exclude, name) {
        return false;
    }
    !select.only_included || matches_any(&select.include, name)
}

fn is_in(items: &[(u32, u32)], number: u64) -> bool
    ensures { result ≡ is_in items.now number }
{
    items.iter().any(|range| u64::from(range.0) <= number && number <= u64::from(range.1))
}

/// What a find among the items says of numbers, of which those of the items are meant, or all others.
fn by_others(others: bool, is: bool) -> bool
    ensures { result ≡ by_others others is }
{
    if others { !is } else { is }
}

/// Whether a number is meant.
pub fn is_meant(ranges: &Option<Ranges>, number: u64) -> bool
    ensures { result ≡ is_meant (plain_ranges ranges.now) number }
{
    match ranges {
        Some(ranges) => by_others(ranges.others, is_in(&ranges.items, number)),
        None => true,
    }
}

fn meets(lines: Lines, range: (u32, u32)) -> bool
    ensures { result ≡ nat_le (max lines.first range.0) (min lines.last range.1) }
{
    u64::max(lines.first, u64::from(range.0)) <= u64::min(lines.last, u64::from(range.1))
}

fn is_one_in(items: &[(u32, u32)], lines: Lines) -> bool
    ensures { result ≡ list_any (is_in items.now) (numbers_of lines) }
{
    items.iter().any(|range| meets(lines, *range))
}

/// Whether one of these numbers is meant or, where all but some numbers are, none of these.
pub fn is_one_meant(ranges: &Option<Ranges>, lines: Lines) -> bool
    ensures { result ≡ is_one_meant (plain_ranges ranges.now) (numbers_of lines) }
{
    match ranges {
        Some(ranges) => by_others(ranges.others, is_one_in(&ranges.items, lines)),
        None => true,
    }
}
