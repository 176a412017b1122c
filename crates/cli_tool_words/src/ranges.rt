//! Ranges of numbers, with commas between them.
ghost use Rattle.std.specs.Prelude.{◌≡◌, ◌⊎◌, None, Some, true, false, option_and_then, option_map, IfOk, IfErr};
ghost use Rattle.clap.specs.Lexer.{strip_byte};
ghost use Rattle.cli_tool_words.specs.PlainJobs.{plain_ranges};
ghost use Rattle.patch_options.specs.Table.{text_of, has_form};
ghost use Rattle.cli_tool_words.specs.Ranges.{end_or, between, single, item_of, items_of, listed, ranges_of};
ghost use Rattle.cli_tool_words.specs.Asked.{is_ranges};

use crate::Ranges;
use patch_options::{WordFault, number_of};
use std::alloc::Global;

/// An end of a range, which has a value where nothing is written.
fn end_or(value: u32, text: &str) -> Option<u32>
    ensures { result ≡ end_or value text.now }
{
    if text.is_empty() {
        Some(value)
    } else {
        number_of(text)
    }
}

/// Two ends around a hyphen.
#[tactic(auto, unfolding(crate::specs::Ranges::between))]
fn between(front: &str, back: &str) -> Option<(u32, u32)>
    ensures { result ≡ between front.now back.now }
{
    let first = end_or(0, front)?;
    let last = end_or(4_294_967_295, back)?;
    if first <= last {
        Some((first, last))
    } else {
        None
    }
}

/// A number alone, which is its own end.
fn single(text: &str) -> Option<(u32, u32)>
    ensures { result ≡ single text.now }
{
    let number = number_of(text)?;
    Some((number, number))
}

/// `N`, `N-M`, `N-`, `-M` or `-`.
fn item_of(text: &str) -> Option<(u32, u32)>
    ensures { result ≡ item_of text.now }
{
    match text.split_once('-') {
        Some((front, back)) => between(front, back),
        None => single(text),
    }
}

/// The items that the text writes.
fn items_of(alloc: Global, text: &str) -> Result<Vec<(u32, u32)>, WordFault>
    ensures items { IfOk result (λ items. items_of text.now ≡ Some items.items) }
    ensures refused { IfErr result (λ fault. (fault ≡ WordFault.Memory) ⊎ ((fault ≡ WordFault.Usage) × (items_of text.now ≡ None))) }
{
    let mut items = Vec::new(alloc);
    for part in text.split(',') {
        match item_of(part) {
            Some(item) => items.push(item)?,
            None => return Err(WordFault::Usage),
        }
    }
    Ok(items)
}

/// The numbers of the items that the text writes, or all other ones.
fn listed(alloc: Global, others: bool, text: &str) -> Result<Ranges, WordFault>
    ensures ranges { IfOk result (λ r. listed others text.now ≡ Some (record { items = r.items.items; others = r.others })) }
    ensures refused { IfErr result (λ fault. (fault ≡ WordFault.Memory) ⊎ ((fault ≡ WordFault.Usage) × (listed others text.now ≡ None))) }
{
    match items_of(alloc, text) {
        Ok(items) => Ok(Ranges { items, others }),
        Err(fault) => Err(fault),
    }
}

fn behind_x(text: &str) -> Option<&str>
    ensures { option_map (λ s. s.now) result ≡ strip_byte 120 text.now }
{
    text.strip_prefix('x')
}

/// The ranges that the text writes.
#[tactic(auto, unfolding(crate::specs::Ranges::ranges_of))]
fn ranges_of(alloc: Global, text: &str) -> Result<Ranges, WordFault>
    ensures ranges { IfOk result (λ r. ranges_of text.now ≡ Some (record { items = r.items.items; others = r.others })) }
    ensures refused { IfErr result (λ fault. (fault ≡ WordFault.Memory) ⊎ ((fault ≡ WordFault.Usage) × (ranges_of text.now ≡ None))) }
{
    match behind_x(text) {
        Some(list) => listed(alloc, true, list),
        None => listed(alloc, false, text),
    }
}

/// The ranges that an option gives.
pub fn read_ranges(alloc: Global, text: Option<&str>) -> Result<Option<Ranges>, WordFault>
    ensures ranges { IfOk result (λ given. plain_ranges given ≡ option_and_then ranges_of (text_of text.entry)) }
    ensures lawful { IfOk result (λ given. has_form is_ranges (text_of text.entry) ≡ true) }
    ensures refused { IfErr result (λ fault. (fault ≡ WordFault.Memory) ⊎ ((fault ≡ WordFault.Usage) × (has_form is_ranges (text_of text.entry) ≡ false))) }
{
    match text {
        Some(text) => Ok(Some(ranges_of(alloc, text)?)),
        None => Ok(None),
    }
}
