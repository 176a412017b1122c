//! What is done to the lines that `filterdiff` writes, by what was matched in the words.
ghost use Rattle.std.specs.Prelude.{◌≡◌, ◌⊎◌, [], true, false, codes, option_map, unwrap_or, IfOk, IfErr};
ghost use Rattle.patch_options.specs.Simple.{rows_in};
ghost use Rattle.patch_options.specs.Table.{text_of, value_of};
ghost use Rattle.cli_tool_words.specs.PlainJobs.{plain_style};
ghost use Rattle.cli_tool_words.specs.Styling.{is_both_texts, is_style, style_of};

use crate::Style;
use crate::selecting::number_or_0;
use crate::showing::text_or_none;
use clap::ArgMatches;
use patch_options::{WordFault, is_number, is_used, value_of};
use std::alloc::{AllocError, Global};

/// What is put in front of names.
#[derive(Drop)]
struct Prefixes {
    both: Option<Vec<u8>>,
    old: Vec<u8>,
    new: Vec<u8>,
}

/// What is done to the lines that are written, if the words for it are lawful.
pub fn read_style(alloc: Global, matches: &ArgMatches<'_>) -> Result<Style, WordFault>
    ensures style { IfOk result (λ s. plain_style s ≡ style_of (rows_in matches.now)) }
    ensures lawful { IfOk result (λ s. is_style (rows_in matches.now) ≡ true) }
    ensures refused { IfErr result (λ fault. (fault ≡ WordFault.Memory) ⊎ ((fault ≡ WordFault.Usage) × (is_style (rows_in matches.now) ≡ false))) }
{
    if !is_style(matches) {
        return Err(WordFault::Usage);
    }
    match read_prefixes(alloc, matches) {
        Ok(prefixes) => Ok(Style {
            strip: number_or_0(matches, "strip"),
            prefix: prefixes.both,
            old_prefix: prefixes.old,
            new_prefix: prefixes.new,
            no_stamps: is_used(matches, "remove-timestamps"),
            clean: is_used(matches, "clean"),
        }),
        Err(_) => Err(WordFault::Memory),
    }
}

/// Whether the words for it are lawful.
fn is_style(matches: &ArgMatches<'_>) -> bool
    ensures { result ≡ is_style (rows_in matches.now) }
{
    is_number(value_of(matches, "strip")) && !is_both_texts(matches)
}

/// Whether all text outside of file patches is asked for, and none.
fn is_both_texts(matches: &ArgMatches<'_>) -> bool
    ensures { result ≡ is_both_texts (rows_in matches.now) }
{
    is_used(matches, "verbose") && is_used(matches, "clean")
}

fn read_prefixes(alloc: Global, matches: &ArgMatches<'_>) -> Result<Prefixes, AllocError>
    ensures both { IfOk result (λ p. option_map (λ b. b.items) p.both ≡ value_of (rows_in matches.now) (codes "addprefix")) }
    ensures old { IfOk result (λ p. p.old.items ≡ unwrap_or (value_of (rows_in matches.now) (codes "addoldprefix")) []) }
    ensures new { IfOk result (λ p. p.new.items ≡ unwrap_or (value_of (rows_in matches.now) (codes "addnewprefix")) []) }
{
    let both = text_if_given(alloc, value_of(matches, "addprefix"))?;
    let old = match text_or_none(alloc, value_of(matches, "addoldprefix")) {
        Ok(old) => old,
        Err(error) => {
            drop(both);
            return Err(error);
        }
    };
    match text_or_none(alloc, value_of(matches, "addnewprefix")) {
        Ok(new) => Ok(Prefixes { both, old, new }),
        Err(error) => {
            drop(both);
            drop(old);
            Err(error)
        }
    }
}

/// The bytes of a text, if there is one.
fn text_if_given(alloc: Global, text: Option<&str>) -> Result<Option<Vec<u8>>, AllocError>
    ensures { IfOk result (λ given. option_map (λ b. b.items) given ≡ text_of text.entry) }
{
    match text {
        Some(text) => Ok(Some(text.as_bytes().to_vec(alloc)?)),
        None => Ok(None),
    }
}
