//! The names that a command gives.
ghost use Rattle.std.specs.Prelude.{◌≡◌, ◌⊎◌, ◌++◌, codes, bytes_eq, true, false, is_none, IfOk, IfErr, string_bytes, option_map, option_and_then};
ghost use Rattle.patch_options.specs.HasNames.{HasNames, HasOutputs};
ghost use Rattle.outside.specs.Names.{given_form, broken_rule};
ghost use Rattle.patch_options.specs.Forms.{is_name, is_lasting_name, is_reject_file, is_directory, is_patch_file, is_prefix, is_base_prefix};
ghost use Rattle.patch_options.specs.Simple.{rows_in};
ghost use Rattle.patch_options.specs.Table.{text_of, has_form, names_agree, outputs_agree, inputs_agree, input_of, first_given, directory_of, reject_of, is_no_file};

use crate::table::value_of;
use crate::{Input, WordFault};
use clap::ArgMatches;
use outside::{Name, NameFault, is_here};
use std::alloc::{AllocError, Global};

/// The names that are written, and what stands before that of a backup.
#[derive(Drop)]
pub struct Outputs {
    pub output: Option<Name>,
    pub reject: Option<Name>,
    pub no_rejects: bool,
    pub prefix: Option<String>,
    pub base_prefix: Option<String>,
}

/// The names of a command.
#[derive(Drop)]
pub struct Names {
    pub dir: Option<Name>,
    pub file: Option<Name>,
    pub input: Input,
    pub outputs: Outputs,
}

/// The names that were matched, if they are lawful.
pub fn read_names(alloc: Global, matches: &ArgMatches<'_>) -> Result<Names, WordFault>
    ensures names { IfOk result (λ names. HasNames (rows_in matches.now) names) }
    ensures lawful { IfOk result (λ names. names_agree (rows_in matches.now) ≡ true) }
    ensures refused { IfErr result (λ fault. (fault ≡ WordFault.Memory) ⊎ ((fault ≡ WordFault.Usage) × (names_agree (rows_in matches.now) ≡ false))) }
{
    let input = match read_input(
        alloc,
        value_of(matches, "input"),
        value_of(matches, "patchfile"),
    ) {
        Ok(input) => input,
        Err(fault) => return Err(fault),
    };
    let dir = match read_directory(alloc, value_of(matches, "directory")) {
        Ok(dir) => dir,
        Err(fault) => return Err(fault),
    };
    let file = match read_lasting_name(alloc, value_of(matches, "file")) {
        Ok(file) => file,
        Err(fault) => return Err(fault),
    };
    match read_outputs(alloc, matches) {
        Ok(outputs) => Ok(Names {
            dir,
            file,
            input,
            outputs,
        }),
        Err(fault) => Err(fault),
    }
}

#[tactic(auto, unfolding(crate::specs::Table::outputs_agree))]
fn read_outputs(alloc: Global, matches: &ArgMatches<'_>) -> Result<Outputs, WordFault>
    ensures outputs { IfOk result (λ outputs. HasOutputs (rows_in matches.now) outputs) }
    ensures lawful { IfOk result (λ outputs. outputs_agree (rows_in matches.now) ≡ true) }
    ensures refused { IfErr result (λ fault. (fault ≡ WordFault.Memory) ⊎ ((fault ≡ WordFault.Usage) × (outputs_agree (rows_in matches.now) ≡ false))) }
{
    let output = match read_lasting_name(alloc, value_of(matches, "output")) {
        Ok(output) => output,
        Err(fault) => return Err(fault),
    };
    let reject = match read_reject(alloc, value_of(matches, "reject-file")) {
        Ok(reject) => reject,
        Err(fault) => return Err(fault),
    };
    let prefix = match read_prefix(alloc, value_of(matches, "prefix")) {
        Ok(prefix) => prefix,
        Err(fault) => return Err(fault),
    };
    match read_base_prefix(alloc, value_of(matches, "basename-prefix")) {
        Ok(base_prefix) => Ok(Outputs {
            output,
            reject,
            no_rejects: is_no_file(value_of(matches, "reject-file")),
            prefix,
            base_prefix,
        }),
        Err(fault) => Err(fault),
    }
}

/// The patch file, which is the value of `-i` or the second operand.
fn read_input(alloc: Global, input: Option<&str>, operand: Option<&str>) -> Result<Input, WordFault>
    ensures input { IfOk result (λ given. given ≡ input_of (first_given (text_of input.entry) (text_of operand.entry))) }
    ensures lawful { IfOk result (λ given. inputs_agree (text_of input.entry) (text_of operand.entry) ≡ true) }
    ensures refused { IfErr result (λ fault. (fault ≡ WordFault.Memory) ⊎ ((fault ≡ WordFault.Usage) × (inputs_agree (text_of input.entry) (text_of operand.entry) ≡ false))) }
{
    match (input, operand) {
        (None, None) => Ok(Input::Standard),
        (Some(text), None) => input_of(alloc, text),
        (None, Some(text)) => input_of(alloc, text),
        (Some(_), Some(_)) => Err(WordFault::Usage),
    }
}

/// A patch file by its name, `-` being standard input.
#[tactic(auto, unfolding(crate::specs::Forms::is_patch_file))]
pub fn input_of(alloc: Global, text: &str) -> Result<Input, WordFault>
    ensures input { IfOk result (λ input. input ≡ input_of (Some text.now)) }
    ensures lawful { IfOk result (λ input. is_patch_file text.now ≡ true) }
    ensures refused { IfErr result (λ fault. (fault ≡ WordFault.Memory) ⊎ ((fault ≡ WordFault.Usage) × (is_patch_file text.now ≡ false))) }
{
    if text == "-" {
        Ok(Input::Standard)
    } else {
        Ok(Input::File(name_of(alloc, text)?))
    }
}

#[tactic(auto, unfolding(crate::specs::Forms::is_name))]
fn name_of(alloc: Global, text: &str) -> Result<Name, WordFault>
    ensures name { IfOk result (λ name. name ≡ given_form text.now) }
    ensures lawful { IfOk result (λ name. is_name text.now ≡ true) }
    ensures refused { IfErr result (λ fault. (fault ≡ WordFault.Memory) ⊎ ((fault ≡ WordFault.Usage) × (is_name text.now ≡ false))) }
{
    match Name::given(alloc, text.as_bytes()) {
        Ok(name) => Ok(name),
        Err(NameFault::Refused { rule: _ }) => Err(WordFault::Usage),
        Err(NameFault::Memory) => Err(WordFault::Memory),
    }
}

/// The name that was given, if it is lawful.
pub fn read_name(alloc: Global, text: Option<&str>) -> Result<Option<Name>, WordFault>
    ensures name { IfOk result (λ given. given ≡ option_map given_form (text_of text.entry)) }
    ensures lawful { IfOk result (λ given. has_form is_name (text_of text.entry) ≡ true) }
    ensures refused { IfErr result (λ fault. (fault ≡ WordFault.Memory) ⊎ ((fault ≡ WordFault.Usage) × (has_form is_name (text_of text.entry) ≡ false))) }
{
    match text {
        Some(text) => Ok(Some(name_of(alloc, text)?)),
        None => Ok(None),
    }
}

/// The directory, none where it is the working directory.
#[tactic(auto, unfolding(crate::specs::Forms::is_directory))]
fn directory_of(alloc: Global, text: &str) -> Result<Option<Name>, WordFault>
    ensures name { IfOk result (λ dir. dir ≡ directory_of text.now) }
    ensures lawful { IfOk result (λ dir. is_directory text.now ≡ true) }
    ensures refused { IfErr result (λ fault. (fault ≡ WordFault.Memory) ⊎ ((fault ≡ WordFault.Usage) × (is_directory text.now ≡ false))) }
{
    if is_here(text) {
        return Ok(None);
    }
    Ok(Some(name_of(alloc, text)?))
}

fn read_directory(alloc: Global, text: Option<&str>) -> Result<Option<Name>, WordFault>
    ensures name { IfOk result (λ given. given ≡ option_and_then directory_of (text_of text.entry)) }
    ensures lawful { IfOk result (λ given. has_form is_directory (text_of text.entry) ≡ true) }
    ensures refused { IfErr result (λ fault. (fault ≡ WordFault.Memory) ⊎ ((fault ≡ WordFault.Usage) × (has_form is_directory (text_of text.entry) ≡ false))) }
{
    match text {
        Some(text) => directory_of(alloc, text),
        None => Ok(None),
    }
}

/// A name that is no temporary's.
#[tactic(auto, unfolding(crate::specs::Forms::is_lasting_name))]
pub fn lasting_name_of(alloc: Global, text: &str) -> Result<Name, WordFault>
    ensures name { IfOk result (λ name. name ≡ given_form text.now) }
    ensures lawful { IfOk result (λ name. is_lasting_name text.now ≡ true) }
    ensures refused { IfErr result (λ fault. (fault ≡ WordFault.Memory) ⊎ ((fault ≡ WordFault.Usage) × (is_lasting_name text.now ≡ false))) }
{
    let name = name_of(alloc, text)?;
    if name.is_temp() {
        return Err(WordFault::Usage);
    }
    Ok(name.written())
}

fn read_lasting_name(alloc: Global, text: Option<&str>) -> Result<Option<Name>, WordFault>
    ensures name { IfOk result (λ given. given ≡ option_map given_form (text_of text.entry)) }
    ensures lawful { IfOk result (λ given. has_form is_lasting_name (text_of text.entry) ≡ true) }
    ensures refused { IfErr result (λ fault. (fault ≡ WordFault.Memory) ⊎ ((fault ≡ WordFault.Usage) × (has_form is_lasting_name (text_of text.entry) ≡ false))) }
{
    match text {
        Some(text) => Ok(Some(lasting_name_of(alloc, text)?)),
        None => Ok(None),
    }
}

/// The reject file, none for `-`.
fn read_reject(alloc: Global, text: Option<&str>) -> Result<Option<Name>, WordFault>
    ensures name { IfOk result (λ given. given ≡ option_and_then reject_of (text_of text.entry)) }
    ensures lawful { IfOk result (λ given. has_form is_reject_file (text_of text.entry) ≡ true) }
    ensures refused { IfErr result (λ fault. (fault ≡ WordFault.Memory) ⊎ ((fault ≡ WordFault.Usage) × (has_form is_reject_file (text_of text.entry) ≡ false))) }
{
    if is_no_file(text) {
        Ok(None)
    } else {
        read_lasting_name(alloc, text)
    }
}

/// Whether the value is `-`. As a reject file it says that none is written.
fn is_no_file(text: Option<&str>) -> bool
    ensures { result ≡ is_no_file (text_of text.entry) }
{
    match text {
        Some(text) => text == "-",
        None => false,
    }
}

/// What may stand before a name: with `x` behind it, it is a name in normal form.
fn prefix_of(alloc: Global, text: &str) -> Result<String, WordFault>
    ensures prefix { IfOk result (λ prefix. string_bytes prefix ≡ text.now) }
    ensures lawful { IfOk result (λ prefix. is_prefix text.now ≡ true) }
    ensures refused { IfErr result (λ fault. (fault ≡ WordFault.Memory) ⊎ ((fault ≡ WordFault.Usage) × (is_prefix text.now ≡ false))) }
{
    if !is_prefix(alloc, text)? {
        return Err(WordFault::Usage);
    }
    Ok(String::from_str(alloc, text)?)
}

/// Whether the text may stand before a name.
#[tactic(auto, unfolding(crate::specs::Forms::is_prefix))]
fn is_prefix(alloc: Global, text: &str) -> Result<bool, WordFault>
    ensures is { IfOk result (λ is. is ≡ is_prefix text.now) }
    ensures refused { IfErr result (λ fault. (fault ≡ WordFault.Memory) ⊎ ((fault ≡ WordFault.Usage) × (is_prefix text.now ≡ false))) }
{
    let sample = sample_of(alloc, text)?;
    is_normal(alloc, sample.as_str())
}

fn sample_of(alloc: Global, text: &str) -> Result<String, AllocError>
    ensures { IfOk result (λ sample. string_bytes sample ≡ text.now ++ codes "x") }
{
    let mut sample = String::from_str(alloc, text)?;
    sample.push('x')?;
    Ok(sample)
}

/// Whether a name is in normal form as it is given.
fn is_normal(alloc: Global, text: &str) -> Result<bool, WordFault>
    ensures normal { IfOk result (λ is. is ≡ bytes_eq (given_form text.now) text.now) }
    ensures lawful { IfOk result (λ is. is_name text.now ≡ true) }
    ensures refused { IfErr result (λ fault. (fault ≡ WordFault.Memory) ⊎ ((fault ≡ WordFault.Usage) × (is_name text.now ≡ false))) }
{
    let name = name_of(alloc, text)?;
    Ok(name.text() == text)
}

fn read_prefix(alloc: Global, text: Option<&str>) -> Result<Option<String>, WordFault>
    ensures prefix { IfOk result (λ given. option_map string_bytes given ≡ text_of text.entry) }
    ensures lawful { IfOk result (λ given. has_form is_prefix (text_of text.entry) ≡ true) }
    ensures refused { IfErr result (λ fault. (fault ≡ WordFault.Memory) ⊎ ((fault ≡ WordFault.Usage) × (has_form is_prefix (text_of text.entry) ≡ false))) }
{
    match text {
        Some(text) => Ok(Some(prefix_of(alloc, text)?)),
        None => Ok(None),
    }
}

/// What may stand before the last component of a name: a front that a patch may give, too.
#[tactic(auto, unfolding(crate::specs::Forms::is_base_prefix))]
fn base_prefix_of(alloc: Global, text: &str) -> Result<String, WordFault>
    ensures prefix { IfOk result (λ prefix. string_bytes prefix ≡ text.now) }
    ensures lawful { IfOk result (λ prefix. is_base_prefix text.now ≡ true) }
    ensures refused { IfErr result (λ fault. (fault ≡ WordFault.Memory) ⊎ ((fault ≡ WordFault.Usage) × (is_base_prefix text.now ≡ false))) }
{
    let prefix = match prefix_of(alloc, text) {
        Ok(prefix) => prefix,
        Err(fault) => return Err(fault),
    };
    match is_patch_front(alloc, text) {
        Ok(true) => Ok(prefix),
        Ok(false) => Err(WordFault::Usage),
        Err(fault) => Err(fault),
    }
}

/// Whether a patch may give the text with `x` behind it as a name.
fn is_patch_front(alloc: Global, text: &str) -> Result<bool, WordFault>
    ensures is { IfOk result (λ is. is ≡ is_none (broken_rule (text.now ++ codes "x"))) }
    ensures refused { IfErr result (λ fault. fault ≡ WordFault.Memory) }
{
    let sample = sample_of(alloc, text)?;
    match Name::new(alloc, sample.as_str().as_bytes()) {
        Ok(_) => Ok(true),
        Err(NameFault::Refused { rule: _ }) => Ok(false),
        Err(NameFault::Memory) => Err(WordFault::Memory),
    }
}

fn read_base_prefix(alloc: Global, text: Option<&str>) -> Result<Option<String>, WordFault>
    ensures prefix { IfOk result (λ given. option_map string_bytes given ≡ text_of text.entry) }
    ensures lawful { IfOk result (λ given. has_form is_base_prefix (text_of text.entry) ≡ true) }
    ensures refused { IfErr result (λ fault. (fault ≡ WordFault.Memory) ⊎ ((fault ≡ WordFault.Usage) × (has_form is_base_prefix (text_of text.entry) ≡ false))) }
{
    match text {
        Some(text) => Ok(Some(base_prefix_of(alloc, text)?)),
        None => Ok(None),
    }
}
