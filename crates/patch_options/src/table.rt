//! What each switch and each value of `patch` gives.
ghost use Rattle.std.specs.Prelude.{◌≡◌, ◌⊎◌, ◌||◌, ◌<◌, codes, true, false, is_some, IfOk, IfErr, string_bytes, option_map, option_and_then, unwrap_or};
ghost use Rattle.patch_options.specs.Forms.{number_of, buffer_of, usual_buffer, plan_of, reject_form_of, backup_numbers_of, read_only_of, sync_of};
ghost use Rattle.patch_options.specs.HasNames.{HasNames};
ghost use Rattle.patch_options.specs.PlainJob.{plain_options};
ghost use Rattle.patch_options.specs.Simple.{rows_in};
ghost use Rattle.patch_options.specs.Table.{uses, value_of, text_of, is_used, are_both_used, forms_named, exclusions_hold, is_backup_named, usual_numbers, numbers_in, read_only_in, times_in, switches_agree, numbers_agree, words_agree, writing_agrees, others_agree, values_agree, is_command, options_of, only_form, mismatch_backup, sync_in, plan_in, buffer_size};

use crate::admitted::{
    has_backup_kind, has_get_form, has_macro_name, has_quoting_style, has_read_only,
    has_suffix_form, is_buffer, is_number, is_plan, is_reject_form, is_sync,
};
use crate::forms::{
    backup_numbers_of, buffer_of, number_of, plan_of, read_only_of, reject_form_of, sync_of,
};
use crate::names::{Names, read_names};
use crate::{BackupNumbers, FileTimes, Options, PlanKind, ReadOnlyFiles, SyncKind, WordFault};
use clap::ArgMatches;
use hunk_core::Form;
use std::alloc::{AllocError, Global};

/// The options that were matched, if they are a command.
pub fn read_options(alloc: Global, matches: &ArgMatches<'_>) -> Result<Options, WordFault>
    ensures options { IfOk result (λ o. plain_options o ≡ options_of (rows_in matches.now)) }
    ensures command { IfOk result (λ o. is_command (rows_in matches.now) ≡ true) }
    ensures refused { IfErr result (λ fault. (fault ≡ WordFault.Memory) ⊎ ((fault ≡ WordFault.Usage) × (is_command (rows_in matches.now) ≡ false))) }
{
    if !switches_agree(matches) || !values_agree(matches) {
        return Err(WordFault::Usage);
    }
    let texts = read_texts(alloc, matches)?;
    match read_names(alloc, matches) {
        Ok(names) => Ok(options_of(matches, names, texts)),
        Err(fault) => Err(fault),
    }
}

fn options_of(matches: &ArgMatches<'_>, names: Names, texts: Texts) -> Options
    requires names { HasNames (rows_in matches.now) names }
    requires suffix { option_map string_bytes texts.suffix ≡ value_of (rows_in matches.now) (codes "suffix") }
    requires define { option_map string_bytes texts.define ≡ value_of (rows_in matches.now) (codes "ifdef") }
    ensures { plain_options result ≡ options_of (rows_in matches.now) }
{
    let outputs = names.outputs;
    Options {
        only: only_form(matches),
        strip: number_in(matches, "strip"),
        fuzz: number_in(matches, "fuzz").unwrap_or(2),
        reverse: is_used(matches, "reverse"),
        force: is_used(matches, "force"),
        batch: is_used(matches, "batch"),
        forward: is_used(matches, "forward"),
        loose: is_used(matches, "ignore-whitespace"),
        remove_empty: is_used(matches, "remove-empty-files"),
        backup: is_used(matches, "backup"),
        mismatch_backup: mismatch_backup(matches),
        suffix: texts.suffix,
        prefix: outputs.prefix,
        base_prefix: outputs.base_prefix,
        numbers: numbers_in(matches),
        dir: names.dir,
        file: names.file,
        input: names.input,
        output: outputs.output,
        reject: outputs.reject,
        no_rejects: outputs.no_rejects,
        reject_form: reject_form_in(matches),
        define: texts.define,
        posix: is_used(matches, "posix"),
        keep_returns: is_used(matches, "binary"),
        skip_binary: is_used(matches, "skip-binary"),
        dry_run: is_used(matches, "dry-run"),
        read_only: read_only_in(matches),
        times: times_in(matches),
        follow_links: is_used(matches, "follow-symlinks"),
        silent: is_silent(matches),
        verbose: is_used(matches, "verbose"),
        plan: plan_in(matches),
        buffer: buffer_in(matches),
        sync: sync_in(matches),
    }
}

/// How often the switch was given.
#[tactic(auto, unfolding(crate::specs::Table::uses))]
fn uses(matches: &ArgMatches<'_>, name: &str) -> u32
    ensures uses { result ≡ uses (rows_in matches.now) name.now }
    ensures few { result < 256 }
{
    u32::from(matches.get_count(name))
}

/// The value of an option, the last one where it was given more than once, or of an operand.
#[tactic(auto, unfolding(crate::specs::Table::value_of))]
pub fn value_of<'a>(matches: &ArgMatches<'a>, name: &str) -> Option<&'a str>
    ensures { text_of result ≡ value_of (rows_in matches.now) name.now }
{
    matches.get_str(name)
}

/// Whether the switch was given.
pub fn is_used(matches: &ArgMatches<'_>, name: &str) -> bool
    ensures { result ≡ is_used (rows_in matches.now) name.now }
{
    uses(matches, name) > 0
}

fn is_silent(matches: &ArgMatches<'_>) -> bool
    ensures { result ≡ (is_used (rows_in matches.now) (codes "silent") || is_used (rows_in matches.now) (codes "quiet")) }
{
    is_used(matches, "silent") || is_used(matches, "quiet")
}

fn are_both_used(matches: &ArgMatches<'_>, one: &str, other: &str) -> bool
    ensures { result ≡ are_both_used (rows_in matches.now) one.now other.now }
{
    is_used(matches, one) && is_used(matches, other)
}

/// Whether no two switches were given that exclude each other.
fn switches_agree(matches: &ArgMatches<'_>) -> bool
    ensures { result ≡ switches_agree (rows_in matches.now) }
{
    forms_named(matches) <= 1 && exclusions_hold(matches)
}

/// Whether no two switches were given together that exclude each other, but for those of forms.
fn exclusions_hold(matches: &ArgMatches<'_>) -> bool
    ensures { result ≡ exclusions_hold (rows_in matches.now) }
{
    if are_both_used(matches, "backup-if-mismatch", "no-backup-if-mismatch") {
        return false;
    }
    !are_both_used(matches, "silent", "verbose")
}

/// How many switches were given that admit one form alone.
fn forms_named(matches: &ArgMatches<'_>) -> u32
    ensures { result ≡ forms_named (rows_in matches.now) }
{
    u32::from(is_used(matches, "context"))
        + u32::from(is_used(matches, "ed"))
        + u32::from(is_used(matches, "normal"))
        + u32::from(is_used(matches, "unified"))
}

/// Whether numbers, words, the suffix and the name that conditions test have their forms.
fn values_agree(matches: &ArgMatches<'_>) -> bool
    ensures { result ≡ values_agree (rows_in matches.now) }
{
    numbers_agree(matches)
        && words_agree(matches)
        && others_agree(matches)
        && has_macro_name(value_of(matches, "ifdef"))
}

fn numbers_agree(matches: &ArgMatches<'_>) -> bool
    ensures { result ≡ numbers_agree (rows_in matches.now) }
{
    is_number(value_of(matches, "strip"))
        && is_number(value_of(matches, "fuzz"))
        && is_buffer(value_of(matches, "buffer"))
        && has_get_form(value_of(matches, "get"))
}

fn words_agree(matches: &ArgMatches<'_>) -> bool
    ensures { result ≡ words_agree (rows_in matches.now) }
{
    is_plan(value_of(matches, "plan"))
        && is_reject_form(value_of(matches, "reject-format"))
        && has_suffix_form(value_of(matches, "suffix"))
        && has_backup_kind(value_of(matches, "version-control"))
}

fn others_agree(matches: &ArgMatches<'_>) -> bool
    ensures { result ≡ others_agree (rows_in matches.now) }
{
    has_quoting_style(value_of(matches, "quoting-style")) && writing_agrees(matches)
}

fn writing_agrees(matches: &ArgMatches<'_>) -> bool
    ensures { result ≡ writing_agrees (rows_in matches.now) }
{
    has_read_only(value_of(matches, "read-only")) && is_sync(value_of(matches, "sync"))
}

fn only_form(matches: &ArgMatches<'_>) -> Option<Form>
    ensures { result ≡ only_form (rows_in matches.now) }
{
    if is_used(matches, "context") {
        Some(Form::Context)
    } else if is_used(matches, "ed") {
        Some(Form::Ed)
    } else if is_used(matches, "normal") {
        Some(Form::Normal)
    } else if is_used(matches, "unified") {
        Some(Form::Unified)
    } else {
        None
    }
}

/// Whether a backup is made where a hunk failed or stands elsewhere than it says.
fn mismatch_backup(matches: &ArgMatches<'_>) -> bool
    ensures { result ≡ mismatch_backup (rows_in matches.now) }
{
    if is_used(matches, "posix") {
        is_used(matches, "backup-if-mismatch")
    } else {
        !is_used(matches, "no-backup-if-mismatch")
    }
}

/// The number that an option gives.
pub fn number_in(matches: &ArgMatches<'_>, name: &str) -> Option<u32>
    ensures { result ≡ option_and_then number_of (value_of (rows_in matches.now) name.now) }
{
    match value_of(matches, name) {
        Some(text) => number_of(text),
        None => None,
    }
}

fn reject_form_in(matches: &ArgMatches<'_>) -> Option<Form>
    ensures { result ≡ option_and_then reject_form_of (value_of (rows_in matches.now) (codes "reject-format")) }
{
    match value_of(matches, "reject-format") {
        Some(text) => reject_form_of(text),
        None => None,
    }
}

/// Whether words give the whole name of a backup.
fn is_backup_named(matches: &ArgMatches<'_>) -> bool
    ensures { result ≡ is_backup_named (rows_in matches.now) }
{
    value_of(matches, "suffix").is_some()
        || value_of(matches, "prefix").is_some()
        || value_of(matches, "basename-prefix").is_some()
}

/// Whether names of backups have numbers.
fn numbers_in(matches: &ArgMatches<'_>) -> BackupNumbers
    ensures { result ≡ numbers_in (rows_in matches.now) }
{
    if is_backup_named(matches) {
        return BackupNumbers::Never;
    }
    let usual = usual_numbers(matches);
    match value_of(matches, "version-control") {
        Some(text) => backup_numbers_of(text).unwrap_or(usual),
        None => usual,
    }
}

/// Whether they have numbers where nothing is said of it.
fn usual_numbers(matches: &ArgMatches<'_>) -> BackupNumbers
    ensures { result ≡ usual_numbers (rows_in matches.now) }
{
    if is_used(matches, "backup") && !is_used(matches, "posix") {
        BackupNumbers::Existing
    } else {
        BackupNumbers::Never
    }
}

/// What is done about files that may not be written to.
fn read_only_in(matches: &ArgMatches<'_>) -> ReadOnlyFiles
    ensures { result ≡ read_only_in (rows_in matches.now) }
{
    match value_of(matches, "read-only") {
        Some(text) => read_only_of(text).unwrap_or(ReadOnlyFiles::Told),
        None => ReadOnlyFiles::Told,
    }
}

/// When written files say that they were written.
fn times_in(matches: &ArgMatches<'_>) -> FileTimes
    ensures { result ≡ times_in (rows_in matches.now) }
{
    if is_used(matches, "set-utc") {
        FileTimes::Utc
    } else if is_used(matches, "set-time") {
        FileTimes::Local
    } else {
        FileTimes::Written
    }
}

/// When what is written is on the disk.
pub fn sync_in(matches: &ArgMatches<'_>) -> SyncKind
    ensures { result ≡ sync_in (rows_in matches.now) }
{
    match value_of(matches, "sync") {
        Some(text) => sync_of(text).unwrap_or(SyncKind::Each),
        None => SyncKind::Each,
    }
}

/// The plan that `--plan` names.
pub fn plan_in(matches: &ArgMatches<'_>) -> PlanKind
    ensures { result ≡ plan_in (rows_in matches.now) }
{
    match value_of(matches, "plan") {
        Some(text) => plan_of(text).unwrap_or(PlanKind::Auto),
        None => PlanKind::Auto,
    }
}

/// The size that `--buffer` gives, or else that of the plan's buffers.
pub fn buffer_in(matches: &ArgMatches<'_>) -> u32
    ensures { result ≡ buffer_size (rows_in matches.now) }
{
    let usual = usual_buffer(plan_in(matches));
    match value_of(matches, "buffer") {
        Some(text) => buffer_of(text).unwrap_or(usual),
        None => usual,
    }
}

/// The size of a plan's buffers where none is given.
fn usual_buffer(plan: PlanKind) -> u32
    ensures { result ≡ usual_buffer plan }
{
    match plan {
        PlanKind::Whole | PlanKind::Padded | PlanKind::Packed => 65_536,
        PlanKind::Auto => u32::MAX,
    }
}

/// The values that are kept as they were given.
#[derive(Drop)]
struct Texts {
    suffix: Option<String>,
    define: Option<String>,
}

fn read_texts(alloc: Global, matches: &ArgMatches<'_>) -> Result<Texts, AllocError>
    ensures suffix { IfOk result (λ texts. option_map string_bytes texts.suffix ≡ value_of (rows_in matches.now) (codes "suffix")) }
    ensures define { IfOk result (λ texts. option_map string_bytes texts.define ≡ value_of (rows_in matches.now) (codes "ifdef")) }
{
    Ok(Texts {
        suffix: copied(alloc, value_of(matches, "suffix"))?,
        define: copied(alloc, value_of(matches, "ifdef"))?,
    })
}

fn copied(alloc: Global, text: Option<&str>) -> Result<Option<String>, AllocError>
    ensures { IfOk result (λ copy. option_map string_bytes copy ≡ text_of text.entry) }
{
    match text {
        Some(text) => Ok(Some(String::from_str(alloc, text)?)),
        None => Ok(None),
    }
}
