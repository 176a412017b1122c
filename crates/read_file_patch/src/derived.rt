//! The names that are formed from a name.
ghost use Rattle.std.specs.Prelude.{◌≡◌, true, false, Some, IfOk, string_bytes, option_map};
ghost use Rattle.std.specs.Option.{ForSome, option_copied};
ghost use Rattle.outside.specs.Files.{is_temp, temp_of};
ghost use Rattle.outside.specs.Names.{IsEnding, IsFront};
ghost use Rattle.patch_options.specs.PlainJob.{plain_options, IsLawful, IsSuffix};
ghost use Rattle.read_file_patch.specs.Targets.{below, fronted, with_base, lawful_or, based, backup_end, backup_front, is_fronted, backup_name, reject_name, shown_from, target_of, HasTemps, is_reserved, IsLasting};

use crate::strip::last_component;
use outside::{Name, NameFault};
use patch_options::Options;
use std::alloc::{AllocError, Global};

/// The names that a run may need for one file.
#[derive(Drop, Debug)]
pub struct Target {
    /// Targets with equal names have equal numbers.
    pub number: u32,
    /// How many bytes of the name messages leave off.
    pub shown_from: usize,
    /// How many of the reject file's.
    pub reject_shown_from: usize,
    pub name: Name,
    pub temp: Name,
    pub backup: Name,
    pub backup_temp: Name,
    pub reject: Name,
    pub reject_temp: Name,
}

impl Target {
    /// The names for a name that is given without the directory of the options.
    pub fn new(
        alloc: Global,
        options: &Options,
        name: &Name,
        number: u32,
    ) -> Result<Target, AllocError>
        requires { IsLawful (plain_options options.now) }
        ensures names { IfOk result (λ target. target ≡ target_of (plain_options options.now) name.now number) }
        ensures temps { IfOk result HasTemps }
    {
        let own = put_below(alloc, options.dir.as_ref(), name)?;
        let backup = backup_of(alloc, options, name)?;
        let reject = reject_of(alloc, options, name)?;
        Ok(Target {
            number,
            shown_from: own.shown_from,
            reject_shown_from: reject.shown_from,
            name: own.name,
            temp: own.temp,
            backup: backup.name,
            backup_temp: backup.temp,
            reject: reject.name,
            reject_temp: reject.temp,
        })
    }

    /// Whether a name that a run would write ends as those of temporaries do.
    pub fn is_reserved(&self) -> bool
        ensures names { result ≡ is_reserved self.now }
        ensures lasting { result ≡ false → IsLasting self.now }
    {
        self.name.is_temp() || self.backup.is_temp() || self.reject.is_temp()
    }
}

/// A name and that of its temporary, and how many of its bytes messages leave off.
#[derive(Drop)]
struct WithTemp {
    name: Name,
    temp: Name,
    shown_from: usize,
}

/// How many bytes of a name below the directory messages leave off.
fn shown_from(dir: Option<&Name>, name: &Name) -> usize
    ensures { result ≡ shown_from (option_copied dir.entry) name.now }
{
    match dir {
        Some(dir) => shown_below(dir, name),
        None => 0,
    }
}

fn shown_below(dir: &Name, name: &Name) -> usize
    ensures { result ≡ shown_from (Some dir.now) name.now }
{
    if name.is_absolute() {
        0
    } else {
        dir.text().len() + 1
    }
}

/// A name put below the directory.
fn put_below(alloc: Global, dir: Option<&Name>, name: &Name) -> Result<WithTemp, AllocError>
    ensures name { IfOk result (λ p. p.name ≡ below (option_copied dir.entry) name.now) }
    ensures temp { IfOk result (λ p. p.temp ≡ temp_of (below (option_copied dir.entry) name.now)) }
    ensures temporary { IfOk result (λ p. is_temp p.temp ≡ true) }
    ensures shown { IfOk result (λ p. p.shown_from ≡ shown_from (option_copied dir.entry) name.now) }
{
    let shown_from = shown_from(dir, name);
    let name = below(alloc, dir, name)?;
    Ok(WithTemp {
        temp: name.temporary(alloc)?,
        name,
        shown_from,
    })
}

fn below(alloc: Global, dir: Option<&Name>, name: &Name) -> Result<Name, AllocError>
    ensures { IfOk result (λ placed. placed ≡ below (option_copied dir.entry) name.now) }
{
    match dir {
        Some(dir) => name.below(alloc, dir),
        None => name.copy(alloc),
    }
}

fn backup_of(alloc: Global, options: &Options, name: &Name) -> Result<WithTemp, AllocError>
    requires { IsLawful (plain_options options.now) }
    ensures name { IfOk result (λ p. p.name ≡ below options.now.dir (backup_name (plain_options options.now) name.now)) }
    ensures temp { IfOk result (λ p. p.temp ≡ temp_of (below options.now.dir (backup_name (plain_options options.now) name.now))) }
    ensures temporary { IfOk result (λ p. is_temp p.temp ≡ true) }
{
    let fronted = named(alloc, options, name)?;
    let end = backup_end(is_fronted(options), &options.suffix);
    put_below(
        alloc,
        options.dir.as_ref(),
        &fronted.followed_by(alloc, end)?,
    )
}

/// Whether a prefix is given for backups.
fn is_fronted(options: &Options) -> bool
    ensures { result ≡ is_fronted (plain_options options.now) }
{
    options.prefix.is_some() || options.base_prefix.is_some()
}

/// The name with both prefixes of backups.
fn named(alloc: Global, options: &Options, name: &Name) -> Result<Name, AllocError>
    requires { IsLawful (plain_options options.now) }
    ensures { IfOk result (λ made. made ≡ backup_front (plain_options options.now) name.now) }
{
    let based = based(alloc, &options.base_prefix, name)?;
    fronted(alloc, &options.prefix, &based)
}

/// The name with the prefix before its last component, if there is one.
fn based(alloc: Global, prefix: &Option<String>, name: &Name) -> Result<Name, AllocError>
    ensures { IfOk result (λ made. made ≡ based (option_map string_bytes prefix.now) name.now) }
{
    match prefix {
        Some(prefix) => with_base(alloc, prefix.as_str(), name),
        None => name.copy(alloc),
    }
}

/// The name with a front before its last component; the name itself where no operator may give that.
fn with_base(alloc: Global, front: &str, name: &Name) -> Result<Name, AllocError>
    ensures { IfOk result (λ made. made ≡ lawful_or (with_base front.now name.now) name.now) }
{
    let text = base_text(alloc, front.as_bytes(), name.text().as_bytes())?;
    match Name::new(alloc, &text) {
        Ok(made) => Ok(made),
        Err(NameFault::Memory) => Err(AllocError),
        Err(NameFault::Refused { rule: _ }) => given_or(alloc, &text, name),
    }
}

/// The name that an operator gives by a text, or another one where none may.
fn given_or(alloc: Global, text: &[u8], name: &Name) -> Result<Name, AllocError>
    ensures { IfOk result (λ made. made ≡ lawful_or text.now name.now) }
{
    match Name::given(alloc, text) {
        Ok(made) => Ok(made.written()),
        Err(NameFault::Memory) => Err(AllocError),
        Err(NameFault::Refused { rule: _ }) => name.copy(alloc),
    }
}

/// The text of a name with a front before its last component.
fn base_text(alloc: Global, front: &[u8], text: &[u8]) -> Result<Vec<u8>, AllocError>
    ensures { IfOk result (λ made. made.items ≡ with_base front.now text.now) }
{
    let last = last_component(text);
    let start = text.len().saturating_sub(last.len());
    let mut made = Vec::from_slice(alloc, &text[..start])?;
    made.extend_from_slice(front)?;
    made.extend_from_slice(last)?;
    Ok(made)
}

/// The name with the prefix before it, if there is one.
fn fronted(alloc: Global, prefix: &Option<String>, name: &Name) -> Result<Name, AllocError>
    requires { ForSome (option_map string_bytes prefix.now) IsFront }
    ensures { IfOk result (λ made. made ≡ fronted (option_map string_bytes prefix.now) name.now) }
{
    match prefix {
        Some(prefix) => name.preceded_by(alloc, prefix.as_str()),
        None => name.copy(alloc),
    }
}

/// What stands behind the name of a backup.
fn backup_end<'a>(is_fronted: bool, suffix: &'a Option<String>) -> &'a str
    requires { ForSome (option_map string_bytes suffix.now) IsSuffix }
    ensures end { result.now ≡ backup_end is_fronted (option_map string_bytes suffix.now) }
    ensures ending { IsEnding result.now }
{
    match suffix {
        Some(suffix) => suffix.as_str(),
        None if is_fronted => "",
        None => ".orig",
    }
}

fn reject_of(alloc: Global, options: &Options, name: &Name) -> Result<WithTemp, AllocError>
    ensures name { IfOk result (λ p. p.name ≡ below options.now.dir (reject_name (plain_options options.now) name.now)) }
    ensures temp { IfOk result (λ p. p.temp ≡ temp_of (below options.now.dir (reject_name (plain_options options.now) name.now))) }
    ensures temporary { IfOk result (λ p. is_temp p.temp ≡ true) }
    ensures shown { IfOk result (λ p. p.shown_from ≡ shown_from options.now.dir (reject_name (plain_options options.now) name.now)) }
{
    match &options.reject {
        Some(reject) => put_below(alloc, options.dir.as_ref(), reject),
        None => put_below(
            alloc,
            options.dir.as_ref(),
            &name.followed_by(alloc, ".rej")?,
        ),
    }
}
