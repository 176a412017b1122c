//! A finder of regular expressions.
ghost use Rattle.std.specs.Prelude.{◌≡◌, ◌↔◌, None, Err, IfOk};
ghost use Rattle.regex.specs.Bytes.{matcher_pattern, regex_pattern, regex_source};
ghost use Rattle.patch_filters.specs.RegexFound.{IsAsWritten, IsNoPattern, regex_hit};

use outside::{FindFault, Finder};
use regex::Error;
use regex::bytes::{Matcher, Regex};
use std::alloc::{AllocError, Global};

/// A pattern's text, of which the contracts speak, and what searches for the pattern.
#[derive(Drop)]
struct Kept {
    source: &'static str,
    matcher: Matcher<'static>,
    ghost as_written: { IsAsWritten source.now (matcher_pattern matcher) },
}

/// A finder that takes the regular expressions of the `regex` crate, and finds one in a line where it matches somewhere.
/// Lines are any bytes, and `.` stands for a whole character in UTF-8. A text is refused that is no pattern, nests deeper
/// than 250 levels, or takes more than 10 MiB once it is compiled.
///
/// What searches for a pattern is made with the pattern, since to make it takes far longer than to search a line. So a
/// compiled pattern stays in memory until the program ends, also where another takes its place.
#[derive(Drop)]
pub struct RegexFinder {
    kept: Option<Kept>,
}

impl RegexFinder {
    ghost use Rattle.patch_filters.specs.RegexView.{regex_view};

    /// A finder that keeps no pattern yet.
    pub fn new() -> RegexFinder
        ensures kept { (regex_view result).kept ≡ None }
    {
        RegexFinder { kept: None }
    }
}

impl Finder for RegexFinder {
    ghost use Rattle.std.specs.Prelude.{◌≡◌, ℕ, List, Some, IsSome, IfOk};
    ghost use Rattle.outside.specs.FinderView.{FinderPasses, IsSet};
    ghost use Rattle.patch_filters.specs.RegexView.{regex_view};

    ghost view = { regex_view };

    // What was kept goes first, also where memory runs out.
    fn set(&mut self, alloc: Global, pattern: &str) -> Result<(), FindFault>
        ensures passes { FinderPasses (regex_view self.old) (regex_view self.new) }
        ensures set { IsSet (regex_view self.old) (regex_view self.new) pattern.now result }
        // `regex` refused the text.
        ensures refused { result ≡ Err FindFault.Refused → IsNoPattern pattern.now }
    {
        self.kept = None;
        match Kept::new(alloc, pattern) {
            Ok(kept) => {
                self.kept = Some(kept);
                Ok(())
            }
            Err(fault) => Err(fault),
        }
    }

    fn hits(&mut self, _alloc: Global, line: &[u8]) -> Result<bool, AllocError>
        requires kept { IsSome (regex_view self.old).kept }
        ensures passes { FinderPasses (regex_view self.old) (regex_view self.new) }
        ensures same { (regex_view self.new).kept ≡ (regex_view self.old).kept }
        ensures hit { IfOk result (λ b. (pattern : List ℕ) → (regex_view self.old).kept ≡ Some pattern → b ≡ (regex_view self.old).hit pattern line.now) }
    {
        match &mut self.kept {
            Some(kept) => Ok(kept.hits(line)),
            None => Ok(false),
        }
    }
}

impl Kept {
    fn new(alloc: Global, pattern: &str) -> Result<Kept, FindFault>
        ensures source { IfOk result (λ kept. kept.source.now ≡ pattern.now) }
        ensures refused { result ≡ Err FindFault.Refused → IsNoPattern pattern.now }
    {
        let regex = read(alloc, pattern)?;
        match regex.matcher(alloc) {
            Ok(matcher) => Ok(Kept {
                source: regex.as_str(),
                matcher,
            }),
            Err(_) => Err(FindFault::Memory),
        }
    }

    /// Whether the pattern matches somewhere in the line.
    fn hits(&mut self, line: &[u8]) -> bool
        ensures found { result ≡ regex_hit self.old.source.now line.now }
        ensures same { self.new.source ≡ self.old.source }
    {
        self.matcher.is_match(line)
    }
}

/// The text as a pattern, which stays where it is until the program ends, so that a matcher may stand beside it.
fn read(alloc: Global, pattern: &str) -> Result<&'static Regex, FindFault>
    ensures source { IfOk result (λ r. regex_source r.now ≡ pattern.now) }
    ensures as_written { IfOk result (λ r. IsAsWritten (regex_source r.now) (regex_pattern r.now)) }
    ensures refused { result ≡ Err FindFault.Refused → IsNoPattern pattern.now }
{
    match Regex::new(alloc, pattern) {
        Ok(regex) => match Box::new(alloc, regex) {
            Ok(place) => Ok(Box::leak(place)),
            Err(_) => Err(FindFault::Memory),
        },
        Err(error) => Err(fault_of(error)),
    }
}

/// A text that is no pattern, and one that is too big, are refused.
fn fault_of(error: Error) -> FindFault
    ensures { result ≡ FindFault.Memory ↔ error ≡ Error.OutOfMemory }
{
    match error {
        Error::OutOfMemory => FindFault::Memory,
        _ => FindFault::Refused,
    }
}
