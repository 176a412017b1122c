//! What comes before the first change: the words are read, the tree is settled, and the patch text is read.
ghost use Rattle.std.specs.Prelude.{◌≡◌, ◌⊎◌, [], ℕ, List, map, false, true, Some, Ok, Err, OnOk, IfOk, IfErr, IsErrAnd, string_bytes};
ghost use Rattle.outside.specs.TreeView.{Rises};
ghost use Rattle.outside.specs.Calls.{IsUntouched};
ghost use Rattle.outside.specs.SourceView.{SourcePasses};
ghost use Rattle.outside.specs.ScratchView.{ScratchView};
ghost use Rattle.outside.specs.SinkView.{SinkView};
ghost use Rattle.outside.specs.Quiet.{IsQuiet};
ghost use Rattle.patch_options.specs.PlainJob.{plain_options, IsLawful};
ghost use Rattle.patch_options.specs.PlainJob.PlainJob.{patch};
ghost use Rattle.patch_options.specs.Words.{job_of};
ghost use Rattle.patch_options.specs.declared.options.WordFault.{WordFault as TheFault};
ghost use Rattle.cli_run_answers.specs.Input.{TakesAtMost};
ghost use Rattle.cli_run_answers.specs.Answers.{of_words};
ghost use Rattle.patch_cli.specs.Worlds.{world, is_standard, reads_source};
ghost use Rattle.cli_run_answers.specs.Moments.{Opens};
ghost use Rattle.patch_cli.specs.Opening.{IsAsked, StopsEarly};
ghost use Rattle.apply_backup_numbers.specs.Numbering.{asks_numbers};
ghost use Rattle.patch_cli.specs.Numbered.{IsMade};

use crate::returns::strips_returns;
use apply_backup_numbers::{NumberFault, asks_numbers, number_backups};
use cli_run_answers::{Why, read_input, settle};
use outside::{Source, Tree};
use patch_options::{Job, Options, read_words};
use patch_set::PatchSet;
use read_clean_text::read_telling;
use std::alloc::Global;

/// The options, and the file patches that are to be carried out with them.
#[derive(Drop)]
pub struct Work {
    pub options: Options,
    /// Carriage returns were taken off the patch text.
    pub strips: bool,
    pub set: PatchSet,
}

/// What the words ask for, once the tree is settled and the patch text read.
pub fn open<T: Tree, I: Source>(
    alloc: Global,
    words: &[String],
    tree: &mut T,
    source: &mut I,
) -> Result<Work, Why>
    ensures opens { Opens (T.view tree.old) (T.view tree.new) }
    ensures quiet { OnOk result (IsQuiet (T.view tree.new)) }
    ensures source { SourcePasses (I.view source.old) (I.view source.new) }
    ensures unread { reads_source (job_of (map string_bytes words.now)) ≡ false → source.new ≡ source.old }
    ensures read { OnOk result (reads_source (job_of (map string_bytes words.now)) ≡ true → (left : List ℕ) → (I.view source.old).told ≡ Some left → (I.view source.new).told ≡ Some []) }
    ensures taken { TakesAtMost 268435457 (I.view source.old) (I.view source.new) }
    ensures words { (fault : TheFault) → job_of (map string_bytes words.now) ≡ Err fault → IsErrAnd result (λ why. (why ≡ of_words fault) ⊎ (why ≡ Why.Memory)) }
    ensures still { (fault : TheFault) → job_of (map string_bytes words.now) ≡ Err fault → tree.new ≡ tree.old }
    ensures job { IfOk result (λ work. job_of (map string_bytes words.now) ≡ Ok (patch (plain_options work.options))) }
    ensures asked { IfOk result (λ work. (a : ScratchView) (c : SinkView) → IsAsked (plain_options work.options) work.strips work.set (world (T.view tree.old) a (I.view source.old) c)) }
    ensures refused { IfErr result (λ why. (a : ScratchView) (c : SinkView) → StopsEarly why (job_of (map string_bytes words.now)) (world (T.view tree.old) a (I.view source.old) c) (world (T.view tree.new) a (I.view source.new) c)) }
{
    let options = read_options(alloc, words)?;
    match settle(tree) {
        Ok(()) => {}
        Err(why) => {
            drop(options);
            return Err(why);
        }
    }
    let mut strips = false;
    match read_patches(alloc, &options, &mut strips, tree, source) {
        Ok(set) => Ok(Work {
            options,
            strips,
            set,
        }),
        Err(why) => {
            drop(options);
            Err(why)
        }
    }
}

/// The options that the words give.
fn read_options(alloc: Global, words: &[String]) -> Result<Options, Why>
    ensures job { IfOk result (λ options. job_of (map string_bytes words.now) ≡ Ok (patch (plain_options options))) }
    ensures lawful { IfOk result (λ options. IsLawful (plain_options options)) }
    ensures refused { IfErr result (λ why. (why ≡ Why.Memory) ⊎ ((fault : TheFault) × (why ≡ of_words fault) × (job_of (map string_bytes words.now) ≡ Err fault))) }
{
    match read_words(alloc, words) {
        Ok(Job::Patch(options)) => Ok(options),
        Err(fault) => Err(Why::from(fault)),
    }
}

/// The file patches of the patch text that the options name, and whether carriage returns were taken off that.
fn read_patches<T: Tree, I: Source>(
    alloc: Global,
    options: &Options,
    strips: &mut bool,
    tree: &mut T,
    source: &mut I,
) -> Result<PatchSet, Why>
    requires { IsLawful (plain_options options.now) }
    ensures untouched { IsUntouched (T.view tree.old) (T.view tree.new) }
    ensures source { SourcePasses (I.view source.old) (I.view source.new) }
    ensures unread { is_standard options.now.input ≡ false → source.new ≡ source.old }
    ensures read { OnOk result (is_standard options.now.input ≡ true → (left : List ℕ) → (I.view source.old).told ≡ Some left → (I.view source.new).told ≡ Some []) }
    ensures taken { TakesAtMost 268435457 (I.view source.old) (I.view source.new) }
    ensures asked { IfOk result (λ set. (a : ScratchView) (c : SinkView) → IsAsked (plain_options options.now) strips.new set (world (T.view tree.old) a (I.view source.old) c)) }
    ensures refused { IfErr result (λ why. (a : ScratchView) (c : SinkView) → StopsEarly why (Ok (patch (plain_options options.now))) (world (T.view tree.old) a (I.view source.old) c) (world (T.view tree.new) a (I.view source.new) c)) }
{
    let text = read_input(alloc, &options.input, options.dir.as_ref(), tree, source)?;
    let mut told = false;
    let set = read_telling(alloc, text, options, &mut told)?;
    *strips = strips_returns(options, told);
    number_if(alloc, options, set, tree)
}

/// The set with the numbers that its backups get, where they can be asked for.
fn number_if<T: Tree>(
    alloc: Global,
    options: &Options,
    set: PatchSet,
    tree: &mut T,
) -> Result<PatchSet, Why>
    ensures untouched { IsUntouched (T.view tree.old) (T.view tree.new) }
    ensures cause { IfErr result (λ why. ((why ≡ Why.TreeFault) × Rises (T.view tree.old) (T.view tree.new)) ⊎ (why ≡ Why.Memory)) }
    ensures made { IfOk result (IsMade (asks_numbers (plain_options options.now)) options.now.numbers (T.view tree.old).told set) }
{
    if !asks_numbers(options) {
        return Ok(set);
    }
    match number_backups(alloc, options, set, tree) {
        Ok(set) => Ok(set),
        Err(NumberFault::Tree) => Err(Why::TreeFault),
        Err(NumberFault::Memory) => Err(Why::Memory),
    }
}
