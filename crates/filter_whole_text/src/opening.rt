//! What a filter reads before it writes: the text, the files of patterns, and the file patches of the text.
ghost use Rattle.std.specs.Prelude.{◌≡◌, ◌≢◌, ◌⊎◌, ℕ, List, [], true, Ok, Err, Some, None, IfOk, IfErr, IfSome, OnOk};
ghost use Rattle.outside.specs.Files.{Files};
ghost use Rattle.outside.specs.Calls.{IsUntouched};
ghost use Rattle.outside.specs.SourceView.{SourcePasses};
ghost use Rattle.cli_tool_words.specs.PlainJobs.{plain_select};
ghost use Rattle.cli_run_answers.specs.Input.{IsFile, IsStandard, TakesAtMost};
ghost use Rattle.patch_set.specs.SetView.{IsRead, IsWhole};
ghost use Rattle.patch_set.specs.Refusals.{refusal};
ghost use Rattle.patch_set.specs.declared.fault.SetFault.{SetFault as TheFault};
ghost use Rattle.filter_whole_text.specs.Texts.{defaults};
ghost use Rattle.filter_whole_text.specs.Outcomes.{given};
ghost use Rattle.filter_whole_text.specs.Sifting.{HasInputCause, IsTold, is_refusal};
ghost use Rattle.filter_whole_text.specs.Opened.{IsDigestIn, IsOutlineOf, IsReadOfSome, IsSet, Opens};
ghost use Rattle.filter_whole_text.specs.declared.fault.FilterFault.TheVariants as faults;

use crate::defaults::{digest_plain, outline_plain, read_plain};
use crate::fault::FilterFault;
use crate::patterns::add_patterns;
use cli_run_answers::{InputFault, read_input};
use cli_tool_words::Select;
use filter_choice::{FilePatchList, HunkIndex};
use outside::{Source, Tree};
use patch_options::Input;
use patch_set::{PatchSet, SetFault};
use std::alloc::Global;

/// The text, and the selection with the patterns of its files.
fn read_given<T: Tree, I: Source>(
    alloc: Global,
    input: &Input,
    select: &mut Select,
    tree: &mut T,
    source: &mut I,
) -> Result<Vec<u8>, InputFault>
    ensures untouched { IsUntouched (T.view tree.old) (T.view tree.new) }
    ensures source { SourcePasses (I.view source.old) (I.view source.new) }
    ensures unread { IsFile input.now → source.new ≡ source.old }
    ensures read { OnOk result (IsStandard input.now → (left : List ℕ) → (I.view source.old).told ≡ Some left → (I.view source.new).told ≡ Some []) }
    ensures taken { TakesAtMost 268435457 (I.view source.old) (I.view source.new) }
    ensures given { IfOk result (λ text. (f : Files) (left : List ℕ) → IsTold input.now (plain_select select.old) (T.view tree.old) (I.view source.old) f left → given input.now (plain_select select.old) f left ≡ Ok (text.items, plain_select select.new)) }
    ensures refused { IfErr result (λ e. is_refusal (faults.Input e) ≡ true → (f : Files) (left : List ℕ) → IsTold input.now (plain_select select.old) (T.view tree.old) (I.view source.old) f left → given input.now (plain_select select.old) f left ≡ Err e) }
    ensures cause { IfErr result (λ e. HasInputCause e input.now (plain_select select.old) (T.view tree.old) (T.view tree.new) (I.view source.old) (I.view source.new)) }
    ensures skips { select.new.skip_binary ≡ select.old.skip_binary }
{
    let text = read_input(alloc, input, None, tree, source)?;
    add_patterns(alloc, select, tree)?;
    Ok(text)
}

/// The file patches of a text, of which binary changes are passed over or not; none where it has none.
fn read_patches(
    alloc: Global,
    text: Vec<u8>,
    skip_binary: bool,
) -> Result<Option<PatchSet>, SetFault>
    ensures set { IfOk result (λ given. IfSome given (λ v. IsRead (defaults skip_binary) text.items v × (refusal (defaults skip_binary) text.items ≡ None))) }
    ensures whole { IfOk result (λ given. IfSome given IsWhole) }
    ensures none { IfOk result (λ given. given ≡ None → refusal (defaults skip_binary) text.items ≡ Some TheFault.Garbage) }
    ensures refused { IfErr result (λ e. (e ≡ TheFault.Memory) ⊎ ((e ≢ TheFault.Garbage) × (refusal (defaults skip_binary) text.items ≡ Some e))) }
{
    match read_plain(alloc, text, skip_binary) {
        Ok(set) => Ok(Some(set)),
        Err(fault) => match fault {
            SetFault::Garbage => Ok(None),
            _ => Err(fault),
        },
    }
}

/// The file patches that a filter reads, and its selection with the patterns of its files; none where the text has none.
pub fn open_text<T: Tree, I: Source>(
    alloc: Global,
    input: &Input,
    select: &mut Select,
    tree: &mut T,
    source: &mut I,
) -> Result<Option<PatchSet>, FilterFault>
    ensures opens { Opens IsSet input.now (plain_select select.old) (plain_select select.new) (T.view tree.old) (T.view tree.new) (I.view source.old) (I.view source.new) result }
    ensures unread { IsFile input.now → source.new ≡ source.old }
    ensures whole { IfOk result (λ given_set. IfSome given_set IsWhole) }
    ensures read { IfOk result (λ given_set. IfSome given_set (IsReadOfSome select.new.skip_binary)) }
{
    let text = read_given(alloc, input, select, tree, source)?;
    let set = read_patches(alloc, text, select.skip_binary)?;
    Ok(set)
}

/// The file patches that a filter reads without their hunks, where it wants no more than a list.
pub fn open_outline<T: Tree, I: Source>(
    alloc: Global,
    input: &Input,
    select: &mut Select,
    tree: &mut T,
    source: &mut I,
) -> Result<Option<FilePatchList>, FilterFault>
    ensures opens { Opens IsOutlineOf input.now (plain_select select.old) (plain_select select.new) (T.view tree.old) (T.view tree.new) (I.view source.old) (I.view source.new) result }
    ensures unread { IsFile input.now → source.new ≡ source.old }
{
    let text = read_given(alloc, input, select, tree, source)?;
    match outline_plain(alloc, text, select.skip_binary) {
        Ok(outline) => Ok(Some(outline)),
        Err(fault) => match fault {
            SetFault::Garbage => Ok(None),
            _ => Err(FilterFault::Set(fault)),
        },
    }
}

/// The file patches that a filter reads without their hunks, where it leaves file patches and hunks out.
pub fn open_digest<T: Tree, I: Source>(
    alloc: Global,
    input: &Input,
    select: &mut Select,
    tree: &mut T,
    source: &mut I,
) -> Result<Option<HunkIndex>, FilterFault>
    ensures opens { Opens IsDigestIn input.now (plain_select select.old) (plain_select select.new) (T.view tree.old) (T.view tree.new) (I.view source.old) (I.view source.new) result }
    ensures unread { IsFile input.now → source.new ≡ source.old }
{
    let text = read_given(alloc, input, select, tree, source)?;
    match digest_plain(alloc, text, select.skip_binary) {
        Ok(digest) => Ok(Some(digest)),
        Err(fault) => match fault {
            SetFault::Garbage => Ok(None),
            _ => Err(FilterFault::Set(fault)),
        },
    }
}
