//! The patch text of a run, from a file of the tree or from the source.
ghost use Rattle.std.specs.Prelude.{◌≡◌, ◌≤◌, ℕ, List, [], Ok, Some, length, IfOk, IfErr, OnOk};
ghost use Rattle.std.specs.Option.{option_copied};
ghost use Rattle.outside.specs.Calls.{IsUntouched};
ghost use Rattle.outside.specs.SourceView.{SourcePasses};
ghost use Rattle.cli_run_answers.specs.Input.{IsStandard, IsFile, IsAnswer, HasCause, TakesAtMost};

use crate::fault::InputFault;
use crate::file::read_below;
use crate::stream::read_source;
use outside::{Name, Source, Tree};
use patch_options::Input;
use std::alloc::Global;

/// The longest patch text, in bytes.
pub const LONGEST: u64 = 268_435_456;

/// The bytes that the input stands for. The name of a file stands below the directory.
pub fn read_input<T: Tree, I: Source>(
    alloc: Global,
    input: &Input,
    dir: Option<&Name>,
    tree: &mut T,
    source: &mut I,
) -> Result<Vec<u8>, InputFault>
    ensures untouched { IsUntouched (T.view tree.old) (T.view tree.new) }
    ensures tree { IsStandard input.now → tree.new ≡ tree.old }
    ensures passes { SourcePasses (I.view source.old) (I.view source.new) }
    ensures source { IsFile input.now → source.new ≡ source.old }
    ensures short { IfOk result (λ text. length text.items ≤ 268435456) }
    ensures text { IfOk result (λ text. IsAnswer (Ok text.items) input.now (option_copied dir.entry) (T.view tree.old) (I.view source.old)) }
    ensures end { OnOk result (IsStandard input.now → (left : List ℕ) → (I.view source.old).told ≡ Some left → (I.view source.new).told ≡ Some []) }

    // So one that never ends is refused.
    ensures taken { TakesAtMost 268435457 (I.view source.old) (I.view source.new) }
    ensures cause { IfErr result (λ e. HasCause e input.now (option_copied dir.entry) (T.view tree.old) (T.view tree.new) (I.view source.old) (I.view source.new)) }
{
    match input {
        Input::Standard => read_source(alloc, source),
        Input::File(name) => {
            let text = read_below(alloc, dir, name, tree)?;
            Ok(text)
        }
    }
}
