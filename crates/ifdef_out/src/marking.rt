//! The lines that begin a condition.

ghost use Rattle.std.specs.Prelude.{◌≡◌, ◌++◌, ℕ, List, ◌∷◌, [], IfOk, OnErr};
ghost use Rattle.outside.specs.SinkView.{IsSinkCall, ReceivesPart};
ghost use Rattle.hunk_apply.specs.Written.{Wrote, join_behind};

use hunk_apply::{Tail, put_line};
use outside::{Failed, Sink, put_all};

/// Writes a line of a word and a name.
pub fn put_condition<O: Sink>(
    out: &mut O,
    tail: Tail,
    word: &[u8],
    name: &str,
) -> Result<Tail, Failed>
    ensures call { IsSinkCall (O.view out.old) (O.view out.new) result }
    ensures rest { O.same_rest out.old out.new }
    ensures written { IfOk result (λ now. (more : List (List ℕ)) → Wrote (O.view out.old) (O.view out.new) tail now ((word.now ++ (name.now ++ 10 ∷ [])) ∷ more) more) }
    ensures part { OnErr result ((more : List (List ℕ)) → ReceivesPart (O.view out.old) (O.view out.new) (join_behind tail.is_open ((word.now ++ (name.now ++ 10 ∷ [])) ∷ more))) }
{
    put_line(out, tail, word)?;
    put_all(out, name.as_bytes())?;
    put_all(out, b"\n")?;
    Ok(Tail {
        is_open: false,
        is_empty: false,
    })
}
