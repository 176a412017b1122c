//! A tree of numbered lines and a patch over it, made from a seed: cases for tests and measuring. Stands on `num_text` alone. Begin
//! with `specs/Tree.antt`.
#![tactic(auto)]

ghost use Rattle.std.specs.Prelude.{◌≡◌, ◌<◌, ◌≤◌, ◌+◌, ◌-◌, ◌*◌, ◌/◌, ◌%◌, ◌^◌, ℕ, List, ◌++◌, ◌∷◌, [], length, map, IfOk, OnOk};
ghost use Rattle.num_text.specs.Numbers.{IsNumeral};
ghost use Rattle.patch_gen.specs.Lcg.{state_after, draw};
ghost use Rattle.patch_gen.specs.Texts.{in_places, extra_line, numbered_line, extra_count, line_value, file_line, file_text};
ghost use Rattle.patch_gen.specs.Patches.{new_line, file_patch};
ghost use Rattle.patch_gen.specs.Tree.{file_state, made_file, made};

mod diff;
mod lcg;
mod room;
mod text;

use diff::add_file_patch;
use lcg::Lcg;
use room::patch_length;
use std::alloc::{AllocError, Global};
use text::{file_of, without_extras};

/// A made tree: the texts of the files `gen/f1`, `gen/f2` and on, in order, and a patch over them
/// in the unified form (GNU diffutils manual, "Detailed Description of Unified Format"). The
/// patch was made without the extra lines at a file's front, so its hunks stand that much further on.
#[derive(Drop)]
pub struct Made {
    pub files: Vec<Vec<u8>>,
    pub patch: Vec<u8>,
    /// How many hunks the patch has.
    pub hunks: u32,
}

/// Makes the next file, and its part of the patch.
fn add_file(
    alloc: Global,
    files: &mut Vec<Vec<u8>>,
    patch: &mut Vec<u8>,
    draws: &mut Lcg,
    number: u32,
    lines: u32,
) -> Result<(), AllocError>
    requires { lines ≤ 9_999_999 }
    ensures files { OnOk result (map (λ v. v.items) files.new.items ≡ map (λ v. v.items) files.old.items ++ file_text draws.old.state lines ∷ []) }
    ensures patch { OnOk result (patch.new.items ≡ patch.old.items ++ file_patch (file_line draws.old.state) number (lines / 20)) }
    ensures state { OnOk result (draws.new.state ≡ state_after draws.old.state (1 + lines)) }
{
    let text = file_of(alloc, draws, lines)?;
    add_file_patch(patch, without_extras(&text, lines), number, lines / 20)?;
    files.push(text)?;
    Ok(())
}

/// The files and the patch that a seed makes. Each file has so many numbered lines behind at most
/// four extra ones, and one hunk for every twenty. The memory for each file, and that for the
/// whole patch, is taken at once.
#[tactic(auto, unfolding(crate::specs::Tree::made))]
pub fn generate(alloc: Global, seed: u32, files: u32, lines: u32) -> Result<Made, AllocError>
    requires files { (1 ≤ files) × (files ≤ 1_000) }
    requires lines { (20 ≤ lines) × (lines ≤ 9_999_999) }
    requires all { files * lines ≤ 10_000_000 }
    ensures files { IfOk result (λ m. map (λ v. v.items) m.files.items ≡ (made seed files lines).files) }
    ensures patch { IfOk result (λ m. m.patch.items ≡ (made seed files lines).patch) }
    ensures hunks { IfOk result (λ m. m.hunks ≡ (made seed files lines).hunks) }
{
    let mut draws = Lcg {
        state: u64::from(seed),
    };
    let mut texts = Vec::with_capacity(alloc, files as usize)?;
    let mut patch = Vec::with_capacity(alloc, patch_length(files, lines))?;
    for done in 0..files {
        add_file(alloc, &mut texts, &mut patch, &mut draws, done + 1, lines)?;
    }
    Ok(Made {
        files: texts,
        patch,
        hunks: files * (lines / 20),
    })
}

/// A number that fits is written with all of the places.
pub fn places_write_their_numbers()
    ensures numeral { (w n : ℕ) → 0 < w → n < 10 ^ w → IsNumeral (in_places w n) n }
    ensures width { (w n : ℕ) → length (in_places w n) ≡ w }
{}

/// The draws of the files follow one another: one for a file's extra lines, then one for each of
/// its numbered lines.
pub fn draws_follow_one_another()
    ensures extras { (seed lines i : ℕ) → extra_count (file_state seed lines i) ≡ draw seed ((i - 1) * (1 + lines) + 1) % 5 }
    ensures values { (seed lines i j : ℕ) → line_value (file_state seed lines i) j ≡ draw seed ((i - 1) * (1 + lines) + 1 + j) % 1000 }
{}

/// Every line has 12 bytes with its line feed, those that a hunk adds too.
pub fn lines_have_twelve_bytes()
    ensures extra { (k : ℕ) → length (extra_line k) ≡ 12 }
    ensures numbered { (j value : ℕ) → length (numbered_line j value) ≡ 12 }
    ensures added { (j : ℕ) → length (new_line j) ≡ 12 }
    ensures file { (seed lines i : ℕ) → length (made_file seed lines i) ≡ 12 * (extra_count (file_state seed lines i) + lines) }
{}

/// What the seed 7 makes, by computation.
pub fn seed_seven()
    ensures first { draw 7 1 ≡ 1059165278 }
    ensures extras { (lines : ℕ) → extra_count (file_state 7 lines 1) ≡ 3 }
    ensures short { length (made_file 7 20 1) ≡ 276 }
    ensures long { length (made_file 7 200000 1) ≡ 2400036 }
{}
