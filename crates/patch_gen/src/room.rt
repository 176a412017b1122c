//! The length of a patch, so that its memory is reserved at once.

ghost use Rattle.std.specs.Prelude.{◌≡◌, ◌+◌, ◌*◌, ◌≤◌, ℕ, List, length};
ghost use Rattle.std.specs.List.{flat_map, range_with_len};
ghost use Rattle.num_text.specs.Numbers.{decimal};
ghost use Rattle.patch_gen.specs.Patches.{header_lines, hunk_text};
ghost use Rattle.patch_gen.specs.Tree.{made};

use num_text::put_number;

fn digit_count(value: u32) -> usize
    ensures count { result ≡ length (decimal value) }
    ensures few { result ≤ 20 }
{
    let mut digits = [0; 20];
    put_number(u64::from(value), &mut digits)
}

/// The length of so many hunks over lines of 12 bytes.
fn hunks_length(count: u32) -> usize
    requires { count ≤ 500_000 }
    ensures exact { (line : ℕ → List ℕ) → ((j : ℕ) → length (line j) ≡ 12) → length (flat_map (hunk_text line) (range_with_len 1 count)) ≡ result }
    ensures small { result ≤ 158 * count }
{
    let mut total = 0;
    for done in 0..count {
        total += 118 + 2 * digit_count(20 * (done + 1) - 13);
    }
    total
}

/// The length of the header lines of so many files.
fn headers_length(files: u32) -> usize
    requires { files ≤ 1_000 }
    ensures exact { length (flat_map header_lines (range_with_len 1 files)) ≡ result }
    ensures small { result ≤ 60 * files }
{
    let mut total = 0;
    for done in 0..files {
        total += 20 + 2 * digit_count(done + 1);
    }
    total
}

/// The length of the whole patch.
pub fn patch_length(files: u32, lines: u32) -> usize
    requires { (files ≤ 1_000) × (lines ≤ 9_999_999) }
    ensures { (seed : ℕ) → length ((made seed files lines).patch) ≡ result }
{
    headers_length(files) + files as usize * hunks_length(lines / 20)
}
