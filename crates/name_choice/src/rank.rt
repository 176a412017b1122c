//! The counts by which names are compared, and the best name so far.
ghost use Rattle.std.specs.Prelude.{◌≡◌, length};
ghost use Rattle.name_choice.specs.Better.{component_count, is_better};
ghost use Rattle.name_choice.specs.Rank.{rank_of, precedes, better_of, best_at, best_with, place_of};

use outside::Name;
use read_file_patch::last_component;

/// How good a name is: the first count in which two names differ decides, and the smaller one is better.
#[derive(Clone, Copy)]
pub struct Rank {
    pub new_directories: u64,
    /// The number of components.
    pub parts: u64,
    /// The length of the last component, in bytes.
    pub last: usize,
    /// The length of the name, in bytes.
    pub length: usize,
}

/// The best name so far, by its place among the targets.
#[derive(Clone, Copy)]
pub struct Best {
    pub place: u32,
    pub rank: Rank,
}

impl Rank {
    pub fn new(text: &[u8], new_directories: u64) -> Rank
        ensures { result ≡ rank_of new_directories text.now }
    {
        Rank {
            new_directories,
            parts: component_count(text),
            last: last_component(text).len(),
            length: text.len(),
        }
    }

    fn precedes(&self, other: &Rank) -> bool
        ensures { result ≡ precedes self.now other.now }
    {
        if self.new_directories != other.new_directories {
            self.new_directories < other.new_directories
        } else if self.parts != other.parts {
            self.parts < other.parts
        } else if self.last != other.last {
            self.last < other.last
        } else {
            self.length < other.length
        }
    }
}

/// How many pieces the slashes part.
fn component_count(text: &[u8]) -> u64
    ensures { result ≡ component_count text.now }
{
    text.split(|byte| *byte == b'/').count() as u64
}

/// Whether one name, as it is written, is better than another: it has fewer components, or else a shorter last one, or
/// else it is shorter.
pub fn is_better(a: &[u8], b: &[u8]) -> bool
    ensures { result ≡ is_better a.now b.now }
{
    Rank::new(a, 0).precedes(&Rank::new(b, 0))
}

/// The better of the best so far and one that comes behind it.
fn better_of(best: Option<Best>, next: Best) -> Best
    ensures { result ≡ better_of best next }
{
    match best {
        Some(best) => {
            if next.rank.precedes(&best.rank) {
                next
            } else {
                best
            }
        }
        None => next,
    }
}

/// The best once a name was looked at that counts or doesn't.
pub fn best_with(
    best: Option<Best>,
    counts: bool,
    place: u32,
    name: &Name,
    new_directories: u64,
) -> Option<Best>
    ensures { result ≡ best_with best counts (best_at place new_directories name.now) }
{
    if !counts {
        return best;
    }
    let rank = Rank::new(name.text().as_bytes(), new_directories);
    Some(better_of(best, Best { place, rank }))
}

pub fn place_of(best: Option<Best>) -> Option<u32>
    ensures { result ≡ place_of best }
{
    best.map(|best| best.place)
}
