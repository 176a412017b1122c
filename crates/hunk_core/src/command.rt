//! The commands of normal diffs and of ed scripts: their letter, and the end of their line.
ghost use Rattle.std.specs.Prelude.{◌≡◌};
ghost use Rattle.line_list.specs.Reader.{Reads};
ghost use Rattle.hunk_core.specs.Letters.{action_at, is_line_end, letter};

/// What a command does: `a`, `c` or `d` (GNU diffutils manual, "Detailed Description of Normal
/// Format" and "Detailed Description of ed Scripts").
#[derive(Clone, Copy)]
pub enum Action {
    Add,
    Change,
    Delete,
}

/// The letter of a command, and what stands after it.
#[tactic(auto, unfolding(crate::specs::Letters::action_at))]
pub fn action_of(bytes: &[u8]) -> Option<(Action, &[u8])>
    ensures { Reads (λ x. (x.0, x.1.now)) result (action_at bytes.now) }
{
    match bytes {
        [b'a', rest @ ..] => Some((Action::Add, rest)),
        [b'c', rest @ ..] => Some((Action::Change, rest)),
        [b'd', rest @ ..] => Some((Action::Delete, rest)),
        _ => None,
    }
}

/// The letter that a command is written with.
pub fn letter_of(action: Action) -> u8
    ensures { result ≡ letter action }
{
    match action {
        Action::Add => b'a',
        Action::Change => b'c',
        Action::Delete => b'd',
    }
}

/// Whether a line has nothing more but its line feed.
pub fn ends_here(bytes: &[u8]) -> bool
    ensures { result ≡ is_line_end bytes.now }
{
    match bytes {
        [] => true,
        [byte] => *byte == b'\n',
        _ => false,
    }
}
