//! How a patch text is looked through for file patches.

ghost use Rattle.std.specs.Prelude.{◌≡◌};
ghost use Rattle.patch_header.specs.ReadOptions.{with_git, plainly};

use hunk_core::Form;

/// How a patch text is looked through for file patches.
#[derive(Clone, Copy)]
pub struct ReadOptions {
    /// The one form whose openings count, or `None` where those of all forms do.
    pub only: Option<Form>,
    /// Whether git headers are read. Where they aren't, each of their lines is as any other line.
    pub git: bool,
    /// Whether binary lines are passed over as any other line, and with them each bare git header that one
    /// follows directly. Where they aren't, they stop the search.
    pub skip_binary: bool,
}

/// With git headers or without them, where binary lines stop the search.
pub fn with_git(only: Option<Form>, git: bool) -> ReadOptions
    ensures { result ≡ with_git only git }
{
    ReadOptions {
        only,
        git,
        skip_binary: false,
    }
}

/// Without git headers, where binary lines stop the search.
pub fn plainly(only: Option<Form>) -> ReadOptions
    ensures { result ≡ plainly only }
{
    with_git(only, false)
}
