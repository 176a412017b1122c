//! What to do about a patch text that is refused.

use crate::wanted::is_known;
use cli_run_answers::Why;
use hunk_core::BadKind;

/// What passes over binary changes.
const BINARY: &str = "--skip-binary passes over binary changes";

/// What `reversediff` can't turn round.
const NO_WAY_BACK: &str =
    "a rename, a copy, a mode alone, an empty file that is made or goes, or hunks out of order can't be turned round";

/// What can't be written in the forms without context.
const NO_COMMANDS: &str =
    "hunks out of order, or in the form of ed a last line without a line feed, can't be written so";

const ORDER: &str = "the hunks of a file have to stand in the order of its lines";

/// What helps where the numbers of a range line may be wrong, and what that does where they aren't.
const COUNTS: &str = "if the numbers of its '@@' line are wrong, recountdiff mends them";

const MARK: &str =
    "if the numbers of its '@@' line are wrong, recountdiff mends them; if the line lost its mark (a space, '+' or '-'), mend it by hand";

const END: &str =
    "if the numbers of its '@@' line are wrong, recountdiff mends them; if the text is cut, its end is missing then too";

/// What helps with a text that is malformed, or can't be turned round or written in another form, or nothing.
pub fn help_with(tool: &str, why: Why) -> &'static str {
    match why {
        Why::Malformed { kind, .. } => help_with_kind(tool, kind),
        Why::Unfit { .. } => match tool {
            "reversediff" => NO_WAY_BACK,
            _ => NO_COMMANDS,
        },
        _ => "",
    }
}

/// What the tool has for a malformed text, or else what `recountdiff` mends, unless it is the tool.
fn help_with_kind(tool: &str, kind: BadKind) -> &'static str {
    match kind {
        BadKind::HunkOrder => ORDER,
        BadKind::Binary => match is_known(tool, "--skip-binary") {
            true => BINARY,
            false => "",
        },
        _ => match tool {
            "recountdiff" => "",
            _ => recount_of(kind),
        },
    }
}

fn recount_of(kind: BadKind) -> &'static str {
    match kind {
        BadKind::Count => COUNTS,
        BadKind::Mark => MARK,
        BadKind::ShortEnd => END,
        _ => "",
    }
}
