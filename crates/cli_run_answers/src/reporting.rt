//! The line of a refusal or a fault on standard error.
ghost use Rattle.std.specs.Prelude.{◌≡◌, ◌++◌, ◌∷◌, [], ℕ, List, true, map, string_bytes};
ghost use Rattle.std.specs.Option.{option_copied};
ghost use Rattle.outside.specs.SinkView.{Writes};
ghost use Rattle.cli_run_answers.specs.Answers.{is_ended};
ghost use Rattle.cli_run_answers.specs.Reasons.{refusal_line, is_tool, tool_of, reason_of, kind_text, decimal_if, text_of};
ghost use Rattle.cli_run_answers.specs.declared.why.Why.TheVariants.{Malformed};

use crate::why::Why;
use cli_tool_words::tool_named;
use hunk_core::BadKind;
use num_text::put_number;
use outside::{Failed, Sink, put_all};

/// The words of a message: texts, and the numbers between them.
#[derive(Clone, Copy)]
pub struct Reason {
    pub front: &'static [u8],
    pub first: Option<u64>,
    pub middle: &'static [u8],
    pub second: Option<u64>,
    pub end: &'static [u8],
}

/// Writes the line of this answer, or nothing where every file patch had its turn.
pub fn report<E: Sink>(err: &mut E, words: &[String], why: Why) -> Result<(), Failed>
    ensures writes { Writes (E.view err.old) (E.view err.new) result (refusal_line (map string_bytes words.now) why) }
    ensures still { is_ended why ≡ true → err.new ≡ err.old }
    ensures rest { E.same_rest err.old err.new }
{
    if why.is_ended() {
        return Ok(());
    }
    put_all(err, tool_of(words))?;
    put_all(err, b": **** ")?;
    put_reason(err, &reason_of(why))?;
    put_all(err, b"\n")
}

/// The tool's name in a message.
fn tool_of(words: &[String]) -> &[u8]
    ensures { result.now ≡ tool_of (map string_bytes words.now) }
{
    match words.first() {
        Some(word) => named_tool(word.as_str()),
        None => b"patchkit",
    }
}

/// The word, if it is a tool.
fn named_tool(word: &str) -> &[u8]
    ensures { result.now ≡ tool_of (word.now ∷ []) }
{
    if is_tool(word) {
        word.as_bytes()
    } else {
        b"patchkit"
    }
}

fn is_tool(word: &str) -> bool
    ensures { result ≡ is_tool word.now }
{
    if word == "patch" {
        return true;
    }
    tool_named(word).is_some()
}

fn reason_of(why: Why) -> Reason
    ensures { text_of result ≡ reason_of why }
{
    match why {
        Why::Done | Why::Rejected => plain(b""),
        Why::Usage => plain(b"the words are not a command"),
        Why::Malformed { line, kind } => malformed(line, kind),
        Why::Garbage => plain(b"Only garbage was found in the patch input."),
        Why::EdReverse { line } => {
            numbered(b"the ed script at line ", line, b" can't be reversed")
        }
        Why::OutMany { count } => {
            numbered(b"-o takes one file patch, here are ", u64::from(count), b"")
        }
        Why::Reserved { line } => numbered(b"a reserved name at line ", line, b""),
        Why::NoPatchFile => plain(b"Can't find the patch file"),
        Why::TooLong => plain(b"the patch is too long"),
        Why::LongLine { line, length } => Reason {
            front: b"line ",
            first: Some(line),
            middle: b" has ",
            second: Some(length),
            end: b" bytes, more than the buffer holds",
        },
        Why::FileTooLong { length } => numbered(b"a file of ", length, b" bytes is too long"),
        Why::BadPattern => plain(b"the pattern can't be read"),
        Why::NoContext { line } => {
            numbered(b"the patch at line ", line, b" lacks what the form shows")
        }
        Why::Unfit { line } => numbered(b"the patch at line ", line, b" doesn't fit the form"),
        Why::BadState { file: _ } => plain(b"the stack's state can't be read"),
        Why::StackEnd { applied } => {
            numbered(
                b"",
                u64::from(applied),
                b" patches are applied, nothing to do",
            )
        }
        Why::StackName { line } => numbered(b"a name of the stack at line ", line, b""),
        Why::ReadFault => plain(b"read fault"),
        Why::WriteFault => plain(b"write fault"),
        Why::TreeFault => plain(b"tree fault"),
        Why::ScratchFault => plain(b"scratch fault"),
        Why::Disagree { want, got } => Reason {
            front: b"",
            first: Some(want),
            middle: b" expected, ",
            second: Some(got),
            end: b" found",
        },
        Why::Memory => plain(b"out of memory"),
    }
}

/// A reason without a number.
fn plain(text: &'static [u8]) -> Reason
    ensures { text_of result ≡ text.now }
{
    Reason {
        front: text,
        first: None,
        middle: b"",
        second: None,
        end: b"",
    }
}

/// A reason with one number.
fn numbered(front: &'static [u8], number: u64, end: &'static [u8]) -> Reason
    ensures { text_of result ≡ front.now ++ (decimal_if (Some number) ++ end.now) }
{
    Reason {
        front,
        first: Some(number),
        middle: b"",
        second: None,
        end,
    }
}

/// The first fault of a patch text.
fn malformed(line: u64, kind: BadKind) -> Reason
    ensures { text_of result ≡ reason_of (Malformed line kind) }
{
    Reason {
        front: b"malformed patch at line ",
        first: Some(line),
        middle: b": ",
        second: None,
        end: kind_text(kind),
    }
}

fn kind_text(kind: BadKind) -> &'static [u8]
    ensures { result.now ≡ kind_text kind }
{
    match kind {
        BadKind::Range => b"a bad range",
        BadKind::Mark => b"a line without a mark",
        BadKind::Count => b"counts and lines differ",
        BadKind::ShortEnd => b"the text ends inside a hunk",
        BadKind::NumberTooLarge => b"a number too large",
        BadKind::SidesDiffer => b"the two parts differ",
        BadKind::MisplacedBackslash => b"a misplaced backslash line",
        BadKind::EdCommand => b"an ed command out of scope",
        BadKind::EdOrder => b"ed commands out of order",
        BadKind::EdNoDot => b"an ed text without its end",
        BadKind::Binary => b"a binary change",
        BadKind::HunkOrder => b"hunks out of order",
    }
}

fn put_reason<E: Sink>(err: &mut E, reason: &Reason) -> Result<(), Failed>
    ensures writes { Writes (E.view err.old) (E.view err.new) result (text_of reason.now) }
    ensures rest { E.same_rest err.old err.new }
{
    put_all(err, reason.front)?;
    put_decimal(err, reason.first)?;
    put_all(err, reason.middle)?;
    put_decimal(err, reason.second)?;
    put_all(err, reason.end)
}

/// Writes a number, if there is one.
fn put_decimal<E: Sink>(err: &mut E, value: Option<u64>) -> Result<(), Failed>
    ensures writes { Writes (E.view err.old) (E.view err.new) result (decimal_if value) }
    ensures rest { E.same_rest err.old err.new }
{
    match value {
        Some(value) => {
            let mut digits = [0; 20];
            let count = put_number(value, &mut digits);
            put_all(err, &digits[..count])
        }
        None => Ok(()),
    }
}
