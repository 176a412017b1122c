//! The table of the words of `patch`, in groups. The definition has the same rows, and the text that tells the words is made of these.
ghost use Rattle.std.specs.Prelude.{◌≡◌};
ghost use Rattle.patch_options.specs.Groups.{patch_table};
ghost use Rattle.patch_options.specs.Simple.{plain_table};

use crate::{Group, Word, WordForm};

const INPUT: &[Word] = &[
    Word {
        form: WordForm::Operand,
        letter: None,
        name: "file",
        shown: "[FILE]",
        help: "the file to be patched",
    },
    Word {
        form: WordForm::Operand,
        letter: None,
        name: "patchfile",
        shown: "[PATCHFILE]",
        help: "the patch text, as by -i",
    },
    Word {
        form: WordForm::Value,
        letter: Some('p'),
        name: "strip",
        shown: "-p N, --strip=N",
        help: "strip the smallest front with N slashes off names",
    },
    Word {
        form: WordForm::Value,
        letter: Some('d'),
        name: "directory",
        shown: "-d DIR, --directory=DIR",
        help: "names stand below DIR, but given absolute ones",
    },
    Word {
        form: WordForm::Value,
        letter: Some('i'),
        name: "input",
        shown: "-i FILE, --input=FILE",
        help: "read the patch text from FILE, not standard input",
    },
    Word {
        form: WordForm::Switch,
        letter: Some('c'),
        name: "context",
        shown: "-c, --context",
        help: "take context patches alone",
    },
    Word {
        form: WordForm::Switch,
        letter: Some('e'),
        name: "ed",
        shown: "-e, --ed",
        help: "take ed scripts alone",
    },
    Word {
        form: WordForm::Switch,
        letter: Some('n'),
        name: "normal",
        shown: "-n, --normal",
        help: "take normal patches alone",
    },
    Word {
        form: WordForm::Switch,
        letter: Some('u'),
        name: "unified",
        shown: "-u, --unified",
        help: "take unified patches alone",
    },
    Word {
        form: WordForm::Switch,
        letter: None,
        name: "posix",
        shown: "--posix",
        help: concat!(
            "as POSIX says it: take the first name there is,\n",
            "                              ",
            "make files by an operand alone, and delete none"
        ),
    },
    Word {
        form: WordForm::Switch,
        letter: None,
        name: "skip-binary",
        shown: "--skip-binary",
        help: "pass over binary changes, and say where they are",
    },
    Word {
        form: WordForm::Switch,
        letter: Some('R'),
        name: "reverse",
        shown: "-R, --reverse",
        help: "take each file patch reversed",
    },
    Word {
        form: WordForm::Value,
        letter: Some('F'),
        name: "fuzz",
        shown: "-F N, --fuzz=N",
        help: "leave out up to N lines of context (2)",
    },
    Word {
        form: WordForm::Switch,
        letter: Some('l'),
        name: "ignore-whitespace",
        shown: "-l, --ignore-whitespace",
        help: "runs of spaces and tabs match each other",
    },
    Word {
        form: WordForm::Switch,
        letter: Some('N'),
        name: "forward",
        shown: "-N, --forward",
        help: "skip what looks reversed or applied",
    },
    Word {
        form: WordForm::Switch,
        letter: Some('t'),
        name: "batch",
        shown: "-t, --batch",
        help: "turn such a file patch round",
    },
    Word {
        form: WordForm::Switch,
        letter: Some('f'),
        name: "force",
        shown: "-f, --force",
        help: "try each file patch as it is",
    },
    Word {
        form: WordForm::Switch,
        letter: None,
        name: "follow-symlinks",
        shown: "--follow-symlinks",
        help: "read behind a symbolic link, and replace the link",
    },
];

const OUTPUT: &[Word] = &[
    Word {
        form: WordForm::Value,
        letter: Some('o'),
        name: "output",
        shown: "-o FILE, --output=FILE",
        help: "write the result to FILE; - is standard output",
    },
    Word {
        form: WordForm::Value,
        letter: Some('r'),
        name: "reject-file",
        shown: "-r FILE, --reject-file=FILE",
        help: "write rejects to FILE, or nowhere where it is -",
    },
    Word {
        form: WordForm::Value,
        letter: None,
        name: "reject-format",
        shown: "--reject-format=context|unified",
        help: "the form of rejects",
    },
    Word {
        form: WordForm::Value,
        letter: Some('D'),
        name: "ifdef",
        shown: "-D NAME, --ifdef=NAME",
        help: "keep old and new lines, behind conditions on NAME",
    },
    Word {
        form: WordForm::Switch,
        letter: Some('E'),
        name: "remove-empty-files",
        shown: "-E, --remove-empty-files",
        help: "remove a file that is left empty",
    },
    Word {
        form: WordForm::Switch,
        letter: None,
        name: "dry-run",
        shown: "--dry-run",
        help: "say what would be done, and change nothing",
    },
    Word {
        form: WordForm::Switch,
        letter: Some('s'),
        name: "silent",
        shown: "-s, --silent",
        help: "say only what went wrong",
    },
    Word {
        form: WordForm::Switch,
        letter: None,
        name: "quiet",
        shown: "--quiet",
        help: "say only what went wrong",
    },
    Word {
        form: WordForm::Switch,
        letter: None,
        name: "verbose",
        shown: "--verbose",
        help: "say also which hunks stand where they say",
    },
    Word {
        form: WordForm::Switch,
        letter: Some('T'),
        name: "set-time",
        shown: "-T, --set-time",
        help: "give files the times of their stamps (local)",
    },
    Word {
        form: WordForm::Switch,
        letter: Some('Z'),
        name: "set-utc",
        shown: "-Z, --set-utc",
        help: "give them those times, by UTC",
    },
    Word {
        form: WordForm::Value,
        letter: None,
        name: "read-only",
        shown: "--read-only=warn|ignore|fail",
        help: "files that may not be written to (warn)",
    },
    Word {
        form: WordForm::Value,
        letter: None,
        name: "sync",
        shown: "--sync=each|none",
        help: "wait for the disk at each file (each), or never",
    },
];

const BACKUPS: &[Word] = &[
    Word {
        form: WordForm::Switch,
        letter: Some('b'),
        name: "backup",
        shown: "-b, --backup",
        help: "keep the old bytes of each file",
    },
    Word {
        form: WordForm::Switch,
        letter: None,
        name: "backup-if-mismatch",
        shown: "--backup-if-mismatch",
        help: concat!(
            "keep them where a hunk doesn't fit exactly\n",
            "                              ",
            "(the default, but not with --posix)"
        ),
    },
    Word {
        form: WordForm::Switch,
        letter: None,
        name: "no-backup-if-mismatch",
        shown: "--no-backup-if-mismatch",
        help: "don't keep them",
    },
    Word {
        form: WordForm::Value,
        letter: Some('z'),
        name: "suffix",
        shown: "-z S, --suffix=S",
        help: "the suffix of their names (.orig)",
    },
    Word {
        form: WordForm::Value,
        letter: Some('B'),
        name: "prefix",
        shown: "-B S, --prefix=S",
        help: "the prefix of their names",
    },
    Word {
        form: WordForm::Value,
        letter: Some('Y'),
        name: "basename-prefix",
        shown: "-Y S, --basename-prefix=S",
        help: "the prefix of their last components",
    },
    Word {
        form: WordForm::Value,
        letter: Some('V'),
        name: "version-control",
        shown: "-V KIND, --version-control=never|existing|numbered",
        help: "numbers (with -b: existing)",
    },
];

const LINES: &[Word] = &[
    Word {
        form: WordForm::Value,
        letter: None,
        name: "plan",
        shown: "--plan=a|b|packed|auto",
        help: "in memory, or paged through two buffers (auto)",
    },
    Word {
        form: WordForm::Value,
        letter: None,
        name: "buffer",
        shown: "--buffer=N",
        help: "bytes of a buffer, 512 to 1048576",
    },
];

const OTHERS: &[Word] = &[
    Word {
        form: WordForm::Value,
        letter: Some('g'),
        name: "get",
        shown: "-g N, --get=N",
        help: "changes nothing: no file is got from elsewhere",
    },
    Word {
        form: WordForm::Value,
        letter: Some('x'),
        name: "debug",
        shown: "-x N, --debug=N",
        help: "changes nothing",
    },
    Word {
        form: WordForm::Switch,
        letter: None,
        name: "binary",
        shown: "--binary",
        help: "keep the carriage returns of a patch's lines",
    },
    Word {
        form: WordForm::Value,
        letter: None,
        name: "quoting-style",
        shown: "--quoting-style=literal|shell|shell-always|c|escape",
        help: "changes nothing: names are written as they are",
    },
];

static GROUPS: [Group; 5] = [
    Group {
        heading: "Input:\n",
        words: INPUT,
    },
    Group {
        heading: "Output:\n",
        words: OUTPUT,
    },
    Group {
        heading: "Backups:\n",
        words: BACKUPS,
    },
    Group {
        heading: "Lines of a file:\n",
        words: LINES,
    },
    Group {
        heading: "What other programs pass, and what changes nothing:\n",
        words: OTHERS,
    },
];

/// The words of `patch`.
pub fn patch_table() -> &'static [Group]
    ensures { plain_table result.now ≡ patch_table }
{
    &GROUPS
}
