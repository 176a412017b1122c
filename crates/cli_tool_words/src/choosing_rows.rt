//! The rows of what is chosen: by names, numbers and patterns.

use patch_options::{Word, WordForm};

pub const STRIP_MATCH: Word = Word {
    form: WordForm::Value,
    letter: Some('p'),
    name: "strip-match",
    shown: "-p N, --strip-match=N",
    help: "match names without the front with N slashes (0)",
};

pub const INCLUDE: Word = Word {
    form: WordForm::Values,
    letter: Some('i'),
    name: "include",
    shown: "-i PAT, --include=PAT",
    help: "take only file patches whose name a PAT matches",
};

pub const EXCLUDE: Word = Word {
    form: WordForm::Values,
    letter: Some('x'),
    name: "exclude",
    shown: "-x PAT, --exclude=PAT",
    help: "leave out file patches whose name a PAT matches",
};

pub const INCLUDE_FILE: Word = Word {
    form: WordForm::Value,
    letter: Some('I'),
    name: "include-from-file",
    shown: "-I FILE",
    help: "take by the lines of FILE (--include-from-file)",
};

pub const EXCLUDE_FILE: Word = Word {
    form: WordForm::Value,
    letter: Some('X'),
    name: "exclude-from-file",
    shown: "-X FILE",
    help: "leave out by those of FILE (--exclude-from-file)",
};

pub const HUNKS: Word = Word {
    form: WordForm::Value,
    letter: Some('#'),
    name: "hunks",
    shown: "-# RANGE, --hunks=RANGE",
    help: "keep only these hunks of each file patch",
};

pub const LINES: Word = Word {
    form: WordForm::Value,
    letter: None,
    name: "lines",
    shown: "--lines=RANGE",
    help: "keep only hunks that have one of these old lines",
};

pub const FILES: Word = Word {
    form: WordForm::Value,
    letter: Some('F'),
    name: "files",
    shown: "-F RANGE, --files=RANGE",
    help: "take only file patches with these numbers",
};

pub const PATTERN_FILE: Word = Word {
    form: WordForm::Value,
    letter: Some('f'),
    name: "file",
    shown: "-f FILE, --file=FILE",
    help: "take each line of FILE as a REGEX, and no REGEX",
};

pub const EXTENDED: Word = Word {
    form: WordForm::Switch,
    letter: Some('E'),
    name: "extended-regexp",
    shown: "-E, --extended-regexp",
    help: "no change: REGEX is an extended one",
};

pub const ONLY_MATCH: Word = Word {
    form: WordForm::Value,
    letter: None,
    name: "only-match",
    shown: "--only-match=WHAT",
    help: "search only rem, add, mod or all (all) lines",
};

pub const SKIP_BINARY: Word = Word {
    form: WordForm::Switch,
    letter: None,
    name: "skip-binary",
    shown: "--skip-binary",
    help: "changes nothing: binary changes are passed over",
};
