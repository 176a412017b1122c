//! The rows of how names are listed.

use patch_options::{Word, WordForm};

pub const STATUS: Word = Word {
    form: WordForm::Switch,
    letter: Some('s'),
    name: "status",
    shown: "-s, --status",
    help: "show + for a new file, - for one that goes, or !",
};

pub const LINE_NUMBER: Word = Word {
    form: WordForm::Switch,
    letter: Some('n'),
    name: "line-number",
    shown: "-n, --line-number",
    help: "show the number of the first line",
};

pub const VERBOSE: Word = Word {
    form: WordForm::Switch,
    letter: Some('v'),
    name: "verbose",
    shown: "-v, --verbose",
    help: "with -n show the lines of hunks too",
};

pub const WITH_FILE: Word = Word {
    form: WordForm::Switch,
    letter: Some('H'),
    name: "with-filename",
    shown: "-H, --with-filename",
    help: "show FILE in front of each line, as for several",
};

pub const NO_FILE: Word = Word {
    form: WordForm::Switch,
    letter: Some('h'),
    name: "no-filename",
    shown: "-h, --no-filename",
    help: "never show FILE",
};

pub const SHOWN_STRIP: Word = Word {
    form: WordForm::Value,
    letter: None,
    name: "strip",
    shown: "--strip=N",
    help: "show names without the front with N slashes (0)",
};

pub const ADD_PREFIX: Word = Word {
    form: WordForm::Value,
    letter: None,
    name: "addprefix",
    shown: "--addprefix=TEXT",
    help: "show TEXT in front of names",
};

pub const NUMBER_FILES: Word = Word {
    form: WordForm::Switch,
    letter: Some('N'),
    name: "number-files",
    shown: "-N, --number-files",
    help: "show the number of the file patch in its text",
};

pub const EMPTY_ABSENT: Word = Word {
    form: WordForm::Switch,
    letter: Some('E'),
    name: "empty-files-as-absent",
    shown: "-E, --empty-files-as-absent",
    help: "with -s an empty file counts as absent",
};

pub const EMPTY_REMOVED: Word = Word {
    form: WordForm::Switch,
    letter: None,
    name: "empty-files-as-removed",
    shown: "--empty-files-as-removed",
    help: "the same",
};
