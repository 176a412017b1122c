//! The rows of what is written, and how.

use patch_options::{Word, WordForm};

pub const ALL_TEXT: Word = Word {
    form: WordForm::Switch,
    letter: Some('v'),
    name: "verbose",
    shown: "-v, --verbose",
    help: concat!(
        "write the text outside of file patches too, as\n",
        "                              ",
        "with -x"
    ),
};

pub const CLEAN: Word = Word {
    form: WordForm::Switch,
    letter: None,
    name: "clean",
    shown: "--clean",
    help: "write no text outside of file patches or behind @@",
};

pub const WRITTEN_STRIP: Word = Word {
    form: WordForm::Value,
    letter: None,
    name: "strip",
    shown: "--strip=N",
    help: "write names without the front with N slashes (0)",
};

pub const WRITTEN_PREFIX: Word = Word {
    form: WordForm::Value,
    letter: None,
    name: "addprefix",
    shown: "--addprefix=TEXT",
    help: "write TEXT in front of the names of header lines",
};

pub const OLD_PREFIX: Word = Word {
    form: WordForm::Value,
    letter: None,
    name: "addoldprefix",
    shown: "--addoldprefix=TEXT",
    help: "write TEXT in front of old names",
};

pub const NEW_PREFIX: Word = Word {
    form: WordForm::Value,
    letter: None,
    name: "addnewprefix",
    shown: "--addnewprefix=TEXT",
    help: "write TEXT in front of new names",
};

pub const NO_STAMPS: Word = Word {
    form: WordForm::Switch,
    letter: None,
    name: "remove-timestamps",
    shown: "--remove-timestamps",
    help: "end header lines behind their names",
};

pub const FORMAT: Word = Word {
    form: WordForm::Value,
    letter: None,
    name: "format",
    shown: "--format=unified|context|normal|ed",
    help: "write file patches in this form",
};

pub const ANNOTATE: Word = Word {
    form: WordForm::Switch,
    letter: None,
    name: "annotate",
    shown: "--annotate",
    help: "tell the number and the name of each hunk",
};

pub const NUMBERED: Word = Word {
    form: WordForm::Value,
    letter: None,
    name: "as-numbered-lines",
    shown: "--as-numbered-lines=before|after",
    help: "write the lines of that side alone, numbered",
};

pub const MATCHING: Word = Word {
    form: WordForm::Value,
    letter: None,
    name: "output-matching",
    shown: "--output-matching=hunk|file",
    help: "write hunks or file patches with a match",
};

pub const EVERY: Word = Word {
    form: WordForm::Letter,
    letter: Some('a'),
    name: "every",
    shown: "-a",
    help: "begin a part at each file patch",
};

pub const BY_NAME: Word = Word {
    form: WordForm::Letter,
    letter: Some('d'),
    name: "by-name",
    shown: "-d",
    help: "name parts by their file patches, / being _",
};

pub const DIRECTORY: Word = Word {
    form: WordForm::Value,
    letter: Some('D'),
    name: "directory",
    shown: "-D DIR, --directory=DIR",
    help: "name them so, and put them into DIR",
};

pub const BARE: Word = Word {
    form: WordForm::Letter,
    letter: Some('E'),
    name: "bare",
    shown: "-E",
    help: "end no name with .patch",
};

pub const PART_STRIP: Word = Word {
    form: WordForm::Value,
    letter: Some('p'),
    name: "strip-match",
    shown: "-p N, --strip-match=N",
    help: "take names without the front with N slashes (0)",
};

pub const PART_LINES: Word = Word {
    form: WordForm::Letter,
    letter: Some('v'),
    name: "verbose",
    shown: "-v",
    help: "tell the lines of each part",
};
