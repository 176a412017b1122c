//! The rows of operands, of commands and of what each run has: how each word is given, and what the texts that tell the words say of it.

use patch_options::{Word, WordForm};

pub const FILE: Word = Word {
    form: WordForm::Operand,
    letter: None,
    name: "input",
    shown: "[FILE]...",
    help: "patch texts; standard input without one, or as -",
};

pub const ONE_FILE: Word = Word {
    form: WordForm::Operand,
    letter: None,
    name: "input",
    shown: "[FILE]",
    help: concat!(
        "the patch text; standard input without it, or\n",
        "                              ",
        "where it is -"
    ),
};

pub const SPLIT_FILE: Word = Word {
    form: WordForm::Operand,
    letter: None,
    name: "input",
    shown: "FILE",
    help: "the patch text",
};

pub const REGEX: Word = Word {
    form: WordForm::Operand,
    letter: None,
    name: "regex",
    shown: "REGEX",
    help: "what is looked for in each line, without its mark",
};

pub const SEED: Word = Word {
    form: WordForm::Operand,
    letter: None,
    name: "seed",
    shown: "SEED",
    help: "what is drawn depends on it, from 0 to 4294967295",
};

pub const FILE_COUNT: Word = Word {
    form: WordForm::Operand,
    letter: None,
    name: "files",
    shown: "FILES",
    help: "how many files, 1 to 1000",
};

pub const LINE_COUNT: Word = Word {
    form: WordForm::Operand,
    letter: None,
    name: "lines",
    shown: "LINES",
    help: concat!(
        "how many lines each, 20 to 9999999, in all at\n",
        "                              ",
        "most 10000000"
    ),
};

pub const OPERATION: Word = Word {
    form: WordForm::Operand,
    letter: None,
    name: "operation",
    shown: "push|pop|applied",
    help: concat!(
        "apply the next patch, take the last one back, or\n",
        "                              ",
        "tell how many are applied"
    ),
};

pub const ALL: Word = Word {
    form: WordForm::Switch,
    letter: Some('a'),
    name: "all",
    shown: "-a, --all",
    help: "apply all patches, or take all of them back",
};

pub const PLAN: Word = Word {
    form: WordForm::Value,
    letter: None,
    name: "plan",
    shown: "--plan=a|b|packed|auto",
    help: "in memory, or paged through two buffers (auto)",
};

pub const BUFFER: Word = Word {
    form: WordForm::Value,
    letter: None,
    name: "buffer",
    shown: "--buffer=N",
    help: "bytes of a buffer, 512 to 1048576",
};

pub const SYNC: Word = Word {
    form: WordForm::Value,
    letter: None,
    name: "sync",
    shown: "--sync=each|none",
    help: "wait for the disk at each file (each), or never",
};
