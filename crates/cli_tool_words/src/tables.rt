//! The tables of the tools' words, in groups. The definitions have the same rows, and the texts that tell the words are made of these.
ghost use Rattle.std.specs.Prelude.{◌≡◌};
ghost use Rattle.patch_options.specs.Simple.{plain_table};
ghost use Rattle.cli_tool_words.specs.Tables.{list_table, filter_table, grep_table, split_table, input_table, gen_table, stack_table};

use crate::choosing_rows::{
    EXCLUDE, EXCLUDE_FILE, EXTENDED, FILES, HUNKS, INCLUDE, INCLUDE_FILE, LINES, ONLY_MATCH,
    PATTERN_FILE, SKIP_BINARY, STRIP_MATCH,
};
use crate::listing_rows::{
    ADD_PREFIX, EMPTY_ABSENT, EMPTY_REMOVED, LINE_NUMBER, NO_FILE, NUMBER_FILES, SHOWN_STRIP,
    STATUS, VERBOSE, WITH_FILE,
};
use crate::rows::{
    ALL, BUFFER, FILE, FILE_COUNT, LINE_COUNT, ONE_FILE, OPERATION, PLAN, REGEX, SEED, SPLIT_FILE,
    SYNC,
};
use crate::writing_rows::{
    ALL_TEXT, ANNOTATE, BARE, BY_NAME, CLEAN, DIRECTORY, EVERY, FORMAT, MATCHING, NEW_PREFIX,
    NO_STAMPS, NUMBERED, OLD_PREFIX, PART_LINES, PART_STRIP, WRITTEN_PREFIX, WRITTEN_STRIP,
};
use patch_options::Group;

static LIST: [Group; 2] = [
    Group {
        heading: "",
        words: &[
            STATUS,
            LINE_NUMBER,
            VERBOSE,
            WITH_FILE,
            NO_FILE,
            SHOWN_STRIP,
            ADD_PREFIX,
            NUMBER_FILES,
            EMPTY_ABSENT,
            EMPTY_REMOVED,
        ],
    },
    Group {
        heading: "Which file patches:\n",
        words: &[
            STRIP_MATCH,
            INCLUDE,
            EXCLUDE,
            INCLUDE_FILE,
            EXCLUDE_FILE,
            SKIP_BINARY,
            FILE,
        ],
    },
];

static FILTER: [Group; 4] = [
    Group {
        heading: "Which file patches:\n",
        words: &[
            STRIP_MATCH,
            INCLUDE,
            EXCLUDE,
            INCLUDE_FILE,
            EXCLUDE_FILE,
            FILES,
        ],
    },
    Group {
        heading: "Which of their hunks:\n",
        words: &[HUNKS, LINES],
    },
    Group {
        heading: "Output:\n",
        words: &[
            FORMAT,
            ALL_TEXT,
            CLEAN,
            WRITTEN_STRIP,
            WRITTEN_PREFIX,
            OLD_PREFIX,
            NEW_PREFIX,
            NO_STAMPS,
            ANNOTATE,
            NUMBERED,
        ],
    },
    Group {
        heading: "Input:\n",
        words: &[SKIP_BINARY, FILE],
    },
];

static GREP: [Group; 2] = [
    Group {
        heading: "",
        words: &[
            STRIP_MATCH,
            INCLUDE,
            EXCLUDE,
            INCLUDE_FILE,
            EXCLUDE_FILE,
            ONLY_MATCH,
        ],
    },
    Group {
        heading: "What is shown, and what is read:\n",
        words: &[
            STATUS,
            LINE_NUMBER,
            VERBOSE,
            WITH_FILE,
            NO_FILE,
            SHOWN_STRIP,
            ADD_PREFIX,
            MATCHING,
            ANNOTATE,
            NUMBERED,
            PATTERN_FILE,
            EXTENDED,
            REGEX,
            SKIP_BINARY,
            FILE,
        ],
    },
];

static SPLIT: [Group; 1] = [Group {
    heading: "",
    words: &[
        EVERY,
        BY_NAME,
        DIRECTORY,
        BARE,
        PART_STRIP,
        PART_LINES,
        SYNC,
        SKIP_BINARY,
        SPLIT_FILE,
    ],
}];

static INPUT: [Group; 1] = [Group {
    heading: "",
    words: &[FILE],
}];

static FLIP: [Group; 1] = [Group {
    heading: "",
    words: &[ONE_FILE],
}];

static GEN: [Group; 3] = [
    Group {
        heading: "What is made:\n",
        words: &[SEED, FILE_COUNT, LINE_COUNT],
    },
    Group {
        heading: "Lines of a file:\n",
        words: &[PLAN, BUFFER],
    },
    Group {
        heading: "Output:\n",
        words: &[SYNC],
    },
];

static STACK: [Group; 1] = [Group {
    heading: "",
    words: &[OPERATION, ALL, SYNC],
}];

/// The words of `lsdiff`.
pub fn list_table() -> &'static [Group]
    ensures { plain_table result.now ≡ list_table }
{
    &LIST
}

/// The words of `filterdiff`.
pub fn filter_table() -> &'static [Group]
    ensures { plain_table result.now ≡ filter_table }
{
    &FILTER
}

/// The words of `grepdiff`.
pub fn grep_table() -> &'static [Group]
    ensures { plain_table result.now ≡ grep_table }
{
    &GREP
}

/// The words of `splitdiff`.
pub fn split_table() -> &'static [Group]
    ensures { plain_table result.now ≡ split_table }
{
    &SPLIT
}

/// The words of `reversediff`.
pub fn flip_table() -> &'static [Group]
    ensures { plain_table result.now ≡ input_table }
{
    &FLIP
}

/// The words of `recountdiff`.
pub fn input_table() -> &'static [Group]
    ensures { plain_table result.now ≡ input_table }
{
    &INPUT
}

/// The words of `patchgen`.
pub fn gen_table() -> &'static [Group]
    ensures { plain_table result.now ≡ gen_table }
{
    &GEN
}

/// The words of `patchstack`.
pub fn stack_table() -> &'static [Group]
    ensures { plain_table result.now ≡ stack_table }
{
    &STACK
}
