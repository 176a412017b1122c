//! The tools beside `patch`, by their names.
ghost use Rattle.std.specs.Prelude.{◌≡◌};
ghost use Rattle.patch_options.specs.Simple.{plain_table};
ghost use Rattle.cli_tool_words.specs.Tools.{name_of, table_of, tool_named};

use crate::tables;
use patch_options::Group;

/// A tool beside `patch`.
#[derive(Clone, Copy)]
pub enum Tool {
    Lsdiff,
    Filterdiff,
    Grepdiff,
    Splitdiff,
    Recountdiff,
    Patchgen,
    Reversediff,
    Patchstack,
}

/// The tool with this name, if there is one.
#[tactic(auto, unfolding(crate::specs::Tools::tool_named))]
pub fn tool_named(name: &str) -> Option<Tool>
    ensures { result ≡ tool_named name.now }
{
    match name {
        "lsdiff" => Some(Tool::Lsdiff),
        "filterdiff" => Some(Tool::Filterdiff),
        "grepdiff" => Some(Tool::Grepdiff),
        "splitdiff" => Some(Tool::Splitdiff),
        "recountdiff" => Some(Tool::Recountdiff),
        "patchgen" => Some(Tool::Patchgen),
        "reversediff" => Some(Tool::Reversediff),
        "patchstack" => Some(Tool::Patchstack),
        _ => None,
    }
}

impl Tool {
    /// The first word of its commands.
    pub fn name(self) -> &'static str
        ensures { result.now ≡ name_of self }
    {
        match self {
            Tool::Lsdiff => "lsdiff",
            Tool::Filterdiff => "filterdiff",
            Tool::Grepdiff => "grepdiff",
            Tool::Splitdiff => "splitdiff",
            Tool::Recountdiff => "recountdiff",
            Tool::Patchgen => "patchgen",
            Tool::Reversediff => "reversediff",
            Tool::Patchstack => "patchstack",
        }
    }

    /// The table of its words, in groups.
    pub fn table(self) -> &'static [Group]
        ensures { plain_table result.now ≡ table_of self }
    {
        match self {
            Tool::Lsdiff => tables::list_table(),
            Tool::Filterdiff => tables::filter_table(),
            Tool::Grepdiff => tables::grep_table(),
            Tool::Splitdiff => tables::split_table(),
            Tool::Recountdiff => tables::input_table(),
            Tool::Patchgen => tables::gen_table(),
            Tool::Reversediff => tables::flip_table(),
            Tool::Patchstack => tables::stack_table(),
        }
    }
}
