//! Laws of what is written.
ghost use Rattle.std.specs.Prelude.{◌≡◌, false, List, map};
ghost use Rattle.read_file_patch.specs.PlainPatch.{PlainPatch};
ghost use Rattle.read_patch_text.specs.Outlines.{outline};
ghost use Rattle.cli_tool_words.specs.PlainJobs.{PlainListJob};
ghost use Rattle.patch_filters.specs.Listed.{listed};
ghost use Rattle.patch_filters.specs.Laws.{WritesAll, WritesNone, WritesNoBare};

/// Where nothing is asked for, all file patches of a set are written as they are. Nothing is written of a file patch with
/// hunks exactly where none of them is kept, and of a bare git header where it isn't meant or hunks are asked for. The list of
/// file patches is the same without their hunks.
pub fn filter_laws()
    ensures all { WritesAll }
    ensures none { WritesNone }
    ensures bare { WritesNoBare }
    // A list needs no hunk but one that is alone, unless it counts a side without lines as absent.
    ensures outlined { (j : PlainListJob) (ps : List PlainPatch) → j.shown.empty_absent ≡ false → listed j (map outline ps) ≡ listed j ps }
{}
