//! The made files are put.
ghost use Rattle.std.specs.Prelude.{◌≡◌, map, false};
ghost use Rattle.outside.specs.Files.{is_temp, temp_of};
ghost use Rattle.outside.specs.Quiet.{IsQuiet};
ghost use Rattle.outside.specs.Quiet.Effect.{Put};
ghost use Rattle.cli_tool_words.specs.PlainJobs.{plain_gen_job};
ghost use Rattle.cli_gen.specs.Command.{file_puts};
ghost use Rattle.cli_gen.specs.Preparing.{AreMade};
ghost use Rattle.cli_gen.specs.Putting.{PutsAll, PutsOne};

use crate::places::MadeFileNames;
use cli_tool_words::GenJob;
use outside::{Failed, Tree};
use replace_file::put_whole;

/// Puts the files in their order, each at its place and whole at every moment.
pub fn put_files<T: Tree>(
    job: GenJob,
    places: &[MadeFileNames],
    files: &[Vec<u8>],
    tree: &mut T,
) -> Result<(), Failed>
    requires made { AreMade (plain_gen_job job) places.now (map (λ v. v.items) files.now) }
    requires quiet { IsQuiet (T.view tree.old) }
    ensures { PutsAll (file_puts (plain_gen_job job)) (T.view tree.old) (T.view tree.new) result }
{
    for done in 0..job.files {
        let k = done as usize;
        put_file(&places[k], files[k].as_slice(), tree)?;
    }
    Ok(())
}

fn put_file<T: Tree>(place: &MadeFileNames, bytes: &[u8], tree: &mut T) -> Result<(), Failed>
    requires temp { place.now.temp ≡ temp_of place.now.name }
    requires lasting { is_temp place.now.name ≡ false }
    requires quiet { IsQuiet (T.view tree.old) }
    ensures { PutsOne (Put place.now.name bytes.now) (T.view tree.old) (T.view tree.new) result }
{
    put_whole(tree, &place.temp, &place.name, bytes)
}
