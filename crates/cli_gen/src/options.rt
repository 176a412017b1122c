//! How the patch is applied: as `patch -s -p0` does.
ghost use Rattle.std.specs.Prelude.{◌≡◌};
ghost use Rattle.patch_options.specs.PlainJob.{plain_options, IsLawful};
ghost use Rattle.cli_tool_words.specs.PlainJobs.{plain_gen_job, IsSize};
ghost use Rattle.cli_gen.specs.Jobs.{options_for};

use cli_tool_words::GenJob;
use patch_options::{BackupNumbers, FileTimes, Input, Options, ReadOnlyFiles};

pub fn options_for(job: GenJob) -> Options
    requires { IsSize (plain_gen_job job) }
    ensures options { plain_options result ≡ options_for (plain_gen_job job) }
    ensures lawful { IsLawful (plain_options result) }
{
    Options {
        only: None,
        strip: Some(0),
        fuzz: 2,
        reverse: false,
        force: false,
        batch: false,
        forward: false,
        loose: false,
        remove_empty: false,
        backup: false,
        mismatch_backup: true,
        suffix: None,
        prefix: None,
        base_prefix: None,
        numbers: BackupNumbers::Never,
        dir: None,
        file: None,
        input: Input::Standard,
        output: None,
        reject: None,
        no_rejects: false,
        reject_form: None,
        define: None,
        posix: false,
        keep_returns: false,
        skip_binary: false,
        dry_run: false,
        read_only: ReadOnlyFiles::Told,
        times: FileTimes::Written,
        follow_links: false,
        silent: true,
        verbose: false,
        plan: job.plan,
        buffer: job.buffer,
        sync: job.sync,
    }
}
