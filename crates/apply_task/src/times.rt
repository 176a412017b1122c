//! The time that a written file gets.

ghost use Rattle.std.specs.Prelude.{◌≡◌, ℕ, List};
ghost use Rattle.read_file_patch.specs.Absent.{stamp_on};
ghost use Rattle.read_file_patch.specs.PlainPatch.{header_of};
ghost use Rattle.apply_task.specs.TaskView.{plain_task, IsTask};
ghost use Rattle.apply_task.specs.Times.{by_clock, known_time, time_asked, time_before};

use crate::task::Task;
use hunk_core::Side;
use outside::{Time, TimeChange};
use patch_options::FileTimes;
use read_header_record::Header;
use stamp::Stamp;

/// The time that is asked for the file that it writes, taken from this side: where the options ask for one, that of the new side's
/// stamp, if it has one. `is_exact` says that each hunk was placed where it says.
pub fn time_asked(task: &Task<'_>, side: Side, is_exact: bool) -> Option<TimeChange>
    requires { IsTask task.now }
    ensures { result ≡ time_asked (plain_task task.now).options side (plain_task task.now).item.patch is_exact }
{
    let time = known_time(
        task.options.times,
        stamp_on(side.other(), &task.patch.header),
    )?;
    Some(TimeChange {
        time,
        was: time_before(task, side),
        is_exact: task.options.force || is_exact,
    })
}

/// The time that the file must have had: that of the old side's stamp, where there was a file and the options don't force.
fn time_before(task: &Task<'_>, side: Side) -> Option<Time>
    requires { IsTask task.now }
    ensures { result ≡ time_before (plain_task task.now).options side (plain_task task.now).item.patch }
{
    if task.options.force || task.patch.creates(side) {
        return None;
    }
    known_time(task.options.times, stamp_on(side, &task.patch.header))
}

/// The stamp of a side.
fn stamp_on(side: Side, header: &Header) -> Stamp
    ensures { (text : List ℕ) → result ≡ stamp_on side (header_of text header.now) }
{
    match side {
        Side::Forward => header.old_stamp,
        Side::Reversed => header.new_stamp,
    }
}

/// The time that a stamp says, by the clock that the options name.
fn known_time(times: FileTimes, stamp: Stamp) -> Option<Time>
    ensures { result ≡ known_time times stamp }
{
    match stamp {
        Stamp::Known(time) => by_clock(times, time),
        Stamp::Unknown => None,
    }
}

/// The time, none where the options ask for none.
fn by_clock(times: FileTimes, time: Time) -> Option<Time>
    ensures { result ≡ by_clock times time }
{
    match times {
        FileTimes::Written => None,
        FileTimes::Local => Some(time),
        FileTimes::Utc => Some(Time {
            is_local: false,
            ..time
        }),
    }
}
