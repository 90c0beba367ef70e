//! What holds of every run of a thread: laws, as contracts of functions that do nothing.
ghost use Rattle.lives.specs.Schedule.{AreNumbered, FirstIsSchedule, IsNumbered, RunIsSchedule};

use crate::calls::Call;
use disk::Disk;
use published::Life;

/// A run of calls that were answered one after another, as `drive` promises of its own, is a list of a world's events: each command
/// that was submitted, each batch that is taken off, written, shown and settled, each acknowledgement, and each milestone. The world
/// that these events make has just the run's board, its tickets, and the acknowledgements that gave a token; it shows what is settled, a
/// crash leaves just that, and it has not failed. So what `world::laws::every_schedule` says of every list of events holds of every run.
pub fn run_is_a_schedule<D: Disk, L: Life>()
    ensures goes_on { RunIsSchedule D L ⟦<D as Disk>⟧ }
    ensures first { FirstIsSchedule D L ⟦<D as Disk>⟧ }
{}

/// The number of each command of these calls is one that a world takes, since a command's type keeps it so.
pub fn are_numbered(calls: &[Call])
    ensures { AreNumbered calls.now }
{
    for call in calls {
        is_numbered(call);
    }
}

// The number of a call's command, where it has one.
fn is_numbered(call: &Call)
    ensures { IsNumbered call.now }
{
    if let Call::Submit(command) = call {
        command.facts();
    }
}
