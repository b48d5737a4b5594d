//! What becomes of an output that is written under a name of its own until it is whole.
ghost use Rattle.std.specs.Prelude.{◌≡◌};
ghost use Rattle.plotraster.specs.Endings.{ending_after, ending_of, fault_of_sync, nothing_written};

use command_line::Task;
use conversion::{Fault, Outcome, status};
use delivery::Ending;
use picture_job::Picture;

/// How a run ended, for its output: whole; of use to a later run, after a failed write of a form; or of no use.
pub fn ending_of(outcome: &Result<Outcome, Fault>) -> Ending
    ensures { result ≡ ending_of outcome.now }
{
    match outcome {
        Ok(_) => Ending::Whole,
        Err(fault) => ending_after(fault),
    }
}

fn ending_after(fault: &Fault) -> Ending
    ensures { result ≡ ending_after fault.now }
{
    match fault {
        Fault::Write { .. } => Ending::Kept(status(fault)),
        _ => Ending::Lost(status(fault)),
    }
}

/// The fault of a task whose output the sink took, if the system then fails to store it: a failed write of which no byte is
/// known to be there, so a second run goes on from the first row of this one.
pub fn fault_of_sync(task: &Task) -> Fault
    ensures { result ≡ fault_of_sync task.now }
{
    match task {
        Task::Picture(Picture::Rows { job, .. }) => nothing_written(job.first_row),
        Task::Picture(Picture::Png(_) | Picture::Vector(_)) => Fault::Unfinished,
        Task::Report(_) => nothing_written(0),
    }
}

// A failed write that ended before this row, the first one of a run.
fn nothing_written(row: u32) -> Fault
    ensures { result ≡ nothing_written row }
{
    Fault::Write {
        row,
        whole: 0,
        bytes: 0,
    }
}
