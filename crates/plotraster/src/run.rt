//! A task, and the exit status of a run.
ghost use Rattle.std.specs.Prelude.{◌≡◌, ◌+◌, ◌-◌, ◌^◌, ◌<◌, ◌↔◌, Err, IfErr, false};
ghost use Rattle.std.specs.Io.KnownBytes.{IsAtEnd};
ghost use Rattle.command_line.specs.declared.help.TheConstants.{VERSION};
ghost use Rattle.conversion.specs.Conversions.{is_write};
ghost use Rattle.plotraster.specs.Runs.{HasRun, exit_status_of, is_task_possible};

use crate::sheets::{draw_sheets, write_sheet};
use command_line::{Task, VERSION};
use conversion::{Fault, Naming, Outcome, Request, Setup, Watcher, report_on, status};
use devices::{Sink, Source};
use std::alloc::Global;

/// Does what the task says with the plot that the source gives, which is read and drawn so: draws it, and writes the
/// picture of all that is drawn, or writes the report on it. Gives the sink back. A vector document is named so; the
/// watcher is told how far a picture in pixels is. The errors are those of `conversion::Request::new`, before the
/// source is read, of `draw_sheets` and of `write_sheet`, or of `conversion::report_on`.
pub fn run_task<S: Source, K: Sink, W: Watcher>(
    alloc: Global,
    setup: Setup<'_>,
    task: &Task,
    naming: Naming<'_>,
    source: &mut S,
    sink: K,
    watcher: &mut W,
) -> (K, Result<Outcome, Fault>)
    requires failing { (S.state source.old).faults < 2 ^ 64 - 1 }
    requires ending { (S.state source.old).ends < 2 ^ 64 - 1 }
    requires sinking { (K.state sink).faults < 2 ^ 64 - 1 }
    ensures resolution { (result.1 ≡ Err Fault.Resolution) ↔ (is_task_possible setup.entry.choice task.now ≡ false) }
    ensures runs { HasRun setup.entry task.now naming.entry
        (S.state source.old) (S.state source.new) (K.state sink) (K.state result.0) W.hears watcher.old watcher.new result.1 }
    ensures end { (S.state source.new).ends ≡ (S.state source.old).ends + 1 → IsAtEnd (S.state source.new).left }
    ensures untouched { IfErr result.1 (λ fault. is_write fault ≡ false → result.0 ≡ sink) }
{
    match task {
        Task::Picture(picture) => {
            let request = match Request::new(setup, picture, naming) {
                Ok(request) => request,
                Err(fault) => return (sink, Err(fault)),
            };
            match draw_sheets(alloc, &request, source) {
                Ok(drawing) => write_sheet(alloc, &request, &drawing, 0, sink, watcher),
                Err(fault) => (sink, Err(fault)),
            }
        }
        Task::Report(page) => {
            let mut sink = sink;
            let outcome = report_on(alloc, setup, page, source, &mut sink);
            (sink, outcome)
        }
    }
}

/// What a vector document of this title says, made by this version of the program.
pub fn naming_of(title: &str) -> Naming<'_>
    ensures version { result.version.now ≡ VERSION.now }
    ensures title { result.title.now ≡ title.now }
{
    Naming {
        version: VERSION,
        title,
    }
}

/// The exit status of a run: 0 exactly if the whole picture or report was written, else that of the
/// fault.
pub fn exit_status(outcome: &Result<Outcome, Fault>) -> u8
    ensures { result ≡ exit_status_of outcome.now }
{
    match outcome {
        Ok(_) => 0,
        Err(fault) => status(fault),
    }
}
