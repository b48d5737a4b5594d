//! What a run does, as a command line asks.
ghost use Rattle.std.specs.Prelude.{◌≡◌, not, option_map};
ghost use Rattle.plotraster.specs.Choices.{extension_of};
ghost use Rattle.plotraster.specs.LineDeeds.{DeliversInto, DeliversLine, LooksForDestination, first_file, is_file, is_single, output_text, reasons_of, unless_standard};

use crate::choices::{extension_of, has_reasons, is_standard_output};
use crate::progress::Terminal;
use crate::work::LineWork;
use command_line::{Destination, Line, LineFault};
use delivery::{
    Desk, Order, Reasons, Single, Streams, USAGE, deliver_all, deliver_single, has_folder,
};
use std::alloc::Global;

/// Whether the output, if it has a name, goes into a folder that exists, whatever its name.
pub fn destination_of<D: Desk>(desk: &mut D, output: Option<&str>) -> Destination
    ensures { LooksForDestination D.does desk.old (option_map (λ path. path.now) output.entry) result desk.new }
{
    match output {
        Some(path) => folder_or_file(has_folder(desk, path)),
        None => Destination::File,
    }
}

fn folder_or_file(is_folder: bool) -> Destination
    ensures { is_folder ≡ not (is_file result) }
{
    if is_folder {
        Destination::Folder
    } else {
        Destination::File
    }
}

/// Does what the line asks: reads the plots, which are looked for first, and writes their outputs. Gives the exit status.
pub fn deliver_line<D: Desk, H: Streams + Terminal>(
    desk: &mut D,
    host: &H,
    alloc: Global,
    line: &Line<'_, '_>,
    destination: Destination,
) -> u8
    ensures { DeliversLine D.does line.now destination desk.old desk.new result }
{
    let work = LineWork {
        line,
        terminal: host,
        alloc,
    };
    if is_single(line, destination) {
        return deliver_single(desk, host, alloc, single_of(line), &work);
    }
    match line.output {
        Some(folder) => deliver_all(desk, alloc, order_of(line, folder), &work),
        None => {
            desk.refuse(USAGE, &LineFault::Several);
            USAGE
        }
    }
}

// Whether there is one plot, whose output goes to one place.
fn is_single(line: &Line<'_, '_>, destination: Destination) -> bool
    ensures { result ≡ is_single line.now destination }
{
    let files = line.files.len();
    !line.each_sheet && (files == 0 || (files == 1 && is_file(destination)))
}

fn is_file(destination: Destination) -> bool
    ensures { result ≡ is_file destination }
{
    match destination {
        Destination::File => true,
        Destination::Folder => false,
    }
}

// The only plot. A picture for a person is not written to a terminal, which would show its bytes.
fn single_of<'r>(line: &'r Line<'_, '_>) -> Single<'r>
    ensures file { option_map (λ file. file.now) result.file ≡ first_file line.now }
    ensures path { option_map (λ path. path.now) result.path ≡ unless_standard (output_text line.now) }
    ensures reasons { result.reasons ≡ reasons_of line.now }
{
    Single {
        file: line.files.first().copied(),
        path: unless_standard(line.output),
        reasons: reasons_of(line),
        shuns_screen: line.interactive && line.output.is_none(),
    }
}

// The name of the output, but of standard output.
fn unless_standard(path: Option<&str>) -> Option<&str>
    ensures { option_map (λ path. path.now) result ≡ unless_standard (option_map (λ path. path.now) path.entry) }
{
    match path {
        Some(path) if !is_standard_output(path) => Some(path),
        _ => None,
    }
}

// The plots, and the folder that their outputs go into.
fn order_of<'r>(line: &'r Line<'_, '_>, folder: &'r str) -> Order<'r>
    ensures files { result.files.now ≡ line.now.files.now }
    ensures folder { result.folder.now ≡ folder.now }
    ensures extension { result.extension.now ≡ extension_of line.now.task }
    ensures reasons { result.reasons ≡ reasons_of line.now }
{
    Order {
        files: line.files,
        folder,
        extension: extension_of(&line.task),
        reasons: reasons_of(line),
    }
}

// How it is said why a plot cannot be opened.
fn reasons_of(line: &Line<'_, '_>) -> Reasons
    ensures { result ≡ reasons_of line.now }
{
    if has_reasons(line) {
        Reasons::InMessage
    } else if line.verbose {
        Reasons::Below
    } else {
        Reasons::Unsaid
    }
}
