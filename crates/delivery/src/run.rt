//! What a run does with all its plots, which it looks for before anything else.
ghost use Rattle.std.specs.Prelude.{◌≡◌, ◌<◌, Bool, IfErr, List, None, Option, Some, codes, map, option_map, ℕ};
ghost use Rattle.output_files.specs.declared.file_id.FileId.{FileId};
ghost use Rattle.output_files.specs.Claims.{is_plot};
ghost use Rattle.delivery.specs.Deliveries.{Anything, Delivers, SaysOnce};
ghost use Rattle.delivery.specs.Folders.{ArePlotsPut, refused_status};
ghost use Rattle.delivery.specs.Runs.{DeliversAll, DeliversSingle, IsOutputDone, IsSingleDone, plot_item, plots_of, why_not};

use crate::about::About;
use crate::desk::{Desk, Kind};
use crate::folder::{Order, deliver_each, open_plot};
use crate::messages::{Reasons, cannot_write, refuse_memory, refuse_write};
use crate::output::Scene;
use crate::plots::claims_of;
use crate::sheets::Work;
use crate::single::{deliver_plot_to, write_plot_to};
use output_files::Claims;
use std::alloc::Global;
use std::fmt::{Display, Formatter};
use std::io::{Read, Write};

/// The exit status if the output would be written to a terminal.
pub const USAGE: u8 = 2;

// The name of standard input, whatever it leads to.
const INPUT: &str = "/dev/stdin";

/// Standard input and standard output.
pub trait Streams {
    /// What reads standard input.
    type Input: Read + Drop;

    /// What writes to standard output.
    type Output: Write + Drop;

    /// What reads standard input.
    fn input(&self) -> Self::Input;

    /// What writes to standard output.
    fn output(&self) -> Self::Output;

    /// Whether a terminal shows what is written to standard output.
    fn has_screen(&self) -> bool;
}

/// A plot whose output goes to one place.
#[derive(Clone, Copy)]
pub struct Single<'r> {
    /// The name of its file; `None` if it comes on standard input.
    pub file: Option<&'r str>,
    /// What its output is written into; `None` for standard output.
    pub path: Option<&'r str>,
    /// How it is said why it cannot be opened.
    pub reasons: Reasons,
    /// Whether the output is not to be shown by a terminal.
    pub shuns_screen: bool,
}

/// Reads a plot and writes its output. Gives the exit status.
pub fn deliver_single<D: Desk, S: Streams, W: Work>(
    desk: &mut D,
    streams: &S,
    alloc: Global,
    single: Single<'_>,
    work: &W,
) -> u8
    ensures { DeliversSingle D.does (option_map (λ file. file.now) single.entry.file) (option_map (λ path. path.now) single.entry.path)
        desk.old desk.new result }
{
    let Ok(claims) = claims_of(desk, alloc, &[single.file.unwrap_or(INPUT)]) else {
        return refuse_memory(desk, &About::RUN);
    };
    deliver_found(desk, streams, alloc, &claims, single, work)
}

// The same after the plot was looked for.
fn deliver_found<D: Desk, S: Streams, W: Work>(
    desk: &mut D,
    streams: &S,
    alloc: Global,
    claims: &Claims,
    single: Single<'_>,
    work: &W,
) -> u8
    ensures { Delivers D.does (is_plot claims.now) (option_map (λ path. path.now) single.entry.path) desk.old desk.new result Anything Anything
        (IsSingleDone (option_map (λ file. file.now) single.entry.file) (option_map (λ path. path.now) single.entry.path)) }
{
    match single.file {
        Some(file) => match open_plot(desk, single.reasons, file) {
            Ok(plot) => deliver_read(desk, streams, alloc, claims, single, work, plot),
            Err(status) => status,
        },
        None => deliver_read(desk, streams, alloc, claims, single, work, streams.input()),
    }
}

// The same of a plot that can be read.
fn deliver_read<D: Desk, S: Streams, W: Work, R: Read + Drop>(
    desk: &mut D,
    streams: &S,
    alloc: Global,
    claims: &Claims,
    single: Single<'_>,
    work: &W,
    plot: R,
) -> u8
    ensures { Delivers D.does (is_plot claims.now) (option_map (λ path. path.now) single.entry.path) desk.old desk.new result Anything Anything
        (IsOutputDone (plot_item (option_map (λ file. file.now) single.entry.file)) (option_map (λ path. path.now) single.entry.path)) }
{
    let about = About::RUN;
    let file = single.file.unwrap_or("");
    match single.path {
        Some(path) => {
            let scene = Scene {
                plots: claims,
                are_several: false,
                about,
            };
            deliver_plot_to(desk, alloc, scene, work, file, plot, path)
        }
        None if single.shuns_screen && streams.has_screen() => refuse_screen(desk),
        None => write_plot_to(desk, about, work, file, plot, streams.output()),
    }
}

/// Reads plots, and writes the output of each, or of its sheets, into a folder. Gives the exit status.
pub fn deliver_all<D: Desk, W: Work>(desk: &mut D, alloc: Global, order: Order<'_>, work: &W) -> u8
    ensures { DeliversAll D.does (map (λ file. file.now) order.entry.files.now) order.entry.folder.now order.entry.extension.now
        desk.old desk.new result }
{
    let Ok(mut claims) = claims_of(desk, alloc, plots_of(order.files)) else {
        return refuse_memory(desk, &About::RUN);
    };
    deliver_into(desk, alloc, &mut claims, order, work)
}

// The names of the plots' files, or that of standard input.
fn plots_of<'r>(files: &'r [&'r str]) -> &'r [&'r str]
    ensures { map (λ file. file.now) result.now ≡ plots_of (map (λ file. file.now) files.now) }
{
    if files.is_empty() { &[INPUT] } else { files }
}

// Writes the outputs after the plots were looked for.
fn deliver_into<D: Desk, W: Work>(
    desk: &mut D,
    alloc: Global,
    claims: &mut Claims,
    order: Order<'_>,
    work: &W,
) -> u8
    ensures { Delivers D.does (is_plot claims.old) None desk.old desk.new result Anything Anything
        (ArePlotsPut order.entry.folder.now order.entry.extension.now (map (λ file. file.now) order.entry.files.now)) }
{
    match check_folder(desk, order) {
        Ok(()) => deliver_each(desk, alloc, claims, order, work),
        Err(status) => status,
    }
}

// Says why the outputs cannot go into the folder, if so.
fn check_folder<D: Desk>(desk: &mut D, order: Order<'_>) -> Result<(), u8>
    ensures checks { (plots : Option FileId → Bool) → (own : Option (List ℕ)) →
        Delivers D.does plots own desk.old desk.new (refused_status result) Anything Anything Anything }
    ensures failed { IfErr result (λ status. 0 < status) }
{
    let about = About::RUN;
    match desk.look(order.folder) {
        Ok(found) => match why_not(found.kind, order.files.is_empty()) {
            Some(reason) => Err(cannot_write(desk, &about, order.folder, &reason)),
            None => Ok(()),
        },
        Err(error) => Err(refuse_write(desk, &about, order.folder, &error)),
    }
}

// Why the output of plots cannot go into what is found, or that of standard input.
fn why_not(kind: Kind, is_input: bool) -> Option<&'static str>
    ensures { option_map (λ text. text.now) result ≡ why_not kind is_input }
{
    match kind {
        Kind::Folder if is_input => Some("the plot on standard input has no name"),
        Kind::Folder => None,
        Kind::File | Kind::Device => Some("it is not a folder"),
    }
}

// That a picture is not written to a terminal, which would show its bytes.
#[derive(Clone, Copy)]
struct HasScreen;

impl Display for HasScreen {
    ghost output = { λ it. Some (codes "a picture is not written to a terminal: use -o") };

    fn fmt<W: std::fmt::Write>(&self, f: &mut Formatter<W>) -> std::fmt::Result {
        f.write_str("a picture is not written to a terminal: use -o")
    }
}

fn refuse_screen<D: Desk>(desk: &mut D) -> u8
    ensures says { SaysOnce D.does desk.old result desk.new }
    ensures status { result ≡ USAGE }
{
    desk.refuse(USAGE, &HasScreen);
    USAGE
}
