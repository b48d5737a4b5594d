//! Plots whose output goes into a folder: a file of its own for each plot, or for each of its sheets.
ghost use Rattle.std.specs.Prelude.{◌≡◌, ◌<◌, ℕ, Bool, List, Option, None, Some, Err, IfErr, IfOk, map, string_bytes};
ghost use Rattle.delivery.specs.declared.messages.NoPath.TheVariants.{NoName};
ghost use Rattle.output_files.specs.Names.{file_name};
ghost use Rattle.output_files.specs.declared.file_id.FileId.{FileId};
ghost use Rattle.delivery.specs.Deliveries.{Anything, Delivers, IsPut};
ghost use Rattle.delivery.specs.Folders.{ArePlotsPut, AreSheetsPut, AreThePlots, IsClear, IsOpened, IsOutputPut, IsPlotPut, IsSheetPut, refused_status};

use crate::about::About;
use crate::desk::Desk;
use crate::ending::Content;
use crate::messages::{
    NoPath, Reasons, cannot_write, refuse_drawing, refuse_folder, refuse_memory, refuse_open,
    refuse_path, refuse_plot,
};
use crate::output::{Scene, deliver_to, has_folder, id_at};
use crate::sheets::{PlotOf, SheetOf, Sheets, Work};
use output_files::{Claim, Claims, file_name, greater_status};
use std::alloc::Global;

/// A plot, the folder that its output goes into, with which extension, and what messages are about.
#[derive(Clone, Copy)]
pub struct Target<'r> {
    pub folder: &'r str,
    pub file: &'r str,
    pub extension: &'r str,
    pub are_several: bool,
    pub about: About<'r>,
}

// The path of a file that was asked for, and the answer.
#[derive(Clone, Copy)]
struct Claimed<'r> {
    path: &'r str,
    claim: Claim,
}

// Writes the content into the file that was asked for, if it may be written.
fn deliver_claimed<D: Desk, C: Content>(
    desk: &mut D,
    alloc: Global,
    claims: &Claims,
    target: Target<'_>,
    content: C,
    claimed: Claimed<'_>,
) -> u8
    ensures { (plots : Option FileId → Bool) → AreThePlots claims.now plots →
        Delivers D.does plots None desk.old desk.new result (IsClear plots claimed.entry.claim claimed.entry.path.now)
        Anything (IsPut (C.item content) claimed.entry.path.now) }
{
    let path = claimed.path;
    let about = target.about;
    match claimed.claim {
        Claim::Free => {
            let scene = Scene {
                plots: claims,
                are_several: target.are_several,
                about,
            };
            deliver_to(desk, alloc, scene, content, path)
        }
        Claim::Taken => cannot_write(desk, &about, path, &"it is written for another plot"),
        Claim::Plot => refuse_plot(desk, &about, target.are_several, path),
    }
}

// The path of the file of a sheet of so many.
fn path_of(alloc: Global, target: Target<'_>, number: u32, count: u32) -> Result<String, NoPath>
    ensures path { IfOk result (λ path. Some (string_bytes path)
        ≡ file_name target.entry.folder.now target.entry.file.now number count target.entry.extension.now) }
    ensures no_name { result ≡ Err NoName
        → file_name target.entry.folder.now target.entry.file.now number count target.entry.extension.now ≡ None }
{
    match file_name(
        alloc,
        target.folder,
        target.file,
        number,
        count,
        target.extension,
    ) {
        Ok(Some(path)) => Ok(path),
        Ok(None) => Err(NoPath::NoName),
        Err(_) => Err(NoPath::Memory),
    }
}

// Asks for the file of this path, and writes the content into it, if it may be written.
fn deliver_at<D: Desk, C: Content>(
    desk: &mut D,
    alloc: Global,
    claims: &mut Claims,
    target: Target<'_>,
    content: C,
    path: &str,
) -> u8
    ensures delivers { (plots : Option FileId → Bool) → AreThePlots claims.old plots →
        Delivers D.does plots None desk.old desk.new result Anything Anything (IsPut (C.item content) path.now) }
    ensures plots { (plots : Option FileId → Bool) → AreThePlots claims.old plots → AreThePlots claims.new plots }
{
    let found = id_at(desk, path);
    let Ok(claim) = claims.claim(path, found) else {
        return refuse_memory(desk, &target.about);
    };
    deliver_claimed(
        desk,
        alloc,
        claims,
        target,
        content,
        Claimed { path, claim },
    )
}

// Writes one sheet of so many into its file.
fn deliver_sheet<D: Desk, S: Sheets>(
    desk: &mut D,
    alloc: Global,
    claims: &mut Claims,
    target: Target<'_>,
    sheets: &S,
    number: u32,
    count: u32,
) -> u8
    ensures delivers { (plots : Option FileId → Bool) → AreThePlots claims.old plots →
        Delivers D.does plots None desk.old desk.new result Anything Anything
        (IsSheetPut target.entry.folder.now target.entry.file.now target.entry.extension.now number count) }
    ensures plots { (plots : Option FileId → Bool) → AreThePlots claims.old plots → AreThePlots claims.new plots }
{
    let about = About {
        sheet: Some(number),
        ..target.about
    };
    let path = match path_of(alloc, target, number, count) {
        Ok(path) => path,
        Err(why) => return refuse_path(desk, about, why),
    };
    let content = SheetOf {
        sheets,
        about,
        file: target.file,
        number,
    };
    let target = Target { about, ..target };
    deliver_at(desk, alloc, claims, target, content, path.as_str())
}

// Reads and draws the plot once, and writes each of its sheets. The file that was asked for is that of the only sheet.
fn deliver_sheets<D: Desk, W: Work>(
    desk: &mut D,
    alloc: Global,
    claims: &mut Claims,
    target: Target<'_>,
    work: &W,
    plot: D::Plot,
    only: Claimed<'_>,
) -> u8
    requires { Some only.path.now ≡ file_name target.folder.now target.file.now 1 1 target.extension.now }
    ensures delivers { (plots : Option FileId → Bool) → AreThePlots claims.old plots →
        Delivers D.does plots None desk.old desk.new result (IsClear plots only.entry.claim only.entry.path.now) Anything
        (IsOutputPut target.entry.folder.now target.entry.file.now target.entry.extension.now) }
    ensures plots { (plots : Option FileId → Bool) → AreThePlots claims.old plots → AreThePlots claims.new plots }
{
    let sheets = match work.draw(plot) {
        Ok(sheets) => sheets,
        Err(refusal) => return refuse_drawing(desk, target.about, &refusal),
    };
    let count = sheets.count();
    if count < 2 {
        let content = SheetOf {
            sheets: &sheets,
            about: target.about,
            file: target.file,
            number: 1,
        };
        return deliver_claimed(desk, alloc, claims, target, content, only);
    }
    deliver_all(desk, alloc, claims, target, &sheets, count)
}

// Writes each of so many sheets.
fn deliver_all<D: Desk, S: Sheets>(
    desk: &mut D,
    alloc: Global,
    claims: &mut Claims,
    target: Target<'_>,
    sheets: &S,
    count: u32,
) -> u8
    ensures delivers { (plots : Option FileId → Bool) → AreThePlots claims.old plots →
        Delivers D.does plots None desk.old desk.new result Anything Anything
        (AreSheetsPut target.entry.folder.now target.entry.file.now target.entry.extension.now count count) }
    ensures plots { (plots : Option FileId → Bool) → AreThePlots claims.old plots → AreThePlots claims.new plots }
{
    let mut status = 0;
    for index in 0..count {
        let next = deliver_sheet(desk, alloc, claims, target, sheets, index + 1, count);
        status = greater_status(status, next);
    }
    status
}

/// Opens a plot, or says why it cannot be opened, and ends with that exit status.
pub fn open_plot<D: Desk>(desk: &mut D, reasons: Reasons, path: &str) -> Result<D::Plot, u8>
    ensures opens { (plots : Option FileId → Bool) → (own : Option (List ℕ)) →
        Delivers D.does plots own desk.old desk.new (refused_status result) Anything Anything (IsOpened path.now) }
    ensures failed { IfErr result (λ status. 0 < status) }
{
    match reasons {
        Reasons::InMessage => open_file(desk, path),
        Reasons::Below | Reasons::Unsaid => open_any(desk, reasons, path),
    }
}

// Opens a plot that is no folder.
fn open_file<D: Desk>(desk: &mut D, path: &str) -> Result<D::Plot, u8>
    ensures opens { (plots : Option FileId → Bool) → (own : Option (List ℕ)) →
        Delivers D.does plots own desk.old desk.new (refused_status result) Anything Anything (IsOpened path.now) }
    ensures failed { IfErr result (λ status. 0 < status) }
{
    if has_folder(desk, path) {
        return Err(refuse_folder(desk, path));
    }
    open_any(desk, Reasons::InMessage, path)
}

// Opens a plot, which may be a folder.
fn open_any<D: Desk>(desk: &mut D, reasons: Reasons, path: &str) -> Result<D::Plot, u8>
    ensures opens { (plots : Option FileId → Bool) → (own : Option (List ℕ)) →
        Delivers D.does plots own desk.old desk.new (refused_status result) Anything Anything (IsOpened path.now) }
    ensures failed { IfErr result (λ status. 0 < status) }
{
    match desk.open(path) {
        Ok(plot) => Ok(plot),
        Err(error) => Err(refuse_open(desk, reasons, path, &error)),
    }
}

// Writes the output of an open plot into its file, or its sheets into theirs. A plot of several sheets does not write the file
// that it would have with one, but no other plot of its name is drawn.
fn deliver_opened<D: Desk, W: Work>(
    desk: &mut D,
    alloc: Global,
    claims: &mut Claims,
    target: Target<'_>,
    work: &W,
    plot: D::Plot,
) -> u8
    ensures delivers { (plots : Option FileId → Bool) → AreThePlots claims.old plots →
        Delivers D.does plots None desk.old desk.new result Anything Anything
        (IsOutputPut target.entry.folder.now target.entry.file.now target.entry.extension.now) }
    ensures plots { (plots : Option FileId → Bool) → AreThePlots claims.old plots → AreThePlots claims.new plots }
{
    let path = match path_of(alloc, target, 1, 1) {
        Ok(path) => path,
        Err(why) => return refuse_path(desk, target.about, why),
    };
    let path = path.as_str();
    let found = id_at(desk, path);
    let Ok(claim) = claims.claim(path, found) else {
        return refuse_memory(desk, &target.about);
    };
    let claimed = Claimed { path, claim };
    if is_apart(work, claim) {
        return deliver_sheets(desk, alloc, claims, target, work, plot, claimed);
    }
    let content = PlotOf {
        work,
        about: target.about,
        file: target.file,
        plot,
    };
    deliver_claimed(desk, alloc, claims, target, content, claimed)
}

// Whether each sheet of a plot has a file of its own. A plot whose name is taken is not drawn.
fn is_apart<W: Work>(work: &W, claim: Claim) -> bool {
    match claim {
        Claim::Free | Claim::Plot => work.has_sheets_apart(),
        Claim::Taken => false,
    }
}

// Opens a plot and writes its output.
fn deliver_plot<D: Desk, W: Work>(
    desk: &mut D,
    alloc: Global,
    claims: &mut Claims,
    reasons: Reasons,
    target: Target<'_>,
    work: &W,
) -> u8
    ensures delivers { (plots : Option FileId → Bool) → AreThePlots claims.old plots →
        Delivers D.does plots None desk.old desk.new result Anything Anything
        (IsPlotPut target.entry.folder.now target.entry.extension.now target.entry.file.now) }
    ensures plots { (plots : Option FileId → Bool) → AreThePlots claims.old plots → AreThePlots claims.new plots }
{
    match open_plot(desk, reasons, target.file) {
        Ok(plot) => deliver_opened(desk, alloc, claims, target, work, plot),
        Err(status) => status,
    }
}

/// Plots whose output goes into a folder, with which extension, and how it is said why one cannot be opened.
#[derive(Clone, Copy)]
pub struct Order<'r> {
    pub files: &'r [&'r str],
    pub folder: &'r str,
    pub extension: &'r str,
    pub reasons: Reasons,
}

/// Writes the output of each plot into the folder: a file of its own for each plot, or for each of its sheets. The exit status
/// is the greatest of those that are said; it is 0 only if each plot was opened, and each of its outputs has its name.
pub fn deliver_each<D: Desk, W: Work>(
    desk: &mut D,
    alloc: Global,
    claims: &mut Claims,
    order: Order<'_>,
    work: &W,
) -> u8
    ensures { (plots : Option FileId → Bool) → AreThePlots claims.old plots →
        Delivers D.does plots None desk.old desk.new result Anything Anything
        (ArePlotsPut order.entry.folder.now order.entry.extension.now (map (λ file. file.now) order.entry.files.now)) }
{
    let are_several = order.files.len() > 1;
    let mut status = 0;
    for &file in order.files {
        let plot = if are_several { Some(file) } else { None };
        let target = Target {
            folder: order.folder,
            file,
            extension: order.extension,
            are_several,
            about: About { plot, sheet: None },
        };
        let next = deliver_plot(desk, alloc, claims, order.reasons, target, work);
        status = greater_status(status, next);
    }
    status
}
