//! What a command line asks for.
ghost use Rattle.std.specs.Prelude.{◌≡◌, ◌↔◌, ◌<◌, ◌≤◌, ◌*◌, Some, Err, IfOk, IfErr, IsOk, true, false, is_some};
ghost use Rattle.std.specs.Prelude.{codes, None, ◌≢◌, ◌||◌, ◌&&◌, [], map, nat_lt, not, option_and_then, option_map};
ghost use Rattle.std.specs.Result.{result_err};
ghost use Rattle.clap.specs.Words.{found_of, rows_of};
ghost use Rattle.command_line.specs.Faults.{refusal_of};
ghost use Rattle.command_line.specs.Lines.{extension_in, lists_no_pens, has_bad_list, asks_bad_list, written, form_text, asked_picture};
ghost use Rattle.command_line.specs.Lines.{ArePensOf, IsPictureOf, IsPngJobOf, IsTaskOf, IsVectorOf, IsLineBy, IsLineOf, AreOfThisCommand};
ghost use Rattle.command_line.specs.Lines.{has_stray_smooth, picture_fault, smooth_or, usual_smooth, dots_in, is_picture, selection_fault};
ghost use Rattle.command_line.specs.Lines.{line_fault, pens_text, task_fault, values_fault};
ghost use Rattle.command_line.specs.Lines.{files_in, has_no_place, has_pixels, labels_in, output_fault, output_text, vector_fault};
ghost use Rattle.command_line.specs.Options.{is_smoothed};
ghost use Rattle.command_line.specs.Readings.{HasNumbers, HasPens, HasValues, MayHaveNumber, stray_smooth_fault};

use crate::carousels::carousel_of;
use crate::defaults::defaults_of;
use crate::destination::Destination;
use crate::fault::LineFault;
use crate::forms::{extension_of, form_named};
use crate::groups::is_smoothed;
use crate::label_choices::labels_of;
use crate::pages::{choice_of, page_of, pixels_of};
use crate::sheets::{each_of, reading_of};
use crate::subcommands::{Kind, Output, kind_of};
use crate::turns::turn_of;
use crate::values::{has_flag, is_given, number_if_given};
use carousel::Carousel;
use clap::ArgMatches;
use directions::Turn;
use pen_list::read_pens;
use picture_job::{
    Job, LabelChoice, PageChoice, Picture, PngJob, Reading, RowChoice, Smoothing, VectorFormat,
    VectorJob,
};
use picture_out::Form;
use plot_page::{Dots, Page, PenSet};

/// What is to be done.
#[derive(Clone, Copy)]
pub enum Task {
    /// A picture of a plot.
    Picture(Picture),
    /// A description of a plot, on a page.
    Report(Page),
}

/// What is to be done, with which plots, and where the output goes.
#[derive(Clone, Copy)]
pub struct Line<'m, 'a> {
    /// What is to be done.
    pub task: Task,
    /// How the plot is read.
    pub reading: Reading,
    /// Which page it is drawn on, and in how many pixels.
    pub choice: PageChoice,
    /// How the page is turned after that.
    pub turn: Turn,
    /// The colours and the widths of pens that hold whatever the plot sets.
    pub carousel: Carousel,
    /// The names of the plots' files, in order; none if the plot comes on standard input.
    pub files: &'m [&'a str],
    /// The name of the file to write, or of the folder of the files to write; `None`, for standard
    /// output, only if there is at most one plot.
    pub output: Option<&'a str>,
    /// Whether the sheet was named, or else the first one is drawn.
    pub sheet_named: bool,
    /// Whether each sheet is to be written into a file of its own; then there is a picture and an output, and all sheets are
    /// read. Each sheet that is asked for in a PDF has a page there, and no file of its own.
    pub each_sheet: bool,
    /// Whether to say on standard error what was drawn.
    pub verbose: bool,
    /// Whether to show on standard error how far the picture is: if it was asked for, or if the line is interactive,
    /// unless it is quiet.
    pub progress: bool,
    /// Whether `--quiet` was given.
    pub quiet: bool,
    /// Whether the subcommand is draw, which is made for a person who waits for the picture: the picture is not to be
    /// written to a terminal.
    pub interactive: bool,
    /// Whether to say on standard error that little or nothing is drawn: if the line is interactive, unless it is quiet.
    pub remarks: bool,
}

/// The values of the matches of `command`'s command, whose output goes into a file, or into a folder if the path that
/// `output_of` gives is that of one. The extension of a folder's name says no form.
///
/// Errors, of which the first is given: `Form` if draw is asked for a form that is none, `Pens` if a picture is asked for
/// and `--pens` is not a valid list, `Colours` or `Widths` with the first bad item of such a list, `BadLabels` if `--labels`
/// is neither `text` nor `strokes`, `NoTexts` if it is given for a form other than DXF, `Labels` if it is given with the
/// profile core, `Shades` if `--smooth` is given for a form that may not be smoothed, `Smooth` if `--dots` times `--smooth`
/// is over 1200, `NoPixels` if one of these or `--size` is given for a vector document, `Paper` if `--page` names no paper
/// and not the plot, `Size` if `--page` is given with `--width` or `--height`, `BadSheet` if `--sheet` is no number of 0 to
/// 4194304 and not `each`, `BadCharacters` if `--characters` names none, `Profile` if `--profile` is neither `core` nor
/// `full`, `Sheet` or `Characters` if `--sheet` or `--characters` is given with the profile core, `NoPicture` or `NoFolder`
/// if `--sheet` is `each` for a report, or without `--output` and not for a PDF, `Pixels` if `--size` is given with
/// `--dots`, `PrinterPixels` if it is given for PCL, `Margin` if `--margin` is given and the page is not fitted, `BadTurn`
/// if `--rotate` is no turn, and `Several` if several files are given without `--output`; no other one after a `parse` that
/// succeeded. `Words` if the matches are of another command.
pub fn settle<'m, 'a>(
    matches: &'m ArgMatches<'a>,
    destination: Destination,
) -> Result<Line<'m, 'a>, LineFault<'a>>
    ensures line { IfOk result (IsLineOf destination matches.now) }
    ensures pens { (result ≡ Err LineFault.Pens) ↔ (asks_bad_list destination matches.now ≡ true) }
    ensures refused { AreOfThisCommand matches.now → option_map refusal_of (result_err result) ≡ line_fault destination matches.now }
{
    let (name, options) = matches.subcommand().ok_or(LineFault::Words)?;
    let kind = kind_of(name).ok_or(LineFault::Words)?;
    line_of(kind.into_destination(destination), options)
}

// What a subcommand does, by its options and its files.
fn line_of<'m, 'a>(kind: Kind, options: &'m ArgMatches<'a>) -> Result<Line<'m, 'a>, LineFault<'a>>
    ensures line { IfOk result (IsLineBy kind (rows_of (found_of options.now))) }
    ensures pens { (result ≡ Err LineFault.Pens) ↔ (has_bad_list kind (rows_of (found_of options.now)) ≡ true) }
    ensures refused { HasValues kind (rows_of (found_of options.now)) →
        option_map refusal_of (result_err result) ≡ values_fault kind (rows_of (found_of options.now)) }
{
    let (output, pens) = selection_of(kind, options)?;
    let carousel = carousel_of(options)?;
    let labels = labels_of(kind, options)?;
    let task = task_of(kind, options, output, pens, labels)?;
    let reading = reading_of(options)?;
    let each_sheet = each_of(kind, options)?;
    let pixels = pixels_of(kind, options)?;
    let choice = choice_of(kind, options, pixels)?;
    let turn = turn_of(options)?;
    let place = place_of(options)?;
    let interactive = defaults_of(kind).interactive;
    let quiet = has_flag(options, "quiet");
    Ok(Line {
        task,
        reading,
        choice,
        turn,
        carousel,
        files: files_of(options),
        output: place,
        sheet_named: is_given(options, "sheet"),
        each_sheet,
        verbose: has_flag(options, "verbose"),
        progress: (has_flag(options, "progress") || interactive) && !quiet,
        quiet,
        interactive,
        remarks: interactive && !quiet,
    })
}

// What is written, and the pens whose strokes are drawn: all of them, in a report.
fn selection_of<'a>(kind: Kind, options: &ArgMatches<'a>) -> Result<(Output, PenSet), LineFault<'a>>
    ensures output { IfOk result (λ it. written kind (rows_of (found_of options.now)) ≡ Some it.0) }
    ensures selected { IfOk result (λ it. is_picture it.0 ≡ true → ArePensOf (rows_of (found_of options.now)) it.1) }
    ensures pens { (result ≡ Err LineFault.Pens) ↔ (has_bad_list kind (rows_of (found_of options.now)) ≡ true) }
    ensures refused { HasPens kind (rows_of (found_of options.now)) →
        result_err result ≡ selection_fault kind (rows_of (found_of options.now)) }
{
    let output = written(kind, options).ok_or(LineFault::Form)?;
    match output {
        Output::Report => Ok((output, PenSet::all())),
        Output::Picture(_) | Output::Png | Output::Vector(_) => Ok((output, pens_of(options)?)),
    }
}

fn task_of<'a>(
    kind: Kind,
    options: &ArgMatches<'a>,
    output: Output,
    pens: PenSet,
    labels: LabelChoice,
) -> Result<Task, LineFault<'a>>
    requires output { written kind (rows_of (found_of options.now)) ≡ Some output }
    requires selected { is_picture output ≡ true → ArePensOf (rows_of (found_of options.now)) pens }
    requires labels { labels_in (rows_of (found_of options.now)) ≡ Some labels }
    ensures task { IfOk result (IsTaskOf kind (rows_of (found_of options.now))) }
    ensures pens { result ≢ Err LineFault.Pens }
    ensures refused { HasNumbers (rows_of (found_of options.now)) →
        result_err result ≡ task_fault kind (rows_of (found_of options.now)) }
{
    match output {
        Output::Picture(form) => picture_of(kind, options, form, pens),
        Output::Png => Ok(Task::Picture(Picture::Png(png_job_of(kind, options, true, pens)?))),
        Output::Vector(format) => vector_of(options, format, pens, labels),
        Output::Report => Ok(Task::Report(page_of(options)?)),
    }
}

// What is written, or `None` if it is asked for by a name that is no form's.
pub(crate) fn written(kind: Kind, options: &ArgMatches<'_>) -> Option<Output>
    ensures { result ≡ written kind (rows_of (found_of options.now)) }
{
    match kind {
        Kind::Draw(destination) => asked_picture(destination, options),
        Kind::Write(output) => Some(output),
    }
}

fn asked_picture(destination: Destination, options: &ArgMatches<'_>) -> Option<Output>
    ensures { result ≡ asked_picture destination (rows_of (found_of options.now)) }
{
    match asked_form(destination, options) {
        Some(name) => form_named(name),
        None => Some(Output::Png),
    }
}

// The name of the form that is asked for: the one that is given, or else the extension of the file to write. A folder asks
// for none.
fn asked_form<'a>(destination: Destination, options: &ArgMatches<'a>) -> Option<&'a str>
    ensures { option_map (λ name. name.now) result ≡ form_text destination (rows_of (found_of options.now)) }
{
    match options.get_str("form") {
        Some(name) => Some(name),
        None => output_extension(destination, options),
    }
}

// The extension of the file to write; none of a folder.
fn output_extension<'a>(destination: Destination, options: &ArgMatches<'a>) -> Option<&'a str>
    ensures { option_map (λ name. name.now) result
        ≡ option_and_then (extension_in destination) (output_text (rows_of (found_of options.now))) }
{
    match destination {
        Destination::File => extension_of(options.get_str("output")?),
        Destination::Folder => None,
    }
}

fn picture_of<'a>(
    kind: Kind,
    options: &ArgMatches<'a>,
    form: Form,
    pens: PenSet,
) -> Result<Task, LineFault<'a>>
    requires { ArePensOf (rows_of (found_of options.now)) pens }
    ensures picture { IfOk result (IsPictureOf kind form (rows_of (found_of options.now))) }
    ensures pens { result ≢ Err LineFault.Pens }
    ensures refused { HasNumbers (rows_of (found_of options.now)) →
        result_err result ≡ picture_fault kind (is_smoothed (Output.Picture form)) (rows_of (found_of options.now)) }
{
    let common = png_job_of(kind, options, is_smoothed(Output::Picture(form)), pens)?;
    let band = number_if_given(options, "band")?;
    let first_row = number_if_given(options, "from")?;
    let most_rows = number_if_given(options, "rows")?;
    let job = Job {
        page: common.page,
        dots: common.dots,
        pens: common.pens,
        band: band.unwrap_or(64),
        first_row: first_row.unwrap_or(0),
        form,
    };
    let rows = RowChoice {
        smoothing: common.smoothing,
        most_rows,
    };
    Ok(Task::Picture(Picture::Rows { job, rows }))
}

// What a PNG picture is asked for by, and each other picture too.
fn png_job_of<'a>(
    kind: Kind,
    options: &ArgMatches<'a>,
    is_smoothed: bool,
    pens: PenSet,
) -> Result<PngJob, LineFault<'a>>
    requires { ArePensOf (rows_of (found_of options.now)) pens }
    ensures job { IfOk result (IsPngJobOf kind is_smoothed (rows_of (found_of options.now))) }
    ensures pens { result ≢ Err LineFault.Pens }
    ensures refused { HasNumbers (rows_of (found_of options.now)) →
        result_err result ≡ picture_fault kind is_smoothed (rows_of (found_of options.now)) }
{
    let dots = dots_of(kind, options)?;
    let is_sized = is_given(options, "size");
    let usual = usual_smooth(kind, is_sized, dots);
    let smoothing = smoothing_of(options, is_smoothed, usual)?;
    if is_too_fine(is_sized, dots, smoothing) {
        return Err(LineFault::Smooth);
    }
    Ok(PngJob {
        page: page_of(options)?,
        dots,
        pens,
        smoothing,
    })
}

// A vector document, of which nothing may be said of pixels.
fn vector_of<'a>(
    options: &ArgMatches<'a>,
    format: VectorFormat,
    pens: PenSet,
    labels: LabelChoice,
) -> Result<Task, LineFault<'a>>
    requires pens { ArePensOf (rows_of (found_of options.now)) pens }
    requires labels { labels_in (rows_of (found_of options.now)) ≡ Some labels }
    ensures vector { IfOk result (IsVectorOf format (rows_of (found_of options.now))) }
    ensures pens { result ≢ Err LineFault.Pens }
    ensures refused { HasNumbers (rows_of (found_of options.now)) →
        result_err result ≡ vector_fault (rows_of (found_of options.now)) }
{
    if has_pixels(options) {
        return Err(LineFault::NoPixels);
    }
    let page = page_of(options)?;
    let job = VectorJob {
        format,
        page,
        pens,
        labels,
    };
    Ok(Task::Picture(Picture::Vector(job)))
}

// Whether something is said of pixels.
fn has_pixels(options: &ArgMatches<'_>) -> bool
    ensures { result ≡ has_pixels (rows_of (found_of options.now)) }
{
    is_given(options, "dots") || is_given(options, "size") || is_given(options, "smooth")
}

// The dots per inch: as the option says, or else as the subcommand does.
fn dots_of<'a>(kind: Kind, options: &ArgMatches<'a>) -> Result<Dots, LineFault<'a>>
    ensures dots { IfOk result (λ dots. dots_in kind (rows_of (found_of options.now)) ≡ dots.resolution) }
    ensures understood { MayHaveNumber (rows_of (found_of options.now)) (codes "dots") 10 1200 → IsOk result }
    ensures fault { IfErr result (λ fault. fault ≡ LineFault.Words) }
{
    let given = number_if_given(options, "dots")?;
    Dots::new(given.unwrap_or(defaults_of(kind).dots)).ok_or(LineFault::Words)
}

// Whether a picture would be painted at more than 1200 dots per inch, which are not chosen by its pixels.
fn is_too_fine(is_sized: bool, dots: Dots, smoothing: Smoothing) -> bool
    ensures { result ≡ (not is_sized && nat_lt 1200 (dots.resolution * smoothing.times)) }
{
    !is_sized && dots.per_inch() * smoothing.times() > 1200
}

// How much finer a picture is painted if no option says it: 8 times if its pixels are chosen, and else as much as the
// subcommand does, if 1200 dots per inch allow it.
fn usual_smooth(kind: Kind, is_sized: bool, dots: Dots) -> u32
    ensures value { result ≡ usual_smooth kind is_sized dots.resolution }
    ensures within { (1 ≤ result) × (result ≤ 8) }
{
    if is_sized {
        return 8;
    }
    let most = 1200 / dots.per_inch();
    defaults_of(kind).smoothing.min(most)
}

// How much finer a picture is painted: as the option says, or else as usual; as much as it is written, if it may not be
// smoothed.
fn smoothing_of<'a>(
    options: &ArgMatches<'a>,
    is_smoothed: bool,
    usual: u32,
) -> Result<Smoothing, LineFault<'a>>
    requires { (1 ≤ usual) × (usual ≤ 8) }
    ensures smoothing { IfOk result (λ smoothing. smooth_or is_smoothed (rows_of (found_of options.now)) usual ≡ smoothing.times) }
    ensures plain { IfOk result (λ _. has_stray_smooth is_smoothed (rows_of (found_of options.now)) ≡ false) }
    ensures pens { result ≢ Err LineFault.Pens }
    ensures refused { MayHaveNumber (rows_of (found_of options.now)) (codes "smooth") 1 8 →
        result_err result ≡ stray_smooth_fault is_smoothed (rows_of (found_of options.now)) }
{
    let given = number_if_given(options, "smooth")?;
    if is_smoothed {
        return Smoothing::new(given.unwrap_or(usual)).ok_or(LineFault::Words);
    }
    match given {
        None => Ok(Smoothing::NONE),
        Some(_) => Err(LineFault::Shades),
    }
}

fn pens_of<'a>(options: &ArgMatches<'a>) -> Result<PenSet, LineFault<'a>>
    ensures pens { IfOk result (ArePensOf (rows_of (found_of options.now))) }
    ensures fault { (result ≡ Err LineFault.Pens) ↔ (lists_no_pens (rows_of (found_of options.now)) ≡ true) }
    ensures understood { is_some (pens_text (rows_of (found_of options.now))) ≡ true →
        IfErr result (λ fault. fault ≡ LineFault.Pens) }
{
    let Some(text) = options.get_str("pens") else {
        return Err(LineFault::Words);
    };
    read_pens(text).ok_or(LineFault::Pens)
}

fn files_of<'m, 'a>(options: &'m ArgMatches<'a>) -> &'m [&'a str]
    ensures { map (λ file. file.now) result.now ≡ files_in (rows_of (found_of options.now)) }
{
    let Some(files) = options.get_strs("FILE") else {
        return no_items();
    };
    files
}

fn no_items<'a, T>() -> &'a [T]
    ensures { result.now ≡ [] }
{
    &[]
}

// Where the output goes, which has to be said if there are several files.
fn place_of<'a>(options: &ArgMatches<'a>) -> Result<Option<&'a str>, LineFault<'a>>
    ensures place { IfOk result (λ place. option_map (λ path. path.now) place ≡ output_text (rows_of (found_of options.now))) }
    ensures placed { IfOk result (λ _. has_no_place (rows_of (found_of options.now)) ≡ false) }
    ensures pens { result ≢ Err LineFault.Pens }
    ensures refused { result_err result ≡ output_fault (rows_of (found_of options.now)) }
{
    let place = options.get_str("output");
    if files_of(options).len() > 1 && place.is_none() {
        return Err(LineFault::Several);
    }
    Ok(place)
}
