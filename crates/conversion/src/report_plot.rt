//! The report: a plot is read, drawn and described.
ghost use Rattle.std.specs.Prelude.{◌≡◌, ◌-◌, ◌+◌, ◌^◌, ◌<◌, ◌≤◌, IfOk, IfErr, false, length};
ghost use Rattle.std.specs.Io.KnownBytes.{IsAtEnd};
ghost use Rattle.plot_report.specs.declared.report.TheConstants.{MOST_NOTES};
ghost use Rattle.rows.specs.Contents.{contents_in};
ghost use Rattle.plot_page.specs.declared.stroke.TheConstants.{MOST_STROKES};
ghost use Rattle.hpgl_text.specs.declared.program.TheConstants.{LONGEST_PLOT};
ghost use Rattle.devices.specs.Sinks.{Writes};
ghost use Rattle.conversion.specs.Conversions.{is_write};
ghost use Rattle.conversion.specs.Rules.{rules_in};
ghost use Rattle.conversion.specs.Reports.{HasReported, HasReportedOn, WritesReport, report_of_contents};

use crate::done::Done;
use crate::drawing::read_and_draw;
use crate::fault::Fault;
use crate::outcome::Outcome;
use crate::place::Drawing;
use crate::setup::Setup;
use crate::sheet::outcome_of;
use carousel::Carousel;
use devices::{Sink, Source, WriteFault};
use full_notes::FullNotes;
use hpgl_plot::Notes;
use picture_job::{PageChoice, Reading};
use plot_page::{Page, PenSet};
use plot_report::{write_full_report, write_report};
use rows::Contents;
use std::alloc::Global;
use turning::Turn;

/// Writes the report on the plot that the source gives, drawn on a page in the profile core: the page, how many strokes
/// there are, the strokes of each pen with their box, and each note.
///
/// Errors, in this order: those of reading and drawing the plot (`Read`, `TooLong`, `Plot`);
/// `Write` if the sink fails, with row 0 and no whole rows. `Memory` comes when
/// memory is refused. After every error but `Write` the sink is as it was; after `Write` it has taken
/// the first `bytes` bytes of the report.
pub fn report<S: Source, K: Sink>(
    alloc: Global,
    page: &Page,
    source: &mut S,
    sink: &mut K,
) -> Result<Done, Fault>
    requires failing { (S.state source.old).faults < 2 ^ 64 - 1 }
    requires ending { (S.state source.old).ends < 2 ^ 64 - 1 }
    requires sinking { (K.state sink.old).faults < 2 ^ 64 - 1 }
    ensures reports { HasReported page.now
        (S.state source.old) (S.state source.new) (K.state sink.old) (K.state sink.new) result }
    ensures end { (S.state source.new).ends ≡ (S.state source.old).ends + 1 → IsAtEnd (S.state source.new).left }
    ensures untouched { IfErr result (λ fault. is_write fault ≡ false → sink.new ≡ sink.old) }
{
    let setup = Setup {
        reading: Reading::Core,
        carousel: &Carousel::empty(),
        choice: PageChoice::GIVEN,
        turn: Turn::None,
        counts: false,
    };
    match report_on(alloc, setup, page, source, sink) {
        Ok(outcome) => Ok(outcome.done),
        Err(fault) => Err(fault),
    }
}

/// Writes the report on the plot that the source gives, as `report` does, in either profile, on the page that is chosen: the
/// page that is given, the page of the size that the plot asks for, or the page around what all pens draw on either. In the
/// profile full it has a line for the number of sheets, and the strokes and areas of the sheet that is read. Nothing is turned.
///
/// Errors: those of `report`, in the same order. The plot is refused for the page that it asks for, if that is
/// chosen and it asks for one, else for the page that is given.
pub fn report_on<S: Source, K: Sink>(
    alloc: Global,
    setup: Setup<'_>,
    page: &Page,
    source: &mut S,
    sink: &mut K,
) -> Result<Outcome, Fault>
    requires failing { (S.state source.old).faults < 2 ^ 64 - 1 }
    requires ending { (S.state source.old).ends < 2 ^ 64 - 1 }
    requires sinking { (K.state sink.old).faults < 2 ^ 64 - 1 }
    ensures reports { HasReportedOn (rules_in setup.entry) setup.entry.reading setup.entry.choice page.now
        (S.state source.old) (S.state source.new) (K.state sink.old) (K.state sink.new) result }
    ensures end { (S.state source.new).ends ≡ (S.state source.old).ends + 1 → IsAtEnd (S.state source.new).left }
    ensures untouched { IfErr result (λ fault. is_write fault ≡ false → sink.new ≡ sink.old) }
{
    let pens = PenSet::all();
    match read_and_draw(alloc, setup, pens, page, false, source) {
        Ok(read) => report_drawing(
            setup.reading,
            pens,
            &read.drawing,
            read.text.as_slice(),
            sink,
        ),
        Err(fault) => Err(fault),
    }
}

// Writes the report on a drawing of a plot that is read so. The strokes of these pens are counted.
fn report_drawing<K: Sink>(
    reading: Reading,
    pens: PenSet,
    drawing: &Drawing,
    plot: &[u8],
    sink: &mut K,
) -> Result<Outcome, Fault>
    requires plot { length plot.now ≤ LONGEST_PLOT }
    requires sinking { (K.state sink.old).faults < 2 ^ 64 - 1 }
    ensures writes { WritesReport reading pens drawing.now plot.now (K.state sink.old) (K.state sink.new) result }
    ensures untouched { IfErr result (λ fault. is_write fault ≡ false → sink.new ≡ sink.old) }
{
    let contents = drawing.contents_on(0);
    match write_as(reading, drawing, contents, plot, sink) {
        Ok(bytes) => Ok(outcome_of(drawing, pens, contents, 0, bytes)),
        Err(fault) => Err(Fault::Write {
            row: 0,
            whole: 0,
            bytes: fault.bytes(),
        }),
    }
}

// Writes the report on a plot that is read so, by what is drawn of it.
fn write_as<K: Sink>(
    reading: Reading,
    drawing: &Drawing,
    contents: Contents<'_>,
    plot: &[u8],
    sink: &mut K,
) -> Result<u64, WriteFault>
    requires sinking { (K.state sink.old).faults < 2 ^ 64 - 1 }
    requires strokes { length contents.shapes.strokes.now ≤ MOST_STROKES }
    requires images { length contents.images.list.now ≤ MOST_NOTES }
    requires plot { length plot.now ≤ LONGEST_PLOT }
    ensures writes { Writes (K.state sink.old) (K.state sink.new)
        (report_of_contents reading drawing.now (contents_in contents.entry) plot.now) result }
    ensures count { IfOk result (λ n. n ≡ length (report_of_contents reading drawing.now (contents_in contents.entry) plot.now)) }
{
    let page = drawing.named;
    let shapes = contents.shapes;
    match reading {
        Reading::Core => write_report(page, shapes.strokes, Notes::new(plot), sink),
        Reading::Full { .. } => {
            let lines = &drawing.lines;
            let notes = FullNotes::new(plot, lines.told.as_slice());
            write_full_report(
                page,
                lines.sheets,
                shapes,
                contents.images.list,
                notes,
                sink,
            )
        }
    }
}
