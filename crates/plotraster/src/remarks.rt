//! What a user should know of a picture or a report that is written.
ghost use Rattle.std.specs.Prelude.{◌≡◌, Some, option_map};
ghost use Rattle.delivery.specs.Deeds.{Remarks};
ghost use Rattle.plotraster.specs.Remarks.{cut_text, has_all_sheets, has_more_sheets, is_blank, is_empty, is_hardly_understood, is_report, is_too_large};
ghost use Rattle.plotraster.specs.Remarks.{lines_text, reason_of, report_of};

use crate::choices::{has_all_pages, reading_for};
use command_line::{Line, Task};
use conversion::{Outcome, Placement};
use delivery::{About, Voice};
use picture_job::Reading;
use std::fmt::{Display, Formatter, Result, Write};

/// Says what a user should know of a picture or a report that is written, and what was drawn, if more is to be said. If each
/// sheet has a picture of its own, there is nothing to say of their number.
pub fn tell_outcome<V: Voice>(
    voice: &mut V,
    line: &Line<'_, '_>,
    about: About<'_>,
    is_sheet: bool,
    outcome: &Outcome,
)
    ensures { Remarks V.does voice.old voice.new }
{
    tell_page(voice, line, about, outcome);
    tell_notes(voice, line, about, is_sheet, outcome);
    tell_sheets(voice, line, about, is_sheet, outcome);
    tell_drawn(voice, line, about, outcome);
}

// Says that nothing is drawn, or why the page is not the one that was asked for.
fn tell_page<V: Voice>(voice: &mut V, line: &Line<'_, '_>, about: About<'_>, outcome: &Outcome)
    ensures { Remarks V.does voice.old voice.new }
{
    if line.interactive && !is_too_large(outcome.placement) && is_blank(outcome) {
        tell_nothing(voice, line, about);
    } else {
        tell_placement(voice, about, outcome.placement);
    }
}

// Says that nothing is drawn, unless draw is to be quiet.
fn tell_nothing<V: Voice>(voice: &mut V, line: &Line<'_, '_>, about: About<'_>)
    ensures { Remarks V.does voice.old voice.new }
{
    if line.remarks {
        let report = report_of(line);
        voice.remark(&NothingDrawn { about, report });
    }
}

// Says why the page is not the one that was asked for, if it is another.
fn tell_placement<V: Voice>(voice: &mut V, about: About<'_>, placement: Placement)
    ensures { Remarks V.does voice.old voice.new }
{
    if let Some(reason) = reason_of(placement) {
        voice.remark(&OtherPage { about, reason });
    }
}

// Says that there are more notes than lines, areas and images, of which there is one at least.
fn tell_notes<V: Voice>(
    voice: &mut V,
    line: &Line<'_, '_>,
    about: About<'_>,
    is_sheet: bool,
    outcome: &Outcome,
)
    ensures { Remarks V.does voice.old voice.new }
{
    if is_hardly_understood(line, is_sheet, outcome) {
        let message = ManyNotes {
            about,
            notes: outcome.done.notes,
            lines: Lines(drawn_count(outcome)),
            report: report_of(line),
        };
        voice.remark(&message);
    }
}

// Says that the plot has more sheets than the one that is drawn.
fn tell_sheets<V: Voice>(
    voice: &mut V,
    line: &Line<'_, '_>,
    about: About<'_>,
    is_sheet: bool,
    outcome: &Outcome,
)
    ensures { Remarks V.does voice.old voice.new }
{
    if !is_sheet && has_more_sheets(line, outcome) {
        let sheets = outcome.sheets;
        voice.remark(&MoreSheets { about, sheets });
    }
}

// Says how many lines the selected pens drew, how many of them lie off the page, how many others are cut at its edge if any are,
// and how many notes there are, if that is counted.
fn tell_drawn<V: Voice>(voice: &mut V, line: &Line<'_, '_>, about: About<'_>, outcome: &Outcome)
    ensures { Remarks V.does voice.old voice.new }
{
    if let Some(census) = outcome.census {
        let message = Drawn {
            about,
            is_blank: is_blank(outcome),
            lines: Lines(census.strokes),
            off_page: census.off_page,
            cut: Cut(census.cut),
            notes: outcome.done.notes,
            report: report_of(line),
        };
        voice.remark(&message);
    }
}

/// The report that reads a plot as this run does.
fn report_of(line: &Line<'_, '_>) -> &'static str
    ensures { result.now ≡ report_of line.now.reading }
{
    match line.reading {
        Reading::Core => "plotraster report",
        Reading::Full { .. } => "plotraster report --profile full",
    }
}

// No page is large enough for the drawing.
fn is_too_large(placement: Placement) -> bool
    ensures { result ≡ is_too_large placement }
{
    match placement {
        Placement::TooLarge => true,
        _ => false,
    }
}

fn is_empty(placement: Placement) -> bool
    ensures { result ≡ is_empty placement }
{
    match placement {
        Placement::Blank => true,
        _ => false,
    }
}

// Nothing that the selected pens draw is on the page.
fn is_blank(outcome: &Outcome) -> bool
    ensures { result ≡ is_blank outcome.now }
{
    is_empty(outcome.placement) || outcome.is_off_page
}

// How many lines, areas and images there are.
fn drawn_count(outcome: &Outcome) -> usize {
    let done = &outcome.done;
    done.strokes
        .saturating_add(done.areas)
        .saturating_add(done.images)
}

// There are more notes than lines, areas and images, of pens that are not drawn, too. The notes are those of the whole plot, so
// this is not asked of one sheet of several, and draw need not say it if it is to be quiet or says these numbers anyway.
fn is_hardly_understood(line: &Line<'_, '_>, is_sheet: bool, outcome: &Outcome) -> bool
    ensures { result ≡ is_hardly_understood line.now is_sheet outcome.now }
{
    let is_whole = outcome.sheets < 2 || !is_sheet && has_all_sheets(reading_for(line));
    let is_said = line.remarks && !line.verbose;
    let done = &outcome.done;
    let others = done
        .notes
        .saturating_sub(done.strokes)
        .saturating_sub(done.areas);
    is_said && is_whole && !is_blank(outcome) && others > done.images
}

// All sheets are drawn.
fn has_all_sheets(reading: Reading) -> bool
    ensures { result ≡ has_all_sheets reading }
{
    match reading {
        Reading::Core => true,
        Reading::Full { sheet, .. } => sheet == 0,
    }
}

// A picture is that of the first sheet of several, and nobody chose it. A report says itself how many sheets there are.
fn has_more_sheets(line: &Line<'_, '_>, outcome: &Outcome) -> bool
    ensures { result ≡ has_more_sheets line.now outcome.now }
{
    outcome.sheets > 1
        && !line.sheet_named
        && !line.quiet
        && !is_report(&line.task)
        && !has_all_pages(line)
}

fn is_report(task: &Task) -> bool
    ensures { result ≡ is_report task.now }
{
    match task {
        Task::Report(_) => true,
        Task::Picture(_) => false,
    }
}

// What page it is instead, and why.
fn reason_of(placement: Placement) -> Option<&'static str>
    ensures { option_map (λ reason. reason.now) result ≡ reason_of placement }
{
    match placement {
        Placement::Given | Placement::Asked | Placement::Fitted => None,
        Placement::Unasked => Some("the default one: the plot asks for no size"),
        Placement::Blank => Some("not fitted: nothing is drawn"),
        Placement::TooLarge => Some("not fitted: the drawing is larger than a page can be"),
    }
}

#[derive(Clone, Copy)]
struct NothingDrawn<'a> {
    about: About<'a>,
    report: &'static str,
}

impl Display for NothingDrawn<'_> {
    fn fmt<W: Write>(&self, f: &mut Formatter<W>) -> Result {
        let (about, report) = (self.about, self.report);
        write!(f, "{about}nothing is drawn on the page: see {report}")
    }
}

#[derive(Clone, Copy)]
struct OtherPage<'a> {
    about: About<'a>,
    reason: &'static str,
}

impl Display for OtherPage<'_> {
    fn fmt<W: Write>(&self, f: &mut Formatter<W>) -> Result {
        let (about, reason) = (self.about, self.reason);
        write!(f, "{about}the page is {reason}")
    }
}

#[derive(Clone, Copy)]
struct ManyNotes<'a> {
    about: About<'a>,
    notes: usize,
    lines: Lines,
    report: &'static str,
}

impl Display for ManyNotes<'_> {
    fn fmt<W: Write>(&self, f: &mut Formatter<W>) -> Result {
        let (about, notes, lines, report) = (self.about, self.notes, self.lines, self.report);
        write!(f, "{about}{notes} notes on {lines}: see {report}")
    }
}

#[derive(Clone, Copy)]
struct MoreSheets<'a> {
    about: About<'a>,
    sheets: usize,
}

impl Display for MoreSheets<'_> {
    fn fmt<W: Write>(&self, f: &mut Formatter<W>) -> Result {
        let (about, sheets) = (self.about, self.sheets);
        write!(f, "{about}the plot has {sheets} sheets; this is the first")
    }
}

#[derive(Clone, Copy)]
struct Drawn<'a> {
    about: About<'a>,
    is_blank: bool,
    lines: Lines,
    off_page: usize,
    cut: Cut,
    notes: usize,
    report: &'static str,
}

impl Display for Drawn<'_> {
    fn fmt<W: Write>(&self, f: &mut Formatter<W>) -> Result {
        let (about, lines, off_page, cut) = (self.about, self.lines, self.off_page, self.cut);
        let (notes, report) = (self.notes, self.report);
        let nothing = if self.is_blank {
            "nothing is drawn: "
        } else {
            ""
        };
        let note = if notes == 1 { "note" } else { "notes" };
        write!(
            f,
            "{about}{nothing}{lines}, {off_page} off the page{cut}; {notes} {note}, see {report}"
        )
    }
}

// How many lines there are.
#[derive(Clone, Copy)]
struct Lines(usize);

impl Display for Lines {
    ghost output = { λ it. Some (lines_text it.0) };

    fn fmt<W: Write>(&self, f: &mut Formatter<W>) -> Result {
        match self.0 {
            1 => write!(f, "1 line"),
            lines => write!(f, "{lines} lines"),
        }
    }
}

// How many lines are cut at the edge of the page, if any are.
#[derive(Clone, Copy)]
struct Cut(usize);

impl Display for Cut {
    ghost output = { λ it. Some (cut_text it.0) };

    fn fmt<W: Write>(&self, f: &mut Formatter<W>) -> Result {
        match self.0 {
            0 => Ok(()),
            lines => write!(f, ", {lines} cut at its edge"),
        }
    }
}
