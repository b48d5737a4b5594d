//! Drawing a plot on its page, and moving its strokes to the page that the picture shows.
ghost use Rattle.std.specs.Prelude.{◌≡◌, ◌≤◌, ℕ, List, length, true, false, IfOk, IfErr, IfSome, IfNone};
ghost use Rattle.areas.specs.Views.{shapes_in};
ghost use Rattle.carousel.specs.declared.carousel.Carousel.{Carousel};
ghost use Rattle.plot_size.specs.Sizes.{longest_side, sides_asked};
ghost use Rattle.image_places.specs.Moves.{are_images_movable};
ghost use Rattle.page_fit.specs.Around.{corner_around};
ghost use Rattle.page_fit.specs.Extents.{IsNear};
ghost use Rattle.page_fit.specs.Moves.{IsCornerNear, are_movable};
ghost use Rattle.plot_page.specs.declared.stroke.TheConstants.{MOST_STROKES};
ghost use Rattle.plot_report.specs.Report.{report_page};
ghost use Rattle.plot_report.specs.declared.report.TheConstants.{MOST_NOTES};
ghost use Rattle.page_images.specs.Views.{images_in};
ghost use Rattle.rows.specs.Contents.{contents_in};
ghost use Rattle.conversion.specs.Drawings.{AreLinesOf, AreMoved, IsReasonOnFirst, place_of};
ghost use Rattle.conversion.specs.Placements.{IsAsked, IsDrawnOn, IsFitted, IsPlaced};
ghost use Rattle.conversion.specs.Placements.{can_be_moved, contents_extent, contents_of, page_reported, place_on, placed_rules, reported_at};
ghost use Rattle.conversion.specs.Rules.{rules_in, rules_with};
ghost use Rattle.conversion.specs.Sheets.{contents_on, images_on, shapes_on};

use crate::as_read::draw_as;
use crate::lines::Lines;
use crate::placement::Placement;
use crate::setup::Setup;
use crate::sheet_images::images_of;
use areas::Shapes;
use full_plot::{areas_on, sheet_of};
use hpgl_plot::PlotFault;
use hpgl_text::Profile;
use image_places::{are_images_movable, extent_with_images, move_images};
use labels::move_labels;
use page_fit::{Corner, Extent, are_movable, corner_around, extent_of, move_strokes, page_around};
use page_images::PageImages;
use picture_job::Reading;
use plot_page::{Page, PenSet};
use plot_report::ReportPage;
use plot_size::{longest_side, page_asked};
use rows::Contents;
use std::alloc::Global;

// The corner of a page, from itself.
const NO_CORNER: Corner = Corner { x: 0, y: 0 };

/// What a plot draws, or one of its sheets, and where its picture lies.
#[derive(Drop)]
pub struct Drawing {
    /// Why the picture lies there.
    pub placement: Placement,
    /// The page that the plot is drawn on.
    pub drawn_on: Page,
    /// The corner of the page that the picture shows, in plotter units from that of the page that the plot is drawn on.
    pub corner: Corner,
    /// The page that the picture shows.
    pub page: Page,
    /// The same as a report names it.
    pub named: ReportPage,
    /// What the plot draws, on this page.
    pub lines: Lines,
    /// Whether what is told of its pictures has a census.
    pub counts: bool,
}

impl Drawing {
    /// How many sheets of the plot have strokes or images in the profile full; in core this is not counted, and 0.
    pub fn sheets(&self) -> usize
        ensures { result ≡ self.now.lines.sheets }
    {
        self.lines.sheets
    }

    /// The shapes of a sheet, which counts from 1, or all that are drawn for 0.
    pub(crate) fn shapes_on(&self, sheet: u32) -> Shapes<'_>
        ensures shapes { shapes_in result ≡ shapes_on self.now sheet }
        ensures few { length result.strokes.now ≤ MOST_STROKES }
    {
        let strokes = self.lines.strokes.as_slice();
        let ends = self.lines.ends.as_slice();
        let areas = self.lines.areas.as_slice();
        Shapes {
            strokes: sheet_of(strokes, ends, sheet),
            areas: areas_on(areas, ends, strokes.len(), sheet),
        }
    }

    /// The images among these shapes.
    pub(crate) fn images_on(&self, sheet: u32) -> PageImages<'_>
        ensures images { images_in result ≡ images_on self.now sheet }
        ensures few { length result.list.now ≤ MOST_NOTES }
    {
        let lines = &self.lines;
        images_of(
            lines.images.as_slice(),
            lines.image_ends.as_slice(),
            lines.ends.as_slice(),
            lines.strokes.len(),
            sheet,
        )
    }

    /// All that is on a sheet.
    pub(crate) fn contents_on(&self, sheet: u32) -> Contents<'_>
        ensures contents { contents_in result ≡ contents_on self.now sheet }
        ensures few { length result.shapes.strokes.now ≤ MOST_STROKES }
        ensures few_images { length result.images.list.now ≤ MOST_NOTES }
    {
        Contents {
            shapes: self.shapes_on(sheet),
            images: self.images_on(sheet),
        }
    }
}

/// What the text of a plot draws, on the page that was chosen: the one that is given, the one that the plot asks for, or
/// the one around what the selected pens draw on either of them. Labels are kept if the last argument says so.
///
/// Errors: the refusal of the plot for the page that it is drawn on; `Memory` if memory runs out.
pub fn draw_placed(
    alloc: Global,
    setup: Setup<'_>,
    pens: PenSet,
    page: &Page,
    text: &[u8],
    keeps_labels: bool,
) -> Result<Drawing, PlotFault>
    ensures placed { IfOk result (λ drawn. IsPlaced setup.entry.choice (rules_in setup.entry) pens page.now text.now (place_of drawn)) }
    ensures lines { IfOk result (λ drawn. AreLinesOf (placed_rules (rules_in setup.entry) pens (place_of drawn))
        drawn.page text.now drawn.lines) }
    ensures named { IfOk result (λ drawn. drawn.named ≡ page_reported (place_of drawn)) }
    ensures labelled { IfOk result (λ drawn. drawn.lines.labelled ≡ keeps_labels) }
    ensures refused { IfErr result (IsReasonOnFirst setup.entry.choice (rules_in setup.entry) page.now text.now) }
{
    let (placement, first) = first_page(setup.reading, setup.choice.asked, page, text);
    let lines = draw_as(
        alloc,
        setup.reading,
        setup.carousel,
        text,
        &first,
        keeps_labels,
    )?;
    Ok(match setup.choice.margin {
        Some(margin) => {
            let longest = longest_side(profile_of(setup.reading));
            fitted(longest, margin, pens, first, lines)
        }
        None => unmoved(placement, first, lines),
    })
}

// The page that the plot is drawn on, and why.
fn first_page(reading: Reading, is_asked: bool, page: &Page, text: &[u8]) -> (Placement, Page)
    ensures { (carousel : Carousel) → IsDrawnOn is_asked (rules_with reading carousel) page.now text.now result.0 result.1 }
{
    if is_asked {
        asked_or_given(reading, page, text)
    } else {
        (Placement::Given, *page)
    }
}

// The page that the plot asks for, or the one that is given if it asks for none.
fn asked_or_given(reading: Reading, page: &Page, text: &[u8]) -> (Placement, Page)
    ensures { (carousel : Carousel) → IsAsked (rules_with reading carousel) page.now text.now result.0 result.1 }
{
    match page_asked(profile_of(reading), page, text) {
        Some(asked) => (Placement::Asked, asked),
        None => (Placement::Unasked, *page),
    }
}

// The profile by which a plot is read.
fn profile_of(reading: Reading) -> Profile
    ensures asked { (page : Page) (plot : List ℕ) → (carousel : Carousel) → (rules_with reading carousel).asked page plot ≡ sides_asked result page plot }
    ensures longest { (carousel : Carousel) → (rules_with reading carousel).longest ≡ longest_side result }
{
    match reading {
        Reading::Core => Profile::Core,
        Reading::Full { .. } => Profile::Full,
    }
}

// A picture that shows the page that its plot is drawn on.
fn unmoved(placement: Placement, page: Page, lines: Lines) -> Drawing
    ensures place { place_of result ≡ place_on placement page }
    ensures named { result.named ≡ report_page page }
    ensures lines { result.lines ≡ lines }
{
    Drawing {
        placement,
        drawn_on: page,
        corner: NO_CORNER,
        page,
        named: ReportPage::of(&page),
        lines,
        counts: false,
    }
}

// A picture that shows the page around these lines, which a plot draws on a page, if there is one whose sides are no longer than
// the longest one.
fn fitted(longest: u32, margin: u32, pens: PenSet, page: Page, lines: Lines) -> Drawing
    requires { longest ≤ 524288 }
    ensures drawn_on { result.drawn_on ≡ page }
    ensures fitted { IsFitted longest pens margin page (contents_of lines)
        result.placement result.corner result.page }
    ensures named { result.named ≡ page_reported (place_of result) }
    ensures lines { AreMoved pens lines (place_of result) result.lines }
{
    let Some(extent) = extent(&lines, pens, &page) else {
        return unmoved(Placement::Blank, page, lines);
    };
    let Some(corner) = corner_of(margin, pens, extent, &lines) else {
        return unmoved(Placement::TooLarge, page, lines);
    };
    let Some(around) = page_around(longest, margin, extent) else {
        return unmoved(Placement::TooLarge, page, lines);
    };
    moved(pens, page, corner, around, lines)
}

// How far the shapes of the selected pens, and the images, are seen on the page that they are drawn on, if anything is.
fn extent(lines: &Lines, pens: PenSet, page: &Page) -> Option<Extent>
    ensures value { result ≡ contents_extent pens page.now (contents_of lines.now) }
    ensures near { IfSome result IsNear }
{
    let found = extent_of(lines.shapes(), pens, page);
    extent_with_images(found, lines.images.as_slice(), page)
}

// The corner of the page around lines that are seen so far, if all of them can be moved to it.
fn corner_of(margin: u32, pens: PenSet, extent: Extent, lines: &Lines) -> Option<Corner>
    requires { IsNear extent }
    ensures corner { IfSome result (λ corner. corner ≡ corner_around margin extent) }
    ensures near { IfSome result IsCornerNear }
    ensures movable { IfSome result (λ corner. are_movable pens corner lines.now.strokes.items ≡ true) }
    ensures images { IfSome result (λ corner. are_images_movable corner lines.now.images.items ≡ true) }
    ensures none { IfNone result (can_be_moved pens (corner_around margin extent) lines.now ≡ false) }
{
    let corner = corner_around(margin, extent);
    let strokes = lines.strokes.as_slice();
    if are_movable(strokes, &pens, corner) && are_images_movable(lines.images.as_slice(), corner) {
        Some(corner)
    } else {
        None
    }
}

// A picture of lines that are moved to the page around them.
fn moved(pens: PenSet, page: Page, corner: Corner, around: Page, lines: Lines) -> Drawing
    requires near { IsCornerNear corner }
    requires movable { are_movable pens corner lines.strokes.items ≡ true }
    requires images { are_images_movable corner lines.images.items ≡ true }
    ensures place { place_of result ≡ record {
      placement = Placement.Fitted;
      drawn_on = page;
      corner = corner;
      page = around;
    } }
    ensures named { result.named ≡ page_reported (place_of result) }
    ensures lines { AreMoved pens lines (place_of result) result.lines }
{
    let mut lines = lines;
    move_strokes(lines.strokes.as_mut_slice(), &pens, &page, corner, &around);
    move_images(lines.images.as_mut_slice(), &page, corner, &around);
    move_labels(lines.labels.as_mut_slice(), corner);
    Drawing {
        placement: Placement::Fitted,
        drawn_on: page,
        corner,
        page: around,
        named: named(&page, corner, &around),
        lines,
        counts: false,
    }
}

// The page around lines, with its corner, as a report names it.
fn named(page: &Page, corner: Corner, around: &Page) -> ReportPage
    requires { IsCornerNear corner }
    ensures { result ≡ reported_at Placement.Fitted page.now corner around.now }
{
    ReportPage {
        width: around.width,
        height: around.height,
        left: i64::from(page.left) - corner.x,
        below: i64::from(page.below) - corner.y,
    }
}
