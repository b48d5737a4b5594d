//! Drawing a plot as it is read: in the profile core, or in the profile full and of one sheet.
ghost use Rattle.std.specs.Prelude.{◌≡◌, [], None, OnOk, IfOk, IfErr};
ghost use Rattle.full_plot.specs.Labels.{labels_kept};
ghost use Rattle.conversion.specs.Drawings.{IsReason};
ghost use Rattle.conversion.specs.Rules.{ends_of, rules_with};
ghost use Rattle.picture_job.specs.declared.reading.Reading.TheVariants.{Core, Full};

use crate::lines::Lines;
use crate::sheet_images::keep_images_of;
use carousel::Carousel;
use character_sets::Encoding;
use full_plot::{draw_full_with, keep_areas_of, keep_labels_of, keep_sheet};
use hpgl_plot::{PlotFault, draw_plot_with};
use picture_job::Reading;
use plot_page::Page;
use plot_report::MOST_NOTES;
use std::alloc::Global;

/// What the text of a plot draws on a page, with its labels if the last argument says so.
///
/// Errors: the refusal of the plot for the page; `Memory` if memory runs out.
pub fn draw_as(
    alloc: Global,
    reading: Reading,
    carousel: &Carousel,
    text: &[u8],
    page: &Page,
    keeps_labels: bool,
) -> Result<Lines, PlotFault>
    ensures accepted { OnOk result ((rules_with reading carousel.now).refusal page.now text.now ≡ None) }
    ensures strokes { IfOk result (λ drawn. drawn.strokes.items ≡ (rules_with reading carousel.now).strokes page.now text.now) }
    ensures areas { IfOk result (λ drawn. drawn.areas.items ≡ (rules_with reading carousel.now).areas page.now text.now) }
    ensures images { IfOk result (λ drawn. drawn.images.items ≡ (rules_with reading carousel.now).images page.now text.now) }
    ensures told { IfOk result (λ drawn. drawn.told.items ≡ (rules_with reading carousel.now).told page.now text.now) }
    ensures notes { IfOk result (λ drawn. drawn.notes ≡ (rules_with reading carousel.now).notes page.now text.now) }
    ensures sheets { IfOk result (λ drawn. drawn.sheets ≡ (rules_with reading carousel.now).sheets page.now text.now) }
    ensures ends { IfOk result (λ drawn. drawn.ends.items ≡ (rules_with reading carousel.now).ends page.now text.now) }
    ensures image_ends { IfOk result (λ drawn. drawn.image_ends.items ≡ (rules_with reading carousel.now).image_ends page.now text.now) }
    ensures labels { IfOk result (λ drawn. drawn.labels.items ≡ labels_kept drawn.labelled ((rules_with reading carousel.now).labels page.now text.now)) }
    ensures labelled { IfOk result (λ drawn. drawn.labelled ≡ keeps_labels) }
    ensures refused { IfErr result (λ fault. IsReason fault ((rules_with reading carousel.now).refusal page.now text.now)) }
{
    match reading {
        Reading::Core => draw_core(alloc, carousel, text, page, keeps_labels),
        Reading::Full { sheet, encoding } => {
            draw_sheet(alloc, sheet, encoding, carousel, text, page, keeps_labels)
        }
    }
}

// The same in the profile core.
fn draw_core(
    alloc: Global,
    carousel: &Carousel,
    text: &[u8],
    page: &Page,
    keeps_labels: bool,
) -> Result<Lines, PlotFault>
    ensures accepted { OnOk result ((rules_with Core carousel.now).refusal page.now text.now ≡ None) }
    ensures strokes { IfOk result (λ drawn. drawn.strokes.items ≡ (rules_with Core carousel.now).strokes page.now text.now) }
    ensures areas { IfOk result (λ drawn. drawn.areas.items ≡ []) }
    ensures images { IfOk result (λ drawn. drawn.images.items ≡ (rules_with Core carousel.now).images page.now text.now) }
    ensures told { IfOk result (λ drawn. drawn.told.items ≡ (rules_with Core carousel.now).told page.now text.now) }
    ensures notes { IfOk result (λ drawn. drawn.notes ≡ (rules_with Core carousel.now).notes page.now text.now) }
    ensures sheets { IfOk result (λ drawn. drawn.sheets ≡ 0) }
    ensures ends { IfOk result (λ drawn. drawn.ends.items ≡ []) }
    ensures image_ends { IfOk result (λ drawn. drawn.image_ends.items ≡ []) }
    ensures labels { IfOk result (λ drawn. drawn.labels.items ≡ labels_kept drawn.labelled ((rules_with Core carousel.now).labels page.now text.now)) }
    ensures labelled { IfOk result (λ drawn. drawn.labelled ≡ keeps_labels) }
    ensures refused { IfErr result (λ fault. IsReason fault ((rules_with Core carousel.now).refusal page.now text.now)) }
{
    let drawn = draw_plot_with(alloc, text, page, carousel)?;
    Ok(Lines {
        strokes: drawn.strokes,
        areas: Vec::new(alloc),
        images: Vec::new(alloc),
        told: Vec::new(alloc),
        notes: drawn.notes,
        sheets: 0,
        ends: Vec::new(alloc),
        image_ends: Vec::new(alloc),
        labels: Vec::new(alloc),
        labelled: keeps_labels,
    })
}

// The same in the profile full, for a sheet.
fn draw_sheet(
    alloc: Global,
    sheet: u32,
    encoding: Encoding,
    carousel: &Carousel,
    text: &[u8],
    page: &Page,
    keeps_labels: bool,
) -> Result<Lines, PlotFault>
    ensures accepted { OnOk result ((rules_with (Full sheet encoding) carousel.now).refusal page.now text.now ≡ None) }
    ensures strokes { IfOk result (λ drawn. drawn.strokes.items ≡ (rules_with (Full sheet encoding) carousel.now).strokes page.now text.now) }
    ensures areas { IfOk result (λ drawn. drawn.areas.items ≡ (rules_with (Full sheet encoding) carousel.now).areas page.now text.now) }
    ensures images { IfOk result (λ drawn. drawn.images.items ≡ (rules_with (Full sheet encoding) carousel.now).images page.now text.now) }
    ensures told { IfOk result (λ drawn. drawn.told.items ≡ (rules_with (Full sheet encoding) carousel.now).told page.now text.now) }
    ensures notes { IfOk result (λ drawn. drawn.notes ≡ (rules_with (Full sheet encoding) carousel.now).notes page.now text.now) }
    ensures sheets { IfOk result (λ drawn. drawn.sheets ≡ (rules_with (Full sheet encoding) carousel.now).sheets page.now text.now) }
    ensures ends { IfOk result (λ drawn. drawn.ends.items ≡ (rules_with (Full sheet encoding) carousel.now).ends page.now text.now) }
    ensures image_ends { IfOk result (λ drawn. drawn.image_ends.items ≡ (rules_with (Full sheet encoding) carousel.now).image_ends page.now text.now) }
    ensures labels { IfOk result (λ drawn. drawn.labels.items ≡ labels_kept drawn.labelled ((rules_with (Full sheet encoding) carousel.now).labels page.now text.now)) }
    ensures labelled { IfOk result (λ drawn. drawn.labelled ≡ keeps_labels) }
    ensures refused { IfErr result (λ fault. IsReason fault ((rules_with (Full sheet encoding) carousel.now).refusal page.now text.now)) }
{
    let mut drawn = draw_full_with(alloc, encoding, text, page, carousel, keeps_labels)?;
    // Not reached: a plot has at most so many bytes, and each image takes some.
    if drawn.images.len() > MOST_NOTES {
        return Err(PlotFault::Memory);
    }
    let sheets = drawn.sheets();
    let count = drawn.strokes.len();
    keep_images_of(
        &mut drawn.images,
        drawn.image_ends.as_slice(),
        drawn.ends.as_slice(),
        count,
        sheet,
    );
    let mut areas = drawn.areas;
    keep_areas_of(&mut areas, drawn.ends.as_slice(), count, sheet);
    if keeps_labels {
        keep_labels_of(&mut drawn.labels, drawn.ends.as_slice(), count, sheet);
    }
    keep_sheet(&mut drawn.strokes, drawn.ends.as_slice(), sheet);
    Ok(Lines {
        strokes: drawn.strokes,
        areas,
        images: drawn.images,
        told: drawn.escape_notes,
        notes: drawn.notes,
        sheets,
        ends: kept_ends(alloc, drawn.ends, sheet),
        image_ends: kept_ends(alloc, drawn.image_ends, sheet),
        labels: drawn.labels,
        labelled: keeps_labels,
    })
}

// Where sheets end in what is drawn of a sheet: nowhere, unless all are drawn.
fn kept_ends(alloc: Global, ends: Vec<usize>, sheet: u32) -> Vec<usize>
    ensures { result.items ≡ ends_of sheet ends.items }
{
    if sheet == 0 { ends } else { Vec::new(alloc) }
}
