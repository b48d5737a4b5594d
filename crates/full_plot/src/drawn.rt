//! What a plot draws in the profile full.
ghost use Rattle.std.specs.Prelude.{◌≡◌, ◌≤◌, ◌++◌, None, OnOk, IfOk, IfErr, length};
ghost use Rattle.std.specs.List.{All};
ghost use Rattle.areas.specs.Laws.{AreRound};
ghost use Rattle.areas.specs.Shapes.{AreApart, NoneGoesOn, edges_of};
ghost use Rattle.labels.specs.Labels.{AreBeside, AreInOrder};
ghost use Rattle.plot_page.specs.declared.stroke.TheConstants.{MOST_STROKES};
ghost use Rattle.full_text.specs.Cut.{full_cut};
ghost use Rattle.full_plot.specs.Drawings.{outcome, outcome_with, refusal_in, strokes_in, ends_in, areas_of};
ghost use Rattle.full_plot.specs.Drawings.{image_ends_in, images_in, befores, sheet_count, AreAlike, Ascend, Explains};
ghost use Rattle.hpgl_plot.specs.declared.fault.PlotFault.TheVariants.{Memory};
ghost use Rattle.full_plot.specs.Labels.{labels_kept, labels_of};
ghost use Rattle.full_notes.specs.Notes.{notes_told};
ghost use Rattle.full_plot.specs.Noted.{told_of, told_with};
ghost use Rattle.carousel.specs.Carousels.{empty};
ghost use Rattle.character_sets.specs.declared.encoding.Encoding.TheVariants.{ByPlot};

use crate::escapes_obeyed::has_more;
use crate::plotter::FullPlotter;
use areas::Area;
use carousel::Carousel;
use character_sets::Encoding;
use full_text::FullItems;
use hpgl_plot::{NoteKind, PlotFault, count_notes};
use hpgl_text::{Body, Item};
use labels::Label;
use page_images::PageImage;
use plot_page::{Page, Stroke};
use std::alloc::Global;

/// What a plot draws: its strokes in drawing order, how many there were when each sheet ended, its areas, whose edges are strokes,
/// in the same order, its images, how many of them there were when each sheet ended, how many notes there are on it, what is
/// noted on each of its escapes, and its labels, if they are kept.
#[derive(Drop)]
pub struct FullDrawn {
    pub strokes: Vec<Stroke>,
    pub ends: Vec<usize>,
    pub areas: Vec<Area>,
    pub images: Vec<PageImage>,
    pub image_ends: Vec<usize>,
    pub notes: usize,
    pub escape_notes: Vec<Option<NoteKind>>,
    pub labels: Vec<Label>,
}

impl FullDrawn {
    /// The greatest number of a sheet that has a stroke or an image, or 0 if none has one.
    pub fn sheets(&self) -> usize
        ensures { result ≡ sheet_count self.now.ends.items (length self.now.strokes.items)
            self.now.image_ends.items (length self.now.images.items) }
    {
        let strokes = self.strokes.len();
        let images = self.images.len();
        if has_more(&self.ends, strokes, &self.image_ends, images) {
            self.ends.len() + 1
        } else {
            self.ends.len()
        }
    }
}

/// What the text of a plot draws on a page in the profile full.
///
/// Errors: `OffRange` or `TooManyStrokes` at the first instruction that goes to a place out of range or
/// makes stroke number 4,194,305, and `OffRange` where one does both; so at the first escape that does this, or whose
/// images have too many dots, whichever its commands do first; `OffRange` at the plot's end if the last image ends
/// out of range; `Memory` if memory runs out.
pub fn draw_full(alloc: Global, text: &[u8], page: &Page) -> Result<FullDrawn, PlotFault>
    ensures accepted { OnOk result (refusal_in (outcome page.now text.now) ≡ None) }
    ensures strokes { IfOk result (λ drawn. drawn.strokes.items ≡ strokes_in (outcome page.now text.now)) }
    ensures ends { IfOk result (λ drawn. drawn.ends.items ≡ ends_in (outcome page.now text.now)) }
    ensures areas { IfOk result (λ drawn. drawn.areas.items ≡ areas_of (outcome page.now text.now)) }
    ensures apart { IfOk result (λ drawn. AreApart 0 drawn.areas.items) }
    ensures within { IfOk result (λ drawn. All (λ area. area.end ≤ length drawn.strokes.items) drawn.areas.items) }
    ensures alike { IfOk result
        (λ drawn. All (λ area. AreAlike (edges_of drawn.strokes.items area)) drawn.areas.items) }
    ensures round { IfOk result
        (λ drawn. All (λ area. AreRound (edges_of drawn.strokes.items area)) drawn.areas.items) }
    ensures ends_beside { IfOk result (λ drawn. All (λ end. NoneGoesOn end drawn.areas.items) drawn.ends.items) }
    ensures images { IfOk result (λ drawn. drawn.images.items ≡ images_in (outcome page.now text.now)) }
    ensures image_ends { IfOk result (λ drawn. drawn.image_ends.items ≡ image_ends_in (outcome page.now text.now)) }
    ensures same_sheets { IfOk result (λ drawn. length drawn.image_ends.items ≡ length drawn.ends.items) }
    ensures images_in_order { IfOk result
        (λ drawn. Ascend 0 (befores drawn.images.items) (length drawn.strokes.items)) }
    ensures images_beside { IfOk result
        (λ drawn. All (λ before. NoneGoesOn before drawn.areas.items) (befores drawn.images.items)) }
    ensures escape_notes { IfOk result (λ drawn. drawn.escape_notes.items ≡ told_of ByPlot empty page.now text.now) }
    ensures notes { IfOk result (λ drawn. drawn.notes
        ≡ length (notes_told (told_of ByPlot empty page.now text.now) (full_cut text.now))) }
    ensures limit { IfOk result (λ drawn. length drawn.strokes.items ≤ MOST_STROKES) }
    ensures refused { IfErr result (λ fault. Explains fault (outcome page.now text.now)) }
{
    draw_full_with(
        alloc,
        Encoding::ByPlot,
        text,
        page,
        &Carousel::empty(),
        false,
    )
}

/// The same with the texts of labels read as the user says, whatever sets of characters the plot chooses, and
/// with the pens of a carousel: a pen draws in its width and its colour there, if it has them, whatever the plot
/// sets, and hatching is no denser than half that width. The strokes of fills that have a width of their own keep
/// it. Labels are kept if the last argument says so: what LB and PB write, if it makes a stroke.
pub fn draw_full_with(
    alloc: Global,
    encoding: Encoding,
    text: &[u8],
    page: &Page,
    carousel: &Carousel,
    keeps_labels: bool,
) -> Result<FullDrawn, PlotFault>
    ensures accepted { OnOk result (refusal_in (outcome_with encoding carousel.now page.now text.now) ≡ None) }
    ensures strokes { IfOk result
        (λ drawn. drawn.strokes.items ≡ strokes_in (outcome_with encoding carousel.now page.now text.now)) }
    ensures ends { IfOk result
        (λ drawn. drawn.ends.items ≡ ends_in (outcome_with encoding carousel.now page.now text.now)) }
    ensures areas { IfOk result
        (λ drawn. drawn.areas.items ≡ areas_of (outcome_with encoding carousel.now page.now text.now)) }
    ensures apart { IfOk result (λ drawn. AreApart 0 drawn.areas.items) }
    ensures within { IfOk result (λ drawn. All (λ area. area.end ≤ length drawn.strokes.items) drawn.areas.items) }
    ensures alike { IfOk result
        (λ drawn. All (λ area. AreAlike (edges_of drawn.strokes.items area)) drawn.areas.items) }
    ensures round { IfOk result
        (λ drawn. All (λ area. AreRound (edges_of drawn.strokes.items area)) drawn.areas.items) }
    ensures ends_beside { IfOk result (λ drawn. All (λ end. NoneGoesOn end drawn.areas.items) drawn.ends.items) }
    ensures images { IfOk result (λ drawn. drawn.images.items ≡ images_in (outcome_with encoding carousel.now page.now text.now)) }
    ensures image_ends { IfOk result (λ drawn. drawn.image_ends.items ≡ image_ends_in (outcome_with encoding carousel.now page.now text.now)) }
    ensures same_sheets { IfOk result (λ drawn. length drawn.image_ends.items ≡ length drawn.ends.items) }
    ensures images_in_order { IfOk result
        (λ drawn. Ascend 0 (befores drawn.images.items) (length drawn.strokes.items)) }
    ensures images_beside { IfOk result
        (λ drawn. All (λ before. NoneGoesOn before drawn.areas.items) (befores drawn.images.items)) }
    ensures escape_notes { IfOk result (λ drawn. drawn.escape_notes.items
        ≡ told_of encoding carousel.now page.now text.now) }
    ensures notes { IfOk result (λ drawn. drawn.notes
        ≡ length (notes_told (told_of encoding carousel.now page.now text.now) (full_cut text.now))) }
    ensures limit { IfOk result (λ drawn. length drawn.strokes.items ≤ MOST_STROKES) }
    ensures labels { IfOk result (λ drawn. drawn.labels.items
        ≡ labels_kept keeps_labels (labels_of encoding carousel.now page.now text.now)) }
    ensures labels_beside { IfOk result (λ drawn. AreBeside drawn.areas.items drawn.labels.items) }
    ensures labels_in_order { IfOk result (λ drawn. AreInOrder 0 drawn.labels.items) }
    ensures refused { IfErr result (λ fault. Explains fault (outcome_with encoding carousel.now page.now text.now)) }
{
    let mut items = FullItems::new(text);
    let mut plotter = FullPlotter::with(alloc, encoding, page, carousel);
    let mut labels = Vec::new(alloc);
    let mut told = Vec::new(alloc);
    let mut noted: usize = 0;
    'items: while let Some(item) = items.next() {
        let own = plotter.advance(&item, keeps_labels, &mut labels)?;
        noted += count_notes(&item, own);
        tell(&mut told, &item, own)?;
    }
    plotter.finish(text.len())?;
    let (images, image_ends) = plotter.graphics.into_parts();
    Ok(FullDrawn {
        strokes: plotter.plotter.strokes,
        ends: plotter.ends,
        areas: plotter.areas,
        images,
        image_ends,
        notes: noted,
        escape_notes: told,
        labels,
    })
}

// Adds what is noted on an item if it is an escape.
fn tell(
    told: &mut Vec<Option<NoteKind>>,
    item: &Item<'_>,
    noted: Option<NoteKind>,
) -> Result<(), PlotFault>
    ensures done { OnOk result (told.new.items ≡ told.old.items ++ told_with noted item.now.body) }
    ensures refused { IfErr result (λ fault. fault ≡ Memory) }
{
    if let Body::Escape(_) = item.body {
        told.push(noted).map_err(|_| PlotFault::Memory)?;
    }
    Ok(())
}
