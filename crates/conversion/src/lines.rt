//! What a plot draws that is read in one way.
ghost use Rattle.std.specs.Prelude.{◌≡◌, ◌≤◌, length};
ghost use Rattle.areas.specs.Shapes.{AreApart};
ghost use Rattle.areas.specs.Unique.{AreApart-prop};
ghost use Rattle.areas.specs.Views.{shapes_in};
ghost use Rattle.plot_page.specs.declared.stroke.TheConstants.{MOST_STROKES};
ghost use Rattle.plot_report.specs.declared.report.TheConstants.{MOST_NOTES};

use areas::{Area, Areas, Shapes};
use hpgl_plot::NoteKind;
use labels::Label;
use page_images::PageImage;
use plot_page::Stroke;

/// What a plot draws that is read so: the strokes of the sheet, and in the profile full the areas whose edges are among them, and the
/// images; what is noted on each escape, and how many notes there are; how many sheets have strokes or images in the profile full,
/// which is not counted in core, and 0, how many strokes and how many images there were when each sheet of these ended; and, if
/// they are kept, the labels among these strokes in the profile full.
#[derive(Drop)]
pub struct Lines {
    pub strokes: Vec<Stroke>,
    pub areas: Vec<Area>,
    pub images: Vec<PageImage>,
    pub told: Vec<Option<NoteKind>>,
    pub notes: usize,
    pub sheets: usize,
    pub ends: Vec<usize>,
    pub image_ends: Vec<usize>,
    pub labels: Vec<Label>,
    pub labelled: bool,
    pub ghost few: { length strokes.items ≤ MOST_STROKES },
    pub ghost few_images: { length images.items ≤ MOST_NOTES },
    pub ghost apart: { AreApart 0 areas.items } by { AreApart-prop 0 areas.items },
}

impl Lines {
    /// All shapes that are drawn.
    pub(crate) fn shapes(&self) -> Shapes<'_>
        ensures { shapes_in result ≡ record { strokes = self.now.strokes.items; areas = self.now.areas.items } }
    {
        Shapes {
            strokes: self.strokes.as_slice(),
            areas: Areas::all(self.areas.as_slice()),
        }
    }
}
