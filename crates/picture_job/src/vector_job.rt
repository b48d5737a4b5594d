//! A request for a vector document.
ghost use Rattle.std.specs.Prelude.{◌≡◌};
ghost use Rattle.picture_job.specs.LabelChoices.{has_text};

use plot_page::{Page, PenSet};

/// The formats of vector documents.
#[derive(Clone, Copy, Debug, PartialEq, Eq)]
pub enum VectorFormat {
    /// SVG 1.1.
    Svg,
    /// PDF 1.5.
    Pdf,
    /// DXF R12, for CAD.
    Dxf,
}

/// How a document has labels.
#[derive(Clone, Copy, Debug, PartialEq, Eq)]
pub enum LabelChoice {
    /// As texts, where the plot's labels are kept: a DXF has texts in place of the strokes of labels, and a PDF and an SVG
    /// have texts beside them.
    Text,
    /// As strokes only.
    Strokes,
}

impl LabelChoice {
    /// Whether labels are written as texts.
    pub fn has_text(self) -> bool
        ensures { result ≡ has_text self }
    {
        match self {
            LabelChoice::Text => true,
            LabelChoice::Strokes => false,
        }
    }
}

/// A request for a vector document: format, page, pens and labels. Its strokes are not pixels, so it has no resolution, and
/// it is written whole, so it has no first row.
#[derive(Clone, Copy)]
pub struct VectorJob {
    /// The format of the document.
    pub format: VectorFormat,
    /// The page, in plotter units of 0.025 mm.
    pub page: Page,
    /// The pens whose strokes are drawn.
    pub pens: PenSet,
    /// How the document has the plot's labels.
    pub labels: LabelChoice,
}
