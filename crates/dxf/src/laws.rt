//! Laws of documents.
ghost use Rattle.std.specs.Prelude.{◌≡◌, ℕ, [], Option, Some, filter_map, flat_map};
ghost use Rattle.std.specs.List.{All};
ghost use Rattle.areas.specs.Shapes.{NoneGoesOn, shapes};
ghost use Rattle.areas.specs.Views.{areas_in};
ghost use Rattle.stroke_runs.specs.Drawn.{drawn, drawn_shapes};
ghost use Rattle.svg.specs.Sheets.{labelled_sheets};
ghost use Rattle.dxf.specs.Chains.{chains, marks};
ghost use Rattle.dxf.specs.Cuts.{line_of};
ghost use Rattle.dxf.specs.Documents.{dxf_bytes, dxf_sheets_bytes};
ghost use Rattle.dxf.specs.Outlines.{AreOutlined, EndsWhereItBegan, strokes_in};
ghost use Rattle.dxf.specs.Reader.{read_dxf};
ghost use Rattle.dxf.specs.Readings.{entities_of, entities_of_sheets, lines_of};
ghost use Rattle.dxf.specs.Readable.{IsReadable};

use crate::forms::form_of;
use areas::Areas;
use labels::{Label, Line};
use plot_page::{Page, PenSet, Stroke};
use stroke_runs::laws::strokes_are_in_range;

/// The bytes of a document, read back, have these entities, in order, each once: the chains of what is seen of the strokes that are
/// drawn, with their layer, their colour, and if there are several pieces their width and whether they close; and the lines of
/// letters of labels, with their layer, their colour, their places, their height, their angles, their width, whether they are
/// mirrored, and their letters.
pub fn dxf_reads_back(
    page: &Page,
    pens: &PenSet,
    strokes: &[Stroke],
    areas: Areas<'_>,
    labels: &[Label],
)
    ensures { read_dxf (dxf_bytes page.now pens.now strokes.now (areas_in areas.entry) labels.now)
        ≡ Some (entities_of None pens.now strokes.now (areas_in areas.entry) labels.now) }
{
    strokes_are_in_range(strokes);
    labels_are_readable(labels);
}

/// So have the bytes of a document of sheets, one sheet after another, each on layers of its own.
pub fn dxf_sheets_read_back(
    page: &Page,
    pens: &PenSet,
    strokes: &[Stroke],
    areas: Areas<'_>,
    ends: &[usize],
    labels: &[Label],
)
    ensures { read_dxf (dxf_sheets_bytes page.now pens.now strokes.now (areas_in areas.entry) ends.now labels.now)
        ≡ Some (entities_of_sheets pens.now 0 (labelled_sheets strokes.now (areas_in areas.entry) ends.now labels.now)) }
{
    strokes_are_in_range(strokes);
    labels_are_readable(labels);
}

/// Without areas and labels the lines of these entities are what is seen of the strokes that are drawn, in order, each once: a
/// stroke that its window does not cut is seen as it is.
pub fn lines_are_strokes(pens: &PenSet, strokes: &[Stroke])
    ensures { (sheet : Option ℕ) → flat_map lines_of (entities_of sheet pens.now strokes.now [] [])
        ≡ filter_map line_of (drawn pens.now strokes.now) }
{}

/// With areas, and without labels, the lines of these entities are what is seen of the strokes that are drawn, and of the edges
/// of the areas that are drawn, in order, each once. A chain that is closed ends where it began, so that no line is added where
/// it closes. The edges of an area have one pen and one colour, and lead round closed polygons.
pub fn lines_are_shapes(pens: &PenSet, strokes: &[Stroke], areas: Areas<'_>)
    requires { AreOutlined strokes.now (areas_in areas) }
    ensures lines { (sheet : Option ℕ) → flat_map lines_of (entities_of sheet pens.now strokes.now (areas_in areas.entry) [])
        ≡ filter_map line_of (strokes_in (drawn_shapes pens.now (shapes strokes.now (areas_in areas.entry)))) }
    ensures closed { All EndsWhereItBegan (chains (marks pens.now (shapes strokes.now (areas_in areas.entry)))) }
{}

/// So are the lines of the entities of sheets, one sheet after another, if no sheet ends within an area.
pub fn lines_of_sheets_are_shapes(
    pens: &PenSet,
    strokes: &[Stroke],
    areas: Areas<'_>,
    ends: &[usize],
)
    requires outlined { AreOutlined strokes.now (areas_in areas) }
    requires ends { All (λ end. NoneGoesOn end (areas_in areas)) ends.now }
    ensures { flat_map lines_of (entities_of_sheets pens.now 0 (labelled_sheets strokes.now (areas_in areas.entry) ends.now []))
        ≡ filter_map line_of (strokes_in (drawn_shapes pens.now (shapes strokes.now (areas_in areas.entry)))) }
{}

// The numbers of labels can be read back.
fn labels_are_readable(labels: &[Label])
    ensures { All (λ l. All IsReadable l.lines) labels.now }
{
    for label in labels {
        lines_are_readable(label.lines.as_slice());
    }
}

fn lines_are_readable(lines: &[Line])
    ensures { All IsReadable lines.now }
{
    for line in lines {
        is_readable(line);
    }
}

// Its places are where strokes may end, and how its letters lie is in short numbers.
fn is_readable(line: &Line)
    ensures { IsReadable line.now }
{
    let _start = line.start;
    let _form = form_of(line);
}
