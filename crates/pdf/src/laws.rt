//! Laws of contents and of tables.
ghost use Rattle.std.specs.Prelude.{◌≡◌, Some, ℕ, ◌<◌, List, length, get_or, map, []};
ghost use Rattle.areas.specs.Shapes.{shapes};
ghost use Rattle.areas.specs.Views.{areas_in};
ghost use Rattle.pdf.specs.Contents.{content_operators, content_text};
ghost use Rattle.pdf.specs.ContentReader.{read_content};
ghost use Rattle.pdf.specs.Documents.{document_text, header_text};
ghost use Rattle.pdf.specs.declared.units.PageUnit.{PageUnit};
ghost use Rattle.pdf.specs.Laws.{BeginsAt};
ghost use Rattle.pdf.specs.Objects.{object_text, offsets_of};
ghost use Rattle.pdf.specs.Ranges.{AreInRange};
ghost use Rattle.std.specs.List.{All};
ghost use Rattle.labels.specs.Labels.{IsLine};
ghost use Rattle.pdf.specs.Readings.{line_painted, read, shape_painted, start_of};
ghost use Rattle.pdf.specs.TextReadings.{placed, texts_of};
ghost use Rattle.pdf.specs.Texts.{shown_lines};
ghost use Rattle.stroke_runs.specs.Drawn.{drawn, drawn_shapes};
ghost use Rattle.stroke_runs.specs.Shown.{widened};

use areas::Areas;
use labels::{Label, Line};
use plot_page::{Page, PenSet, Stroke};
use stroke_runs::laws::strokes_are_in_range;

/// Reading the operators of a page paints the shapes that are drawn, in their order, each once: a stroke with its colour, its
/// window and a width of at least 24 grains, in the layer of its pen; an area with all of its edges, drawn as its first one,
/// and with what is inside them by its rule, in the same colour.
pub fn content_is_shapes(
    page: &Page,
    pens: &PenSet,
    strokes: &[Stroke],
    areas: Areas<'_>,
    labels: &[Label],
)
    ensures { (read (start_of page.now)
        (content_operators page.now pens.now strokes.now (areas_in areas.entry) labels.now)).painted
        ≡ map shape_painted (drawn_shapes pens.now (shapes strokes.now (areas_in areas.entry))) }
{}

/// Without areas it paints the strokes that are drawn, in their order, each once, with its colour, its window and a width of at
/// least 24 grains, in the layer of its pen.
pub fn content_is_strokes(page: &Page, pens: &PenSet, strokes: &[Stroke], labels: &[Label])
    ensures { (read (start_of page.now) (content_operators page.now pens.now strokes.now [] labels.now)).painted
        ≡ map line_painted (map widened (drawn pens.now strokes.now)) }
{}

/// Reading them finds the text of each line of each label that is shown, in their order, each once, with its place; lines
/// without letters are left out.
pub fn content_has_texts(
    page: &Page,
    pens: &PenSet,
    strokes: &[Stroke],
    areas: Areas<'_>,
    labels: &[Label],
)
    ensures { texts_of (content_operators page.now pens.now strokes.now (areas_in areas.entry) labels.now)
        ≡ map placed (shown_lines pens.now strokes.now labels.now) }
{}

/// The bytes of a content, read back, are its operators.
pub fn content_reads_back(
    page: &Page,
    pens: &PenSet,
    strokes: &[Stroke],
    areas: Areas<'_>,
    labels: &[Label],
)
    ensures { read_content (content_text page.now pens.now strokes.now (areas_in areas.entry) labels.now)
        ≡ Some (content_operators page.now pens.now strokes.now (areas_in areas.entry) labels.now) }
{
    strokes_are_in_range(strokes);
    read_labels(labels);
}

/// In each document an object begins where the table says, and the table has an offset for each object.
pub fn table_is_right()
    ensures begins { (unit : PageUnit) (all : List (List ℕ)) (k : ℕ) → k < length all
        → BeginsAt (document_text unit all) (get_or (offsets_of (length (header_text unit)) 0 all) k 0)
        (object_text k (get_or all k [])) }
    ensures whole { (unit : PageUnit) (all : List (List ℕ))
        → length (offsets_of (length (header_text unit)) 0 all) ≡ length all }
{}

// The places of lines are where strokes may end.
fn read_labels(labels: &[Label])
    ensures { All AreInRange labels.now }
{
    for label in labels {
        read_lines(label.lines.as_slice());
    }
}

fn read_lines(lines: &[Line])
    ensures { All IsLine lines.now }
{
    for line in lines {
        read_line(line);
    }
}

fn read_line(line: &Line)
    ensures { IsLine line.now }
{
    let _start = line.start;
}
