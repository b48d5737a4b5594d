//! Laws of documents.
ghost use Rattle.std.specs.Prelude.{◌≡◌, ◌≢◌, Some, [], ◌++◌, filter, flat_map, map};
ghost use Rattle.std.specs.List.{All, AllPairs};
ghost use Rattle.areas.specs.Shapes.{NoneGoesOn, shapes, stroke_shape};
ghost use Rattle.areas.specs.Views.{areas_in};
ghost use Rattle.stroke_runs.specs.Drawn.{drawn, drawn_shapes};
ghost use Rattle.stroke_runs.specs.Shown.{is_shown, shown_shape, widened};
ghost use Rattle.svg.specs.Clips.{IsAmong, clips_of};
ghost use Rattle.svg.specs.Documents.{foot_text, sheets_bytes, start_text, svg_bytes};
ghost use Rattle.svg.specs.Parts.{AreBeside, AreInOrder, cut_labels, parts};
ghost use Rattle.svg.specs.Paths.{clip_name, paths_text};
ghost use Rattle.svg.specs.Readings.{parts_of_sheets, paths_in, read_parts, read_sheets, size_of, titles};
ghost use Rattle.svg.specs.Reader.{read_svg, read_titles};
ghost use Rattle.svg.specs.Sections.{sheets_document, svg_document, without_images};
ghost use Rattle.svg.specs.Sheets.{EndsAfter, labelled_sheets};
ghost use Rattle.svg.specs.Titles.{label_text, utf_8};

use areas::Areas;
use labels::Label;
use plot_page::{Page, PenSet, Stroke};
use stroke_runs::laws::strokes_are_in_range;

/// The paths of strokes, in their groups and outside of them, show the shapes that are drawn, in their order, each once: a stroke
/// with its pen, its colour, its window, and its width, which is at least 24 grains; an area with its edges and its rule, and
/// all of its edges as the first one is drawn. No label may begin or end within an area.
pub fn paths_show_shapes(
    page: &Page,
    pens: &PenSet,
    strokes: &[Stroke],
    areas: Areas<'_>,
    labels: &[Label],
)
    requires { AreBeside (areas_in areas) labels.now }
    ensures { read_parts (size_of page.now) (parts page.now pens.now strokes.now (areas_in areas.entry) labels.now)
        ≡ map shown_shape (drawn_shapes pens.now (shapes strokes.now (areas_in areas.entry))) }
{}

/// The paths of all sheets, one after another, show the same, if no sheet ends within an area either.
pub fn sheets_show_shapes(
    page: &Page,
    pens: &PenSet,
    strokes: &[Stroke],
    areas: Areas<'_>,
    ends: &[usize],
    labels: &[Label],
)
    requires ends { All (λ end. NoneGoesOn end (areas_in areas)) ends.now }
    requires labels { AreBeside (areas_in areas) labels.now }
    ensures { read_sheets page.now pens.now (labelled_sheets strokes.now (areas_in areas.entry) ends.now labels.now)
        ≡ map shown_shape (drawn_shapes pens.now (shapes strokes.now (areas_in areas.entry))) }
{}

/// The titles of strokes are the texts of the labels of which a stroke is drawn, in order. A stroke of two labels belongs to
/// the first one.
pub fn titles_are_labels(
    page: &Page,
    pens: &PenSet,
    strokes: &[Stroke],
    areas: Areas<'_>,
    labels: &[Label],
)
    ensures { titles (parts page.now pens.now strokes.now (areas_in areas.entry) labels.now)
        ≡ map label_text (filter (is_shown pens.now strokes.now) (cut_labels 0 labels.now)) }
{}

/// The titles of sheets are, one sheet after another, the texts of its labels of which a stroke is drawn on it, in order.
pub fn sheet_titles_are_labels(
    page: &Page,
    pens: &PenSet,
    strokes: &[Stroke],
    areas: Areas<'_>,
    ends: &[usize],
    labels: &[Label],
)
    ensures { titles (parts_of_sheets page.now pens.now (labelled_sheets strokes.now (areas_in areas.entry) ends.now labels.now))
        ≡ flat_map (λ s. map label_text (filter (is_shown pens.now s.strokes) (cut_labels 0 s.labels)))
        (labelled_sheets strokes.now (areas_in areas.entry) ends.now labels.now) }
{}

/// If labels are in order and none goes on after the end of a sheet, the titles of all sheets are the texts of the labels of
/// which a stroke is drawn, in order, each once.
pub fn all_titles_are_labels(
    page: &Page,
    pens: &PenSet,
    strokes: &[Stroke],
    areas: Areas<'_>,
    ends: &[usize],
    labels: &[Label],
)
    requires order { AreInOrder 0 labels.now }
    requires ends { All (λ end. All (EndsAfter end) labels.now) ends.now }
    ensures { titles (parts_of_sheets page.now pens.now (labelled_sheets strokes.now (areas_in areas.entry) ends.now labels.now))
        ≡ map label_text (filter (is_shown pens.now strokes.now) labels.now) }
{}

/// Labels in order, of which no two have the same stroke, keep all their strokes.
pub fn labels_in_order_are_whole(labels: &[Label])
    requires { AreInOrder 0 labels.now }
    ensures { cut_labels 0 labels.now ≡ labels.now }
{}

/// A document without images is made of its strokes, its areas and its labels alone: all laws of these bytes are its own.
pub fn documents_without_images(
    page: &Page,
    pens: &PenSet,
    strokes: &[Stroke],
    areas: Areas<'_>,
    labels: &[Label],
)
    ensures { svg_document page.now pens.now (without_images strokes.now (areas_in areas.entry) labels.now)
        ≡ svg_bytes page.now pens.now strokes.now (areas_in areas.entry) labels.now }
{}

/// So is one of sheets.
pub fn sheets_without_images(
    page: &Page,
    pens: &PenSet,
    strokes: &[Stroke],
    areas: Areas<'_>,
    ends: &[usize],
    image_ends: &[usize],
    labels: &[Label],
)
    ensures { sheets_document page.now pens.now (without_images strokes.now (areas_in areas.entry) labels.now) ends.now image_ends.now
        ≡ sheets_bytes page.now pens.now strokes.now (areas_in areas.entry) ends.now labels.now }
{}

/// A document without labels has no groups of labels.
pub fn paths_without_labels(page: &Page, pens: &PenSet, strokes: &[Stroke], areas: Areas<'_>)
    ensures { svg_bytes page.now pens.now strokes.now (areas_in areas.entry) []
        ≡ start_text page.now pens.now strokes.now
        ++ paths_text page.now pens.now (shapes strokes.now (areas_in areas.entry)) ++ foot_text }
{}

/// The bytes of a document, read back, have the shapes that are drawn, in order, each once: a stroke with its pen, its colour,
/// its window, and its width, which is at least 24 grains; an area with its edges and its rule, and all of its edges as the
/// first one is drawn. No label may begin or end within an area.
pub fn svg_reads_back(
    page: &Page,
    pens: &PenSet,
    strokes: &[Stroke],
    areas: Areas<'_>,
    labels: &[Label],
)
    requires { AreBeside (areas_in areas) labels.now }
    ensures { read_svg (svg_bytes page.now pens.now strokes.now (areas_in areas.entry) labels.now)
        ≡ Some (map shown_shape (drawn_shapes pens.now (shapes strokes.now (areas_in areas.entry)))) }
{
    strokes_are_in_range(strokes);
}

/// So have the bytes of a document of sheets, if no sheet ends within an area either.
pub fn sheets_read_back(
    page: &Page,
    pens: &PenSet,
    strokes: &[Stroke],
    areas: Areas<'_>,
    ends: &[usize],
    labels: &[Label],
)
    requires ends { All (λ end. NoneGoesOn end (areas_in areas)) ends.now }
    requires labels { AreBeside (areas_in areas) labels.now }
    ensures { read_svg (sheets_bytes page.now pens.now strokes.now (areas_in areas.entry) ends.now labels.now)
        ≡ Some (map shown_shape (drawn_shapes pens.now (shapes strokes.now (areas_in areas.entry)))) }
{
    strokes_are_in_range(strokes);
}

/// Without areas the bytes have the strokes that are drawn, whatever labels there are.
pub fn strokes_read_back(page: &Page, pens: &PenSet, strokes: &[Stroke], labels: &[Label])
    ensures { read_svg (svg_bytes page.now pens.now strokes.now [] labels.now)
        ≡ Some (map stroke_shape (map widened (drawn pens.now strokes.now))) }
{
    strokes_are_in_range(strokes);
}

/// So have the bytes of sheets.
pub fn strokes_of_sheets_read_back(
    page: &Page,
    pens: &PenSet,
    strokes: &[Stroke],
    ends: &[usize],
    labels: &[Label],
)
    ensures { read_svg (sheets_bytes page.now pens.now strokes.now [] ends.now labels.now)
        ≡ Some (map stroke_shape (map widened (drawn pens.now strokes.now))) }
{
    strokes_are_in_range(strokes);
}

/// They have the titles of the document, too: in UTF-8, in which U+FFFD replaces what XML does not have.
pub fn titles_read_back(
    page: &Page,
    pens: &PenSet,
    strokes: &[Stroke],
    areas: Areas<'_>,
    labels: &[Label],
)
    ensures { read_titles (svg_bytes page.now pens.now strokes.now (areas_in areas.entry) labels.now)
        ≡ Some (map utf_8 (titles (parts page.now pens.now strokes.now (areas_in areas.entry) labels.now))) }
{
    strokes_are_in_range(strokes);
}

/// So have the bytes of a document of sheets.
pub fn sheet_titles_read_back(
    page: &Page,
    pens: &PenSet,
    strokes: &[Stroke],
    areas: Areas<'_>,
    ends: &[usize],
    labels: &[Label],
)
    ensures { read_titles (sheets_bytes page.now pens.now strokes.now (areas_in areas.entry) ends.now labels.now)
        ≡ Some (map utf_8
        (titles (parts_of_sheets page.now pens.now (labelled_sheets strokes.now (areas_in areas.entry) ends.now labels.now)))) }
{
    strokes_are_in_range(strokes);
}

/// What a path is clipped to, also one of a label, is a clip path of the document.
pub fn clips_are_there(
    page: &Page,
    pens: &PenSet,
    strokes: &[Stroke],
    areas: Areas<'_>,
    labels: &[Label],
)
    ensures { All (λ p. IsAmong (clips_of page.now pens.now strokes.now) p.clip)
        (paths_in (parts page.now pens.now strokes.now (areas_in areas.entry) labels.now)) }
{}

/// The same in a document of sheets, which has one list of clip paths.
pub fn sheet_clips_are_there(
    page: &Page,
    pens: &PenSet,
    strokes: &[Stroke],
    areas: Areas<'_>,
    ends: &[usize],
    labels: &[Label],
)
    ensures { All (λ p. IsAmong (clips_of page.now pens.now strokes.now) p.clip)
        (paths_in (parts_of_sheets page.now pens.now (labelled_sheets strokes.now (areas_in areas.entry) ends.now labels.now))) }
{}

/// No two clip paths of a document have the same name.
pub fn clips_are_once(page: &Page, pens: &PenSet, strokes: &[Stroke])
    ensures { AllPairs (λ a b. clip_name a ≢ clip_name b) (clips_of page.now pens.now strokes.now) }
{
    strokes_are_in_range(strokes);
}
