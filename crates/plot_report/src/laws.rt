//! Laws of reports.
ghost use Rattle.std.specs.Prelude.{◌≡◌, ◌≤◌, [], ◌++◌, flat_map, length};
ghost use Rattle.std.specs.List.{All};
ghost use Rattle.areas.specs.Shapes.{AreApart, ShapeList, plain, shapes, stroke_count};
ghost use Rattle.plot_report.specs.Report.{full_report_of, note_line, page_line, pen_lines, sheets_line, strokes_among, strokes_line};

use crate::report_page::ReportPage;
use hpgl_plot::Note;
use plot_page::Stroke;

/// Without areas and images the report in the profile full is that in the profile core, with the line of the sheets.
pub fn report_without_areas(page: ReportPage, sheets: usize, strokes: &[Stroke], notes: &[Note])
    ensures { full_report_of page sheets (plain strokes.now) [] notes.now
        ≡ page_line page ++ sheets_line sheets ++ strokes_line strokes.now ++ pen_lines strokes.now
        ++ flat_map note_line notes.now }
{}

/// The strokes that a report counts are those that are no edges, as many as a conversion says that were drawn.
pub fn strokes_are_no_edges()
    ensures { (list : ShapeList) → AreApart 0 list.areas → All (λ area. area.end ≤ length list.strokes) list.areas
        → length (strokes_among (shapes list.strokes list.areas)) ≡ stroke_count list }
{}
