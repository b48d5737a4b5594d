//! Laws of the page around a drawing; they speak only of the definitions.
ghost use Rattle.page_fit.specs.Laws.{SeenStrokesLieOnThePage};
ghost use Rattle.page_fit.specs.ShapeLaws.{FilledPlacesAreSeen, StrokesStayStrokes};

/// All that is seen of the strokes of the selected pens lies on the page around them, when they are moved, with the margin on
/// each side; and on no side is a whole plotter unit more free, unless the page is as small as a page can be.
pub fn seen_strokes_lie_on_the_page()
    ensures { SeenStrokesLieOnThePage }
{}

/// Strokes of which none is the edge of an area are measured and counted as they are.
pub fn strokes_stay_strokes()
    ensures { StrokesStayStrokes }
{}

/// What an area fills in its window lies in the extent by which its page is fitted, and an area that fills a place of a page is not
/// counted as off that page.
pub fn filled_places_are_seen()
    ensures { FilledPlacesAreSeen }
{}
