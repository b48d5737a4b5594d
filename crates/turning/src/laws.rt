//! What holds of turns. The functions do nothing; their contracts are laws.
ghost use Rattle.turning.specs.Filled.{TurnedAreasCover};
ghost use Rattle.turning.specs.Laws.{EmptyWindowsStayEmpty, QuartersAddUp, TurnableAreStrokes};
ghost use Rattle.turning.specs.Pictures.{TurnedPagesShow, TurnedStrokesCover};
ghost use Rattle.turning.specs.Shapes.{TurnedShapesShow};

/// A quarter turn after a turn makes a quarter more: two are a half turn, and four are none.
pub fn quarters_add_up()
    ensures { QuartersAddUp }
{}

/// A window that holds no place holds none after a turn, and another one holds some.
pub fn empty_windows_stay_empty()
    ensures { EmptyWindowsStayEmpty }
{}

/// What can be turned is what is a stroke after the turn. All strokes on the page can be.
pub fn turnable_are_strokes()
    ensures { TurnableAreStrokes }
{}

/// A place is in a turned window, within half the drawn width of a turned stroke, or covered by it, if and only if it was so before
/// the turn.
pub fn turned_strokes_cover()
    ensures { TurnedStrokesCover }
{}

/// A place shows after the turn the stroke that it showed before, and so does each pixel, if the sides of the page are whole
/// numbers of pixels.
pub fn turned_pages_show()
    ensures { TurnedPagesShow }
{}

/// A place is covered by a turned area, if its edges lead round closed polygons, if and only if it was so before the turn.
pub fn turned_areas_cover()
    ensures { TurnedAreasCover }
{}

/// A place shows after the turn the pen and the colour that it showed before, also with areas, if the edges of each lead round closed
/// polygons and look alike; and so does each pixel, if the sides of the page are whole numbers of pixels.
pub fn turned_shapes_show()
    ensures { TurnedShapesShow }
{}
