//! What holds of areas. The functions do nothing; their contracts are laws.
ghost use Rattle.areas.specs.Laws.{AreasStayInTheirBox, DirectionIsFree, RectanglesAreBetweenSides};

/// From which edge on, and in which direction, edges are taken does not matter.
pub fn direction_is_free()
    ensures { DirectionIsFree }
{}

/// Nothing outside the box of closed polygons is inside the area.
pub fn areas_stay_in_their_box()
    ensures { AreasStayInTheirBox }
{}

/// What is inside a rectangle is between its sides.
pub fn rectangles_are_between_sides()
    ensures { RectanglesAreBetweenSides }
{}
