//! What holds of the places on arcs and on Bezier curves.
ghost use Rattle.curves.specs.Laws.{ArcPlacesAreOnCircle, ArcsEndAtLast, ArcsPassTheirMiddle};
ghost use Rattle.curves.specs.Laws.{BeziersEndAtLast, BezierPlacesAreRounded};

/// Each place on a circle is a point of the circle, rounded once in x and once in y.
pub fn arc_places_are_on_circle()
    ensures { ArcPlacesAreOnCircle }
{}

/// An arc ends at its third place, and has 1, 2 or 64 places after its first.
pub fn arcs_end_at_last()
    ensures { ArcsEndAtLast }
{}

/// An arc goes round by its second place: the points of the circle from which its places are rounded are
/// on the side of the line from its first place to its third on which the second one is. This holds if the
/// centre is at most 2^15 times as far from the first place as the third one: any other arc is nearly a
/// line, or nearly a whole circle.
pub fn arcs_pass_their_middle()
    ensures { ArcsPassTheirMiddle }
{}

/// A Bezier curve ends at its fourth place.
pub fn beziers_end_at_last()
    ensures { BeziersEndAtLast }
{}

/// Each place on a Bezier curve is the sum of its four places by their weights, rounded once in x and
/// once in y.
pub fn bezier_places_are_rounded()
    ensures { BezierPlacesAreRounded }
{}
