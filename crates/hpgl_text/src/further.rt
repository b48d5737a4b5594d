//! The further instructions, which only the profile full reads.

/// A further instruction. Numbers follow all but the last five, whose bytes are not read.
#[derive(Clone, Copy, Debug, PartialEq, Eq)]
pub enum Further {
    /// LT, Line Type: the dashes of lines.
    LineType,
    /// UL, User-Defined Line Type: the gaps of a pattern.
    UserLineType,
    /// WU, Pen Width Unit Selection: millimetres or percent.
    WidthUnit,
    /// PT, Pen Thickness: the width of the selected pen in millimetres, in old HP-GL.
    PenThickness,
    /// SR, Relative Character Size: in percent of P1 and P2.
    RelativeSize,
    /// SL, Character Slant.
    Slant,
    /// DR, Relative Direction: of labels, in percent of P1 and P2.
    RelativeDirection,
    /// DV, Define Variable Text Path: where the characters and the lines of a label go.
    TextPath,
    /// LO, Label Origin: the point of a label that is at the pen.
    LabelOrigin,
    /// CP, Character Plot: a move by places and lines of a label.
    CharacterPlot,
    /// ES, Extra Space: between the characters and the lines of a label.
    ExtraSpace,
    /// TL, Tick Length, in old HP-GL.
    TickLength,
    /// XT, X-Tick: a tick on an x axis, in old HP-GL.
    XTick,
    /// YT, Y-Tick: a tick on a y axis, in old HP-GL.
    YTick,
    /// PM, Polygon Mode: places are stored in the polygon buffer.
    PolygonMode,
    /// EP, Edge Polygon: the edges of the polygon buffer.
    EdgePolygon,
    /// FP, Fill Polygon: the inside of the polygon buffer.
    FillPolygon,
    /// FT, Fill Type: solid, hatched or shaded.
    FillType,
    /// AC, Anchor Corner: where hatching begins.
    AnchorCorner,
    /// RA, Fill Rectangle Absolute: by an absolute corner.
    FillAbsolute,
    /// RR, Fill Rectangle Relative: by a relative corner.
    FillRelative,
    /// EW, Edge Wedge.
    EdgeWedge,
    /// WG, Fill Wedge.
    FillWedge,
    /// AT, Absolute Arc Three Point: an arc through a point to an end.
    ArcAbsoluteThreePoint,
    /// RT, Relative Arc Three Point.
    ArcRelativeThreePoint,
    /// BZ, Bezier Absolute: curves by control points.
    BezierAbsolute,
    /// BR, Bezier Relative.
    BezierRelative,
    /// CT, Chord Tolerance Mode: how the chords of circles and arcs are given.
    ChordTolerance,
    /// IR, Input Relative P1 and P2: the scaling points in percent of the page.
    RelativePoints,
    /// CR, Set Color Range for Relative Color Data: the numbers that stand for black and for white.
    ColourRange,
    /// CS, Designate Standard Character Set, in old HP-GL.
    StandardSet,
    /// CA, Designate Alternate Character Set, in old HP-GL.
    AlternateSet,
    /// SD, Standard Font Definition: its set of characters, spacing, pitch and height.
    StandardFont,
    /// AD, Alternate Font Definition.
    AlternateFont,
    /// TR, Transparency Mode: whether white strokes and areas are not there.
    Transparency,
    /// SV, Screened Vectors: strokes in a part of their pen's colour.
    ScreenedVectors,
    /// UC, User-Defined Character: a character by the moves of a pen.
    UserCharacter,
    /// SS, Select Standard Font, with its set.
    SelectStandard,
    /// SA, Select Alternate Font, with its set.
    SelectAlternate,
    /// PG, Advance Full Page; NR, Not Ready; and AF, AH and FR of old HP-GL, which move the paper: the
    /// end of a sheet.
    EndSheet,
    /// BP, Begin Plot: all settings are those of the start, as after IN.
    BeginPlot,
    /// PB, Print Buffered Label: the text of the most recent BL, in old HP-GL.
    PrintBuffer,
}
