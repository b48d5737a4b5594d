//! The instructions of the core that numbers follow.

/// An instruction of the core that numbers follow.
#[derive(Clone, Copy, Debug, PartialEq, Eq)]
pub enum Instruction {
    /// IN, Initialize: all settings are those of the start.
    Initialize,
    /// DF, Default Values: most settings are those of the start.
    DefaultValues,
    /// IP, Input P1 and P2: the scaling points.
    InputPoints,
    /// SC, Scale: the units of coordinates.
    Scale,
    /// RO, Rotate Coordinate System.
    Rotate,
    /// IW, Input Window: the rectangle that clips lines.
    InputWindow,
    /// SP, Select Pen: a pen, or 0 for none.
    SelectPen,
    /// PW, Pen Width: of one pen, or of all.
    PenWidth,
    /// PC, Pen Color Assignment: to one pen, or to all.
    PenColour,
    /// PU, Pen Up: the pen is raised, and moves.
    PenUp,
    /// PD, Pen Down: the pen is lowered, and moves.
    PenDown,
    /// PA, Plot Absolute: coordinates are absolute from here on, and the pen moves.
    PlotAbsolute,
    /// PR, Plot Relative: coordinates are relative from here on, and the pen moves.
    PlotRelative,
    /// EA, Edge Rectangle Absolute: the edge of a rectangle, by an absolute corner.
    EdgeAbsolute,
    /// ER, Edge Rectangle Relative: the edge of a rectangle, by a relative corner.
    EdgeRelative,
    /// CI, Circle: about the pen.
    Circle,
    /// AA, Arc Absolute: by an absolute centre.
    ArcAbsolute,
    /// AR, Arc Relative: by a relative centre.
    ArcRelative,
    /// SI, Absolute Character Size.
    CharacterSize,
    /// DI, Absolute Direction: of labels.
    Direction,
}
