//! What LT and UL ask for.
use line_types::Pattern;

/// How lines are drawn: whole, or by the pattern of a type.
#[derive(Clone, Copy, Debug, PartialEq, Eq)]
pub enum LineKind {
    Solid,
    /// A type from -8 to 8: 0 draws dots at the ends of lines, types above 0 have a fixed pattern, and
    /// types below 0 an adaptive one.
    Patterned(i8),
}

/// The length of a pattern.
#[derive(Clone, Copy, Debug, PartialEq, Eq)]
pub enum PatternLength {
    /// Millionths of a percent of the distance from P1 to P2.
    Percent(u64),
    /// Millionths of a millimetre.
    Millimetres(u64),
}

/// What LT (Line Type) and UL (User-Defined Line Type) ask for.
#[derive(Drop)]
pub enum LineSetting {
    /// LT: solid lines. The type before is remembered.
    Solid,
    /// LT99: the remembered type, if lines are solid.
    Again,
    /// LT with a type, -8 to 8.
    Type(i8),
    /// LT with a type, and the length of its pattern.
    TypeAndLength(i8, PatternLength),
    /// UL: the usual patterns of all types.
    UsualPatterns,
    /// UL with a type, 1 to 8: the usual patterns of this type, fixed and adaptive.
    UsualPattern(u8),
    /// UL with a type, 1 to 8, and the pattern of this type, fixed and adaptive.
    OwnPattern(u8, Pattern),
}
