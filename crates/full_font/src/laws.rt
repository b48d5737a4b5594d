//! What holds of the whole font.
ghost use Rattle.full_font.specs.Laws.{StrokesAreOnTheGrid, CharactersHaveFewStrokes};
ghost use Rattle.full_font.specs.Laws.{CapitalsAreThoseOfTheStickFont, RowsAreSorted, CharactersDiffer};

/// No stroke leaves the grid: x is 0 to 4 and y is -2 to 8 at each end.
pub fn strokes_are_on_the_grid()
    ensures { StrokesAreOnTheGrid }
{}

/// No character has more than 15 strokes.
pub fn characters_have_few_strokes()
    ensures { CharactersHaveFewStrokes }
{}

/// The bytes 32 to 96 and 123 to 126 have the strokes that `stick_font` has for them.
pub fn capitals_are_those_of_the_stick_font()
    ensures { CapitalsAreThoseOfTheStickFont }
{}

/// The rows are sorted by their code points, of which none is there twice.
pub fn rows_are_sorted()
    ensures { RowsAreSorted }
{}

/// Two characters of the font have the same strokes only if they are both blank, hyphens or dashes, dots
/// in the middle, or micro sign and mu. These have the same strokes.
pub fn characters_differ()
    ensures { CharactersDiffer }
{}
