//! What holds of the whole font.
ghost use Rattle.stick_font.specs.Laws.{StrokesAreOnTheGrid, PrintingCharactersHaveStrokes};
ghost use Rattle.stick_font.specs.Laws.{CharactersHaveFewStrokes, SmallLettersAreDrawnAsCapitals};

/// No stroke leaves the grid: x is 0 to 4 and y is 0 to 6 at each end.
pub fn strokes_are_on_the_grid()
    ensures { StrokesAreOnTheGrid }
{}

/// The bytes 33 to 126 have strokes, and no other byte has any.
pub fn printing_characters_have_strokes()
    ensures { PrintingCharactersHaveStrokes }
{}

/// No character has more than 15 strokes.
pub fn characters_have_few_strokes()
    ensures { CharactersHaveFewStrokes }
{}

/// A small letter has the strokes of its capital.
pub fn small_letters_are_drawn_as_capitals()
    ensures { SmallLettersAreDrawnAsCapitals }
{}
