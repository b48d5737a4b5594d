//! Laws of settings, over the definitions only.
ghost use Rattle.plot_settings.specs.Laws.{WidthsAreLookedBackFor, ColoursAreLookedBackFor};

/// The width of each pen is the one that the last instruction before has set for it, or 224 grains.
pub fn widths_are_looked_back_for()
    ensures { WidthsAreLookedBackFor }
{}

/// The colour of each pen is the one that the last instruction before has set for it, or its default
/// colour.
pub fn colours_are_looked_back_for()
    ensures { ColoursAreLookedBackFor }
{}
