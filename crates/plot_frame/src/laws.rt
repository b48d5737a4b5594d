//! What holds of frames and of their lines.
ghost use Rattle.plot_frame.specs.Laws.{LineIsFrame, BackSolves, SolvedIsSolution};

/// The line of an axis gives each coordinate the place that the frame gives it: 16 grains for each
/// plotter unit from the page's edge, rounded once.
pub fn line_is_frame()
    ensures { LineIsFrame }
{}

/// The line of an axis gives each place the coordinate that solves the frame's equation exactly,
/// rounded once.
pub fn back_solves()
    ensures { BackSolves }
{}

/// The exact solution is one, and the only one.
pub fn solved_is_solution()
    ensures { SolvedIsSolution }
{}
