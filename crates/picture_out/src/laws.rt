//! Laws of the forms: what the bytes of a row say of its cells.
ghost use Rattle.picture_out.specs.Laws.{MarksPrintsMarks, PbmShowsInk, PclShowsInk, PpmShowsColours};

/// Marks has a line for each cell that is not 0, in the order of the columns, and nothing else.
pub fn marks_prints_marks()
    ensures { MarksPrintsMarks }
{}

/// A bit of a PBM row is 1 for each cell that is not 0, and 0 for the others and the padding.
pub fn pbm_shows_ink()
    ensures { PbmShowsInk }
{}

/// The three bytes of a PPM pixel are the colour of the cell's ink, or white for a cell that is 0.
pub fn ppm_shows_colours()
    ensures { PpmShowsColours }
{}

/// A PCL row is the transfer command, with the number of the bytes that follow it, and then the
/// bytes of the PBM row, whose bits show the ink.
pub fn pcl_shows_ink()
    ensures { PclShowsInk }
{}
