//! Laws of pictures of so many pixels; they speak only of the definitions.
ghost use Rattle.picture_job.specs.Laws.{ResolutionsSuitPixels};

/// At the resolution that is chosen for so many pixels, the longer side of a page has no more, unless it is 1 dot per inch; and
/// at each greater one up to 1200 it has more.
pub fn resolutions_suit_pixels()
    ensures { ResolutionsSuitPixels }
{}
