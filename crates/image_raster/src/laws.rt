//! What holds of images among strokes. The functions do nothing; their contracts are laws.
ghost use Rattle.image_raster.specs.Laws.{LastShapeIsShown};

/// A pixel shows the last of the strokes that cover it and of the images that show a colour there.
pub fn last_shape_is_shown()
    ensures { LastShapeIsShown }
{}
