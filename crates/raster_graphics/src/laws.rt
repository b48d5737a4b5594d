//! What holds of the machine. The functions do nothing; their contracts are laws.
ghost use Rattle.raster_graphics.specs.Laws.{PlanesHaveRoom, RowsStayInOrder};

/// The planes of all images never have more bytes than they may: no request makes more of them than there is room for.
pub fn planes_have_room()
    ensures { PlanesHaveRoom }
{}

/// The numbers of the rows of each image ascend.
pub fn rows_stay_in_order()
    ensures { RowsStayInOrder }
{}
