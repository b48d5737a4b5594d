//! What holds of rows of images. The functions do nothing; their contracts are laws.
ghost use Rattle.image_rows.specs.Laws.{RowsHaveTheirWidth, UnencodedIsItsData, NoDataAreZerosOrTheSeed};
ghost use Rattle.image_rows.specs.Laws.{PackBitsIsRead, RowsCanBeWritten, WidthsOnlyCut};

/// With a width, each row has it, whatever its data are.
pub fn rows_have_their_width()
    ensures { RowsHaveTheirWidth }
{}

/// Bytes that are not encoded are the row, and never break off.
pub fn unencoded_is_its_data()
    ensures { UnencodedIsItsData }
{}

/// No data are a row of zeros, or for data that say what changes the same row again.
pub fn no_data_are_zeros_or_the_seed()
    ensures { NoDataAreZerosOrTheSeed }
{}

/// PackBits, as TIFF has it: bytes after their count, a byte after the length of its run, and nothing.
pub fn pack_bits_is_read()
    ensures { PackBitsIsRead }
{}

/// Each row can be written in each compression.
pub fn rows_can_be_written()
    ensures { RowsCanBeWritten }
{}

/// A width cuts a row and its seed, and makes nothing break off.
pub fn widths_only_cut()
    ensures { WidthsOnlyCut }
{}
