//! How a row is written, and how long it is.
ghost use Rattle.std.specs.Prelude.{◌≡◌};
ghost use Rattle.image_rows.specs.Compressions.{compression_of, is_delta};
ghost use Rattle.image_rows.specs.Rows.{has_place};

/// How the data of a row are written: HP RTL, "Set Compression Method".
#[derive(Clone, Copy, PartialEq, Eq, Debug)]
pub enum Compression {
    /// 0: the bytes of the row.
    Unencoded,
    /// 1: pairs of a count and a byte, which is there once more than the count says.
    RunLength,
    /// 2: bytes and runs of one byte, as PackBits of TIFF writes them.
    PackBits,
    /// 3: what changes in the row before.
    DeltaRow,
    /// 9: what changes in the row before, with runs.
    CompressedDelta,
}

impl Compression {
    /// The compression of this number.
    pub fn from_number(number: u32) -> Option<Self>
        ensures { result ≡ compression_of number }
    {
        match number {
            0 => Some(Compression::Unencoded),
            1 => Some(Compression::RunLength),
            2 => Some(Compression::PackBits),
            3 => Some(Compression::DeltaRow),
            9 => Some(Compression::CompressedDelta),
            _ => None,
        }
    }

    // Whether data say what changes in the row before.
    pub(crate) fn is_delta(self) -> bool
        ensures { result ≡ is_delta self }
    {
        match self {
            Compression::Unencoded | Compression::RunLength | Compression::PackBits => false,
            Compression::DeltaRow | Compression::CompressedDelta => true,
        }
    }
}

/// How many bytes a plane of a row has.
#[derive(Clone, Copy, PartialEq, Eq, Debug)]
pub enum RowLength {
    /// The image has a width, so each plane of a row has this many.
    Fixed(usize),
    /// The image has none yet: as many as the data say, but not more than this.
    UpTo(usize),
}

impl RowLength {
    // Whether there is room for a byte at a place.
    pub(crate) fn has_place(self, place: u128) -> bool
        ensures { result ≡ has_place self place }
    {
        match self {
            RowLength::Fixed(width) => place < width as u128,
            RowLength::UpTo(_) => true,
        }
    }
}
