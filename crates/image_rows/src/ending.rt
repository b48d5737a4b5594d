//! How the data of a row end, and why a row is not made.
ghost use Rattle.std.specs.Prelude.{◌≡◌};
ghost use Rattle.image_rows.specs.declared.ending.RowFault.TheVariants.{Memory};

use std::alloc::AllocError;
use thiserror::Error;

/// How the data of a row end.
#[derive(Clone, Copy, Debug, PartialEq, Eq)]
pub enum Ending {
    /// With a whole change, or where the row is full.
    Whole,
    /// Within a change. What there is of it is put.
    Broken,
}

/// Why a row is not made.
#[derive(Clone, Copy, Debug, PartialEq, Eq, Drop, Error)]
pub enum RowFault {
    /// The image has no width, and the row would have more bytes than it may.
    #[error("row of an image is too long")]
    TooLong,
    /// The heap gave no memory.
    #[error("out of memory")]
    Memory,
}

impl From<AllocError> for RowFault {
    ghost from_gives = { λ _ fault. fault ≡ Memory };

    fn from(_error: AllocError) -> RowFault {
        RowFault::Memory
    }
}
