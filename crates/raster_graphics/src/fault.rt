//! What an obeyed request did, and why one is refused.
ghost use Rattle.std.specs.Prelude.{◌≡◌};
ghost use Rattle.raster_graphics.specs.declared.fault.Fault.TheVariants.{Memory};

use std::alloc::AllocError;
use thiserror::Error;

/// What a request did.
#[derive(Clone, Copy, PartialEq, Eq, Debug)]
pub enum Answer {
    /// It was obeyed, or passed over as it should be.
    Done,
    /// It asks for what is not allowed, or its data break off.
    Bad,
    /// It asks for what this machine does not have.
    Skipped,
}

/// Why a request is refused.
#[derive(Clone, Copy, PartialEq, Eq, Debug, Drop, Error)]
pub enum Fault {
    /// A place, or a corner of an image, is out of range.
    #[error("image out of range")]
    TooFar,
    /// The planes of all images have more than 2^31 bits.
    #[error("too many dots in images")]
    TooMuch,
    /// The heap gave no memory.
    #[error("out of memory")]
    Memory,
}

impl From<AllocError> for Fault {
    ghost from_gives = { λ _ fault. fault ≡ Memory };

    fn from(_error: AllocError) -> Fault {
        Fault::Memory
    }
}
