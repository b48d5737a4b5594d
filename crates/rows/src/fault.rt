//! Why a picture was not written.
ghost use Rattle.std.specs.Prelude.{◌≡◌};
ghost use Rattle.rows.specs.Faults.{of_painter};
ghost use Rattle.rows.specs.declared.fault.PictureFault.TheVariants.{Write};

use crate::writing::Broken;
use stroke_raster::PaintFault;

/// Why a picture was not painted and written whole.
#[derive(Clone, Copy, Debug, PartialEq, Eq, Drop)]
pub enum PictureFault {
    /// The heap gave no memory.
    Memory,
    /// The job cannot be done on its page. Want of memory for a band is `Memory`, and never here.
    Paint(PaintFault),
    /// The sink failed after it took `bytes` bytes. `row` is the first row that it did not take whole, and `whole` the bytes
    /// before that row.
    Write { row: u32, whole: u64, bytes: u64 },
    /// The sink failed before it took a PNG whole; what it took is of no use.
    Unfinished,
}

impl From<PaintFault> for PictureFault {
    ghost from_gives = { λ refusal fault. fault ≡ of_painter refusal };

    fn from(refusal: PaintFault) -> PictureFault {
        match refusal {
            PaintFault::Memory => PictureFault::Memory,
            PaintFault::Band | PaintFault::Row => PictureFault::Paint(refusal),
        }
    }
}

impl From<Broken> for PictureFault {
    ghost from_gives = { λ broken fault. fault ≡ Write broken.row broken.whole broken.bytes };

    fn from(broken: Broken) -> PictureFault {
        PictureFault::Write {
            row: broken.row,
            whole: broken.whole,
            bytes: broken.bytes,
        }
    }
}
