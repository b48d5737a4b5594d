//! A row that is going on.
ghost use Rattle.std.specs.Prelude.{◌≡◌, ◌≢◌, true, false, OnOk, IfOk, IfErr, Ok, Err};
ghost use Rattle.image_rows.specs.Endings.{ending_of};
ghost use Rattle.image_rows.specs.Rows.{row_of, whole_row, is_too_long, breaks_off};
ghost use Rattle.image_colours.specs.Counts.{plane_count};
ghost use Rattle.raster_graphics.specs.Rows.{is_full, next_plane, breaks, filled, whole_line};
ghost use Rattle.raster_graphics.specs.Views.{sending_of};
ghost use Rattle.raster_graphics.specs.declared.fault.Fault.TheVariants.{Memory, TooMuch};

use crate::fault::Fault;
use crate::planes::{Planes, copied};
use crate::settings::Settings;
use image_rows::{Compression, Ending, RowFault, RowLength, decode_row};
use std::alloc::Global;

/// How data become planes.
#[derive(Clone, Copy)]
pub struct Sending<'a> {
    pub settings: &'a Settings,
    pub compression: Compression,
    pub seeds: &'a Planes,
}

/// The planes of a row so far, and the room that is left, in bytes.
#[derive(Drop)]
pub struct Line {
    pub planes: Planes,
    pub room: u32,
}

impl Line {
    // Whether the row has all of its planes.
    fn is_full(&self, settings: &Settings) -> bool
        ensures { result ≡ is_full settings.now self.now.planes }
    {
        settings.coding.plane_count() <= self.planes.len()
    }

    /// One plane more; in a full row it is dropped.
    pub fn send(
        &mut self,
        alloc: Global,
        sending: Sending<'_>,
        input: &[u8],
    ) -> Result<Ending, Fault>
        ensures line { OnOk result (next_plane (sending_of sending.entry) input.now self.old ≡ Ok self.new) }
        ensures ending { IfOk result (λ e. e ≡ ending_of (breaks (sending_of sending.entry) input.now self.old)) }
        ensures refused { IfErr result (λ fault. fault ≢ Memory
            → next_plane (sending_of sending.entry) input.now self.old ≡ Err fault) }
    {
        if self.is_full(sending.settings) {
            return Ok(Ending::Whole);
        }
        let size = sending.settings.plane_size(self.room as usize);
        if let RowLength::Fixed(width) = size {
            if (self.room as usize) < width {
                return Err(Fault::TooMuch);
            }
        }
        let mut plane = copied(alloc, sending.seeds.get(self.planes.len()))?;
        let ending = decoded(&mut plane, sending.compression, size, input)?;
        self.room -= plane.len() as u32;
        self.planes.push(plane)?;
        Ok(ending)
    }

    /// The planes that are not sent, with no data.
    pub fn fill(&mut self, alloc: Global, sending: Sending<'_>) -> Result<(), Fault>
        ensures line { OnOk result
            (filled (plane_count sending.entry.settings.now.coding) (sending_of sending.entry) self.old ≡ Ok self.new) }
        ensures refused { IfErr result (λ fault. fault ≢ Memory
            → filled (plane_count sending.entry.settings.now.coding) (sending_of sending.entry) self.old ≡ Err fault) }
    {
        for _ in 0..sending.settings.coding.plane_count() {
            self.send(alloc, sending, &[])?;
        }
        Ok(())
    }

    /// The last plane of a row.
    pub fn send_last(
        &mut self,
        alloc: Global,
        sending: Sending<'_>,
        input: &[u8],
    ) -> Result<Ending, Fault>
        ensures line { OnOk result (whole_line (sending_of sending.entry) input.now self.old ≡ Ok self.new) }
        ensures ending { IfOk result (λ e. e ≡ ending_of (breaks (sending_of sending.entry) input.now self.old)) }
        ensures refused { IfErr result (λ fault. fault ≢ Memory
            → whole_line (sending_of sending.entry) input.now self.old ≡ Err fault) }
    {
        let ending = self.send(alloc, sending, input)?;
        self.fill(alloc, sending)?;
        Ok(ending)
    }
}

// A plane in the place of its seed.
fn decoded(
    plane: &mut Vec<u8>,
    compression: Compression,
    size: RowLength,
    input: &[u8],
) -> Result<Ending, Fault>
    ensures row { OnOk result (plane.new.items ≡ row_of size compression plane.old.items input.now) }
    ensures ending { IfOk result (λ e. e ≡ ending_of (breaks_off size compression input.now)) }
    ensures not_long { OnOk result (is_too_long size (whole_row compression plane.old.items input.now) ≡ false) }
    ensures long { IfErr result (λ fault. fault ≢ Memory
        → (fault ≡ TooMuch) × (is_too_long size (whole_row compression plane.old.items input.now) ≡ true)) }
{
    match decode_row(plane, compression, size, input) {
        Ok(ending) => Ok(ending),
        Err(RowFault::TooLong) => Err(Fault::TooMuch),
        Err(RowFault::Memory) => Err(Fault::Memory),
    }
}
