//! Rows that are sent to the machine.
ghost use Rattle.std.specs.Prelude.{◌≡◌, ◌≢◌, OnOk, IfOk, IfErr, Ok, Err, None};
ghost use Rattle.raster_graphics.specs.Machines.{image_at, corner_of, started, with_data, rows_moved, moved_by, answer_of};
ghost use Rattle.raster_graphics.specs.Machines.{sending_to, plane_in, plane, row_in, row_added, last_plane};
ghost use Rattle.raster_graphics.specs.declared.fault.Fault.TheVariants.{Memory};

use crate::fault::{Answer, Fault};
use crate::line::Sending;
use crate::machine::Machine;
use crate::open_image::OpenImage;
use crate::place::Place;
use crate::settings::Settings;
use image_rows::{Compression, Ending};
use raster_requests::Corner;
use std::alloc::Global;

impl Machine {
    // The open image, or else one that begins; it is taken.
    fn take_image(&mut self, alloc: Global, corner: Corner) -> OpenImage
        ensures image { result ≡ image_at corner self.old }
        ensures taken { self.new ≡ record self.old { image = None } }
    {
        match self.image.take() {
            None => OpenImage::new(alloc, corner_of(corner, self.place)),
            Some(image) => image,
        }
    }

    // The open image, or else one that begins at the margin, with data; it is taken.
    fn take_for_data(&mut self, alloc: Global) -> OpenImage
        ensures image { result ≡ with_data self.old }
        ensures taken { self.new ≡ record self.old { image = None } }
    {
        let mut image = self.take_image(alloc, Corner::AtMargin);
        image.settle(self.settings);
        image
    }

    // Begins an image, if none is open.
    pub(crate) fn start(&mut self, alloc: Global, corner: Corner)
        ensures { self.new ≡ started corner self.old }
    {
        let image = self.take_image(alloc, corner);
        self.image = Some(image);
    }

    // Rows without dots.
    pub(crate) fn move_rows(&mut self, rows: u32) -> Result<Answer, Fault>
        ensures moved { IfOk result (λ answer. rows_moved rows self.old ≡ Ok (self.new, answer)) }
        ensures refused { IfErr result (λ fault. fault ≢ Memory → rows_moved rows self.old ≡ Err fault) }
    {
        match self.image.take() {
            None => Ok(Answer::Done),
            Some(image) => {
                let settings = image.settings_or(self.settings);
                self.move_by(rows, &settings, image)
            }
        }
    }

    // Rows without dots in an image, which is open then.
    fn move_by(&mut self, rows: u32, settings: &Settings, image: OpenImage) -> Result<Answer, Fault>
        ensures moved { IfOk result (λ answer. moved_by rows settings.now image self.old ≡ Ok (self.new, answer)) }
        ensures refused { IfErr result (λ fault. fault ≢ Memory → moved_by rows settings.now image self.old ≡ Err fault) }
    {
        let next = settings.advanced(image.next, rows);
        if next > u32::MAX as u64 {
            return Err(Fault::TooFar);
        }
        let mut moved = image;
        moved.move_to(next as u32);
        if moved.next_begin(settings).is_none() {
            return Err(Fault::TooFar);
        }
        self.image = Some(moved);
        self.line.planes.clear();
        Ok(Answer::Done)
    }

    // The next plane of a row.
    pub(crate) fn plane(&mut self, alloc: Global, input: &[u8]) -> Result<Answer, Fault>
        ensures plane { IfOk result (λ answer. plane input.now self.old ≡ Ok (self.new, answer)) }
        ensures refused { IfErr result (λ fault. fault ≢ Memory → plane input.now self.old ≡ Err fault) }
    {
        let image = self.take_for_data(alloc);
        let settings = image.settings_or(self.settings);
        match self.compression {
            Some(compression) if !settings.is_past(image.next) => {
                self.plane_in(alloc, &settings, compression, input, image)
            }
            _ => {
                self.image = Some(image);
                Ok(Answer::Done)
            }
        }
    }

    // The next plane of a row of an image, which is open then.
    fn plane_in(
        &mut self,
        alloc: Global,
        settings: &Settings,
        compression: Compression,
        input: &[u8],
        image: OpenImage,
    ) -> Result<Answer, Fault>
        ensures plane { IfOk result (λ answer.
            plane_in (sending_to settings.now compression image) input.now image self.old ≡ Ok (self.new, answer)) }
        ensures refused { IfErr result (λ fault. fault ≢ Memory
            → plane_in (sending_to settings.now compression image) input.now image self.old ≡ Err fault) }
    {
        let sending = Sending {
            settings,
            compression,
            seeds: &image.seeds,
        };
        let ending = self.line.send(alloc, sending, input)?;
        self.image = Some(image);
        Ok(answer_of(ending))
    }

    // The last plane of a row.
    pub(crate) fn last_plane(&mut self, alloc: Global, input: &[u8]) -> Result<Answer, Fault>
        ensures plane { IfOk result (λ answer. last_plane input.now self.old ≡ Ok (self.new, answer)) }
        ensures refused { IfErr result (λ fault. fault ≢ Memory → last_plane input.now self.old ≡ Err fault) }
    {
        let image = self.take_for_data(alloc);
        let settings = image.settings_or(self.settings);
        match self.compression {
            None => self.move_by(1, &settings, image),
            Some(_) if settings.is_past(image.next) => {
                self.image = Some(image);
                Ok(Answer::Done)
            }
            Some(compression) => self.row_in(alloc, &settings, compression, input, image),
        }
    }

    // The last plane of a row of an image, which is open then.
    fn row_in(
        &mut self,
        alloc: Global,
        settings: &Settings,
        compression: Compression,
        input: &[u8],
        image: OpenImage,
    ) -> Result<Answer, Fault>
        ensures row { IfOk result (λ answer.
            row_in (sending_to settings.now compression image) input.now image self.old ≡ Ok (self.new, answer)) }
        ensures refused { IfErr result (λ fault. fault ≢ Memory
            → row_in (sending_to settings.now compression image) input.now image self.old ≡ Err fault) }
    {
        let sending = Sending {
            settings,
            compression,
            seeds: &image.seeds,
        };
        let ending = self.line.send_last(alloc, sending, input)?;
        self.end_row(alloc, settings, image, ending)
    }

    // Adds the row to an image, which is open then.
    fn end_row(
        &mut self,
        alloc: Global,
        settings: &Settings,
        image: OpenImage,
        ending: Ending,
    ) -> Result<Answer, Fault>
        ensures row { IfOk result (λ answer. row_added settings.now image ending self.old ≡ Ok (self.new, answer)) }
        ensures refused { IfErr result (λ fault. fault ≢ Memory → row_added settings.now image ending self.old ≡ Err fault) }
    {
        if image.next == u32::MAX {
            return Err(Fault::TooFar);
        }
        let mut longer = image;
        longer.add(alloc, &mut self.line.planes)?;
        if longer.is_far(settings) {
            return Err(Fault::TooFar);
        }
        self.image = Some(longer);
        Ok(answer_of(ending))
    }
}

// The corner of an image.
fn corner_of(corner: Corner, place: Place) -> Place
    ensures { result ≡ corner_of corner place }
{
    match corner {
        Corner::AtMargin => Place { y: 0, ..place },
        Corner::AtPlace => place,
    }
}

// What data did.
fn answer_of(ending: Ending) -> Answer
    ensures { result ≡ answer_of ending }
{
    match ending {
        Ending::Whole => Answer::Done,
        Ending::Broken => Answer::Bad,
    }
}
