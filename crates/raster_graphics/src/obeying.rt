//! Requests that the machine obeys.
ghost use Rattle.std.specs.Prelude.{◌≡◌, ◌≢◌, OnOk, IfOk, IfErr, Ok, Err, None};
ghost use Rattle.raster_graphics.specs.Machines.{set, part_of, with_part, part_set, entry_set, compress, place_changed};
ghost use Rattle.raster_graphics.specs.Machines.{begun, with_unit, reset, obeyed};
ghost use Rattle.raster_graphics.specs.Laws.{IsInOrder};
ghost use Rattle.raster_graphics.specs.Places.{density_from};
ghost use Rattle.raster_graphics.specs.declared.fault.Fault.TheVariants.{Memory};

use crate::density::Density;
use crate::fault::{Answer, Fault};
use crate::machine::{Machine, NO_PARTS};
use crate::place::Place;
use crate::settings::Settings;
use image_colours::Parts;
use image_rows::Compression;
use raster_requests::{Corner, ImageSetting, PlaceChange, Primary, Request};
use std::alloc::Global;

impl Machine {
    /// Obeys a request; `input` is the data of its command.
    ///
    /// Errors: `TooFar` if a place or a corner of an image is out of range, `TooMuch` if planes have too many bytes, `Memory` if
    /// memory runs out. The machine is of no use after an error. The rows of images stay in order.
    pub fn obey(&mut self, alloc: Global, request: Request, input: &[u8]) -> Result<Answer, Fault>
        ensures obeyed { IfOk result (λ answer. obeyed request input.now self.old ≡ Ok (self.new, answer)) }
        ensures refused { IfErr result (λ fault. fault ≢ Memory → obeyed request input.now self.old ≡ Err fault) }
        ensures ordered { IsInOrder self.old → OnOk result (IsInOrder self.new) }
    {
        self.carry_out(alloc, request, input)
    }

    // Carries out a request.
    fn carry_out(&mut self, alloc: Global, request: Request, input: &[u8]) -> Result<Answer, Fault>
        ensures obeyed { IfOk result (λ answer. obeyed request input.now self.old ≡ Ok (self.new, answer)) }
        ensures refused { IfErr result (λ fault. fault ≢ Memory → obeyed request input.now self.old ≡ Err fault) }
    {
        match request {
            Request::Set(setting) => Ok(self.set(setting, input)),
            Request::Start(corner) => Ok(self.begin(alloc, corner)),
            Request::Compress(compression) => Ok(self.compress(compression)),
            Request::MoveRows(rows) => self.move_rows(rows),
            Request::Plane => self.plane(alloc, input),
            Request::LastPlane => self.last_plane(alloc, input),
            Request::PalettePart(primary, number) => {
                self.set_part(primary, number);
                Ok(Answer::Done)
            }
            Request::PaletteEntry(number) => Ok(self.set_entry(number)),
            Request::Unit(number) => Ok(self.set_unit(number)),
            Request::End | Request::Enter(..) => {
                self.close()?;
                Ok(Answer::Done)
            }
            Request::EndAndReset => {
                self.close()?;
                self.compression = Some(Compression::Unencoded);
                Ok(Answer::Done)
            }
            Request::Place(change) => {
                self.close()?;
                self.change_place(change)
            }
            Request::Reset => {
                self.close()?;
                self.reset();
                Ok(Answer::Done)
            }
            Request::EndPage => {
                self.close()?;
                self.place = Place { x: 0, y: 0 };
                Ok(Answer::Done)
            }
            Request::Nothing => Ok(Answer::Done),
            Request::Bad => Ok(Answer::Bad),
            Request::Skipped => Ok(Answer::Skipped),
        }
    }

    // The begin of an image, unless one is open.
    fn begin(&mut self, alloc: Global, corner: Option<Corner>) -> Answer
        ensures { begun corner self.old ≡ Ok (self.new, result) }
    {
        match corner {
            Some(corner) => {
                self.start(alloc, corner);
                Answer::Done
            }
            None => {
                if self.image.is_some() {
                    Answer::Done
                } else {
                    Answer::Bad
                }
            }
        }
    }

    // A setting of a whole image.
    fn set(&mut self, setting: ImageSetting, input: &[u8]) -> Answer
        ensures { set setting input.now self.old ≡ Ok (self.new, result) }
    {
        if let Some(image) = &self.image {
            if image.has_data() {
                return Answer::Done;
            }
        }
        match self.settings.with(setting, input) {
            None => Answer::Bad,
            Some(settings) => {
                self.settings = settings;
                Answer::Done
            }
        }
    }

    // How rows are compressed from now on.
    fn compress(&mut self, compression: Option<Compression>) -> Answer
        ensures { compress compression self.old ≡ Ok (self.new, result) }
    {
        self.compression = compression;
        match compression {
            None => Answer::Skipped,
            Some(_) => Answer::Done,
        }
    }

    // A part of the next entry of the palette.
    fn set_part(&mut self, primary: Primary, number: i64)
        ensures { self.new ≡ part_set primary number self.old }
    {
        let part = part_of(number);
        match primary {
            Primary::First => self.parts.first = part,
            Primary::Second => self.parts.second = part,
            Primary::Third => self.parts.third = part,
        }
    }

    // An entry of the palette gets its parts.
    fn set_entry(&mut self, number: i64) -> Answer
        ensures { entry_set number self.old ≡ Ok (self.new, result) }
    {
        if number < 0 || number > u32::MAX as i64 {
            return Answer::Bad;
        }
        let coding = self.settings.coding;
        match self.settings.palette.set(coding, number as u32, self.parts) {
            Err(_) => Answer::Bad,
            Ok(()) => {
                self.parts = NO_PARTS;
                Answer::Done
            }
        }
    }

    // Units of the place to the inch.
    fn set_unit(&mut self, number: u32) -> Answer
        ensures { with_unit self.old (density_from number) ≡ Ok (self.new, result) }
    {
        match Density::from_number(number) {
            None => Answer::Bad,
            Some(unit) => {
                self.unit = unit;
                Answer::Done
            }
        }
    }

    // A change of the place.
    fn change_place(&mut self, change: PlaceChange) -> Result<Answer, Fault>
        ensures changed { IfOk result (λ answer. place_changed change self.old ≡ Ok (self.new, answer)) }
        ensures refused { IfErr result (λ fault. fault ≢ Memory → place_changed change self.old ≡ Err fault) }
    {
        match self.place.after(change, self.unit) {
            None => Err(Fault::TooFar),
            Some(place) => {
                self.place = place;
                Ok(Answer::Done)
            }
        }
    }

    // All is as at the start, but for the images and the room that they leave.
    fn reset(&mut self)
        ensures { self.new ≡ reset self.old }
    {
        self.place = Place { x: 0, y: 0 };
        self.unit = Density::new(300);
        self.settings = Settings::start();
        self.compression = Some(Compression::Unencoded);
        self.parts = NO_PARTS;
        self.image = None;
        self.line.planes.clear();
    }
}

// A part of a colour.
fn part_of(number: i64) -> u32
    ensures { result ≡ part_of number }
{
    number.clamp(0, u32::MAX as i64) as u32
}
