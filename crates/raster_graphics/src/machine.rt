//! The machine: what is set, the image for which rows come, and the images that are done.
ghost use Rattle.std.specs.Prelude.{◌≡◌, ◌≢◌, MatchOption, OnOk, IfErr, Ok, Err, [], ◌∷◌};
ghost use Rattle.raster_graphics.specs.Laws.{IsInOrder};
ghost use Rattle.raster_graphics.specs.Machines.{start, ended, closed};
ghost use Rattle.raster_graphics.specs.declared.fault.Fault.TheVariants.{Memory};

use crate::density::Density;
use crate::fault::Fault;
use crate::image::{Image, Images};
use crate::line::Line;
use crate::open_image::OpenImage;
use crate::place::Place;
use crate::planes::Planes;
use crate::settings::Settings;
use image_colours::Parts;
use image_rows::Compression;
use std::alloc::Global;

/// How many bytes the planes of all images may have: 2^31 bits.
pub const MOST_BYTES: u32 = 268_435_456;

/// The machine of raster graphics.
#[derive(Drop)]
pub struct Machine {
    // Where images begin.
    pub(crate) place: Place,
    // Units of changes of the place to the inch.
    pub(crate) unit: Density,
    // What is set for the next image.
    pub(crate) settings: Settings,
    // How rows are compressed; none if that is not known.
    pub(crate) compression: Option<Compression>,
    // Parts for the next entry of the palette.
    pub(crate) parts: Parts,
    // The image for which rows come.
    pub(crate) image: Option<OpenImage>,
    // The planes of its row that is going on, and the room that is left for planes.
    pub(crate) line: Line,
    // The images that are done.
    pub(crate) images: Images,
}

impl Machine {
    /// The machine at the start.
    pub fn new(alloc: Global) -> Self
        ensures start { result ≡ start }
        ensures ordered { IsInOrder result }
    {
        Machine {
            place: Place { x: 0, y: 0 },
            unit: Density::new(300),
            settings: Settings::start(),
            compression: Some(Compression::Unencoded),
            parts: NO_PARTS,
            image: None,
            line: Line {
                planes: Planes::new(alloc),
                room: MOST_BYTES,
            },
            images: Images::new(alloc),
        }
    }

    /// Where the next image begins.
    pub fn place(&self) -> Place
        ensures { result ≡ self.now.place }
    {
        self.place
    }

    /// Sets where the next image begins.
    pub fn set_place(&mut self, place: Place)
        ensures { self.new ≡ record self.old { place = place } }
    {
        self.place = place;
    }

    /// The images that are done, in order.
    pub fn images(&self) -> &[Image]
        ensures { result.now ≡ self.now.images }
    {
        self.images.as_slice()
    }

    /// Takes the first image that is done out of the machine; none if there is none.
    pub fn take_done(&mut self) -> Option<Image>
        ensures taken { MatchOption result ((self.old.images ≡ []) × (self.new.images ≡ []))
            (λ image. self.old.images ≡ image ∷ self.new.images) }
        ensures left { self.new ≡ record self.old { images = self.new.images } }
    {
        self.images.take_first()
    }

    /// Ends the image, if one is open: it is done if it has a row, and the place is where its next row would begin.
    ///
    /// Errors: `TooFar` if that is out of range, `Memory` if memory runs out. The machine is of no use after an error.
    pub fn close(&mut self) -> Result<(), Fault>
        ensures closed { OnOk result (closed self.old ≡ Ok self.new) }
        ensures refused { IfErr result (λ fault. fault ≢ Memory → closed self.old ≡ Err fault) }
        ensures ordered { IsInOrder self.old → OnOk result (IsInOrder self.new) }
    {
        self.end_open()
    }

    // Ends the image that is open, if one is.
    fn end_open(&mut self) -> Result<(), Fault>
        ensures closed { OnOk result (closed self.old ≡ Ok self.new) }
        ensures refused { IfErr result (λ fault. fault ≢ Memory → closed self.old ≡ Err fault) }
    {
        match self.image.take() {
            None => Ok(()),
            Some(image) => self.end(image),
        }
    }

    // Ends an image.
    fn end(&mut self, image: OpenImage) -> Result<(), Fault>
        ensures ended { OnOk result (ended image self.old ≡ Ok self.new) }
        ensures refused { IfErr result (λ fault. fault ≢ Memory → ended image self.old ≡ Err fault) }
    {
        let settings = image.settings_or(self.settings);
        match image.next_begin(&settings) {
            None => Err(Fault::TooFar),
            Some(place) => {
                image.finish(settings, &mut self.images)?;
                self.place = place;
                self.image = None;
                self.line.planes.clear();
                Ok(())
            }
        }
    }
}

/// No part of a colour.
pub const NO_PARTS: Parts = Parts {
    first: 0,
    second: 0,
    third: 0,
};
