//! Images that are done.
ghost use Rattle.std.specs.Prelude.{◌≡◌, List, [], ◌∷◌, ◌++◌, MatchOption, OnOk};
ghost use Rattle.raster_graphics.specs.declared.image.Image.{Image};

use crate::numbers::Numbers;
use crate::place::Place;
use crate::planes::Planes;
use crate::settings::Settings;
use std::alloc::{AllocError, Global};
use std::marker::Model;

/// An image: where it is, and the rows that were sent for it.
#[derive(Drop)]
pub struct Image {
    /// The corner at which its first row begins.
    pub corner: Place,
    /// What was set for it.
    pub settings: Settings,
    /// How many dots a row has.
    pub width: u64,
    /// The numbers of its rows, from 0 on; rows between them were not sent.
    pub numbers: Numbers,
    /// The planes of these rows, as many for each as the coding has.
    pub planes: Planes,
}

/// Images, in order.
#[derive(Drop)]
pub struct Images {
    images: Vec<Image>,
}

impl Model for Images {
    ghost Value = { List Image };

    ghost view = { λ i. i.images.items };
}

impl Images {
    /// None.
    pub fn new(alloc: Global) -> Self
        ensures { result ≡ [] }
    {
        Images {
            images: Vec::new(alloc),
        }
    }

    /// They as a slice.
    pub fn as_slice(&self) -> &[Image]
        ensures { result.now ≡ self.now }
    {
        self.images.as_slice()
    }

    /// Takes the first one out; none if there is none.
    pub fn take_first(&mut self) -> Option<Image>
        ensures { MatchOption result ((self.old ≡ []) × (self.new ≡ [])) (λ image. self.old ≡ image ∷ self.new) }
    {
        if self.images.is_empty() {
            None
        } else {
            Some(self.images.remove(0))
        }
    }

    /// One more.
    pub fn push(&mut self, image: Image) -> Result<(), AllocError>
        ensures { OnOk result (self.new ≡ self.old ++ image ∷ []) }
    {
        self.images.push(image)?;
        Ok(())
    }
}
