//! An image for which rows come.
ghost use Rattle.std.specs.Prelude.{◌≡◌, ◌+◌, ◌^◌, ◌<◌, [], OnOk};
ghost use Rattle.raster_graphics.specs.Images.{opened, settings_of, settled, has_data, next_begin, width_of, is_beyond, is_far};
ghost use Rattle.raster_graphics.specs.Images.{with_row, moved_to, image_of, done_images};

use crate::image::{Image, Images};
use crate::numbers::Numbers;
use crate::place::{FARTHEST, GRAINS, Place, shifted};
use crate::planes::Planes;
use crate::settings::Settings;
use std::alloc::{AllocError, Global};

/// An image for which rows come.
#[derive(Drop)]
pub struct OpenImage {
    /// The corner at which its first row begins.
    pub corner: Place,
    /// The number of the row that comes next.
    pub next: u32,
    /// What holds for it, from its first data on.
    pub settings: Option<Settings>,
    /// The most bytes that a plane of its rows has.
    pub longest: u32,
    /// The numbers of the rows that were sent.
    pub numbers: Numbers,
    /// The planes of these rows.
    pub planes: Planes,
    /// The planes of the row before the next one, if it was sent.
    pub seeds: Planes,
}

impl OpenImage {
    /// One that begins at a corner.
    pub fn new(alloc: Global, corner: Place) -> Self
        ensures { result ≡ opened corner }
    {
        OpenImage {
            corner,
            next: 0,
            settings: None,
            longest: 0,
            numbers: Numbers::new(alloc),
            planes: Planes::new(alloc),
            seeds: Planes::new(alloc),
        }
    }

    /// What holds for it.
    pub fn settings_or(&self, now: Settings) -> Settings
        ensures { result ≡ settings_of self.now now }
    {
        match self.settings {
            None => now,
            Some(settings) => settings,
        }
    }

    /// Whether it has had data.
    pub fn has_data(&self) -> bool
        ensures { result ≡ has_data self.now }
    {
        self.settings.is_some()
    }

    /// Its first data come, unless they did.
    pub fn settle(&mut self, now: Settings)
        ensures { self.new ≡ settled now self.old }
    {
        let settings = self.settings_or(now);
        self.settings = Some(settings);
    }

    /// Where the next row would begin, if that is in range.
    pub fn next_begin(&self, settings: &Settings) -> Option<Place>
        ensures { result ≡ next_begin settings.now self.now }
    {
        let offset = settings.resolution.row_offset(self.next as u64);
        let x = shifted(self.corner.x, offset as i128)?;
        Some(Place { x, ..self.corner })
    }

    /// Whether the corner farthest from its first one is out of range.
    pub fn is_far(&self, settings: &Settings) -> bool
        ensures { result ≡ is_far settings.now self.now }
    {
        let resolution = settings.resolution.number();
        is_beyond(resolution, self.corner.x, self.next as u64)
            || is_beyond(resolution, self.corner.y, width_of(settings, self.longest))
    }

    /// One row more, of which the planes are taken.
    pub fn add(&mut self, alloc: Global, row: &mut Planes) -> Result<(), AllocError>
        requires { self.old.next + 1 < 2 ^ 32 }
        ensures row { OnOk result (self.new ≡ with_row row.old self.old) }
        ensures taken { OnOk result (row.new ≡ []) }
    {
        self.longest = self.longest.max(row.longest());
        self.numbers.push(self.next)?;
        self.planes.append(alloc, row)?;
        self.seeds = row.take(alloc);
        self.next += 1;
        Ok(())
    }

    /// Rows without dots up to a number.
    pub fn move_to(&mut self, next: u32)
        ensures { self.new ≡ moved_to next self.old }
    {
        self.next = next;
        self.seeds.clear();
    }

    /// The image, if it has a row.
    pub fn finish(self, settings: Settings, images: &mut Images) -> Result<(), AllocError>
        ensures { OnOk result (images.new ≡ done_images settings self images.old) }
    {
        if self.numbers.as_slice().is_empty() {
            return Ok(());
        }
        images.push(Image {
            corner: self.corner,
            settings,
            width: width_of(&settings, self.longest),
            numbers: self.numbers,
            planes: self.planes,
        })
    }
}

// The dots of a row.
fn width_of(settings: &Settings, bytes: u32) -> u64
    ensures value { result ≡ width_of settings.now bytes }
    ensures near { result < 2 ^ 36 }
{
    match settings.width {
        None => settings.coding.dots_in(bytes as usize) as u64,
        Some(width) => width as u64,
    }
}

// Whether so many dots from a coordinate on lie beyond the farthest place.
fn is_beyond(resolution: u32, from: i32, dots: u64) -> bool
    requires { dots < 2 ^ 36 }
    ensures { result ≡ is_beyond resolution from dots }
{
    let resolution = resolution as i128;
    let end = from as i128 * resolution + (GRAINS * dots) as i128;
    FARTHEST as i128 * resolution < end
}
