//! What is set for the next image.
ghost use Rattle.std.specs.Prelude.{◌≡◌, ◌≤◌, ◌<◌, ◌^◌};
ghost use Rattle.raster_graphics.specs.Settings.{start_settings, coding_of, is_opaque, coded};
ghost use Rattle.raster_graphics.specs.Settings.{with_setting, plane_size, is_past, advanced};

use crate::density::Density;
use image_colours::{Coding, Palette, Space, configured};
use image_rows::RowLength;
use raster_requests::{Coding as SimpleColour, ImageSetting, Transparency};

/// What is set for an image.
#[derive(Clone, Copy)]
pub struct Settings {
    /// Dots to the inch.
    pub resolution: Density,
    /// Its width in dots, if it is given.
    pub width: Option<u32>,
    /// How many rows it may have, if that is given.
    pub height: Option<u32>,
    /// How its dots are coded.
    pub coding: Coding,
    /// The colours of an index.
    pub palette: Palette,
    /// White dots cover what is under them.
    pub is_opaque: bool,
}

impl Settings {
    /// What is set at the start: 300 dots to the inch, no width and no height, black, and transparent white.
    pub fn start() -> Self
        ensures { result ≡ start_settings }
    {
        Settings {
            resolution: Density::new(300),
            width: None,
            height: None,
            coding: Coding::Black,
            palette: Palette::new(Coding::Black),
            is_opaque: false,
        }
    }

    /// The same with a setting, which may have data; none if it asks for what is not allowed.
    pub fn with(self, setting: ImageSetting, input: &[u8]) -> Option<Self>
        ensures { result ≡ with_setting setting input.now self }
    {
        match setting {
            ImageSetting::Resolution(number) => {
                let resolution = Density::from_number(number)?;
                Some(Settings { resolution, ..self })
            }
            ImageSetting::Width(width) => Some(Settings { width, ..self }),
            ImageSetting::Height(height) => Some(Settings { height, ..self }),
            ImageSetting::Coding(colour) => Some(self.coded(coding_of(colour))),
            ImageSetting::Configuration => Some(self.coded(configured(input)?)),
            ImageSetting::Transparency(transparency) => Some(Settings {
                is_opaque: is_opaque(transparency),
                ..self
            }),
            ImageSetting::OutOfRange => None,
        }
    }

    // The same with a coding, and its palette.
    fn coded(self, coding: Coding) -> Self
        ensures { result ≡ coded self coding }
    {
        Settings {
            coding,
            palette: Palette::new(coding),
            ..self
        }
    }

    // How many bytes a plane of a row has, if there is room for so many.
    pub(crate) fn plane_size(&self, room: usize) -> RowLength
        ensures { result ≡ plane_size self.now room }
    {
        match self.width {
            None => RowLength::UpTo(room),
            Some(width) => RowLength::Fixed(self.coding.plane_bytes(width)),
        }
    }

    // Whether a row lies beyond the height.
    pub(crate) fn is_past(&self, row: u32) -> bool
        ensures { result ≡ is_past self.now row }
    {
        match self.height {
            None => false,
            Some(height) => height <= row,
        }
    }

    // The row after so many others.
    pub(crate) fn advanced(&self, row: u32, rows: u32) -> u64
        ensures value { result ≡ advanced self.now row rows }
        ensures near { result < 2 ^ 33 }
    {
        let next = row as u64 + rows as u64;
        match self.height {
            None => next,
            Some(height) => next.min(height as u64).max(row as u64),
        }
    }
}

// The coding of a number of Simple Color.
fn coding_of(colour: SimpleColour) -> Coding
    ensures { result ≡ coding_of colour }
{
    match colour {
        SimpleColour::Black => Coding::Black,
        SimpleColour::RedGreenBlue => Coding::DirectPlanes(Space::Rgb),
        SimpleColour::CyanMagentaYellow => Coding::DirectPlanes(Space::Cmy),
        SimpleColour::BlackCyanMagentaYellow => Coding::BlackAndCmy,
    }
}

// Whether white dots hide what is below them.
fn is_opaque(transparency: Transparency) -> bool
    ensures { result ≡ is_opaque transparency }
{
    match transparency {
        Transparency::Transparent => false,
        Transparency::Opaque => true,
    }
}
