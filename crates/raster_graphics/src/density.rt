//! How many dots there are to the inch.
ghost use Rattle.std.specs.Prelude.{◌≡◌, ◌≤◌, ◌<◌, ◌+◌, ◌*◌, ◌/◌, ◌^◌, ℕ};
ghost use Rattle.raster_graphics.specs.Places.{density_from, row_offset};
ghost use Rattle.raster_graphics.specs.declared.place.TheConstants.{GRAINS};

use crate::place::GRAINS;
use std::marker::Model;

/// Dots, or units of places, to the inch: 10 to 9600.
#[derive(Clone, Copy, PartialEq, Eq, Debug)]
pub struct Density {
    number: u32,
}

impl Model for Density {
    ghost Value = { ℕ };

    ghost view = { λ d. d.number };

    ghost inverse = { λ n. record { number = n } };

    ghost invariant = { λ d. (10 ≤ d.number) × (d.number ≤ 9600) };
}

impl Density {
    /// This number of dots to the inch.
    pub fn new(number: u32) -> Self
        requires some { 10 ≤ number }
        requires few { number ≤ 9600 }
        ensures { result ≡ number }
    {
        Density { number }
    }

    /// This number of dots to the inch, if it is 10 to 9600.
    pub fn from_number(number: u32) -> Option<Self>
        ensures { result ≡ density_from number }
    {
        if number < 10 || number > 9600 {
            return None;
        }
        Some(Density { number })
    }

    /// How many they are, 10 to 9600.
    pub fn number(self) -> u32
        ensures value { result ≡ self }
        ensures some { 10 ≤ result }
        ensures few { result ≤ 9600 }
    {
        self.number
    }

    // How far so many rows reach, in grains.
    pub(crate) fn row_offset(self, rows: u64) -> u64
        requires { rows ≤ 2 ^ 34 }
        ensures value { result ≡ row_offset self rows }
    {
        let density = self.number() as u64;
        (2 * GRAINS * rows + density) / (2 * density)
    }
}
