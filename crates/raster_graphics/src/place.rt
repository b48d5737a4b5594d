//! Places of the page.
ghost use Rattle.std.specs.Prelude.{◌≡◌, ◌≤◌, ◌<◌, ◌^◌, ℤ, pos, ◌≤ℤ◌, ◌<ℤ◌, ◌+ℤ◌};
ghost use Rattle.raster_graphics.specs.Places.{coordinate, distance, start_of, moved, density_of, after_change};

use crate::density::Density;
use exact::rounded;
use raster_requests::{Axis, PlaceChange, PlaceUnit};

/// How many grains (1/16 plotter unit) there are to the inch.
pub const GRAINS: u64 = 16_256;

/// How far a place may lie from the page's lower left corner each way, in grains: 8,388,607 plotter units.
pub const FARTHEST: i32 = 134_217_712;

/// A place of the page in grains, from its lower left corner. Rows run along y, and each next row lies further in x.
#[derive(Clone, Copy, PartialEq, Eq, Debug)]
pub struct Place {
    pub x: i32,
    pub y: i32,
}

// A coordinate, if it is in range.
fn coordinate(value: i64) -> Option<i32>
    ensures { result ≡ coordinate value }
{
    if value < -(FARTHEST as i64) || value > FARTHEST as i64 {
        return None;
    }
    Some(value as i32)
}

// How far a change goes, in grains.
fn distance(density: Density, millionths: i64) -> i128
    ensures { result ≡ distance density millionths }
{
    rounded(
        16_256 * millionths as i128,
        density.number() as i128 * 1_000_000,
    )
}

impl Place {
    /// Where a place is after a change, by a unit; none if that is out of range.
    pub fn after(self, change: PlaceChange, unit: Density) -> Option<Place>
        ensures { result ≡ after_change change unit self }
    {
        match change.axis {
            Axis::AcrossRows => Some(Place {
                x: moved(change, unit, self.x)?,
                ..self
            }),
            Axis::AlongRow => Some(Place {
                y: moved(change, unit, self.y)?,
                ..self
            }),
        }
    }
}

// A coordinate after a change, if it is in range.
fn moved(change: PlaceChange, unit: Density, from: i32) -> Option<i32>
    ensures { result ≡ coordinate (moved change unit from) }
{
    let by = distance(density_of(change.unit, unit), change.millionths);
    shifted(start_of(change, from), by)
}

// From where a change goes.
fn start_of(change: PlaceChange, from: i32) -> i32
    ensures { result ≡ start_of change from }
{
    if change.is_relative { from } else { 0 }
}

// A coordinate at a distance from another, if it is in range.
pub(crate) fn shifted(from: i32, by: i128) -> Option<i32>
    ensures { result ≡ coordinate (from +ℤ by) }
{
    if by < -(1 << 40) || by > 1 << 40 {
        return None;
    }
    coordinate(from as i64 + by as i64)
}

// The density of what a change counts.
fn density_of(counted: PlaceUnit, unit: Density) -> Density
    ensures { result ≡ density_of counted unit }
{
    match counted {
        PlaceUnit::Unit => unit,
        PlaceUnit::Decipoint => Density::new(720),
    }
}
