//! What commands ask of the place of HP RTL, and of the language that is read.
ghost use Rattle.std.specs.Prelude.{◌≡◌, ◌<◌, nat_abs};
ghost use Rattle.escapes.specs.Commands.{value_limit};
ghost use Rattle.escapes.specs.Views.{said};
ghost use Rattle.raster_requests.specs.Places.{is_relative, place_change, places_of};

use crate::value::signed_value;
use escapes::{Command, Sign};

/// A change of RTL's place.
#[derive(Clone, Copy, PartialEq, Eq, Debug)]
pub struct PlaceChange {
    /// Which coordinate is changed.
    pub axis: Axis,
    /// What the value counts.
    pub unit: PlaceUnit,
    /// Whether the value is added to the coordinate, as one with a sign is. Otherwise it is the coordinate.
    pub is_relative: bool,
    /// The value, in millionths, as it is written.
    pub millionths: i64,
}

/// A coordinate of RTL's place.
#[derive(Clone, Copy, PartialEq, Eq, Debug)]
pub enum Axis {
    /// `*p` X and `&a` H: along a row.
    AlongRow,
    /// `*p` Y and `&a` V: from row to row.
    AcrossRows,
}

/// The unit of a change of RTL's place.
#[derive(Clone, Copy, PartialEq, Eq, Debug)]
pub enum PlaceUnit {
    /// `*p`: the unit that `&u` D sets.
    Unit,
    /// `&a`: 1/720 inch.
    Decipoint,
}

/// A language of a plot.
#[derive(Clone, Copy, PartialEq, Eq, Debug)]
pub enum Language {
    /// HP RTL: only escapes and form feeds are read.
    Rtl,
    /// HP-GL/2: instructions are read, too.
    Hpgl2,
}

/// What a change of the language does to the pen and to RTL's place.
#[derive(Clone, Copy, PartialEq, Eq, Debug)]
pub enum Places {
    /// Both are kept.
    Kept,
    /// 1: the place in the new language is that in the old one.
    Carried,
}

/// The change of RTL's place that a command asks for.
pub fn place_change(axis: Axis, unit: PlaceUnit, command: &Command<'_>) -> PlaceChange
    ensures value { result ≡ place_change axis unit (said command.now) }
    ensures range { nat_abs result.millionths < value_limit }
{
    PlaceChange {
        axis,
        unit,
        is_relative: is_relative(command.sign),
        millionths: signed_value(command),
    }
}

fn is_relative(sign: Sign) -> bool
    ensures { result ≡ is_relative sign }
{
    match sign {
        Sign::Unsigned => false,
        Sign::Plus | Sign::Minus => true,
    }
}

/// What a change of the language with this number does to places.
pub fn places_of(number: i64) -> Places
    ensures { result ≡ places_of number }
{
    if number == 1 {
        Places::Carried
    } else {
        Places::Kept
    }
}
