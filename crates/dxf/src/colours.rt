//! The numbers of colours.
ghost use Rattle.std.specs.Prelude.{◌≡◌, ◌≤◌, length};
ghost use Rattle.dxf.specs.Colours.{colour_number, distance, nearer, nearest_of, square_between};

use crate::palette::COLOURS;
use plot_page::Colour;

/// More than two colours may be apart.
pub(crate) const FARTHEST: u32 = 195_076;

/// The number of a colour, and how far it is from the one that is asked for.
#[derive(Clone, Copy)]
pub(crate) struct Nearest {
    pub(crate) number: u32,
    pub(crate) distance: u32,
}

// The number of the nearest colour, the least one of several that are as near.
pub(crate) fn colour_number(colour: Colour) -> u32
    ensures { result ≡ colour_number colour }
{
    nearest_of(colour, &COLOURS).number
}

// The nearest of colours that have the numbers from 1 on.
fn nearest_of(colour: Colour, colours: &[u32]) -> Nearest
    requires { length colours.now ≤ 255 }
    ensures { result ≡ nearest_of colour colours.now }
{
    let mut best = Nearest {
        number: 1,
        distance: FARTHEST,
    };
    let mut number = 1;
    for entry in colours {
        let next = Nearest {
            number,
            distance: distance(colour, *entry),
        };
        best = nearer(best, next);
        number += 1;
    }
    best
}

// The nearer of two numbers, the first one if neither is nearer.
fn nearer(best: Nearest, next: Nearest) -> Nearest
    ensures { result ≡ nearer best next }
{
    if next.distance < best.distance {
        next
    } else {
        best
    }
}

// The sum of the squares of the differences in red, green and blue.
fn distance(colour: Colour, entry: u32) -> u32
    ensures { result ≡ distance colour entry }
{
    square_between(colour.red, (entry / 65_536 % 256) as u8)
        + square_between(colour.green, (entry / 256 % 256) as u8)
        + square_between(colour.blue, (entry % 256) as u8)
}

// The square of the difference of two numbers.
fn square_between(one: u8, other: u8) -> u32
    ensures value { result ≡ square_between one other }
    ensures most { result ≤ 65025 }
{
    let difference = u32::from(one.max(other) - one.min(other));
    difference * difference
}
