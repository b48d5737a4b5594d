//! Palettes.
ghost use Rattle.std.specs.Prelude.{◌≡◌, ◌≤◌, ◌<◌, length, IfOk, IfErr, OnOk, OnErr, true, false, List};
ghost use Rattle.std.specs.List.{slice_index_or};
ghost use Rattle.image_colours.specs.Palettes.{black, white, mixed, corner, of_two, of_four, of_more, of_index, starting, start};
ghost use Rattle.image_colours.specs.Palettes.{scaled, set_colour, has_entry, with_entry};
ghost use Rattle.plot_page.specs.declared.colour.Colour.{Colour};

use crate::bits::Bits;
use crate::coding::{Coding, Entries, Space};
use plot_page::Colour;
use std::marker::Model;
use thiserror::Error;

const BLACK: Colour = Colour {
    red: 0,
    green: 0,
    blue: 0,
};

const WHITE: Colour = Colour {
    red: 255,
    green: 255,
    blue: 255,
};

/// Three parts that an entry of a palette is set to, each 0 or more; its depth says which of them is all.
#[derive(Clone, Copy, PartialEq, Eq, Debug)]
pub struct Parts {
    pub first: u32,
    pub second: u32,
    pub third: u32,
}

/// A palette has no entry of this number.
#[derive(Clone, Copy, Debug, PartialEq, Eq, Drop, Error)]
#[error("no such entry of a palette")]
pub struct NoEntry;

/// The palette of an image: 256 colours, of which its coding uses the first.
#[derive(Clone, Copy)]
pub struct Palette {
    colours: [Colour; 256],
}

impl Model for Palette {
    ghost Value = { List Colour };

    ghost view = { λ p. p.colours };

    ghost inverse = { λ colours. record { colours = colours } };
}

impl Palette {
    /// The palette that a coding begins with.
    pub fn new(coding: Coding) -> Self
        ensures { result ≡ start coding }
    {
        let mut colours = [BLACK; 256];
        for index in 0..256 {
            colours[index] = starting(coding, index);
        }
        Palette { colours }
    }

    /// The colour of an index; black past the last entry.
    pub fn colour(&self, index: usize) -> Colour
        requires { index < 256 }
        ensures { result ≡ slice_index_or self.now index black }
    {
        self.colours[index]
    }

    /// Sets the entry of a number. Without an index into it a palette is fixed, and stays as it is. An error, after which it is
    /// as before, if the coding has no such entry.
    pub fn set(&mut self, coding: Coding, number: u32, parts: Parts) -> Result<(), NoEntry>
        ensures set { OnOk result (self.new ≡ with_entry coding number parts self.old) }
        ensures there { OnOk result (has_entry coding number ≡ true) }
        ensures none { OnErr result (has_entry coding number ≡ false) }
        ensures unchanged { OnErr result (self.new ≡ self.old) }
    {
        if number as usize >= coding.entry_count() {
            return Err(NoEntry);
        }
        match coding {
            Coding::IndexPlanes(_, entries) | Coding::IndexPixels(_, entries) => {
                self.colours[number as usize] = set_colour(entries, parts);
            }
            _ => {}
        }
        Ok(())
    }
}

// The colour of three parts, each 0 to 255.
pub(crate) fn mixed(space: Space, first: u8, second: u8, third: u8) -> Colour
    ensures { result ≡ mixed space first second third }
{
    match space {
        Space::Rgb => Colour {
            red: first,
            green: second,
            blue: third,
        },
        Space::Cmy => Colour {
            red: 255 - first,
            green: 255 - second,
            blue: 255 - third,
        },
    }
}

// A corner of the space, by its bits.
fn corner(space: Space, number: usize) -> Colour
    ensures { result ≡ corner space number }
{
    mixed(
        space,
        255 * (number % 2) as u8,
        255 * (number / 2 % 2) as u8,
        255 * (number / 4 % 2) as u8,
    )
}

// An entry at the start, by its coding.
fn starting(coding: Coding, number: usize) -> Colour
    ensures { result ≡ starting coding number }
{
    match coding {
        Coding::Black => of_two(number),
        Coding::BlackAndCmy if number % 2 == 1 => BLACK,
        Coding::BlackAndCmy => corner(Space::Cmy, number / 2),
        Coding::DirectPlanes(space) => of_more(space, number),
        Coding::IndexPlanes(bits, entries) => of_index(bits.number(), entries.space, number),
        Coding::IndexPixels(bits, entries) => of_index(bits.number(), entries.space, number),
        Coding::DirectPixels(_) => BLACK,
    }
}

// An entry of two.
fn of_two(number: usize) -> Colour
    ensures { result ≡ of_two number }
{
    if number == 0 { WHITE } else { BLACK }
}

// An entry of four.
fn of_four(space: Space, number: usize) -> Colour
    ensures { result ≡ of_four space number }
{
    if number == 3 {
        return corner(space, 7);
    }
    if number < 3 {
        return corner(space, number);
    }
    BLACK
}

// An entry of eight or more.
fn of_more(space: Space, number: usize) -> Colour
    ensures { result ≡ of_more space number }
{
    if number < 8 {
        corner(space, number)
    } else {
        BLACK
    }
}

// An entry of an index with so many bits.
fn of_index(bits: usize, space: Space, number: usize) -> Colour
    ensures { result ≡ of_index bits space number }
{
    match bits {
        1 => of_two(number),
        2 => of_four(space, number),
        _ => of_more(space, number),
    }
}

// A part of so many bits as 0 to 255, rounded.
fn scaled(bits: Bits, part: u32) -> u8
    ensures { result ≡ scaled bits part }
{
    let all = (1 << bits.number()) - 1;
    let rounded = (2 * 255 * part as u64 + all) / (2 * all);
    rounded.min(255) as u8
}

// The colour that an entry is set to.
fn set_colour(entries: Entries, parts: Parts) -> Colour
    ensures { result ≡ set_colour entries parts }
{
    mixed(
        entries.space,
        scaled(entries.depths.first, parts.first),
        scaled(entries.depths.second, parts.second),
        scaled(entries.depths.third, parts.third),
    )
}
