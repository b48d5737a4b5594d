//! How the dots of an image are coded, and what follows for its planes.
ghost use Rattle.std.specs.Prelude.{◌≡◌, ◌≤◌, ◌^◌};
ghost use Rattle.image_colours.specs.Counts.{plane_count, dot_bits, plane_bytes, dots_in, entry_count};

use crate::bits::{Bits, PixelBits};

/// What the parts of a colour are.
#[derive(Clone, Copy, PartialEq, Eq, Debug)]
pub enum Space {
    /// Red, green and blue: light.
    Rgb,
    /// Cyan, magenta and yellow: ink. The colour is white less its parts.
    Cmy,
}

/// How many bits the parts have that an entry of a palette is set to.
#[derive(Clone, Copy, PartialEq, Eq, Debug)]
pub struct Depths {
    pub first: Bits,
    pub second: Bits,
    pub third: Bits,
}

/// What the entries of a palette are set to: parts in a space, of these bits.
#[derive(Clone, Copy, PartialEq, Eq, Debug)]
pub struct Entries {
    pub space: Space,
    pub depths: Depths,
}

/// How the dots of an image are coded: HP RTL, "Simple Color" and "Configure Image Data".
#[derive(Clone, Copy, PartialEq, Eq, Debug)]
pub enum Coding {
    /// One plane: black or white.
    Black,
    /// Four planes: black, cyan, magenta and yellow, each there or not.
    BlackAndCmy,
    /// Three planes: the parts of the colour, each there or not.
    DirectPlanes(Space),
    /// A plane for each bit of an index into a palette.
    IndexPlanes(Bits, Entries),
    /// One plane, with an index into a palette after another.
    IndexPixels(PixelBits, Entries),
    /// One plane, with three bytes after others, the parts of the colour.
    DirectPixels(Space),
}

impl Coding {
    /// How many planes a row has, 1 to 8.
    pub fn plane_count(self) -> usize
        ensures value { result ≡ plane_count self }
        ensures some { 1 ≤ result }
        ensures few { result ≤ 8 }
    {
        match self {
            Coding::Black | Coding::IndexPixels(..) | Coding::DirectPixels(_) => 1,
            Coding::BlackAndCmy => 4,
            Coding::DirectPlanes(_) => 3,
            Coding::IndexPlanes(bits, _) => bits.number(),
        }
    }

    /// How many bits a dot has in a plane, 1 to 24.
    pub fn dot_bits(self) -> usize
        ensures value { result ≡ dot_bits self }
        ensures some { 1 ≤ result }
        ensures few { result ≤ 24 }
    {
        match self {
            Coding::Black
            | Coding::BlackAndCmy
            | Coding::DirectPlanes(_)
            | Coding::IndexPlanes(..) => 1,
            Coding::IndexPixels(bits, _) => bits.number(),
            Coding::DirectPixels(_) => 24,
        }
    }

    /// How many bytes a plane takes for a width in dots.
    pub fn plane_bytes(self, width: u32) -> usize
        ensures { result ≡ plane_bytes self width }
    {
        (width as usize * self.dot_bits()).div_ceil(8)
    }

    /// How many whole dots the bytes of a plane have.
    pub fn dots_in(self, bytes: usize) -> usize
        requires { bytes ≤ 2 ^ 60 }
        ensures { result ≡ dots_in self bytes }
    {
        bytes * 8 / self.dot_bits()
    }

    /// How many entries its palette has, up to 256: none if the dots are coded by their colours themselves.
    pub fn entry_count(self) -> usize
        ensures value { result ≡ entry_count self }
        ensures few { result ≤ 256 }
    {
        match self {
            Coding::Black => 2,
            Coding::BlackAndCmy => 16,
            Coding::DirectPlanes(_) => 8,
            Coding::IndexPlanes(bits, _) => 1 << bits.number(),
            Coding::IndexPixels(bits, _) => 1 << bits.number(),
            Coding::DirectPixels(_) => 0,
        }
    }
}
