//! Which coding a command asks for.
ghost use Rattle.std.specs.Prelude.{◌≡◌};
ghost use Rattle.image_colours.specs.Codings.{simple, space_from, depths_from, are_all, encoded, configured};

use crate::bits::{Bits, PixelBits};
use crate::coding::{Coding, Depths, Entries, Space};

/// The coding of a number of Simple Color: 1 or -1 black, 3 red, green and blue, -3 cyan, magenta and yellow, -4 with black
/// before them. None for any other.
pub fn simple(number: i64) -> Option<Coding>
    ensures { result ≡ simple number }
{
    match number {
        1 | -1 => Some(Coding::Black),
        3 => Some(Coding::DirectPlanes(Space::Rgb)),
        -3 => Some(Coding::DirectPlanes(Space::Cmy)),
        -4 => Some(Coding::BlackAndCmy),
        _ => None,
    }
}

/// The coding of the bytes of Configure Image Data: the space (0 or 1), the encoding (0 to 3), the bits of an index, and those of
/// three parts of a colour. Bytes after them say nothing. None if they are fewer, or if one is not allowed.
pub fn configured(bytes: &[u8]) -> Option<Coding>
    ensures { result ≡ configured bytes.now }
{
    if bytes.len() < 6 {
        return None;
    }
    let space = space_from(bytes[0])?;
    encoded(space, bytes[1], bytes[2], bytes[3], bytes[4], bytes[5])
}

// A space by its number.
fn space_from(number: u8) -> Option<Space>
    ensures { result ≡ space_from number }
{
    match number {
        0 => Some(Space::Rgb),
        1 => Some(Space::Cmy),
        _ => None,
    }
}

// Three numbers of bits.
fn depths_from(first: u8, second: u8, third: u8) -> Option<Depths>
    ensures { result ≡ depths_from first second third }
{
    match (
        Bits::from_number(first),
        Bits::from_number(second),
        Bits::from_number(third),
    ) {
        (Some(first), Some(second), Some(third)) => Some(Depths {
            first,
            second,
            third,
        }),
        _ => None,
    }
}

// Whether three parts have as many bits as this.
fn are_all(bits: u8, first: u8, second: u8, third: u8) -> bool
    ensures { result ≡ are_all bits first second third }
{
    first == bits && second == bits && third == bits
}

// The coding of an encoding in a space.
fn encoded(space: Space, encoding: u8, bits: u8, first: u8, second: u8, third: u8) -> Option<Coding>
    ensures { result ≡ encoded space encoding bits first second third }
{
    match encoding {
        0 => {
            let depths = depths_from(first, second, third)?;
            let bits = Bits::from_number(bits)?;
            Some(Coding::IndexPlanes(bits, Entries { space, depths }))
        }
        1 => {
            let depths = depths_from(first, second, third)?;
            let bits = PixelBits::from_number(bits)?;
            Some(Coding::IndexPixels(bits, Entries { space, depths }))
        }
        2 if are_all(1, first, second, third) => Some(Coding::DirectPlanes(space)),
        3 if are_all(8, first, second, third) => Some(Coding::DirectPixels(space)),
        _ => None,
    }
}
