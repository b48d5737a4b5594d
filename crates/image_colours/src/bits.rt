//! How many bits a number has.
ghost use Rattle.std.specs.Prelude.{◌≡◌, ◌<◌, ◌≤◌};
ghost use Rattle.image_colours.specs.Bits.{bits_of, bits_from, pixel_bits_of, pixel_bits_from};

/// 1 to 8 bits: of an index that has a plane for each of them, and of a part of a colour.
#[derive(Clone, Copy, PartialEq, Eq, Debug)]
pub enum Bits {
    One,
    Two,
    Three,
    Four,
    Five,
    Six,
    Seven,
    Eight,
}

impl Bits {
    /// This number of bits, if it is 1 to 8.
    pub fn from_number(number: u8) -> Option<Self>
        ensures { result ≡ bits_from number }
    {
        match number {
            1 => Some(Bits::One),
            2 => Some(Bits::Two),
            3 => Some(Bits::Three),
            4 => Some(Bits::Four),
            5 => Some(Bits::Five),
            6 => Some(Bits::Six),
            7 => Some(Bits::Seven),
            8 => Some(Bits::Eight),
            _ => None,
        }
    }

    /// How many they are.
    pub fn number(self) -> usize
        ensures value { result ≡ bits_of self }
        ensures some { 1 ≤ result }
        ensures few { result ≤ 8 }
    {
        match self {
            Bits::One => 1,
            Bits::Two => 2,
            Bits::Three => 3,
            Bits::Four => 4,
            Bits::Five => 5,
            Bits::Six => 6,
            Bits::Seven => 7,
            Bits::Eight => 8,
        }
    }
}

/// 1, 2, 4 or 8 bits: of an index whose bits are side by side in a byte.
#[derive(Clone, Copy, PartialEq, Eq, Debug)]
pub enum PixelBits {
    One,
    Two,
    Four,
    Eight,
}

impl PixelBits {
    /// This number of bits, if it is 1, 2, 4 or 8.
    pub fn from_number(number: u8) -> Option<Self>
        ensures { result ≡ pixel_bits_from number }
    {
        match number {
            1 => Some(PixelBits::One),
            2 => Some(PixelBits::Two),
            4 => Some(PixelBits::Four),
            8 => Some(PixelBits::Eight),
            _ => None,
        }
    }

    /// How many they are.
    pub fn number(self) -> usize
        ensures value { result ≡ pixel_bits_of self }
        ensures some { 1 ≤ result }
        ensures few { result ≤ 8 }
    {
        match self {
            PixelBits::One => 1,
            PixelBits::Two => 2,
            PixelBits::Four => 4,
            PixelBits::Eight => 8,
        }
    }
}
