//! Thousandths after a point.
ghost use Rattle.std.specs.Prelude.{◌≡◌, ◌<◌, ◌≤◌};

use crate::digits::{digit, fraction_size};

/// Some thousandths, fewer than 1,000, as text: a point and digits, without zeros at the end; nothing if there are none.
#[derive(Clone, Copy)]
pub struct Fraction {
    bytes: [u8; 4],
    used: usize,
    ghost within: { used ≤ 4 },
}

impl Fraction {
    ghost use Rattle.pieces.specs.Fractions.{fraction, text_of};

    /// The text of so many thousandths.
    pub fn new(thousandths: u32) -> Fraction
        requires { thousandths < 1000 }
        ensures { text_of result ≡ fraction thousandths }
    {
        Fraction {
            bytes: [
                b'.',
                digit(thousandths / 100),
                digit(thousandths / 10 % 10),
                digit(thousandths % 10),
            ],
            used: fraction_size(thousandths),
        }
    }

    /// The text.
    pub fn as_bytes(&self) -> &[u8]
        ensures { result.now ≡ text_of self.now }
    {
        &self.bytes[..self.used]
    }
}
