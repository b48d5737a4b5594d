//! The number of one pen.
ghost use Rattle.std.specs.Prelude.{◌≡◌, IfSome, is_some};
ghost use Rattle.pen_list.specs.Lists.{is_pen, number};

/// The most digits that a pen's number is written with.
pub(crate) const MOST_DIGITS: usize = 3;

/// The greatest pen.
pub(crate) const GREATEST_PEN: u16 = 255;

// The pen that digits write.
pub(crate) fn read_pen(digits: &[u8]) -> Option<u8>
    ensures found { is_some result ≡ is_pen digits.now }
    ensures value { IfSome result (λ pen. pen ≡ number digits.now) }
{
    if digits.len() > MOST_DIGITS {
        return None;
    }
    let mut pen: u16 = 0;
    for digit in digits {
        if !digit.is_ascii_digit() {
            return None;
        }
        pen = 10 * pen + u16::from(*digit - b'0');
    }
    if pen == 0 || pen > GREATEST_PEN {
        return None;
    }
    Some(pen as u8)
}
