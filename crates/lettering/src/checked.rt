//! Styles that are in range.
ghost use Rattle.std.specs.Prelude.{◌≡◌, ◌↔◌, IsSome, IfSome};
ghost use Rattle.lettering.specs.Bounds.{IsStyle};

use crate::style::Style;

// The most grains of a size, 2^40.
const MOST_SIZE: u64 = 0x100_0000_0000;

// The greatest slant, 1000.2.
const MOST_SLANT: u64 = 1_000_200_000;

// The greatest step, 101.
const MOST_STEP: u64 = 101_000_000;

/// A style whose numbers are in their ranges.
#[derive(Clone, Copy, Debug)]
pub struct Lettering {
    pub style: Style,
    pub ghost sound: { IsStyle style },
}

impl Lettering {
    /// The style, or `None` if one of its numbers is out of range.
    pub fn new(style: Style) -> Option<Lettering>
        ensures given { IsSome result ↔ IsStyle style }
        ensures value { IfSome result (λ lettering. lettering.style ≡ style) }
    {
        if style.width.unsigned_abs() > MOST_SIZE {
            return None;
        }
        if style.height.unsigned_abs() > MOST_SIZE {
            return None;
        }
        if style.slant.unsigned_abs() > MOST_SLANT {
            return None;
        }
        if style.step_x.unsigned_abs() > MOST_STEP {
            return None;
        }
        if style.step_y.unsigned_abs() > MOST_STEP {
            return None;
        }
        if style.origin > 19 {
            return None;
        }
        if style.origin % 10 == 0 {
            return None;
        }
        Some(Lettering { style })
    }
}
