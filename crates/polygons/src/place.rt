//! Places.
ghost use Rattle.std.specs.Prelude.{◌≡◌, ◌≤◌, ◌^◌, nat_abs};
ghost use Rattle.polygons.specs.Bounds.{IsPlace};

use exact::Spot;
use std::marker::Model;

/// A place in grains of 1/16 plotter unit, within 2^27 of 0 in x and in y. It takes 8 bytes.
#[derive(Clone, Copy, Debug, PartialEq, Eq)]
pub struct Place {
    x: i32,
    y: i32,
}

impl Model for Place {
    ghost use Rattle.exact.specs.declared.spot.Spot.{Spot};
    ghost use Rattle.polygons.specs.Bounds.{IsPlace};

    ghost Value = { Spot };

    ghost view = { λ p. record { x = p.x; y = p.y } };

    ghost invariant = { λ p. IsPlace (record { x = p.x; y = p.y }) };

    ghost inverse = { λ v. record { x = v.x; y = v.y } };
}

impl Place {
    /// The place at these coordinates.
    pub fn new(spot: Spot) -> Place
        requires { IsPlace spot }
        ensures { result ≡ spot }
    {
        Place {
            x: spot.x as i32,
            y: spot.y as i32,
        }
    }

    /// Its coordinates.
    pub fn spot(self) -> Spot
        ensures value { result ≡ self }
        ensures within { IsPlace result }
    {
        Spot {
            x: i128::from(self.x),
            y: i128::from(self.y),
        }
    }

    // Its coordinates as numbers of 64 bits.
    pub(crate) fn x(self) -> i64
        ensures value { result ≡ self.x }
        ensures most { nat_abs result ≤ 2 ^ 27 }
    {
        i64::from(self.x)
    }

    pub(crate) fn y(self) -> i64
        ensures value { result ≡ self.y }
        ensures most { nat_abs result ≤ 2 ^ 27 }
    {
        i64::from(self.y)
    }
}
