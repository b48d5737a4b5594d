//! The numbers of the rows that are sent.
ghost use Rattle.std.specs.Prelude.{◌≡◌, ℕ, ◌<◌, ◌^◌, List, [], ◌∷◌, ◌++◌, OnOk, IfSome};
ghost use Rattle.raster_graphics.specs.Positions.{Ascends};
ghost use Rattle.raster_graphics.specs.Positions.{position_of};

use std::alloc::{AllocError, Global};
use std::marker::Model;

/// Numbers of rows, in order.
#[derive(Drop)]
pub struct Numbers {
    numbers: Vec<u32>,
}

impl Model for Numbers {
    ghost Value = { List ℕ };

    ghost view = { λ n. n.numbers.items };
}

impl Numbers {
    /// None.
    pub fn new(alloc: Global) -> Self
        ensures { result ≡ [] }
    {
        Numbers {
            numbers: Vec::new(alloc),
        }
    }

    /// They as a slice.
    pub fn as_slice(&self) -> &[u32]
        ensures { result.now ≡ self.now }
    {
        self.numbers.as_slice()
    }

    /// One more.
    pub fn push(&mut self, number: u32) -> Result<(), AllocError>
        ensures { OnOk result (self.new ≡ self.old ++ number ∷ []) }
    {
        self.numbers.push(number)?;
        Ok(())
    }

    /// Where a number is among them, if they ascend. Rows are mostly sent without gaps, so it is tried first at its own place.
    pub fn find(&self, row: u32) -> Option<usize>
        requires { Ascends self.now }
        ensures value { result ≡ position_of row self.now }
        ensures near { IfSome result (λ position. position < 2 ^ 61) }
    {
        let numbers = self.numbers.as_slice();
        let place = row as usize;
        if place < numbers.len() && numbers[place] == row {
            return Some(place);
        }
        match numbers.binary_search(&row) {
            Ok(position) => Some(position),
            Err(_) => None,
        }
    }

    /// Where a number is among them.
    pub fn position_of(&self, row: u32) -> Option<usize>
        ensures value { result ≡ position_of row self.now }
        ensures near { IfSome result (λ position. position < 2 ^ 61) }
    {
        let numbers = self.numbers.as_slice();
        for (position, number) in numbers.iter().enumerate() {
            if *number == row {
                return Some(position);
            }
        }
        None
    }
}
