//! Planes of rows, one after another.
ghost use Rattle.std.specs.Prelude.{◌≡◌, ◌<◌, ◌≤◌, ℕ, List, [], ◌∷◌, ◌++◌, ◌^◌, length, map, IfOk, OnOk};
ghost use Rattle.std.specs.List.{All, slice_index_or};
ghost use Rattle.raster_graphics.specs.Lengths.{longest};

use std::alloc::{AllocError, Global};
use std::marker::Model;

/// Planes of rows, in order.
#[derive(Drop)]
pub struct Planes {
    planes: Vec<Vec<u8>>,
}

impl Model for Planes {
    ghost Value = { List (List ℕ) };

    ghost view = { λ p. map (λ plane. plane.items) p.planes.items };

    ghost invariant = { λ p. All (λ plane. length plane < 2 ^ 32) (map (λ plane. plane.items) p.planes.items) };
}

impl Planes {
    /// None.
    pub fn new(alloc: Global) -> Self
        ensures { result ≡ [] }
    {
        Planes {
            planes: Vec::new(alloc),
        }
    }

    /// How many they are.
    pub fn len(&self) -> usize
        ensures { result ≡ length self.now }
    {
        self.planes.len()
    }

    /// The plane of a number, from 0 on; empty past the last one.
    pub fn get(&self, number: usize) -> &[u8]
        ensures plane { result.now ≡ slice_index_or self.now number [] }
        ensures short { length result.now < 2 ^ 32 }
    {
        if number < self.planes.len() {
            self.planes[number].as_slice()
        } else {
            &[]
        }
    }

    /// One more, of less than 2^32 bytes.
    pub fn push(&mut self, plane: Vec<u8>) -> Result<(), AllocError>
        requires { length plane.items < 2 ^ 32 }
        ensures { OnOk result (self.new ≡ self.old ++ plane.items ∷ []) }
    {
        self.planes.push(plane)?;
        Ok(())
    }

    /// None again.
    pub fn clear(&mut self)
        ensures { self.new ≡ [] }
    {
        self.planes.clear();
    }

    /// All that others have, after these.
    pub fn append(&mut self, alloc: Global, others: &Planes) -> Result<(), AllocError>
        ensures { OnOk result (self.new ≡ self.old ++ others.now) }
    {
        for number in 0..others.len() {
            self.push(copied(alloc, others.get(number))?)?;
        }
        Ok(())
    }

    /// The most bytes that one of them has.
    pub fn longest(&self) -> u32
        ensures { result ≡ longest self.now }
    {
        let mut most = 0;
        for number in 0..self.len() {
            most = most.max(self.get(number).len() as u32);
        }
        most
    }

    /// They, and none are left.
    pub fn take(&mut self, alloc: Global) -> Planes
        ensures taken { result ≡ self.old }
        ensures none { self.new ≡ [] }
    {
        std::mem::replace(self, Planes::new(alloc))
    }
}

/// A copy of bytes.
pub fn copied(alloc: Global, bytes: &[u8]) -> Result<Vec<u8>, AllocError>
    ensures { IfOk result (λ copy. copy.items ≡ bytes.now) }
{
    let mut copy = Vec::new(alloc);
    copy.extend_from_slice(bytes)?;
    Ok(copy)
}
