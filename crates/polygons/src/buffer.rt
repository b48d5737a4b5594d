//! The polygon buffer.
ghost use Rattle.std.specs.Prelude.{◌≡◌, ◌↔◌, ◌<◌, ◌^◌, IsTrue, IsSome, OnOk, OnErr};
ghost use Rattle.polygons.specs.Buffers.{empty_buffer, begun_at, reached_at, closed};

use crate::edge::Edge;
use crate::place::Place;
use std::alloc::{AllocError, Global};
use std::marker::Model;

/// A sub-polygon that is not closed yet.
#[derive(Clone, Copy, Debug)]
pub struct Opened {
    pub first: Place,
    pub last: Place,
    /// Whether it has only one place so far.
    pub is_alone: bool,
}

/// The polygon buffer: closed sub-polygons, and at most one that is open. It keeps 20 bytes for each
/// edge.
#[derive(Drop)]
pub struct Buffer {
    edges: Vec<Edge>,
    places: usize,
    opened: Option<Opened>,
}

impl Model for Buffer {
    ghost use Rattle.polygons.specs.Buffers.{Contents};

    ghost Value = { Contents };

    ghost use Rattle.polygons.specs.Held.{IsHeld};

    ghost view = { λ b. record { edges = b.edges.items; places = b.places; opened = b.opened } };

    ghost invariant = { IsHeld };
}

impl Buffer {
    /// An empty buffer.
    pub fn new(alloc: Global) -> Buffer
        ensures { result ≡ empty_buffer }
    {
        Buffer {
            edges: Vec::new(alloc),
            places: 0,
            opened: None,
        }
    }

    /// Empties the buffer.
    pub fn clear(&mut self)
        ensures { self.new ≡ empty_buffer }
    {
        self.edges.clear();
        self.places = 0;
        self.opened = None;
    }

    /// Opens a sub-polygon at a place, unless one is open.
    pub fn open(&mut self, place: Place)
        ensures { self.new ≡ begun_at self.old place }
    {
        if self.opened.is_none() {
            self.opened = Some(Opened {
                first: place,
                last: place,
                is_alone: true,
            });
            self.places += 1;
        }
    }

    /// Adds a place to the open sub-polygon, and the edge to it; `is_drawn` says whether the outline is
    /// drawn there. If no sub-polygon is open, one is opened at the place.
    ///
    /// Errors: `AllocError` if memory runs out; the buffer is as it was then.
    pub fn reach(&mut self, place: Place, is_drawn: bool) -> Result<(), AllocError>
        ensures reached { OnOk result (self.new ≡ reached_at self.old place is_drawn) }
        ensures unchanged { OnErr result (self.new ≡ self.old) }
    {
        let Some(opened) = self.opened else {
            self.open(place);
            return Ok(());
        };
        self.edges.push(Edge {
            from: opened.last,
            to: place,
            is_drawn,
        })?;
        self.places += 1;
        self.opened = Some(Opened {
            first: opened.first,
            last: place,
            is_alone: false,
        });
        Ok(())
    }

    /// Closes the open sub-polygon, if there is one; one of a single place is dropped. `is_drawn` says
    /// whether the outline is drawn on the edge from the last place to the first. There is none if these
    /// are the same.
    ///
    /// Errors: `AllocError` if memory runs out; the buffer is as it was then.
    pub fn close(&mut self, is_drawn: bool) -> Result<(), AllocError>
        ensures closed { OnOk result (self.new ≡ closed self.old is_drawn) }
        ensures unchanged { OnErr result (self.new ≡ self.old) }
    {
        let Some(opened) = self.opened else {
            return Ok(());
        };
        if opened.is_alone {
            self.places -= 1;
        } else if opened.last != opened.first {
            self.edges.push(Edge {
                from: opened.last,
                to: opened.first,
                is_drawn,
            })?;
        }
        self.opened = None;
        Ok(())
    }

    /// How many places the buffer holds, those of the open sub-polygon too.
    pub fn places(&self) -> usize
        ensures { result ≡ self.now.places }
    {
        self.places
    }

    /// The edges of all sub-polygons, in order; the closing edge is the last of its sub-polygon.
    pub fn edges(&self) -> &[Edge]
        ensures { result.now ≡ self.now.edges }
    {
        self.edges.as_slice()
    }

    /// Whether a sub-polygon is open.
    pub fn is_open(&self) -> bool
        ensures { IsTrue result ↔ IsSome self.now.opened }
    {
        self.opened.is_some()
    }
}
