//! The places that the pen reaches on arcs through three places and on Bezier curves. Places are in
//! grains.
#![tactic(auto)]

mod arcs;
mod beziers;
mod centre;
mod circle;
pub mod laws;
mod vectors;

pub use arcs::arc_places;
pub use beziers::bezier_places;
