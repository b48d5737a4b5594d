//! Colours of raster images within a plot: how HP RTL codes the dots of an image, its palettes, and the colour of each dot.
#![tactic(auto)]

mod bits;
mod coding;
mod configuration;
mod dot;
pub mod laws;
mod palette;

pub use bits::{Bits, PixelBits};
pub use coding::{Coding, Depths, Entries, Space};
pub use configuration::{configured, simple};
pub use dot::colour_of;
pub use palette::{NoEntry, Palette, Parts};
pub use plot_page::Colour;
