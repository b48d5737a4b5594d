//! From the bytes of a plot to its items, in either profile: in the profile full with escapes of HP RTL and PCL.
#![tactic(auto)]

mod full_items;
mod languages;
pub mod laws;
mod plot_items;
mod text;

pub use full_items::FullItems;
pub use plot_items::PlotItems;
