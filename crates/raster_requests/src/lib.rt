//! What escapes within a plot ask of a raster image, and of the place of HP RTL.
#![tactic(auto)]

mod image;
pub mod laws;
mod place;
mod request;
mod value;

pub use image::{Coding, Corner, GREATEST_WIDTH, ImageSetting, Primary, Transparency};
pub use place::{Axis, Language, PlaceChange, PlaceUnit, Places};
pub use request::Request;
