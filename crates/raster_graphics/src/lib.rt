//! The machine of HP RTL's raster graphics: what commands set, the rows that they send, and the images that these make.
#![tactic(auto)]

mod density;
mod dots;
mod fault;
mod image;
pub mod laws;
mod line;
mod machine;
mod numbers;
mod obeying;
mod open_image;
mod place;
mod planes;
mod sending;
mod settings;

pub use density::Density;
pub use fault::{Answer, Fault};
pub use image::{Image, Images};
pub use machine::{MOST_BYTES, Machine};
pub use numbers::Numbers;
pub use place::{FARTHEST, Place};
pub use planes::Planes;
pub use raster_requests::{
    Axis, Corner, ImageSetting, Language, PlaceChange, PlaceUnit, Places, Primary, Request,
};
pub use settings::Settings;
