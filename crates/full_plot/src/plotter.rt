//! The plotter of the profile full.
ghost use Rattle.std.specs.Prelude.{◌^◌};
ghost use Rattle.directions.specs.Bounds.{IsWithin};
ghost use Rattle.full_plot.specs.Fillings.{IsFilling};

use crate::filling::Filling;
use crate::graphics::Graphics;
use crate::writing::Writing;
use areas::Area;
use character_sets::Encoding;
use exact::Spot;
use full_notes::Context;
use full_settings::{Characters, LineStyle};
use hpgl_plot::Plotter;
use line_types::Run;
use polygons::Buffer;
use std::alloc::Global;

/// Core's plotter, with what the profile full sets besides.
#[derive(Drop)]
pub struct FullPlotter {
    pub plotter: Plotter,
    /// What decides how the next item is read, and what is noted on it.
    pub context: Context,
    pub style: LineStyle,
    /// How far the pattern of a dashed line has gone, and where.
    pub run: Option<Run>,
    /// The widths of pens in millionths of a percent of the distance from P1 to P2; `None` for a pen whose
    /// width is in millimetres. While widths are in percent, core's widths are what these are in grains.
    pub percents: [Option<u32>; 256],
    /// How texts are read, whatever sets of characters the plot chooses.
    pub encoding: Encoding,
    /// The sets of characters and the fonts that the plot has chosen.
    pub characters: Characters,
    pub writing: Writing,
    /// The left margin of labels, a place on the page in grains.
    pub margin: Spot,
    /// How polygons are filled.
    pub filling: Filling,
    /// The polygons.
    pub buffer: Buffer,
    /// The work that counts besides strokes: the bytes of the texts that PB wrote, the places of the polygons
    /// that were filled or edged, and the lines of fills that gave no stroke.
    pub extra: u32,
    /// How many strokes there were when each sheet ended.
    pub ends: Vec<usize>,
    /// The areas that solid fills drew.
    pub areas: Vec<Area>,
    /// What escapes make.
    pub graphics: Graphics,
    pub alloc: Global,
    pub ghost margin_in: { IsWithin (2 ^ 96) margin },
    pub ghost filling_in: { IsFilling filling },
}
