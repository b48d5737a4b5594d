//! Painting what a job's picture shows, and writing it as a PNG.
ghost use Rattle.std.specs.Prelude.{◌≡◌, ◌+◌, ◌-◌, ◌^◌, ◌<◌, ◌≤◌, length, IfErr, false, true};
ghost use Rattle.plot_page.specs.declared.stroke.TheConstants.{MOST_STROKES};
ghost use Rattle.plot_page.specs.Resolutions.{rows_of};
ghost use Rattle.png.specs.declared.header.Depth.{Depth};
ghost use Rattle.png.specs.Headers.{bits_of_depth};
ghost use Rattle.areas.specs.Views.{shapes_in};
ghost use Rattle.rows.specs.Contents.{contents_in, plain};
ghost use Rattle.rows.specs.Faults.{is_write};
ghost use Rattle.rows.specs.Documents.{HasPaintedPng, is_png_possible, picture_shown, picture_with, png_boxes};
ghost use Rattle.rows.specs.Layouts.{AreBits, plain_boxes, plain_row};
ghost use Rattle.rows.specs.Palettes.{AreNumbers, colours_used};
ghost use Rattle.rows.specs.Watching.{IsTold};

use crate::bit_numbers::are_bits;
use crate::cell_bands::CellBands;
use crate::contents::Contents;
use crate::encoding::{encode, header_of};
use crate::fault::PictureFault;
use crate::image_png::paint_png_with_images;
use crate::number_bands::{NumberBands, Numbered};
use crate::palette::{MOST_COLOURS, Palette, palette_of};
use crate::possible::is_smoothed;
use crate::scene::Scene;
use crate::smooth_picture::paint_smoothed;
use crate::watcher::Watcher;
use areas::Shapes;
use devices::Sink;
use picture_job::PngJob;
use picture_out::Form;
use png::{Depth, Layout};
use std::alloc::Global;
use stroke_raster::{Gauge, Inker};

/// Paints a job's shapes and images and writes its picture as a PNG: without images with a palette if it has colours for all,
/// else with the colour of each pixel; a smoothed one in shades of grey if its strokes have no other colours. The watcher is
/// told after each band how many rows are written.
///
/// Errors: `Unfinished` if the sink fails; what it has taken is of no use. `Memory` comes when memory is refused, and then
/// the sink has taken nothing.
pub fn paint_png<G: Gauge, K: Sink, W: Watcher>(
    alloc: Global,
    job: &PngJob,
    contents: Contents<'_>,
    gauge: &mut G,
    sink: K,
    watcher: &mut W,
) -> (K, Result<(), PictureFault>)
    requires possible { is_png_possible job.now ≡ true }
    requires few { length contents.shapes.strokes.now ≤ MOST_STROKES }
    requires sinking { (K.state sink).faults < 2 ^ 64 - 1 }
    ensures paints { HasPaintedPng (picture_shown job.now (G.reaches gauge.old) (contents_in contents.entry))
        (K.state sink) (K.state result.0) result.1 }
    ensures tests { G.count gauge.new ≤ G.count gauge.old + png_boxes job.now contents.entry.shapes.strokes.now }
    ensures same { G.reaches gauge.new ≡ G.reaches gauge.old }
    ensures told { IsTold is_write W.hears (rows_of job.now.page job.now.dots) watcher.old watcher.new result.1 }
    ensures untouched { IfErr result.1 (λ fault. is_write fault ≡ false → result.0 ≡ sink) }
{
    if contents.images.list.is_empty() {
        paint_shapes(alloc, job, contents.shapes, gauge, sink, watcher)
    } else {
        paint_png_with_images(alloc, job, contents, gauge, sink, watcher)
    }
}

// The same of shapes without images.
fn paint_shapes<G: Gauge, K: Sink, W: Watcher>(
    alloc: Global,
    job: &PngJob,
    shapes: Shapes<'_>,
    gauge: &mut G,
    sink: K,
    watcher: &mut W,
) -> (K, Result<(), PictureFault>)
    requires possible { is_png_possible job.now ≡ true }
    requires few { length shapes.strokes.now ≤ MOST_STROKES }
    requires sinking { (K.state sink).faults < 2 ^ 64 - 1 }
    ensures paints { HasPaintedPng (picture_shown job.now (G.reaches gauge.old) (plain (shapes_in shapes.entry)))
        (K.state sink) (K.state result.0) result.1 }
    ensures tests { G.count gauge.new ≤ G.count gauge.old + png_boxes job.now shapes.entry.strokes.now }
    ensures same { G.reaches gauge.new ≡ G.reaches gauge.old }
    ensures told { IsTold is_write W.hears (rows_of job.now.page job.now.dots) watcher.old watcher.new result.1 }
    ensures untouched { IfErr result.1 (λ fault. is_write fault ≡ false → result.0 ≡ sink) }
{
    let scene = Scene {
        shapes,
        page: job.page,
        dots: job.dots,
        pens: job.pens,
    };
    if is_smoothed(Form::Ppm, job.smoothing) {
        return paint_smoothed(alloc, scene, job.smoothing, gauge, sink, watcher);
    }
    paint_plain(alloc, scene, gauge, sink, watcher)
}

// The same of a picture that is not smoothed.
#[tactic(auto, using(crate::proofs::Watched::not_told))]
fn paint_plain<G: Gauge, K: Sink, W: Watcher>(
    alloc: Global,
    scene: Scene<'_>,
    gauge: &mut G,
    sink: K,
    watcher: &mut W,
) -> (K, Result<(), PictureFault>)
    requires sinking { (K.state sink).faults < 2 ^ 64 - 1 }
    ensures paints { HasPaintedPng (picture_with scene.entry.page scene.entry.dots (plain_row scene.entry (G.reaches gauge.old)))
        (K.state sink) (K.state result.0) result.1 }
    ensures tests { G.count gauge.new ≤ G.count gauge.old + plain_boxes scene.entry }
    ensures same { G.reaches gauge.new ≡ G.reaches gauge.old }
    ensures told { IsTold is_write W.hears (rows_of scene.entry.page scene.entry.dots) watcher.old watcher.new result.1 }
    ensures untouched { IfErr result.1 (λ fault. is_write fault ≡ false → result.0 ≡ sink) }
{
    match palette_of(alloc, scene.shapes.strokes, scene.pens) {
        Ok(Some(palette)) => paint_numbers(alloc, scene, &palette, gauge, sink, watcher),
        Ok(None) => paint_colours(alloc, scene, gauge, sink, watcher),
        Err(_) => (sink, Err(PictureFault::Memory)),
    }
}

// The same with this palette.
fn paint_numbers<G: Gauge, K: Sink, W: Watcher>(
    alloc: Global,
    scene: Scene<'_>,
    palette: &Palette,
    gauge: &mut G,
    sink: K,
    watcher: &mut W,
) -> (K, Result<(), PictureFault>)
    requires sinking { (K.state sink).faults < 2 ^ 64 - 1 }
    requires colours { palette.now.colours.items ≡ colours_used scene.pens scene.shapes.strokes.now }
    requires most { length palette.now.colours.items ≤ MOST_COLOURS }
    requires numbers { AreNumbers scene.pens scene.shapes.strokes.now palette.now.colours.items palette.now.numbers.items }
    ensures paints { HasPaintedPng (picture_with scene.entry.page scene.entry.dots (plain_row scene.entry (G.reaches gauge.old)))
        (K.state sink) (K.state result.0) result.1 }
    ensures tests { G.count gauge.new ≤ G.count gauge.old + plain_boxes scene.entry }
    ensures same { G.reaches gauge.new ≡ G.reaches gauge.old }
    ensures told { IsTold is_write W.hears (rows_of scene.entry.page scene.entry.dots) watcher.old watcher.new result.1 }
    ensures untouched { IfErr result.1 (λ fault. is_write fault ≡ false → result.0 ≡ sink) }
{
    let colours = palette.colours.as_slice();
    let numbers = palette.numbers.as_slice();
    if colours.len() <= 2 && are_bits(scene.shapes.strokes, scene.pens, numbers) {
        return paint_bits(alloc, scene, palette, gauge, sink, watcher);
    }
    let depth = depth_for(colours.len());
    let layout = Layout::Indexed {
        depth,
        palette: colours,
    };
    let ask = Numbered { depth, numbers };
    let header = header_of(&scene, layout);
    encode::<NumberBands<'_>, G, K, W>(alloc, scene, ask, &header, gauge, sink, watcher)
}

// The same with a palette of at most two colours and numbers that are bits, which are painted as such.
fn paint_bits<G: Gauge, K: Sink, W: Watcher>(
    alloc: Global,
    scene: Scene<'_>,
    palette: &Palette,
    gauge: &mut G,
    sink: K,
    watcher: &mut W,
) -> (K, Result<(), PictureFault>)
    requires sinking { (K.state sink).faults < 2 ^ 64 - 1 }
    requires colours { palette.now.colours.items ≡ colours_used scene.pens scene.shapes.strokes.now }
    requires two { length palette.now.colours.items ≤ 2 }
    requires numbers { AreNumbers scene.pens scene.shapes.strokes.now palette.now.colours.items palette.now.numbers.items }
    requires bits { AreBits scene.pens scene.shapes.strokes.now palette.now.numbers.items }
    ensures paints { HasPaintedPng (picture_with scene.entry.page scene.entry.dots (plain_row scene.entry (G.reaches gauge.old)))
        (K.state sink) (K.state result.0) result.1 }
    ensures tests { G.count gauge.new ≤ G.count gauge.old + plain_boxes scene.entry }
    ensures same { G.reaches gauge.new ≡ G.reaches gauge.old }
    ensures told { IsTold is_write W.hears (rows_of scene.entry.page scene.entry.dots) watcher.old watcher.new result.1 }
    ensures untouched { IfErr result.1 (λ fault. is_write fault ≡ false → result.0 ≡ sink) }
{
    let layout = Layout::Indexed {
        depth: Depth::One,
        palette: palette.colours.as_slice(),
    };
    let header = header_of(&scene, layout);
    encode::<Inker<'_>, G, K, W>(alloc, scene, (), &header, gauge, sink, watcher)
}

// The same with the colour of each pixel.
fn paint_colours<G: Gauge, K: Sink, W: Watcher>(
    alloc: Global,
    scene: Scene<'_>,
    gauge: &mut G,
    sink: K,
    watcher: &mut W,
) -> (K, Result<(), PictureFault>)
    requires sinking { (K.state sink).faults < 2 ^ 64 - 1 }
    ensures paints { HasPaintedPng (picture_with scene.entry.page scene.entry.dots (plain_row scene.entry (G.reaches gauge.old)))
        (K.state sink) (K.state result.0) result.1 }
    ensures tests { G.count gauge.new ≤ G.count gauge.old + plain_boxes scene.entry }
    ensures same { G.reaches gauge.new ≡ G.reaches gauge.old }
    ensures told { IsTold is_write W.hears (rows_of scene.entry.page scene.entry.dots) watcher.old watcher.new result.1 }
    ensures untouched { IfErr result.1 (λ fault. is_write fault ≡ false → result.0 ≡ sink) }
{
    let header = header_of(&scene, Layout::Rgb);
    encode::<CellBands<'_>, G, K, W>(alloc, scene, Form::Ppm, &header, gauge, sink, watcher)
}

/// The least depth of numbers below a count.
pub fn depth_for(count: usize) -> Depth
    requires { count ≤ MOST_COLOURS }
    ensures enough { count ≤ 2 ^ bits_of_depth result }
    ensures least { (depth : Depth) → count ≤ 2 ^ bits_of_depth depth → bits_of_depth result ≤ bits_of_depth depth }
{
    if count <= 2 {
        Depth::One
    } else if count <= 4 {
        Depth::Two
    } else if count <= 16 {
        Depth::Four
    } else {
        Depth::Eight
    }
}
