//! Painting a scene, and writing its smoothed picture as a PNG.
ghost use Rattle.std.specs.Prelude.{◌≡◌, ℕ, ◌+◌, ◌-◌, ◌*◌, ◌^◌, ◌<◌, ◌≤◌, length, IfOk, IfSome, IfErr, false, true, ◌∷◌, []};
ghost use Rattle.plot_page.specs.Resolutions.{rows_of};
ghost use Rattle.picture_out.specs.Inks.{colour_bytes, paper};
ghost use Rattle.areas.specs.Views.{shapes_in};
ghost use Rattle.rows.specs.Documents.{HasPaintedPng, picture_with};
ghost use Rattle.rows.specs.Faults.{is_write};
ghost use Rattle.rows.specs.Layouts.{AreGrey, HasPixels, scene_pixels, smooth_boxes, smooth_row};
ghost use Rattle.rows.specs.Palettes.{colours_smoothed};
ghost use Rattle.rows.specs.Pictures.{is_fine};
ghost use Rattle.rows.specs.Progress.{CanSmooth};
ghost use Rattle.rows.specs.Watching.{IsTold};

use crate::encoding::{BAND, encode, header_of};
use crate::fault::PictureFault;
use crate::palette::MOST_COLOURS;
use crate::png_picture::depth_for;
use crate::scene::Scene;
use crate::smooth_bands::{SmoothBands, Smoothed};
use crate::smooth_palette::add_colours;
use crate::watcher::Watcher;
use devices::Sink;
use picture_job::Smoothing;
use plot_page::{PenSet, Stroke};
use png::Layout;
use std::alloc::{AllocError, Global};
use stroke_raster::Gauge;

/// Paints a scene and writes its smoothed picture as a PNG: in shades of grey if its strokes have no other colours,
/// with a palette if its pixels have at most 256 colours, else with the colour of each pixel. It is painted twice unless it
/// is grey, first to find its colours.
///
/// Errors: those of `paint_png`.
#[tactic(auto, using(crate::proofs::Watched::not_told))]
pub fn paint_smoothed<G: Gauge, K: Sink, W: Watcher>(
    alloc: Global,
    scene: Scene<'_>,
    smoothing: Smoothing,
    gauge: &mut G,
    sink: K,
    watcher: &mut W,
) -> (K, Result<(), PictureFault>)
    requires fine { is_fine smoothing.times scene.dots ≡ true }
    requires sinking { (K.state sink).faults < 2 ^ 64 - 1 }
    ensures paints { HasPaintedPng (picture_with scene.entry.page scene.entry.dots (smooth_row smoothing.times scene.entry (G.reaches gauge.old)))
        (K.state sink) (K.state result.0) result.1 }
    ensures tests { G.count gauge.new ≤ G.count gauge.old + 2 * smooth_boxes smoothing.times scene.entry }
    ensures same { G.reaches gauge.new ≡ G.reaches gauge.old }
    ensures told { IsTold is_write W.hears (rows_of scene.entry.page scene.entry.dots) watcher.old watcher.new result.1 }
    ensures untouched { IfErr result.1 (λ fault. is_write fault ≡ false → result.0 ≡ sink) }
{
    let times = smoothing.times();
    if are_grey(scene.shapes.strokes, scene.pens) {
        let ask = Smoothed {
            times,
            layout: Layout::Grey,
        };
        return paint_pixels(alloc, scene, ask, gauge, sink, watcher);
    }
    match palette_of(alloc, scene, times, gauge) {
        Ok(Some(colours)) => {
            let layout = Layout::Indexed {
                depth: depth_for(colours.len()),
                palette: colours.as_slice(),
            };
            let ask = Smoothed { times, layout };
            paint_pixels(alloc, scene, ask, gauge, sink, watcher)
        }
        Ok(None) => {
            let ask = Smoothed {
                times,
                layout: Layout::Rgb,
            };
            paint_pixels(alloc, scene, ask, gauge, sink, watcher)
        }
        Err(_) => (sink, Err(PictureFault::Memory)),
    }
}

// The same in a layout that has the colours of all pixels.
fn paint_pixels<'a, G: Gauge, K: Sink, W: Watcher>(
    alloc: Global,
    scene: Scene<'a>,
    ask: Smoothed<'a>,
    gauge: &mut G,
    sink: K,
    watcher: &mut W,
) -> (K, Result<(), PictureFault>)
    requires sinking { (K.state sink).faults < 2 ^ 64 - 1 }
    requires ask { CanSmooth ask.times ask.layout scene.dots }
    requires pixels { (row : ℕ) → row < rows_of scene.page scene.dots →
        HasPixels ask.layout (scene_pixels ask.times scene (G.reaches gauge.old) row) }
    ensures paints { HasPaintedPng (picture_with scene.entry.page scene.entry.dots (smooth_row ask.entry.times scene.entry (G.reaches gauge.old)))
        (K.state sink) (K.state result.0) result.1 }
    ensures tests { G.count gauge.new ≤ G.count gauge.old + smooth_boxes ask.entry.times scene.entry }
    ensures same { G.reaches gauge.new ≡ G.reaches gauge.old }
    ensures told { IsTold is_write W.hears (rows_of scene.entry.page scene.entry.dots) watcher.old watcher.new result.1 }
    ensures untouched { IfErr result.1 (λ fault. is_write fault ≡ false → result.0 ≡ sink) }
{
    let header = header_of(&scene, ask.layout);
    encode::<SmoothBands<'_>, G, K, W>(alloc, scene, ask, &header, gauge, sink, watcher)
}

// The colours of a smoothed picture: white, and then each further colour in the order in which it first comes, row by row;
// `None` if they are too many for a palette.
fn palette_of<G: Gauge>(
    alloc: Global,
    scene: Scene<'_>,
    times: u32,
    gauge: &mut G,
) -> Result<Option<Vec<[u8; 3]>>, AllocError>
    requires smooth { CanSmooth times Layout.Rgb scene.dots }
    ensures few { IfOk result (λ found. IfSome found (λ colours. length colours.items ≤ MOST_COLOURS)) }
    ensures some { IfOk result (λ found. IfSome found (λ colours. 0 < length colours.items)) }
    ensures colours { IfOk result (λ found. IfSome found (λ colours. colours.items
        ≡ colours_smoothed times (G.reaches gauge.old) scene.entry.pens (shapes_in scene.entry.shapes) scene.entry.page scene.entry.dots)) }
    ensures same { G.reaches gauge.new ≡ G.reaches gauge.old }
    ensures tests { G.count gauge.new ≤ G.count gauge.old + smooth_boxes times scene.entry }
{
    let layout = Layout::Rgb;
    // The height and the first row are in range, so only memory can be wanting.
    let rows = scene.dots.rows(&scene.page);
    let ask = Smoothed { times, layout };
    let Ok(mut bands) = SmoothBands::new(alloc, ask, scene, BAND, 0, rows) else {
        return Err(AllocError);
    };
    let mut colours = colour_of_paper(alloc)?;
    if add_colours(&mut bands, gauge, &mut colours)? {
        Ok(Some(colours))
    } else {
        Ok(None)
    }
}

// The first colour of a palette, that of paper, by itself.
fn colour_of_paper(alloc: Global) -> Result<Vec<[u8; 3]>, AllocError>
    ensures { IfOk result (λ colours. colours.items ≡ colour_bytes paper ∷ []) }
{
    Ok(vec![in alloc; [255u8; 3]; 1]?)
}

// Whether the colour of each selected stroke is a shade of grey.
fn are_grey(strokes: &[Stroke], pens: PenSet) -> bool
    ensures { result ≡ true → AreGrey pens strokes.now }
{
    for stroke in strokes {
        let colour = stroke.colour;
        if pens.has(stroke.pen) && (colour.green != colour.red || colour.blue != colour.red) {
            return false;
        }
    }
    true
}
