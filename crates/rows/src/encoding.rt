//! Encoding the rows of a scene as a PNG.
ghost use Rattle.std.specs.Prelude.{◌≡◌, ℕ, List, ◌+◌, ◌-◌, ◌^◌, ◌<◌, ◌≤◌, IfErr, false};
ghost use Rattle.plot_page.specs.Resolutions.{rows_of};
ghost use Rattle.png.specs.Headers.{HasColours, head};
ghost use Rattle.rows.specs.Faults.{is_write};
ghost use Rattle.rows.specs.Documents.{HasPaintedPng, per_metre, picture_with};
ghost use Rattle.rows.specs.Layouts.{IsHeaderOf, IsRowOf};
ghost use Rattle.rows.specs.Watching.{IsTold};

use crate::bands::Bands;
use crate::fault::PictureFault;
use crate::scene::Scene;
use crate::watcher::Watcher;
use crate::writing::write_left;
use devices::Sink;
use png::{Header, Layout, PngSink, Room};
use std::alloc::Global;
use stroke_raster::Gauge;

/// The most rows of a band.
pub const BAND: u32 = 4096;

/// Paints a scene by these bands, which are asked for so, and writes its rows as a PNG with this header.
#[tactic(auto, using(crate::proofs::Watched::not_told))]
pub fn encode<'a, B: Bands<'a> + Drop, G: Gauge, K: Sink, W: Watcher>(
    alloc: Global,
    scene: Scene<'a>,
    ask: B::Ask,
    header: &Header<'_>,
    gauge: &mut G,
    sink: K,
    watcher: &mut W,
) -> (K, Result<(), PictureFault>)
    requires sinking { (K.state sink).faults < 2 ^ 64 - 1 }
    requires ask { B.can_begin ask scene }
    requires header { IsHeaderOf scene.page scene.dots header.now }
    ensures paints { (colours : ℕ → List ℕ) → ((row : ℕ) → row < rows_of scene.entry.page scene.entry.dots →
        IsRowOf (head header.now) (B.asked_text ask scene.entry (G.reaches gauge.old) row) (colours row)) →
        HasPaintedPng (picture_with scene.entry.page scene.entry.dots colours) (K.state sink) (K.state result.0) result.1 }
    ensures tests { G.count gauge.new ≤ G.count gauge.old + B.asked_tests ask scene.entry 0 (rows_of scene.entry.page scene.entry.dots) }
    ensures same { G.reaches gauge.new ≡ G.reaches gauge.old }
    ensures told { IsTold is_write W.hears (rows_of scene.entry.page scene.entry.dots) watcher.old watcher.new result.1 }
    ensures untouched { IfErr result.1 (λ fault. is_write fault ≡ false → result.0 ≡ sink) }
{
    // The height and the first row are in range, so only memory can be wanting.
    let rows = scene.dots.rows(&scene.page);
    let Ok(mut bands) = B::begin(alloc, ask, scene, BAND, 0, rows) else {
        return (sink, Err(PictureFault::Memory));
    };
    let Ok(room) = Room::new(alloc, header) else {
        return (sink, Err(PictureFault::Memory));
    };
    let mut png = PngSink::new(room, header, sink);
    match write_left(0, &mut bands, gauge, &mut png, watcher) {
        Ok(_) => {
            let (sink, ended) = png.finish();
            match ended {
                Ok(()) => (sink, Ok(())),
                Err(_) => (sink, Err(PictureFault::Unfinished)),
            }
        }
        Err(_) => (png.into_sink(), Err(PictureFault::Unfinished)),
    }
}

/// The header of the picture of a scene.
pub fn header_of<'p>(scene: &Scene<'_>, layout: Layout<'p>) -> Header<'p>
    requires { HasColours layout }
    ensures header { IsHeaderOf scene.entry.now.page scene.entry.now.dots result }
    ensures layout { result.layout ≡ layout.entry }
{
    Header {
        columns: scene.dots.columns(&scene.page),
        rows: scene.dots.rows(&scene.page),
        per_metre: (scene.dots.per_inch() * 10000 + 127) / 254,
        layout,
    }
}
