//! The sheets of a plot, each as a picture by itself.
ghost use Rattle.std.specs.Prelude.{◌≡◌, ◌+◌, ◌-◌, ◌^◌, ◌<◌, IfErr, IfOk, false};
ghost use Rattle.std.specs.Io.KnownBytes.{IsAtEnd};
ghost use Rattle.conversion.specs.Conversions.{is_write};
ghost use Rattle.conversion.specs.Kinds.{HasDrawnTurned, IsToldOfPicture, WritesSheet};
ghost use Rattle.conversion.specs.Rules.{rules_in};
ghost use Rattle.rows.specs.Pictures.{exact};

use conversion::{Drawing, Fault, Outcome, Request, Watcher, draw, write};
use devices::{Sink, Source};
use std::alloc::Global;
use stroke_raster::Exact;

/// What the plot that the source gives draws for a picture that is asked for: of all sheets if the request reads sheet 0.
/// `write_sheet` then writes the picture of each sheet.
///
/// The errors are those of `conversion::draw`.
pub fn draw_sheets<S: Source>(
    alloc: Global,
    request: &Request<'_>,
    source: &mut S,
) -> Result<Drawing, Fault>
    requires failing { (S.state source.old).faults < 2 ^ 64 - 1 }
    requires ending { (S.state source.old).ends < 2 ^ 64 - 1 }
    ensures draws { HasDrawnTurned request.now.setup.turn (rules_in request.now.setup) request.now.setup.choice
        request.now.picture.now (S.state source.old) (S.state source.new) result }
    ensures counts { IfOk result (λ drawing. drawing.counts ≡ request.now.setup.counts) }
    ensures end { (S.state source.new).ends ≡ (S.state source.old).ends + 1 → IsAtEnd (S.state source.new).left }
{
    draw(alloc, request, source)
}

/// Writes the picture that is asked for of a sheet of a drawing, which counts from 1, or of all that is drawn for 0, on the page
/// where the drawing lies, by the gauge `Exact`. Gives the sink back. The watcher is told nothing of a vector document. The
/// errors are those of `conversion::write`.
pub fn write_sheet<K: Sink, W: Watcher>(
    alloc: Global,
    request: &Request<'_>,
    drawing: &Drawing,
    sheet: u32,
    sink: K,
    watcher: &mut W,
) -> (K, Result<Outcome, Fault>)
    requires sinking { (K.state sink).faults < 2 ^ 64 - 1 }
    ensures writes { WritesSheet request.now.setup.choice request.now.picture.now request.now.naming exact
        drawing.now sheet (K.state sink) (K.state result.0) result.1 }
    ensures told { IsToldOfPicture W.hears request.now.setup.choice request.now.picture.now drawing.now.page
        watcher.old watcher.new result.1 }
    ensures untouched { IfErr result.1 (λ fault. is_write fault ≡ false → result.0 ≡ sink) }
{
    let mut gauge = Exact::new();
    write(alloc, request, drawing, sheet, &mut gauge, sink, watcher)
}
