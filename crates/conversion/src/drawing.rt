//! Reading a plot from a source and drawing it.
ghost use Rattle.std.specs.Prelude.{◌≡◌, ◌+◌, ◌-◌, ◌^◌, ◌<◌, IfOk};
ghost use Rattle.std.specs.Io.KnownBytes.{IsAtEnd};
ghost use Rattle.conversion.specs.Drawings.{HasReadAndDrawn};
ghost use Rattle.conversion.specs.Kinds.{HasDrawnFor, HasDrawnTurned};
ghost use Rattle.conversion.specs.Rules.{rules_in};

use crate::fault::Fault;
use crate::kinds::{has_labels, page_of, pens_of};
use crate::place::{Drawing, draw_placed};
use crate::reading::read_plot;
use crate::request::Request;
use crate::setup::Setup;
use crate::turn::turned;
use devices::Source;
use plot_page::{Page, PenSet};
use std::alloc::Global;
use turning::Turn;

/// What the plot that the source gives draws for a picture that is asked for, in either profile, with the pens of the carousel, on
/// the page that is chosen: the page of the picture, the page of the size that the plot asks for, or the page around what the picture's pens
/// draw on either. The plot is drawn once; its strokes are moved to the page around them, and turned with the page, if that is
/// asked for. Of the plot nothing else is kept, but for its labels, if the picture is a vector document. `write` then writes the
/// picture of all that is drawn, or of a sheet.
///
/// Errors, in this order: `Read` if the source fails; `TooLong` if it gives more than 67,108,864 bytes; `Plot` if the
/// plot is refused for the page that it asks for, if that is chosen and it asks for one, else for that of the picture;
/// `Unturned` if a stroke of the picture's pens would lie too far away after the turn. `Memory` comes when memory is refused.
pub fn draw<S: Source>(
    alloc: Global,
    request: &Request<'_>,
    source: &mut S,
) -> Result<Drawing, Fault>
    requires failing { (S.state source.old).faults < 2 ^ 64 - 1 }
    requires ending { (S.state source.old).ends < 2 ^ 64 - 1 }
    ensures draws { HasDrawnTurned request.now.setup.turn (rules_in request.now.setup) request.now.setup.choice
        request.now.picture.now (S.state source.old) (S.state source.new) result }
    ensures counts { IfOk result (λ drawing. drawing.counts ≡ request.now.setup.counts) }
    ensures end { (S.state source.new).ends ≡ (S.state source.old).ends + 1 → IsAtEnd (S.state source.new).left }
{
    let drawing = draw_upright(alloc, request, source)?;
    match request.setup.turn {
        Turn::None => Ok(drawing),
        turn => match turned(drawing, &pens_of(request.picture), turn) {
            Ok(turned) => Ok(turned),
            Err(_) => Err(Fault::Unturned),
        },
    }
}

// What the plot draws before a turn.
fn draw_upright<S: Source>(
    alloc: Global,
    request: &Request<'_>,
    source: &mut S,
) -> Result<Drawing, Fault>
    requires failing { (S.state source.old).faults < 2 ^ 64 - 1 }
    requires ending { (S.state source.old).ends < 2 ^ 64 - 1 }
    ensures draws { HasDrawnFor (rules_in request.now.setup) request.now.setup.choice request.now.picture.now
        (S.state source.old) (S.state source.new) result }
    ensures counts { IfOk result (λ drawing. drawing.counts ≡ request.now.setup.counts) }
    ensures end { (S.state source.new).ends ≡ (S.state source.old).ends + 1 → IsAtEnd (S.state source.new).left }
{
    let picture = request.picture;
    let page = page_of(picture);
    match read_and_draw(
        alloc,
        request.setup,
        pens_of(picture),
        &page,
        has_labels(picture),
        source,
    ) {
        Ok(read) => Ok(read.drawing),
        Err(fault) => Err(fault),
    }
}

/// A plot that was read whole, and what it draws.
#[derive(Drop)]
pub struct ReadPlot {
    pub text: Vec<u8>,
    pub drawing: Drawing,
}

/// Reads the plot that the source gives, and draws it on the page that is chosen, by what the plot asks for or by what the
/// selected pens draw, with its labels, if they are asked for.
///
/// Errors, in this order: `Read` if the source fails; `TooLong` if it gives more than 67,108,864
/// bytes; `Plot` if the plot is refused for the page that it is drawn on first. `Memory` comes when
/// memory is refused.
pub fn read_and_draw<S: Source>(
    alloc: Global,
    setup: Setup<'_>,
    pens: PenSet,
    page: &Page,
    keeps_labels: bool,
    source: &mut S,
) -> Result<ReadPlot, Fault>
    requires failing { (S.state source.old).faults < 2 ^ 64 - 1 }
    requires ending { (S.state source.old).ends < 2 ^ 64 - 1 }
    ensures draws { HasReadAndDrawn (rules_in setup.entry) setup.entry.choice pens page.now (S.state source.old) (S.state source.new) result }
    ensures labelled { IfOk result (λ read. read.drawing.lines.labelled ≡ keeps_labels) }
    ensures counts { IfOk result (λ read. read.drawing.counts ≡ setup.entry.counts) }
    ensures end { (S.state source.new).ends ≡ (S.state source.old).ends + 1 → IsAtEnd (S.state source.new).left }
{
    let text = read_plot(alloc, source)?;
    let mut drawing = draw_placed(alloc, setup, pens, page, text.as_slice(), keeps_labels)?;
    drawing.counts = setup.counts;
    Ok(ReadPlot { text, drawing })
}
