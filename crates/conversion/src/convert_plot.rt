//! The conversion of a plot to a picture in a form, on the page that is given.
ghost use Rattle.std.specs.Prelude.{◌≡◌, ◌+◌, ◌-◌, ◌^◌, ◌<◌, ◌↔◌, Err, IfErr, false};
ghost use Rattle.std.specs.Io.KnownBytes.{IsAtEnd};
ghost use Rattle.conversion.specs.Conversions.{HasConverted, HasConvertedBy, is_write};
ghost use Rattle.rows.specs.Pictures.{has_resolution};
ghost use Rattle.conversion.specs.Rules.{rules_of};

use crate::done::Done;
use crate::drawing::draw;
use crate::fault::Fault;
use crate::naming::Naming;
use crate::request::Request;
use crate::setup::Setup;
use crate::sheet::write_shapes;
use crate::shown::Shown;
use carousel::Carousel;
use devices::{Sink, Source};
use picture_job::{Job, PageChoice, Picture, Reading, RowChoice, Smoothing};
use rows::Unwatched;
use std::alloc::Global;
use stroke_raster::Gauge;
use turning::Turn;

/// Writes the picture of the plot that the source gives, in the profile core: the head if the job's first row is 0, its
/// rows from the first row on, the foot. A pixel shows the pen and the colour of the last stroke of
/// the selected pens that the gauge says reaches it. The gauge makes at most as many tests as the
/// boxes of those strokes have pixels, whatever the band height.
///
/// Errors, in this order: `Resolution` if the form does not have the job's resolution, and then the
/// source is not read; those of reading and drawing the plot (`Read`, `TooLong`, `Plot`);
/// `Pixels` if the picture has over 400,000 columns or rows; `Paint` for a band height or a first row out of range; `Write` if the sink fails. `Memory` comes
/// when memory is refused. After every error but `Write` the sink is as it was; after `Write` it has
/// taken the first `bytes` bytes of the picture, and the job from row `row` writes what follows the
/// first `whole` of them.
pub fn convert<G: Gauge, S: Source, K: Sink>(
    alloc: Global,
    job: &Job,
    gauge: &mut G,
    source: &mut S,
    sink: &mut K,
) -> Result<Done, Fault>
    requires failing { (S.state source.old).faults < 2 ^ 64 - 1 }
    requires ending { (S.state source.old).ends < 2 ^ 64 - 1 }
    requires sinking { (K.state sink.old).faults < 2 ^ 64 - 1 }
    ensures resolution { (result ≡ Err Fault.Resolution) ↔ (has_resolution job.now ≡ false) }
    ensures converts { HasConverted job.now (G.reaches gauge.old)
        (S.state source.old) (S.state source.new) (K.state sink.old) (K.state sink.new)
        (G.count gauge.old) (G.count gauge.new) result }
    ensures end { (S.state source.new).ends ≡ (S.state source.old).ends + 1 → IsAtEnd (S.state source.new).left }
    ensures same { G.reaches gauge.new ≡ G.reaches gauge.old }
    ensures untouched { IfErr result (λ fault. is_write fault ≡ false → sink.new ≡ sink.old) }
{
    convert_given(alloc, Reading::Core, job, gauge, source, sink)
}

/// Writes the picture of the plot that the source gives, as `convert` does, in either profile.
pub(crate) fn convert_given<G: Gauge, S: Source, K: Sink>(
    alloc: Global,
    reading: Reading,
    job: &Job,
    gauge: &mut G,
    source: &mut S,
    sink: &mut K,
) -> Result<Done, Fault>
    requires failing { (S.state source.old).faults < 2 ^ 64 - 1 }
    requires ending { (S.state source.old).ends < 2 ^ 64 - 1 }
    requires sinking { (K.state sink.old).faults < 2 ^ 64 - 1 }
    ensures resolution { (result ≡ Err Fault.Resolution) ↔ (has_resolution job.now ≡ false) }
    ensures converts { HasConvertedBy (rules_of reading) job.now (G.reaches gauge.old)
        (S.state source.old) (S.state source.new) (K.state sink.old) (K.state sink.new)
        (G.count gauge.old) (G.count gauge.new) result }
    ensures end { (S.state source.new).ends ≡ (S.state source.old).ends + 1 → IsAtEnd (S.state source.new).left }
    ensures same { G.reaches gauge.new ≡ G.reaches gauge.old }
    ensures untouched { IfErr result (λ fault. is_write fault ≡ false → sink.new ≡ sink.old) }
{
    let rows = RowChoice::all(Smoothing::NONE);
    let picture = Picture::Rows { job: *job, rows };
    let setup = Setup {
        reading,
        carousel: &Carousel::empty(),
        choice: PageChoice::GIVEN,
        turn: Turn::None,
        counts: false,
    };
    let request = Request::new(setup, &picture, Naming::NONE)?;
    let drawing = draw(alloc, &request, source)?;
    let shown = Shown {
        drawing: &drawing,
        contents: drawing.contents_on(0),
        choice: PageChoice::GIVEN,
    };
    match write_shapes(alloc, shown, job, rows, gauge, sink, &mut Unwatched) {
        Ok(outcome) => Ok(outcome.done),
        Err(fault) => Err(fault),
    }
}
