//! A sink of our own: it keeps the first bytes of a picture, and then takes no more.
ghost use Rattle.std.specs.Prelude.{◌+◌, ◌≤◌, IfOk, IfErr, Some};
ghost use Rattle.conversion.specs.Pictures.{picture, HasPicture, Refuses};
ghost use Rattle.conversion.specs.Conversions.{job_boxes};
ghost use Rattle.library_examples.specs.Previews.{IsPreviewOf};

use plotraster::{Fault, Gauge, Job, OverRead, Sink, SinkFault, convert};
use std::alloc::Global;

// A sink that has room for a number of bytes.
#[derive(Drop)]
struct Limited {
    bytes: Vec<u8>,
    room: usize,
    failures: u64,
}

impl Sink for Limited {
    ghost state = { λ s. record { held = Some s.bytes.items; faults = s.failures } };

    fn put(&mut self, piece: &[u8]) -> Result<usize, SinkFault> {
        let taken = piece.len().min(self.room);
        let is_full = taken == 0 && !piece.is_empty();
        if is_full || self.bytes.extend_from_slice(&piece[..taken]).is_err() {
            self.failures += 1;
            return Err(SinkFault);
        }
        self.room -= taken;
        Ok(taken)
    }

    fn failures(&self) -> u64 {
        self.failures
    }
}

/// What was kept of a picture.
#[derive(Drop)]
pub enum Preview {
    /// All of its bytes.
    Whole(Vec<u8>),
    /// Its first bytes, and not all.
    Beginning(Vec<u8>),
}

/// The picture of a plot by a gauge, or its beginning if there is no room for all of it.
pub fn preview_picture<G: Gauge>(
    alloc: Global,
    job: &Job,
    gauge: &mut G,
    plot: &[u8],
    room: usize,
) -> Result<Preview, Fault>
    ensures preview { IfOk result (IsPreviewOf (picture job.now (G.reaches gauge.old) plot.now)) }
    ensures accepted { IfOk result (λ _. HasPicture job.now plot.now) }
    ensures refused { IfErr result (Refuses job.now plot.now) }
    ensures tests { IfOk result (λ _. G.count gauge.new ≤ G.count gauge.old + job_boxes job.now plot.now) }
{
    let mut sink = Limited {
        bytes: Vec::new(alloc),
        room,
        failures: 0,
    };
    let answer = convert(alloc, job, gauge, &mut OverRead::new(plot), &mut sink);
    let Limited {
        bytes,
        room: _,
        failures: _,
    } = sink;
    match answer {
        Ok(_) => Ok(Preview::Whole(bytes)),
        Err(Fault::Write { .. }) => Ok(Preview::Beginning(bytes)),
        // A slice gives all its bytes.
        Err(Fault::Read) => Err(Fault::Memory),
        Err(fault) => Err(fault),
    }
}
