// A sink of the tests' own.
ghost use Rattle.std.specs.Prelude.{◌≡◌, Some};

use devices::{Sink, SinkFault};
use std::alloc::Global;

// A sink that takes at most `step` bytes a call, and fails once when it has `limit` bytes, by a fault
// or by taking nothing.
#[derive(Drop)]
pub(crate) struct Narrow {
    pub(crate) bytes: Vec<u8>,
    limit: usize,
    step: usize,
    faults: bool,
    failures: u64,
}

pub(crate) fn narrow_sink(alloc: Global, limit: usize, step: usize, faults: bool) -> Narrow
    ensures { result.failures ≡ 0 }
{
    Narrow {
        bytes: Vec::new(alloc),
        limit,
        step,
        faults,
        failures: 0,
    }
}

impl Sink for Narrow {
    ghost state = { λ s. record { held = Some s.bytes.items; faults = s.failures } };

    fn put(&mut self, piece: &[u8]) -> Result<usize, SinkFault> {
        let left = if self.failures > 0 {
            piece.len()
        } else {
            self.limit.saturating_sub(self.bytes.len())
        };
        let taken = piece.len().min(self.step).min(left);
        if taken == 0 && !piece.is_empty() {
            self.failures += 1;
            return if self.faults { Err(SinkFault) } else { Ok(0) };
        }
        match self.bytes.extend_from_slice(&piece[..taken]) {
            Ok(()) => Ok(taken),
            Err(_) => {
                self.failures += 1;
                Err(SinkFault)
            }
        }
    }

    fn failures(&self) -> u64 {
        self.failures
    }
}
