//! How far a fixed pattern has gone.
use exact::Spot;

/// Where a pattern has ended: a line that begins at `end` goes on `phase` ticks after the pattern's
/// start.
#[derive(Clone, Copy, Debug)]
pub struct Run {
    pub end: Spot,
    pub phase: u64,
}
