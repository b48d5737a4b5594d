//! What TL sets.
ghost use Rattle.std.specs.Prelude.{◌≡◌};

// 0.5 percent.
const USUAL: i64 = 500_000;

/// What TL (Tick Length) sets: how far a tick leads to either side of the pen's place, in millionths of a
/// percent of the distance from P1 to P2; within 1000 percent of 0.
#[derive(Clone, Copy, Debug)]
pub struct TickLength {
    /// Up of XT's tick, and to the right of YT's.
    pub up: i64,
    /// Down of XT's tick, and to the left of YT's.
    pub down: i64,
}

impl TickLength {
    ghost use Rattle.full_settings.specs.TickParameters.{usual_ticks, IsTickLength};

    /// What is set at the start: 0.5 percent up, and as much down.
    pub fn usual() -> TickLength
        ensures value { result ≡ usual_ticks }
        ensures sound { IsTickLength result }
    {
        TickLength {
            up: USUAL,
            down: USUAL,
        }
    }
}
