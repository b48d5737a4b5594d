//! The angles at which the chords of an arc end.
ghost use Rattle.std.specs.Prelude.{◌≡◌, ◌<◌};
ghost use Rattle.plot_arc.specs.Arcs.{chords_of, turn_after};

/// How many chords an arc has: one for each chord's angle in the sweep, one more for what is left
/// over, and at least one. Both angles are in thousandths of a degree.
pub fn turn_count(chord: u32, sweep: i32) -> u32
    requires { 0 < chord }
    ensures { result ≡ chords_of chord sweep }
{
    sweep.unsigned_abs().div_ceil(chord).max(1)
}

/// By how much the arc has turned where its `k`-th chord ends, from 1 on, in thousandths of a
/// degree: `k` chords, but not past the sweep, and in the sweep's direction.
pub fn turn(chord: u32, sweep: i32, k: u32) -> i64
    ensures { result ≡ turn_after chord sweep k }
{
    let reached = u64::from(k) * u64::from(chord);
    let size = reached.min(u64::from(sweep.unsigned_abs())) as i64;
    if sweep < 0 { -size } else { size }
}
