//! Where labels lead.
use plot_frame::Pair;

/// Where labels lead: the run and the rise, not both 0.
#[derive(Clone, Copy, Debug)]
pub enum Heading {
    /// DI (Absolute Direction): in millionths.
    Absolute(Pair<i64>),
    /// DR (Relative Direction): in millionths of a percent of the distances from P1 to P2 in x and in y.
    Relative(Pair<i64>),
}
