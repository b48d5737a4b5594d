//! Where a row of pixels passes an edge.
ghost use Rattle.std.specs.Prelude.{◌≡◌, ℕ, ◌≤◌, ◌<◌, nat_le, int_le, pos};
ghost use Rattle.areas.specs.Crossings.{Crosses};
ghost use Rattle.areas.specs.Sweeps.{IsInRow};

use crate::swept_edge::{SweptEdge, scaled};
use plot_page::Dots;

/// A row passes an edge in the columns from `column` on.
#[derive(Clone, Copy, Debug, PartialEq, Eq)]
pub struct Crossing {
    pub column: u32,
    pub is_upward: bool,
}

/// Where the row at a height, in steps, of a picture with so many columns passes an edge, if it is level with it.
pub fn crossing_of(edge: &SweptEdge, dots: Dots, height: i64, columns: u32) -> Option<Crossing>
    requires { IsInRow dots.resolution height edge.now }
    ensures { Crosses dots.resolution height columns edge.now result }
{
    if scaled(dots, edge.ay) <= height && height < scaled(dots, edge.by) {
        return Some(Crossing {
            column: limited(edge.column, columns),
            is_upward: edge.is_upward,
        });
    }
    None
}

// A column as one of so many, or their number.
fn limited(column: i64, columns: u32) -> u32
    ensures first { (k : ℕ) → k < columns → nat_le result k ≡ int_le column (pos k) }
    ensures within { result ≤ columns }
{
    if column < 0 {
        0
    } else if column < i64::from(columns) {
        column as u32
    } else {
        columns
    }
}
