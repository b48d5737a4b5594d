//! The inking of the rows in which only the long sides of a stroke bound it.
ghost use Rattle.std.specs.Prelude.{◌≡◌, ◌+◌, ◌-◌, ◌*◌, ◌≤◌, ◌^◌, length};
ghost use Rattle.stroke_raster.specs.Covers.{covers};
ghost use Rattle.stroke_raster.specs.Edges.{AreEdges};
ghost use Rattle.stroke_raster.specs.Extents.{AreBoxed};
ghost use Rattle.stroke_raster.specs.Parts.{ArePartInked, IsPart, reached_in};

use crate::edges::{Edges, beside_run};
use crate::ink::ink_run;
use crate::layout::Layout;
use crate::strip::Span;
use crate::trace::Trace;
use plot_page::Page;

/// Makes the pixels that a stroke covers in the rows of its edges and in these columns black, and
/// returns their number.
#[inline(never)]
pub fn ink_beside(
    trace: &Trace<'_>,
    page: &Page,
    edges: &Edges,
    columns: Span,
    layout: Layout,
    bits: &mut [u8],
) -> u64
    requires part { IsPart page.now trace.now.dots layout edges.now.rows columns }
    requires stride_small { layout.stride ≤ 2 ^ 20 }
    requires size { length bits.old ≡ layout.rows * layout.stride }
    requires boxed { AreBoxed trace.now.stroke.now page.now trace.now.dots edges.now.rows columns }
    requires edges { AreEdges trace.now page.now columns.low edges.now }
    ensures size { length bits.new ≡ length bits.old }
    ensures bits { ArePartInked (covers trace.now.stroke.now page.now trace.now.dots) layout edges.now.rows
        columns bits.old bits.new }
    ensures least { reached_in (covers trace.now.stroke.now page.now trace.now.dots) edges.now.rows columns ≤ result }
    ensures most { result ≤ (edges.now.rows.end - edges.now.rows.low) * (columns.end - columns.low) }
{
    // A copy, which stays in registers while the bits change.
    let fixed = *edges;
    let many = columns.end - columns.low;
    let mut count = 0u64;
    let mut at = fixed.end;
    for row in edges.rows.low..edges.rows.end {
        let run = beside_run(trace, page, row, columns.low, many, &fixed, at);
        let start = (row - layout.first) as usize * layout.stride as usize;
        let black = Span {
            low: columns.low + run.low,
            end: columns.low + run.end,
        };
        ink_run(&mut bits[start..], black);
        count += u64::from(run.end - run.low);
        at = fixed.next(at);
    }
    count
}
