//! The spans of a line.
ghost use Rattle.std.specs.Prelude.{◌≡◌, ◌++◌, [], map, OnOk};
ghost use Rattle.polygons.specs.Fills.{spans_after};
ghost use Rattle.polygons.specs.Climbs.{bare};

use crate::climb::Crossing;
use crate::lines::Rule;
use crate::span::Span;
use std::alloc::AllocError;

// Adds the spans of a line, by its sorted crossings.
pub fn add_spans(
    rule: Rule,
    crossings: &[Crossing],
    spans: &mut Vec<Span>,
) -> Result<(), AllocError>
    ensures { OnOk result (spans.new.items ≡ spans.old.items ++ spans_after rule [] (map bare crossings.now)) }
{
    let Some((first, rest)) = crossings.split_first() else {
        return Ok(());
    };
    let mut last = first;
    let mut upward = 0;
    let mut others = 0;
    for crossing in rest {
        upward += usize::from(last.is_upward);
        others += usize::from(!last.is_upward);
        if rule.is_inside(upward, others) {
            spans.push(Span {
                from: last.place,
                to: crossing.place,
            })?;
        }
        last = crossing;
    }
    Ok(())
}
