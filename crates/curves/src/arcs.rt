//! The places of arcs through three places.
ghost use Rattle.std.specs.Prelude.{◌≡◌, ◌^◌, IfOk};
ghost use Rattle.std.specs.List.{All};
ghost use Rattle.directions.specs.Bounds.{IsWithin};
ghost use Rattle.curves.specs.Arcs.{arc_places};

use crate::circle::Circle;
use exact::Spot;
use std::alloc::{AllocError, Global};

// How often a middle is put between all neighbouring directions.
const HALVINGS: u32 = 6;

/// The places that the pen reaches on the arc from a through b to c, after a, in order.
pub fn arc_places(alloc: Global, a: Spot, b: Spot, c: Spot) -> Result<Vec<Spot>, AllocError>
    requires a_in { IsWithin (2 ^ 27) a }
    requires b_in { IsWithin (2 ^ 27) b }
    requires c_in { IsWithin (2 ^ 27) c }
    ensures value { IfOk result (λ places. places.items ≡ arc_places a b c) }
    ensures within { IfOk result (λ places. All (IsWithin (2 ^ 35)) places.items) }
{
    let mut places = Vec::new(alloc);
    match Circle::through(a, b, c) {
        None => {}
        Some(circle) if circle.is_far() => places.push(b)?,
        Some(circle) => circle.add_between(&mut places, HALVINGS, circle.first, circle.last)?,
    }
    places.push(c)?;
    Ok(places)
}
