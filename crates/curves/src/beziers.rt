//! The places of Bezier curves.
ghost use Rattle.std.specs.Prelude.{◌≡◌, ◌+◌, ◌*◌, ◌≤◌, ◌<◌, ◌^◌, nat_abs, pos, ◌*ℤ◌, IfOk};
ghost use Rattle.std.specs.List.{All};
ghost use Rattle.directions.specs.Bounds.{IsWithin};
ghost use Rattle.curves.specs.Beziers.{bend_of, greatest_bend, chords_of_bend, weighed};
ghost use Rattle.curves.specs.Beziers.{curve_coordinate, curve_place, bezier_places};

use exact::{Spot, rounded};
use std::alloc::{AllocError, Global};

/// The places that the pen reaches on the Bezier curve from p0 to p3 with the control points p1 and
/// p2, after p0, in order.
pub fn bezier_places(
    alloc: Global,
    p0: Spot,
    p1: Spot,
    p2: Spot,
    p3: Spot,
) -> Result<Vec<Spot>, AllocError>
    requires p0_in { IsWithin (2 ^ 27) p0 }
    requires p1_in { IsWithin (2 ^ 27) p1 }
    requires p2_in { IsWithin (2 ^ 27) p2 }
    requires p3_in { IsWithin (2 ^ 27) p3 }
    ensures value { IfOk result (λ places. places.items ≡ bezier_places p0 p1 p2 p3) }
    ensures within { IfOk result (λ places. All (IsWithin (2 ^ 27)) places.items) }
{
    let chords = chords(greatest_bend(p0, p1, p2, p3));
    let mut places = Vec::new(alloc);
    for k in 0..chords {
        places.push(curve_place(chords, k + 1, p0, p1, p2, p3))?;
    }
    Ok(places)
}

// The greatest bend at p1 and at p2, in x and in y.
fn greatest_bend(p0: Spot, p1: Spot, p2: Spot, p3: Spot) -> u128
    requires p0_in { IsWithin (2 ^ 27) p0 }
    requires p1_in { IsWithin (2 ^ 27) p1 }
    requires p2_in { IsWithin (2 ^ 27) p2 }
    requires p3_in { IsWithin (2 ^ 27) p3 }
    ensures { result ≡ greatest_bend p0 p1 p2 p3 }
{
    let first = bend(p0.x, p1.x, p2.x).max(bend(p0.y, p1.y, p2.y));
    let second = bend(p1.x, p2.x, p3.x).max(bend(p1.y, p2.y, p3.y));
    first.max(second)
}

// How far b is from the middle between a and c, twice.
fn bend(a: i128, b: i128, c: i128) -> u128
    requires a_in { nat_abs a ≤ 2 ^ 27 }
    requires b_in { nat_abs b ≤ 2 ^ 27 }
    requires c_in { nat_abs c ≤ 2 ^ 27 }
    ensures { result ≡ bend_of a b c }
{
    (a - 2 * b + c).unsigned_abs()
}

// How many chords a curve of this bend has. Each bound is 16 * n * n.
#[tactic(auto, unfolding(crate::specs::Beziers::chords_of_bend))]
fn chords(bend: u128) -> u64
    ensures value { result ≡ chords_of_bend bend }
    ensures above { 0 < result }
    ensures most { result ≤ 256 }
{
    match bend {
        0..=256 => 4,
        257..=1024 => 8,
        1025..=4096 => 16,
        4097..=16384 => 32,
        16385..=65536 => 64,
        65537..=262144 => 128,
        _ => 256,
    }
}

// The place after k of n parts of a curve.
#[tactic(auto, unfolding(crate::specs::Beziers::curve_place))]
fn curve_place(n: u64, k: u64, p0: Spot, p1: Spot, p2: Spot, p3: Spot) -> Spot
    requires k_in { k ≤ n }
    requires above { 0 < n }
    requires n_in { n ≤ 256 }
    requires p0_in { IsWithin (2 ^ 27) p0 }
    requires p1_in { IsWithin (2 ^ 27) p1 }
    requires p2_in { IsWithin (2 ^ 27) p2 }
    requires p3_in { IsWithin (2 ^ 27) p3 }
    ensures value { result ≡ curve_place n k p0 p1 p2 p3 }
    ensures within { IsWithin (2 ^ 27) result }
{
    Spot {
        x: curve_coordinate(n, k, p0.x, p1.x, p2.x, p3.x),
        y: curve_coordinate(n, k, p0.y, p1.y, p2.y, p3.y),
    }
}

// Its coordinate in x or in y.
fn curve_coordinate(n: u64, k: u64, p0: i128, p1: i128, p2: i128, p3: i128) -> i128
    requires k_in { k ≤ n }
    requires above { 0 < n }
    requires n_in { n ≤ 256 }
    requires p0_in { nat_abs p0 ≤ 2 ^ 27 }
    requires p1_in { nat_abs p1 ≤ 2 ^ 27 }
    requires p2_in { nat_abs p2 ≤ 2 ^ 27 }
    requires p3_in { nat_abs p3 ≤ 2 ^ 27 }
    ensures value { result ≡ curve_coordinate n k p0 p1 p2 p3 }
    ensures most { nat_abs result ≤ 2 ^ 27 }
{
    rounded(
        weighed(n - k, k, p0, p1, p2, p3),
        i128::from(product(n, n, n)),
    )
}

// The sum of the four coordinates by their weights.
fn weighed(l: u64, k: u64, p0: i128, p1: i128, p2: i128, p3: i128) -> i128
    requires l_in { l ≤ 256 }
    requires k_in { k ≤ 256 }
    requires p0_in { nat_abs p0 ≤ 2 ^ 27 }
    requires p1_in { nat_abs p1 ≤ 2 ^ 27 }
    requires p2_in { nat_abs p2 ≤ 2 ^ 27 }
    requires p3_in { nat_abs p3 ≤ 2 ^ 27 }
    ensures value { result ≡ weighed l k p0 p1 p2 p3 }
    ensures most { nat_abs result ≤ (l + k) * (l + k) * (l + k) * 2 ^ 27 }
{
    times(product(l, l, l), p0)
        + times(3 * product(l, l, k), p1)
        + times(3 * product(l, k, k), p2)
        + times(product(k, k, k), p3)
}

// The product of three numbers.
fn product(a: u64, b: u64, c: u64) -> u64
    requires a_in { a ≤ 256 }
    requires b_in { b ≤ 256 }
    requires c_in { c ≤ 256 }
    ensures value { result ≡ a * b * c }
    ensures most { result ≤ 2 ^ 24 }
{
    a * b * c
}

// A coordinate times its weight.
fn times(weight: u64, p: i128) -> i128
    requires weight_in { weight ≤ 2 ^ 26 }
    requires p_in { nat_abs p ≤ 2 ^ 27 }
    ensures value { result ≡ pos weight *ℤ p }
    ensures most { nat_abs result ≤ weight * 2 ^ 27 }
{
    i128::from(weight) * p
}
