//! Angles, in ten-millionths of a degree, and in ten-thousandths.
ghost use Rattle.std.specs.Prelude.{◌≡◌, ◌≤◌, ◌<◌, ◌^◌, ◌*◌, ◌/◌, nat_abs, length, slice_index_or};
ghost use Rattle.dxf.specs.Angles.{angle_by, angle_of_entry, angle_of_tangent, angle_within, direction, rounded};

use crate::tangents::ANGLES;

/// A quarter turn, a half turn, and a whole turn.
pub(crate) const QUARTER_TURN: u64 = 900_000_000;

pub(crate) const HALF_TURN: u64 = 1_800_000_000;

pub(crate) const WHOLE_TURN: u64 = 3_600_000_000;

/// A tangent of 1.
const ONE: u128 = 16_777_216;

/// How far one place is from another, in grains.
#[derive(Clone, Copy)]
pub(crate) struct Vector {
    pub(crate) x: i32,
    pub(crate) y: i32,
}

// The direction of a vector, in ten-thousandths of a degree.
pub(crate) fn direction(vector: Vector) -> u64
    ensures value { result ≡ direction vector }
    ensures most { result < 3600000 }
{
    rounded(angle_by(vector, angle_of_sizes(vector))) % 3_600_000
}

// The angle of the vector of the sizes of the numbers of another one.
fn angle_of_sizes(vector: Vector) -> u64
    ensures value { result ≡ angle_within (nat_abs vector.x) (nat_abs vector.y) }
    ensures most { result ≤ 2 ^ 34 }
{
    angle_within(size(vector.x), size(vector.y))
}

// The size of a number.
fn size(number: i32) -> u64
    ensures value { result ≡ nat_abs number }
    ensures most { result ≤ 2 ^ 31 }
{
    u64::from(number.unsigned_abs())
}

// The angle of a vector, by that of the sizes of its numbers.
fn angle_by(vector: Vector, within: u64) -> u64
    requires { within ≤ 2 ^ 34 }
    ensures value { result ≡ angle_by vector within }
    ensures most { result ≤ 2 ^ 35 }
{
    if vector.y < 0 {
        if vector.x < 0 {
            HALF_TURN + within
        } else {
            WHOLE_TURN.saturating_sub(within)
        }
    } else if vector.x < 0 {
        HALF_TURN.saturating_sub(within)
    } else {
        within
    }
}

// An angle in ten-thousandths of a degree, rounded.
pub(crate) fn rounded(angle: u64) -> u64
    requires { angle ≤ 2 ^ 35 }
    ensures value { result ≡ rounded angle }
    ensures most { result ≤ 2 ^ 35 }
{
    (angle + 500) / 1000
}

// The angle, from 0 to a quarter turn, of a vector of which x and y are not negative.
pub(crate) fn angle_within(x: u64, y: u64) -> u64
    requires x { x ≤ 2 ^ 60 }
    requires y { y ≤ 2 ^ 60 }
    ensures value { result ≡ angle_within x y }
    ensures most { result ≤ 2 ^ 34 }
{
    if x + y == 0 {
        0
    } else if y <= x {
        angle_of_tangent(share(y, x))
    } else {
        QUARTER_TURN.saturating_sub(angle_of_tangent(share(x, y)))
    }
}

// How many parts of 2^24 a number is of one that is no less.
fn share(number: u64, of: u64) -> u32
    requires some { 0 < of }
    requires less { number ≤ of }
    ensures value { result ≡ number * 16777216 / of }
    ensures most { result ≤ 16777216 }
{
    (u128::from(number) * ONE / u128::from(of)) as u32
}

// The angle whose tangent is so many parts of 2^24: between two entries of the table by a straight line.
fn angle_of_tangent(parts: u32) -> u64
    ensures value { result ≡ angle_of_tangent parts }
    ensures most { result ≤ 2 ^ 34 }
{
    let index = parts / 65_536;
    let angle = angle_of_entry(index);
    let further = angle_of_entry(index + 1).saturating_sub(angle);
    angle + further * u64::from(parts % 65_536) / 65_536
}

// An entry of the table, 0 after its end.
fn angle_of_entry(index: u32) -> u64
    ensures value { result ≡ angle_of_entry index }
    ensures most { result < 2 ^ 32 }
{
    entry_of(&ANGLES, index)
}

// An entry of a table, 0 after its end.
fn entry_of(table: &[u32], index: u32) -> u64
    ensures value { result ≡ slice_index_or table.now index 0 }
    ensures most { result < 2 ^ 32 }
{
    match table.get(index as usize) {
        Some(entry) => u64::from(*entry),
        None => 0,
    }
}
