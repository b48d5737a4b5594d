//! How the letters of a line lie on the page.
ghost use Rattle.std.specs.Prelude.{◌≡◌, ◌≤◌, ◌<◌, ◌^◌, ◌*◌, ◌/◌, ◌*ℤ◌, nat_abs};
ghost use Rattle.labels.specs.Labels.{IsNear};
ghost use Rattle.dxf.specs.Readable.{IsSmallForm};
ghost use Rattle.dxf.specs.Forms.{cross, crossed, dot, factor_of, form_by, form_of, height_of, leaning_of, length_of, rotation_of, some_height, square, turned, way};

use crate::angles::{Vector, angle_within, direction, rounded};
use crate::groups::GRAIN;
use exact::root;
use labels::{Line, Place};

/// The most that letters lean forward or back, in ten-thousandths of a degree: 85 degrees.
pub(crate) const MOST_LEANING: u64 = 850_000;

/// How the letters of a line lie.
#[derive(Clone, Copy)]
pub(crate) struct Form {
    /// Their height, in parts of a millimetre.
    pub(crate) height: u128,
    /// The direction of their line, in ten-thousandths of a degree.
    pub(crate) rotation: u64,
    /// Their width as a share of their height, in parts.
    pub(crate) factor: u128,
    /// By how much they lean, in ten-thousandths of a degree.
    pub(crate) leaning: u64,
    /// Whether they lean backward.
    pub(crate) is_backward: bool,
    /// Whether they are upside down.
    pub(crate) is_mirrored: bool,
    /// Whether they go on along their line, and are not one below the other.
    pub(crate) is_fit: bool,
}

// How the letters of a line lie.
pub(crate) fn form_of(line: &Line) -> Form
    ensures value { result ≡ form_of line.now }
    ensures small { IsSmallForm result }
{
    form_by(
        way(line.start, line.end),
        way(line.start, line.top),
        line.text.len(),
    )
}

// From one place to another.
fn way(from: Place, to: Place) -> Vector
    requires from { IsNear from }
    requires to { IsNear to }
    ensures value { result ≡ way from to }
    ensures x { nat_abs result.x ≤ 268435456 }
    ensures y { nat_abs result.y ≤ 268435456 }
{
    Vector {
        x: to.x - from.x,
        y: to.y - from.y,
    }
}

// The form of so many letters, by their line, and by the way to their top.
fn form_by(u: Vector, v: Vector, letters: usize) -> Form
    requires ux { nat_abs u.x ≤ 268435456 }
    requires uy { nat_abs u.y ≤ 268435456 }
    requires vx { nat_abs v.x ≤ 268435456 }
    requires vy { nat_abs v.y ≤ 268435456 }
    ensures value { result ≡ form_by u v letters }
    ensures small { IsSmallForm result }
{
    let height = height_of(u, v);
    Form {
        height,
        rotation: rotation_of(u, v),
        factor: factor_of(u, letters, height),
        leaning: leaning_of(u, v),
        is_backward: dot(u, v) < 0,
        is_mirrored: cross(u, v) < 0,
        is_fit: crossed(u, v) != 0,
    }
}

// The product of two numbers of vectors.
fn product(a: i32, b: i32) -> i64
    requires a { nat_abs a ≤ 268435456 }
    requires b { nat_abs b ≤ 268435456 }
    ensures value { result ≡ a *ℤ b }
    ensures most { nat_abs result ≤ 2 ^ 56 }
{
    i64::from(a) * i64::from(b)
}

fn cross(u: Vector, v: Vector) -> i64
    requires ux { nat_abs u.x ≤ 268435456 }
    requires uy { nat_abs u.y ≤ 268435456 }
    requires vx { nat_abs v.x ≤ 268435456 }
    requires vy { nat_abs v.y ≤ 268435456 }
    ensures value { result ≡ cross u v }
    ensures most { nat_abs result ≤ 2 ^ 57 }
{
    product(u.x, v.y) - product(u.y, v.x)
}

fn dot(u: Vector, v: Vector) -> i64
    requires ux { nat_abs u.x ≤ 268435456 }
    requires uy { nat_abs u.y ≤ 268435456 }
    requires vx { nat_abs v.x ≤ 268435456 }
    requires vy { nat_abs v.y ≤ 268435456 }
    ensures value { result ≡ dot u v }
    ensures most { nat_abs result ≤ 2 ^ 57 }
{
    product(u.x, v.x) + product(u.y, v.y)
}

// The size of the cross product.
fn crossed(u: Vector, v: Vector) -> u64
    requires ux { nat_abs u.x ≤ 268435456 }
    requires uy { nat_abs u.y ≤ 268435456 }
    requires vx { nat_abs v.x ≤ 268435456 }
    requires vy { nat_abs v.y ≤ 268435456 }
    ensures value { result ≡ crossed u v }
    ensures most { result ≤ 2 ^ 57 }
{
    cross(u, v).unsigned_abs()
}

// The size of the dot product.
fn dotted(u: Vector, v: Vector) -> u64
    requires ux { nat_abs u.x ≤ 268435456 }
    requires uy { nat_abs u.y ≤ 268435456 }
    requires vx { nat_abs v.x ≤ 268435456 }
    requires vy { nat_abs v.y ≤ 268435456 }
    ensures value { result ≡ nat_abs (dot u v) }
    ensures most { result ≤ 2 ^ 57 }
{
    dot(u, v).unsigned_abs()
}

// The square of the length of a vector.
fn square(u: Vector) -> u128
    requires x { nat_abs u.x ≤ 268435456 }
    requires y { nat_abs u.y ≤ 268435456 }
    ensures value { result ≡ square u }
    ensures most { result ≤ 2 ^ 57 }
{
    u128::from(dotted(u, u))
}

// The length of a vector, in parts.
fn length_of(u: Vector) -> u128
    requires x { nat_abs u.x ≤ 268435456 }
    requires y { nat_abs u.y ≤ 268435456 }
    ensures value { result ≡ length_of u }
    ensures most { result < 2 ^ 64 }
{
    root(GRAIN * GRAIN * square(u))
}

// One grain instead of no height.
fn some_height(height: u128) -> u128
    requires { height < 2 ^ 64 }
    ensures value { result ≡ some_height height }
    ensures most { result < 2 ^ 64 }
{
    if height == 0 { GRAIN } else { height }
}

// How far the top is from the line.
fn height_of(u: Vector, v: Vector) -> u128
    requires ux { nat_abs u.x ≤ 268435456 }
    requires uy { nat_abs u.y ≤ 268435456 }
    requires vx { nat_abs v.x ≤ 268435456 }
    requires vy { nat_abs v.y ≤ 268435456 }
    ensures value { result ≡ height_of u v }
    ensures most { result < 2 ^ 64 }
{
    let crossed = crossed(u, v);
    if crossed == 0 {
        some_height(length_of(v))
    } else {
        some_height(root(square_over(u128::from(crossed), square(u).max(1))))
    }
}

// The square of so many grains, in parts, over a number: the grains are divided first, since the square may be longer than
// 128 bits.
fn square_over(grains: u128, number: u128) -> u128
    requires grains { grains ≤ 2 ^ 57 }
    requires some { 1 ≤ number }
    requires number { number ≤ 2 ^ 57 }
    requires few { grains * grains ≤ 2 ^ 57 * number }
    ensures { result ≡ GRAIN * grains * (GRAIN * grains) / number }
{
    let square = grains * grains;
    let whole = square / number;
    GRAIN * GRAIN * whole + GRAIN * GRAIN * (square % number) / number
}

// The width of a letter as a share of its height.
fn factor_of(u: Vector, letters: usize, height: u128) -> u128
    requires x { nat_abs u.x ≤ 268435456 }
    requires y { nat_abs u.y ≤ 268435456 }
    requires height { height < 2 ^ 64 }
    ensures value { result ≡ factor_of u letters height }
    ensures most { result < 10000000 * 2 ^ 64 }
{
    let wide = length_of(u) * 10_000;
    1000 * (wide / product_of(letters, height).max(1)).max(1)
}

// So many heights.
fn product_of(letters: usize, height: u128) -> u128
    requires { height < 2 ^ 64 }
    ensures { result ≡ letters * height }
{
    letters as u128 * height
}

// A vector turned clockwise by a quarter turn.
fn turned(v: Vector) -> Vector
    requires { nat_abs v.x ≤ 268435456 }
    ensures { result ≡ turned v }
{
    Vector { x: v.y, y: -v.x }
}

// The direction of the line, or that of the width of letters that are one below the other.
fn rotation_of(u: Vector, v: Vector) -> u64
    requires ux { nat_abs u.x ≤ 268435456 }
    requires uy { nat_abs u.y ≤ 268435456 }
    requires vx { nat_abs v.x ≤ 268435456 }
    requires vy { nat_abs v.y ≤ 268435456 }
    ensures value { result ≡ rotation_of u v }
    ensures most { result < 3600000 }
{
    if crossed(u, v) == 0 {
        direction(turned(v))
    } else {
        direction(u)
    }
}

// By how much the letters lean, forward or back.
fn leaning_of(u: Vector, v: Vector) -> u64
    requires ux { nat_abs u.x ≤ 268435456 }
    requires uy { nat_abs u.y ≤ 268435456 }
    requires vx { nat_abs v.x ≤ 268435456 }
    requires vy { nat_abs v.y ≤ 268435456 }
    ensures value { result ≡ leaning_of u v }
    ensures most { result ≤ 850000 }
{
    let across = crossed(u, v);
    if across == 0 {
        0
    } else {
        MOST_LEANING.min(rounded(angle_within(across, dotted(u, v))))
    }
}
