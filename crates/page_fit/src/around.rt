//! The page around a drawing.
ghost use Rattle.std.specs.Prelude.{◌≡◌, ◌+◌, ◌*◌, ◌≤◌, ◌^◌, ◌+ℤ◌, ◌-ℤ◌, ◌*ℤ◌, ◌&&◌, pos, nat_abs, option_map};
ghost use Rattle.plot_page.specs.Pages.{is_roll};
ghost use Rattle.page_fit.specs.Around.{checked, corner_around, is_side, length_for, side_at, sides_around, sides_of, units_for};
ghost use Rattle.page_fit.specs.Extents.{IsNear};
ghost use Rattle.page_fit.specs.Moves.{IsCornerNear};

use crate::extent::Extent;
use plot_page::{Page, SHORTEST_SIDE};

// How many grains a plotter unit has.
const GRAINS: i64 = 16;

// How many grains a millimetre has.
const MILLIMETRE: i64 = 640;

/// The lower left corner of the page around a drawing, in plotter units from that of the page that it was drawn on.
#[derive(Clone, Copy, Debug, PartialEq, Eq)]
pub struct Corner {
    pub x: i64,
    pub y: i64,
}

/// The lower left corner of the page around a drawing of this extent, with a margin in millimetres.
pub fn corner_around(margin: u32, extent: Extent) -> Corner
    requires { IsNear extent }
    ensures value { result ≡ corner_around margin extent }
    ensures near { IsCornerNear result }
{
    Corner {
        x: side_at(margin, extent.least_x),
        y: side_at(margin, extent.least_y),
    }
}

/// The least page that holds a drawing of this extent, with a margin in millimetres around it; its corner is (0, 0).
/// `None` if a side would be longer than the longest one, in plotter units, which is at most 524,288.
pub fn page_around(longest: u32, margin: u32, extent: Extent) -> Option<Page>
    requires longest { longest ≤ 524288 }
    requires near { IsNear extent }
    ensures { option_map sides_of result ≡ sides_around longest margin extent }
{
    page_of(
        longest,
        length_for(margin, extent.least_x, extent.greatest_x),
        length_for(margin, extent.least_y, extent.greatest_y),
    )
}

// The page of this width and this height, if its sides may be so long.
fn page_of(longest: u32, width: u64, height: u64) -> Option<Page>
    requires { longest ≤ 524288 }
    ensures { option_map sides_of result
        ≡ checked longest (record { width = width; height = height; left = 0; below = 0 }) }
{
    if !are_sides(longest, width, height) {
        return None;
    }
    Page::roll(width as u32, height as u32, 0, 0)
}

/// Whether a page whose sides are at most so long, in plotter units, may have this width and this height.
pub fn are_sides(longest: u32, width: u64, height: u64) -> bool
    ensures { result ≡ (is_side longest width && is_side longest height) }
{
    is_side(longest, width) && is_side(longest, height)
}

fn is_side(longest: u32, units: u64) -> bool
    ensures { result ≡ is_side longest units }
{
    u64::from(SHORTEST_SIDE) <= units && units <= u64::from(longest)
}

// Where a side of the page lies, in plotter units.
fn side_at(margin: u32, least: i64) -> i64
    requires { nat_abs least ≤ 2 ^ 28 }
    ensures value { result ≡ side_at margin least }
    ensures near { nat_abs result ≤ 2 ^ 40 }
{
    (least - MILLIMETRE * i64::from(margin)).div_euclid(GRAINS)
}

// How long a side of the page is, in plotter units.
fn length_for(margin: u32, least: i64, greatest: i64) -> u64
    requires least { nat_abs least ≤ 2 ^ 28 }
    requires greatest { nat_abs greatest ≤ 2 ^ 28 }
    ensures { result ≡ length_for margin least greatest }
{
    u64::from(SHORTEST_SIDE).max(units_for(reach_from(side_at(margin, least), margin, greatest)))
}

// How far a drawing and its margin reach from the page's side, in grains.
fn reach_from(side: i64, margin: u32, greatest: i64) -> i64
    requires side { nat_abs side ≤ 2 ^ 40 }
    requires greatest { nat_abs greatest ≤ 2 ^ 28 }
    ensures value { result ≡ greatest +ℤ pos (640 * margin) -ℤ pos 16 *ℤ side }
    ensures near { nat_abs result ≤ 2 ^ 50 }
{
    greatest + MILLIMETRE * i64::from(margin) - GRAINS * side
}

// The least number of whole plotter units that hold some grains; none if these are below 0.
fn units_for(grains: i64) -> u64
    requires { nat_abs grains ≤ 2 ^ 50 }
    ensures value { result ≡ units_for grains }
    ensures most { 16 * result ≤ nat_abs grains + 15 }
{
    if grains < 0 {
        return 0;
    }
    grains.unsigned_abs().div_ceil(16)
}
