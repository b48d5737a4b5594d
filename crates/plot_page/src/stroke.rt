//! Strokes: what a plot is made of once it has been drawn.
ghost use Rattle.std.specs.Prelude.{◌≡◌, ◌≤◌, is_some, IfSome, ◌&&◌};
ghost use Rattle.plot_page.specs.Strokes.{is_on_page, is_corner, is_window, is_drawn_with, is_stroke};
ghost use Rattle.plot_page.specs.Strokes.{is_on_roll, is_roll_window, is_far_stroke};
ghost use Rattle.plot_page.specs.Segments.{is_end, is_far_end};

use crate::colour::Colour;
use crate::window::Window;
use std::marker::Model;

/// The greatest width of a stroke, in grains: 20 mm.
pub const GREATEST_WIDTH: u32 = 12_800;

/// How far a place may be from the lower left corner of the page in x and in y in the profile core, in grains: 65,536
/// plotter units. No corner of a window is farther away there.
pub const FARTHEST_PLACE: u32 = 1_048_576;

/// How far an end of any stroke may be from the lower left corner of the page in x and in y, in grains: 8,388,607 plotter
/// units, as far as a number of a plot leads.
pub const FARTHEST_END: u32 = 134_217_712;

/// How far a corner of any window may be from the lower left corner of the page in x and in y, in grains: 524,288 plotter
/// units, the longest side of a page.
pub const FARTHEST_EDGE: u32 = 8_388_608;

/// The most strokes of a plot.
pub const MOST_STROKES: usize = 4_194_304;

/// A straight line that a pen drew, from (`ax`, `ay`) to (`bx`, `by`), in grains of 1/16 plotter
/// unit from the page's lower left corner. The pen is 1 to 255, the colour the one that the pen had
/// then, the width 0 to 12,800 grains (20 mm), each end within 134,217,712 grains of the corner in x
/// and in y, and each number of the window, in which the stroke is seen, 0 to 8,388,608.
#[derive(Clone, Copy, Debug)]
pub struct Stroke {
    pub pen: u8,
    pub colour: Colour,
    pub width: u32,
    pub window: Window,
    pub ax: i32,
    pub ay: i32,
    pub bx: i32,
    pub by: i32,
}

impl Model for Stroke {
    ghost use Rattle.plot_page.specs.Segments.{Segment};
    ghost use Rattle.plot_page.specs.Strokes.{IsStroke};

    ghost Value = { Segment };

    ghost view = { λ s. record {
      pen = s.pen;
      colour = s.colour;
      width = s.width;
      window = s.window;
      ax = s.ax;
      ay = s.ay;
      bx = s.bx;
      by = s.by;
    } };

    ghost invariant = { λ s. IsStroke (record {
      pen = s.pen;
      colour = s.colour;
      width = s.width;
      window = s.window;
      ax = s.ax;
      ay = s.ay;
      bx = s.bx;
      by = s.by;
    }) };

    ghost inverse = { λ s. record {
      pen = s.pen;
      colour = s.colour;
      width = s.width;
      window = s.window;
      ax = s.ax;
      ay = s.ay;
      bx = s.bx;
      by = s.by;
    } };
}

impl Stroke {
    /// A stroke of the profile core, whose ends are within 1,048,576 grains of the corner and whose window's numbers are
    /// 0 to 1,048,576, or `None` if a number is out of its range.
    pub fn new(
        pen: u8,
        colour: Colour,
        width: u32,
        window: Window,
        ax: i32,
        ay: i32,
        bx: i32,
        by: i32,
    ) -> Option<Stroke>
        ensures given { is_some result ≡ is_stroke (record {
          pen = pen;
          colour = colour;
          width = width;
          window = window;
          ax = ax;
          ay = ay;
          bx = bx;
          by = by;
        }) }
        ensures stroke { IfSome result (λ s. s ≡ record {
          pen = pen;
          colour = colour;
          width = width;
          window = window;
          ax = ax;
          ay = ay;
          bx = bx;
          by = by;
        }) }
    {
        if !has_corners(window) {
            return None;
        }
        if !has_ends(ax, ay, bx, by) {
            return None;
        }
        Stroke::far(pen, colour, width, window, ax, ay, bx, by)
    }

    /// A stroke that leads as far as a plot can, or `None` if a number is out of its range.
    pub fn far(
        pen: u8,
        colour: Colour,
        width: u32,
        window: Window,
        ax: i32,
        ay: i32,
        bx: i32,
        by: i32,
    ) -> Option<Stroke>
        ensures given { is_some result ≡ is_far_stroke (record {
          pen = pen;
          colour = colour;
          width = width;
          window = window;
          ax = ax;
          ay = ay;
          bx = bx;
          by = by;
        }) }
        ensures stroke { IfSome result (λ s. s ≡ record {
          pen = pen;
          colour = colour;
          width = width;
          window = window;
          ax = ax;
          ay = ay;
          bx = bx;
          by = by;
        }) }
    {
        if !has_pen_and_width(pen, width) {
            return None;
        }
        if !has_far_corners(window) {
            return None;
        }
        if !has_far_ends(ax, ay, bx, by) {
            return None;
        }
        Some(Stroke {
            pen,
            colour,
            width,
            window,
            ax,
            ay,
            bx,
            by,
        })
    }
}

// Whether a stroke may have this pen and this width.
fn has_pen_and_width(pen: u8, width: u32) -> bool
    ensures { result ≡ is_drawn_with pen width }
{
    pen >= 1 && width <= GREATEST_WIDTH
}

// Whether the window's corners are on the greatest page.
fn has_corners(window: Window) -> bool
    ensures { result ≡ is_window window }
{
    is_corner_on_page(window.x0, window.y0) && is_corner_on_page(window.x1, window.y1)
}

fn is_corner_on_page(x: i32, y: i32) -> bool
    ensures { result ≡ is_corner x y }
{
    is_coordinate_on_page(x) && is_coordinate_on_page(y)
}

fn is_coordinate_on_page(z: i32) -> bool
    ensures { result ≡ is_on_page z }
{
    0 <= z && z.unsigned_abs() <= FARTHEST_PLACE
}

// Whether both ends lie in the range of places.
fn has_ends(ax: i32, ay: i32, bx: i32, by: i32) -> bool
    ensures { result ≡ (is_end ax ay && is_end bx by) }
{
    is_in_range(ax, ay) && is_in_range(bx, by)
}

fn is_in_range(x: i32, y: i32) -> bool
    ensures { result ≡ is_end x y }
{
    x.unsigned_abs() <= FARTHEST_PLACE && y.unsigned_abs() <= FARTHEST_PLACE
}

// Whether the window's corners are on the longest page.
fn has_far_corners(window: Window) -> bool
    ensures { result ≡ is_roll_window window }
{
    is_on_roll(window.x0)
        && is_on_roll(window.y0)
        && (is_on_roll(window.x1) && is_on_roll(window.y1))
}

fn is_on_roll(z: i32) -> bool
    ensures { result ≡ is_on_roll z }
{
    0 <= z && z.unsigned_abs() <= FARTHEST_EDGE
}

// Whether both ends are as near as those of any stroke.
fn has_far_ends(ax: i32, ay: i32, bx: i32, by: i32) -> bool
    ensures { result ≡ (is_far_end ax ay && is_far_end bx by) }
{
    is_near_enough(ax, ay) && is_near_enough(bx, by)
}

fn is_near_enough(x: i32, y: i32) -> bool
    ensures { result ≡ is_far_end x y }
{
    x.unsigned_abs() <= FARTHEST_END && y.unsigned_abs() <= FARTHEST_END
}
