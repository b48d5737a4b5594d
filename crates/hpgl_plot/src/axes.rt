//! The axes of a frame as lines, by which places and coordinates are computed.
ghost use Rattle.plot_frame.specs.Bounds.{IsPoints, IsScaling};
ghost use Rattle.hpgl_plot.specs.Bounds.{AreAxes};

use crate::state::Frame;
use plot_frame::{Axis, AxisName, Pair, axis_of};
use plot_page::Page;

/// The axes of a frame on a page.
pub fn axes_of(page: &Page, frame: &Frame) -> Pair<Axis>
    requires points { IsPoints frame.now.points }
    requires scaling { IsScaling frame.now.scaling }
    ensures { AreAxes page.now frame.now result }
{
    Pair {
        x: axis_of(AxisName::X, &frame.points, &frame.scaling, page.left),
        y: axis_of(AxisName::Y, &frame.points, &frame.scaling, page.below),
    }
}
