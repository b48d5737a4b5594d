//! Moves in plotter units on a page that is not turned, as in most plots. 64 bits hold their numbers.
ghost use Rattle.std.specs.Prelude.{◌≡◌, ◌≤◌, ◌^◌, ◌+ℤ◌, nat_abs, if◌then◌else◌};
ghost use Rattle.std.specs.Bool.{OnTrue};
ghost use Rattle.plot_frame.specs.declared.scaling.Scaling.TheVariants.{Off};
ghost use Rattle.hpgl_plot.specs.Bounds.{IsPlain};
ghost use Rattle.hpgl_plot.specs.Paths.{pen_at, target};

use crate::plotter::Plotter;
use crate::state::Position;
use crate::turn::is_unturned;
use exact::Spot;
use hpgl_text::Number;
use plot_frame::Scaling;

impl Plotter {
    /// Whether coordinates are plotter units on a page that is not turned, so that `plain_end` takes
    /// them.
    pub fn is_plain(&self) -> bool
        ensures { OnTrue result (IsPlain self.now.page self.now.state.frame) }
    {
        is_unturned(self.state.frame.rotation) && is_off(&self.state.frame.scaling)
    }

    /// Where the pen is after a move to coordinates. It is faster than `end_of`.
    #[inline(always)]
    pub fn plain_end(&self, is_relative: bool, x: Number, y: Number) -> Position
        requires { IsPlain self.now.page self.now.state.frame }
        ensures { result ≡ pen_at self.now.page self.now.state.frame
            (target is_relative self.now.state.coordinates x y) }
    {
        let from = self.state.coordinates;
        let right = i128::from(short_target(is_relative, from.x, x.millionths()));
        let above = i128::from(short_target(is_relative, from.y, y.millionths()));
        let place = Spot {
            x: self.axes.x.unscaled_place(right),
            y: self.axes.y.unscaled_place(above),
        };
        Position {
            place,
            coordinates: Spot { x: right, y: above },
        }
    }
}

// Whether coordinates are plotter units.
#[inline]
fn is_off(scaling: &Scaling) -> bool
    ensures { OnTrue result (scaling.now ≡ Off) }
{
    match scaling {
        Scaling::Off => true,
        Scaling::Anisotropic(_) | Scaling::Isotropic(_) | Scaling::PointFactor(_) => false,
    }
}

// Where a move from a coordinate near the page ends.
#[inline(always)]
fn short_target(is_relative: bool, from: i128, n: i64) -> i64
    requires from_in { nat_abs from ≤ 2 ^ 53 }
    requires n_in { nat_abs n ≤ 2 ^ 55 }
    ensures value { result ≡ (if is_relative then from +ℤ n else n) }
    ensures short { nat_abs result ≤ 2 ^ 57 }
{
    if is_relative { from as i64 + n } else { n }
}
