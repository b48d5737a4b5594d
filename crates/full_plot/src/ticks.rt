//! Ticks.
ghost use Rattle.std.specs.Prelude.{◌≡◌, ◌≤◌, ◌^◌, nat_abs, neg_ℤ};
ghost use Rattle.directions.specs.Bounds.{IsWithin};
ghost use Rattle.full_plot.specs.Machine.{seen, Runs};
ghost use Rattle.full_plot.specs.Texts as texts;

use crate::ink::ink_stroke;
use crate::plotter::FullPlotter;
use exact::Spot;
use full_settings::{distance, grains_of_share};
use hpgl_plot::Stop;
use plot_settings::Rotation;

impl FullPlotter {
    /// XT, which is upright, or YT, which is level: a tick at the pen.
    pub fn tick(&mut self, is_upright: bool) -> Result<(), Stop>
        ensures { Runs (texts.ticked (seen self.old) is_upright) (seen self.new) result }
    {
        let ticks = self.writing.ticks();
        let distance = self.tick_distance(is_upright);
        let down = opposite(grains_of_share(distance, ticks.down));
        let up = i128::from(grains_of_share(distance, ticks.up));
        let rotation = self.plotter.state.frame.rotation;
        let from = tick_end(rotation, is_upright, down);
        let to = tick_end(rotation, is_upright, up);
        let start = self.plotter.state.place;
        ink_stroke(&mut self.plotter, start, from, to)
    }

    // From P1 to P2 in the tick's direction, in plotter units.
    fn tick_distance(&self, is_upright: bool) -> i64
        ensures value { result ≡ texts.tick_distance (seen self.now) is_upright }
        ensures most { nat_abs result ≤ 2 ^ 25 }
    {
        let points = &self.plotter.state.frame.points;
        if is_upright {
            distance(points.y)
        } else {
            distance(points.x)
        }
    }
}

// As many grains on the other side.
fn opposite(length: i64) -> i128
    requires { nat_abs length ≤ 2 ^ 40 }
    ensures value { result ≡ neg_ℤ length }
    ensures most { nat_abs result ≤ 2 ^ 40 }
{
    -i128::from(length)
}

// Where a part of a tick ends that is so many grains long, from the pen.
fn tick_end(rotation: Rotation, is_upright: bool, length: i128) -> Spot
    requires { nat_abs length ≤ 2 ^ 40 }
    ensures value { result ≡ texts.tick_end rotation is_upright length }
    ensures within { IsWithin (2 ^ 95) result }
{
    let (x, y) = if is_upright { (0, length) } else { (length, 0) };
    match rotation {
        Rotation::None => Spot { x, y },
        Rotation::Quarter => Spot { x: -y, y: x },
        Rotation::Half => Spot { x: -x, y: -y },
        Rotation::ThreeQuarters => Spot { x: y, y: -x },
    }
}
