//! Values for the two axes.
ghost use Rattle.std.specs.Prelude.{◌≡◌};
ghost use Rattle.plot_frame.specs.Frame.{on_axis};

/// An axis of a plot.
#[derive(Clone, Copy, Debug)]
pub enum AxisName {
    X,
    Y,
}

/// A value for each axis.
#[derive(Clone, Copy, Debug)]
pub struct Pair<T> {
    pub x: T,
    pub y: T,
}

impl<T: Copy> Pair<T> {
    /// The value for an axis.
    pub fn on_axis(&self, name: AxisName) -> T
        ensures { result ≡ on_axis name self.now }
    {
        match name {
            AxisName::X => self.x,
            AxisName::Y => self.y,
        }
    }
}
