//! How polygons are filled.
ghost use Rattle.std.specs.Prelude.{◌≡◌};
ghost use Rattle.full_plot.specs.Fillings.{IsFilling};
ghost use Rattle.full_plot.specs.Worlds.{usual_filling};

use exact::Spot;
use full_settings::FillStyle;

/// How polygons are filled.
#[derive(Clone, Copy, Debug)]
pub struct Filling {
    /// The kind of fill (FT).
    pub fill: FillStyle,
    /// A line of hatching goes through this place on the page, in grains (AC).
    pub anchor: Spot,
}

impl Filling {
    /// What is set at the start, and by IN and DF.
    pub fn usual() -> Filling
        ensures value { result ≡ usual_filling }
        ensures sound { IsFilling result }
    {
        Filling {
            fill: FillStyle::usual(),
            anchor: Spot { x: 0, y: 0 },
        }
    }
}
