//! How strokes and areas show, by TR and SV.
ghost use Rattle.std.specs.Prelude.{◌≡◌, Some};
ghost use Rattle.hpgl_plot.specs.Inks.{unscreened};
ghost use Rattle.hpgl_plot.specs.Bounds.{IsInRange};
ghost use Rattle.hpgl_plot.specs.Strokes.{by_a_pen, stroke};
ghost use Rattle.full_plot.specs.Inks as inks;
ghost use Rattle.full_plot.specs.Machine.{seen, full_step, InkBy};

use crate::plotter::FullPlotter;
use full_settings::{FillKind, InkSetting};

impl FullPlotter {
    /// Sets how strokes and areas show.
    pub fn set_ink(&mut self, setting: InkSetting)
        ensures { full_step (seen self.old) (InkBy setting) ≡ Some (seen self.new) }
    {
        match setting {
            InkSetting::HidesWhite(hides) => self.plotter.state.hides_white = hides,
            InkSetting::Screen(screen) => self.plotter.state.screen = screen,
            InkSetting::OtherScreen => self.plotter.state.screen = None,
        }
    }

    /// Whether the pen that is selected fills nothing.
    pub fn fills_nothing(&self) -> bool
        ensures { result ≡ inks.fills_nothing (seen self.now).filling.fill.kind (seen self.now).core.state }
    {
        match self.filling.fill.kind {
            FillKind::Hatched | FillKind::CrossHatched => self.plotter.draws_nothing(),
            FillKind::Solid | FillKind::Shaded => self.plotter.fills_nothing(),
        }
    }
}
