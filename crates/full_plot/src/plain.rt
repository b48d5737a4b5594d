//! The steps of core that draw no lines.
ghost use Rattle.std.specs.Prelude.{◌≡◌, Some};
ghost use Rattle.plot_settings.specs.Bounds.{IsSetting};
ghost use Rattle.plot_settings.specs.Meanings.{Set, Lower, Relate, Touch};
ghost use Rattle.full_plot.specs.Machine.{seen, core_step, Runs};

use crate::plotter::FullPlotter;
use hpgl_plot::Stop;
use plot_settings::Setting;

impl FullPlotter {
    /// Sets what an instruction of core asks for.
    pub fn set(&mut self, setting: Setting)
        requires { IsSetting setting }
        ensures { core_step (seen self.old) (Set setting) ≡ Some (seen self.new) }
    {
        self.plotter.set(setting);
    }

    /// The pen goes down, or up.
    pub fn set_down(&mut self, is_down: bool)
        ensures { core_step (seen self.old) (Lower is_down) ≡ Some (seen self.new) }
    {
        self.plotter.set_down(is_down);
    }

    /// Coordinates are relative from here on, or absolute.
    pub fn set_relative(&mut self, is_relative: bool)
        ensures { core_step (seen self.old) (Relate is_relative) ≡ Some (seen self.new) }
    {
        self.plotter.set_relative(is_relative);
    }

    /// A dot, unless the pen is down, or polygon mode is on.
    pub fn touch(&mut self) -> Result<(), Stop>
        ensures { Runs (core_step (seen self.old) Touch) (seen self.new) result }
    {
        if self.context.in_polygon {
            return Ok(());
        }
        self.plotter.touch()
    }
}
