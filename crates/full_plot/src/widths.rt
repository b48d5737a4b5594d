//! Widths of pens, in millimetres and in percent.
ghost use Rattle.std.specs.Prelude.{◌≡◌, IfOk, IfSome, Some};
ghost use Rattle.full_notes.specs.Notes.{width_noted};
ghost use Rattle.full_plot.specs.Items.{width_steps, widths_steps};
ghost use Rattle.full_plot.specs.Machine.{seen, full_step, run, Runs, Widen, Rewiden, widths_set};
ghost use Rattle.full_settings.specs.Widths.{IsWidthSetting};

use crate::plotter::FullPlotter;
use full_notes::bad_without;
use full_settings::{WidthSetting, diagonal_by, percent_of_all, percent_setting, widths_by};
use hpgl_plot::{NoteKind, Stop};
use hpgl_text::{Instruction, Numbers};
use plot_settings::{FIRST_WIDTH, Setting};

impl FullPlotter {
    /// PW (Pen Width): in millimetres as in core, or in percent. Wrong numbers set nothing.
    pub fn take_width(&mut self, numbers: &Numbers<'_>) -> Result<Option<NoteKind>, Stop>
        ensures runs { Runs (run (seen self.old) (width_steps (seen self.old).context.in_percent numbers.now))
            (seen self.new) result }
        ensures noted { IfOk result (λ noted. noted ≡ width_noted (seen self.old).context.in_percent numbers.now) }
    {
        if !self.context.in_percent {
            return self.obey(Instruction::PenWidth, numbers);
        }
        let (list, count) = numbers.leading();
        let setting = percent_setting(&list[..count]);
        self.widen_if(setting);
        Ok(bad_without(setting))
    }

    // Sets what a PW in percent asks for, if its numbers are not wrong.
    fn widen_if(&mut self, setting: Option<WidthSetting>)
        requires { IfSome setting IsWidthSetting }
        ensures { run (seen self.old) (widths_steps setting) ≡ Some (seen self.new) }
    {
        if let Some(setting) = setting {
            self.widen(setting);
        }
    }

    /// Sets what a WU, a PT or a PW in percent asks for, in the context after it.
    pub fn widen(&mut self, setting: WidthSetting)
        requires { IsWidthSetting setting }
        ensures { full_step (seen self.old) (Widen setting) ≡ Some (seen self.new) }
    {
        self.set_widths(setting);
        self.rewiden();
    }

    // Sets widths in percent, or in grains.
    #[tactic(auto, unfolding(hpgl_plot::specs::Machine::step))]
    fn set_widths(&mut self, setting: WidthSetting)
        requires { IsWidthSetting setting }
        ensures { seen self.new ≡ widths_set setting (seen self.old) }
    {
        let selected = self.plotter.state.pen;
        match setting {
            WidthSetting::Millimetres => self.plotter.set(Setting::WidthOfAll(FIRST_WIDTH)),
            WidthSetting::PercentOfAll(percent) => self.percents = percent_of_all(Some(percent)),
            WidthSetting::Percent(pen, percent) => {
                self.percents[usize::from(pen)] = Some(percent);
            }
            WidthSetting::Thickness(width) => {
                self.percents[usize::from(selected)] = None;
                self.plotter.set(Setting::Width(selected, width));
            }
        }
    }

    /// Takes the widths that are in percent of P1 and P2 as they are now.
    pub fn rewiden(&mut self)
        ensures { full_step (seen self.old) Rewiden ≡ Some (seen self.new) }
    {
        if self.context.in_percent {
            let diagonal = diagonal_by(&self.plotter.state.frame.points);
            self.plotter.state.widths = widths_by(
                &self.percents,
                diagonal,
                &self.plotter.state.widths,
            );
        }
    }
}
