//! What the items of a plot do.
ghost use Rattle.std.specs.Prelude.{◌≡◌, ◌++◌, IfOk, Some};
ghost use Rattle.hpgl_text.specs.declared.instruction.Instruction.TheVariants as of;
ghost use Rattle.plot_settings.specs.Meanings.{asks, meaning, sets, DrawArc, DrawCircle, entry_steps, part_steps};
ghost use Rattle.plot_settings.specs.Parameters.{arced, circled};
ghost use Rattle.full_settings.specs.ColourRanges.{pen_colour_in};
ghost use Rattle.full_notes.specs.Contexts.{params_read};
ghost use Rattle.full_notes.specs.Notes.{bad_if, bad_without, params_noted};
ghost use Rattle.full_plot.specs.Items.{as_core, more_steps, params_steps, size_by, taken};
ghost use Rattle.full_plot.specs.ContextsAfter.{after_params};
ghost use Rattle.full_plot.specs.Machine.{seen, full_step, run, Runs, Restyle, Restart};
ghost use Rattle.full_plot.specs.Noted.{full_noted};

use crate::filling::Filling;
use crate::plotter::FullPlotter;
use crate::writing::Writing;
use full_notes::{arc_read, bad_without, circle_read, is_misplaced};
use full_settings::{Characters, LetterSetting, LineStyle, colour_in, direction_setting};
use hpgl_plot::{NoteKind, Stop};
use hpgl_text::{Body, Entries, Entry, Instruction, Item, Numbers, Part};
use plot_settings::Setting;

impl FullPlotter {
    /// Carries out an item, as it is read in polygon mode and after CT, and answers what is noted on it at
    /// its first byte. One that asks for nothing does nothing.
    pub fn take(&mut self, item: &Item<'_>) -> Result<Option<NoteKind>, Stop>
        ensures runs { Runs (taken (seen self.old) item.now.body) (seen self.new) result }
        ensures noted { IfOk result (λ noted. noted ≡ full_noted (seen self.old) item.now.body) }
    {
        if is_misplaced(&item.body, self.context.in_polygon) {
            return Ok(Some(NoteKind::Bad));
        }
        match &item.body {
            Body::Further(further, numbers) => self.obey_further(*further, numbers),
            Body::Params(instruction, numbers) => self.take_params(*instruction, numbers),
            Body::Coded(polyline) => {
                self.follow_entries(polyline.entries())?;
                Ok(None)
            }
            Body::DamagedMoves(moves, numbers) => {
                self.move_by(*moves, numbers)?;
                Ok(Some(NoteKind::Bad))
            }
            Body::DamagedCurves(is_relative, numbers) => {
                self.draw_curves(*is_relative, numbers)?;
                Ok(Some(NoteKind::Bad))
            }
            Body::Label(text) => {
                self.write(text)?;
                Ok(None)
            }
            Body::Kept(text) => {
                self.writing.keep(text).map_err(|_| Stop::Memory)?;
                Ok(None)
            }
            Body::Symbol(symbol) => {
                self.writing.set_symbol(*symbol);
                Ok(None)
            }
            Body::Terminator(_) | Body::Known => Ok(None),
            Body::Escape(taken) => self.take_escape(taken),
            Body::FormFeed => {
                self.end_page()?;
                Ok(None)
            }
            Body::Skipped => Ok(Some(NoteKind::Skipped)),
            Body::Bad => Ok(Some(NoteKind::Bad)),
            Body::Stray(byte) => Ok(Some(NoteKind::Stray(*byte))),
        }
    }

    // Carries out an instruction of core.
    fn take_params(
        &mut self,
        instruction: Instruction,
        numbers: &Numbers<'_>,
    ) -> Result<Option<NoteKind>, Stop>
        ensures runs { let context = (seen self.old).context in
            Runs (run (after_params instruction (seen self.old)) (params_steps context instruction
            (params_read context.usual_chords instruction numbers.now))) (seen self.new) result }
        ensures noted { let context = (seen self.old).context in
            IfOk result (λ noted. noted ≡ params_noted context instruction
            (params_read context.usual_chords instruction numbers.now)) }
    {
        match instruction {
            Instruction::PenWidth => self.take_width(numbers),
            Instruction::PenColour => Ok(self.take_colour(numbers)),
            Instruction::Circle => self.take_circle(numbers),
            Instruction::ArcAbsolute => self.take_arc(false, numbers),
            Instruction::ArcRelative => self.take_arc(true, numbers),
            _ => self.take_other(instruction, numbers),
        }
    }

    // PC: sets the colour of a pen, in the ranges of CR, or restores colours. Wrong numbers set nothing.
    fn take_colour(&mut self, numbers: &Numbers<'_>) -> Option<NoteKind>
        ensures runs { run (seen self.old)
            (as_core (sets (pen_colour_in (seen self.old).context.ranges numbers.now)).steps) ≡ Some (seen self.new) }
        ensures noted { result ≡ bad_without (pen_colour_in (seen self.old).context.ranges numbers.now) }
    {
        let named = colour_in(&self.context.ranges, numbers);
        if let Some(setting) = named {
            self.set(setting);
        }
        bad_without(named)
    }

    // CI, whose chord may not be read.
    fn take_circle(&mut self, numbers: &Numbers<'_>) -> Result<Option<NoteKind>, Stop>
        ensures runs { Runs (run (seen self.old) (params_steps (seen self.old).context of.Circle
            (params_read (seen self.old).context.usual_chords of.Circle numbers.now))) (seen self.new) result }
        ensures noted { IfOk result (λ noted. noted ≡ bad_if (asks DrawCircle
            (circled (params_read (seen self.old).context.usual_chords of.Circle numbers.now))).is_wrong) }
    {
        match circle_read(numbers, self.context.usual_chords) {
            Some(circle) => {
                self.circle(circle)?;
                Ok(None)
            }
            None => Ok(Some(NoteKind::Bad)),
        }
    }

    // AA and AR, whose chord may not be read.
    fn take_arc(
        &mut self,
        is_relative: bool,
        numbers: &Numbers<'_>,
    ) -> Result<Option<NoteKind>, Stop>
        ensures runs { Runs (run (seen self.old) (as_core (asks (DrawArc is_relative)
            (arced (params_read (seen self.old).context.usual_chords of.ArcAbsolute numbers.now))).steps))
            (seen self.new) result }
        ensures noted { IfOk result (λ noted. noted ≡ bad_if (asks (DrawArc is_relative)
            (arced (params_read (seen self.old).context.usual_chords of.ArcAbsolute numbers.now))).is_wrong) }
    {
        match arc_read(numbers, self.context.usual_chords) {
            Some(arc) => {
                self.arc(is_relative, arc)?;
                Ok(None)
            }
            None => Ok(Some(NoteKind::Bad)),
        }
    }

    // Carries out an instruction other than PW, PC, CI, AA and AR, and what it does besides.
    fn take_other(
        &mut self,
        instruction: Instruction,
        numbers: &Numbers<'_>,
    ) -> Result<Option<NoteKind>, Stop>
        ensures runs { Runs (run (after_params instruction (seen self.old)) (as_core (meaning instruction numbers.now).steps
            ++ more_steps instruction numbers.now)) (seen self.new) result }
        ensures noted { IfOk result (λ noted. noted ≡ bad_if (meaning instruction numbers.now).is_wrong) }
    {
        self.context.pass_instruction(instruction);
        let noted = self.obey(instruction, numbers)?;
        self.do_more(instruction, numbers, noted.is_some());
        Ok(noted)
    }

    // What an instruction of core does besides, by whether its numbers are wrong.
    fn do_more(&mut self, instruction: Instruction, numbers: &Numbers<'_>, is_wrong: bool)
        requires { is_wrong ≡ (meaning instruction numbers.now).is_wrong }
        ensures { run (seen self.old) (more_steps instruction numbers.now) ≡ Some (seen self.new) }
    {
        match instruction {
            Instruction::Initialize => self.restart(),
            Instruction::DefaultValues => self.restyle(),
            Instruction::InputPoints => {
                if !is_wrong {
                    self.rewiden();
                }
            }
            Instruction::CharacterSize => {
                if !is_wrong {
                    self.letter(size_by(numbers));
                }
            }
            Instruction::Direction => {
                let (list, count) = numbers.leading();
                self.letter_if(direction_setting(&list[..count]));
            }
            _ => {}
        }
    }

    // The line style, the sets of characters and the fonts, the labels and the polygons of the start.
    fn restyle(&mut self)
        ensures { full_step (seen self.old) Restyle ≡ Some (seen self.new) }
    {
        self.style = LineStyle::new();
        self.run = None;
        self.characters = Characters::usual();
        self.writing = Writing::usual(self.alloc);
        self.filling = Filling::usual();
        self.buffer.clear();
    }

    /// The same, with the left margin at the pen.
    pub(crate) fn restart(&mut self)
        ensures { full_step (seen self.old) Restart ≡ Some (seen self.new) }
    {
        self.restyle();
        self.margin = self.plotter.state.place;
    }

    // What each entry of a PE asks for.
    fn follow_entries(&mut self, entries: Entries<'_>) -> Result<(), Stop>
        ensures { Runs (run (seen self.old) (as_core (entry_steps entries.entry))) (seen self.new) result }
    {
        let mut rest = entries;
        'entries: while let Some(entry) = rest.next() {
            self.follow_entry(&entry)?;
        }
        Ok(())
    }

    fn follow_entry(&mut self, entry: &Entry) -> Result<(), Stop>
        ensures { Runs (run (seen self.old) (as_core (part_steps entry.now.what))) (seen self.new) result }
    {
        match entry.what {
            Part::Pen(pen) => {
                self.set(Setting::Pen(pen));
                Ok(())
            }
            Part::Pair { up, absolute, x, y } => {
                self.set_down(!up);
                self.go(!absolute, x, y)?;
                Ok(())
            }
            Part::Bad | Part::Stray(_) => Ok(()),
        }
    }
}

// Where the size of letters comes from after a good SI: from its numbers, or without numbers from the font.
fn size_by(numbers: &Numbers<'_>) -> LetterSetting
    ensures { result ≡ size_by numbers.now }
{
    if numbers.len() == 0 {
        LetterSetting::FontSize
    } else {
        LetterSetting::AbsoluteSize
    }
}
