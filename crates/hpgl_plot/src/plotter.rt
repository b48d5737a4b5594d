//! The plotter: what is set, and the strokes that were made.
ghost use Rattle.hpgl_plot.specs.Bounds.{IsSound};
ghost use Rattle.hpgl_plot.specs.Unique.{IsScaling-prop};
ghost use Rattle.std.proofs.Props.{props};

mod arcs;
mod figures;
mod labels;
mod moves;
pub mod outlines;
mod plain;
mod settings;

use crate::fault::PlotFault;
use crate::note::NoteKind;
use crate::noting::{noted_kind, noted_parameters};
use crate::place::{start_axes, start_of};
use crate::state::State;
use carousel::Carousel;
use hpgl_text::{Body, Entries, Instruction, Item, Moves, Numbers, Part};
use plot_frame::{Axis, Pair};
use plot_page::{FARTHEST_END, FARTHEST_PLACE, Page, Stroke};
use plot_settings::{Request, request_of};
use std::alloc::Global;

/// Why an instruction is not carried out.
#[derive(Clone, Copy, Debug, PartialEq, Eq)]
pub enum Stop {
    /// There is no memory for it.
    Memory,
    /// It goes to a place out of range.
    OffRange,
}

/// The page, how far places may lie from its corner in x and in y, in grains, what is set, the axes of the frame that is
/// set, the strokes that were made, and whether there were more than a plot may have, which are not kept.
#[derive(Drop)]
pub struct Plotter {
    pub page: Page,
    pub range: u32,
    pub state: State,
    pub axes: Pair<Axis>,
    pub strokes: Vec<Stroke>,
    pub is_full: bool,
    pub ghost sound: { IsSound page range axes state } by { Prim.hlevel (IsScaling-prop, props) },
}

impl Plotter {
    ghost use Rattle.std.specs.Prelude.{◌≡◌, IfOk, Some, true};
    ghost use Rattle.hpgl_text.specs.SeenEntries.{part_shape};
    ghost use Rattle.hpgl_plot.specs.Bounds.{IsPlain, IsRangeOfPlaces};
    ghost use Rattle.plot_settings.specs.Requests.{request_meaning, move_steps, IsRequest};
    ghost use Rattle.hpgl_plot.specs.Machine.{seen, at_start, at_start_with, far_start, step, run, runs, Runs, CarriesOut};
    ghost use Rattle.hpgl_plot.specs.Notes.{item_noted, parameters_noted};
    ghost use Rattle.plot_settings.specs.Meanings.{Lower, Relate, moves, lowered_then, part_steps, entry_steps};
    ghost use Rattle.plot_settings.specs.Meanings.{meaning, steps_of};

    /// A plotter of the profile core on a page, before the first item.
    pub fn new(alloc: Global, page: &Page) -> Plotter
        ensures { seen result ≡ at_start page.now }
    {
        Plotter::with_pens(alloc, page, &Carousel::empty())
    }

    /// The same with the pens of a carousel.
    pub fn with_pens(alloc: Global, page: &Page, carousel: &Carousel) -> Plotter
        ensures { seen result ≡ at_start_with carousel.now page.now }
    {
        Plotter::with_range(alloc, page, FARTHEST_PLACE, carousel)
    }

    /// The same, where places lie as far as a number of a plot leads.
    pub fn far(alloc: Global, page: &Page, carousel: &Carousel) -> Plotter
        ensures { seen result ≡ far_start carousel.now page.now }
    {
        Plotter::with_range(alloc, page, FARTHEST_END, carousel)
    }

    // The same, where places lie within so many grains of the page's corner.
    fn with_range(alloc: Global, page: &Page, range: u32, carousel: &Carousel) -> Plotter
        requires { IsRangeOfPlaces range }
        ensures { seen result ≡ record (at_start_with carousel.now page.now) { range = range } }
    {
        let axes = start_axes(page);
        Plotter {
            page: *page,
            range,
            state: start_of(page, range, &axes, carousel),
            axes,
            strokes: Vec::new(alloc),
            is_full: false,
        }
    }

    /// Carries out an item, and answers what is noted on it at its first byte. Only the instructions of the
    /// profile core do something, and of these not DT.
    pub fn take(&mut self, item: &Item<'_>) -> Result<Option<NoteKind>, Stop>
        ensures runs { Runs (run (seen self.old) (steps_of item.now)) (seen self.new) result }
        ensures noted { IfOk result (λ noted. noted ≡ item_noted item.now) }
    {
        match &item.body {
            Body::Params(instruction, numbers) => self.obey(*instruction, numbers),
            Body::Coded(polyline) => {
                self.follow_entries(polyline.entries())?;
                Ok(None)
            }
            Body::Label(bytes) => {
                self.write(bytes)?;
                Ok(None)
            }
            _ => Ok(noted_kind(item)),
        }
    }

    /// The same, with the refusal at the item: of a place out of range, or of a stroke too many.
    pub fn carry_out(&mut self, item: &Item<'_>) -> Result<Option<NoteKind>, PlotFault>
        ensures carried { CarriesOut runs (seen self.old) item.now (seen self.new) result }
        ensures noted { IfOk result (λ noted. noted ≡ item_noted item.now) }
    {
        match self.take(item) {
            Ok(noted) => {
                if self.is_full {
                    Err(PlotFault::TooManyStrokes { at: item.at })
                } else {
                    Ok(noted)
                }
            }
            Err(Stop::Memory) => Err(PlotFault::Memory),
            Err(Stop::OffRange) => Err(PlotFault::OffRange { at: item.at }),
        }
    }

    // Carries out an instruction with its numbers, and answers what is noted on it.
    fn obey(
        &mut self,
        instruction: Instruction,
        numbers: &Numbers<'_>,
    ) -> Result<Option<NoteKind>, Stop>
        ensures runs { Runs (run (seen self.old) (meaning instruction numbers.now).steps) (seen self.new) result }
        ensures noted { IfOk result (λ noted. noted ≡ parameters_noted instruction numbers.now) }
    {
        let request = request_of(instruction, numbers);
        let noted = noted_parameters(instruction, numbers, &request);
        self.do_request(request, numbers)?;
        Ok(noted)
    }

    // Does what an instruction with these numbers asks for.
    fn do_request(&mut self, request: Request, numbers: &Numbers<'_>) -> Result<(), Stop>
        requires { IsRequest request }
        ensures { Runs (run (seen self.old) (request_meaning request numbers.now).steps) (seen self.new) result }
    {
        match request {
            Request::Wrong => Ok(()),
            Request::Set(setting) => {
                self.set(setting);
                Ok(())
            }
            Request::Move(moves) => self.move_by(moves, numbers),
            Request::Edge(is_relative, corner) => {
                self.edge(is_relative, corner)?;
                Ok(())
            }
            Request::Circle(circle) => {
                self.circle(circle)?;
                Ok(())
            }
            Request::Arc(is_relative, arc) => {
                self.arc(is_relative, arc)?;
                Ok(())
            }
        }
    }

    // PU, PD, PA or PR: a move to each pair of its numbers.
    fn move_by(&mut self, moves: Moves, numbers: &Numbers<'_>) -> Result<(), Stop>
        ensures { Runs (run (seen self.old) (move_steps moves numbers.now)) (seen self.new) result }
    {
        match moves {
            Moves::Up => {
                self.set_down(false);
                self.follow(numbers)
            }
            Moves::Down => self.lower(numbers),
            Moves::Absolute => {
                self.set_relative(false);
                self.follow(numbers)
            }
            Moves::Relative => {
                self.set_relative(true);
                self.follow(numbers)
            }
        }
    }

    // PD: a dot if it makes no move, and its moves.
    fn lower(&mut self, numbers: &Numbers<'_>) -> Result<(), Stop>
        ensures { Runs (run (seen self.old) (lowered_then (moves numbers.now))) (seen self.new) result }
    {
        if numbers.len() < 2 {
            self.touch()?;
        }
        self.set_down(true);
        self.follow(numbers)
    }

    // A move to each pair.
    fn follow(&mut self, numbers: &Numbers<'_>) -> Result<(), Stop>
        ensures { Runs (run (seen self.old) (moves numbers.now)) (seen self.new) result }
    {
        let is_plain = self.is_plain();
        let mut rest = numbers.iter();
        'pairs: while let Some(x) = rest.next() {
            let Some(y) = rest.next() else {
                return Ok(());
            };
            self.move_to(x, y, is_plain)?;
        }
        Ok(())
    }

    // What each entry of a PE asks for.
    fn follow_entries(&mut self, entries: Entries<'_>) -> Result<(), Stop>
        ensures { Runs (run (seen self.old) (entry_steps entries.entry)) (seen self.new) result }
    {
        let is_plain = self.is_plain();
        let mut rest = entries;
        'entries: while let Some(entry) = rest.next() {
            self.follow_part(entry.what, is_plain)?;
        }
        Ok(())
    }

    // What a part of a PE asks for. If the frame is plain, which `is_plain` tells once for all parts, it is faster.
    #[inline(always)]
    fn follow_part(&mut self, part: Part, is_plain: bool) -> Result<(), Stop>
        requires { is_plain ≡ true → IsPlain self.old.page self.old.state.frame }
        ensures { Runs (run (seen self.old) (part_steps (part_shape part))) (seen self.new) result }
    {
        match part {
            Part::Pen(pen) => {
                self.select(pen);
                Ok(())
            }
            Part::Pair { up, absolute, x, y } => {
                self.set_down(!up);
                self.go_by(!absolute, x, y, is_plain)?;
                Ok(())
            }
            Part::Bad | Part::Stray(_) => Ok(()),
        }
    }

    /// The pen goes down, or up.
    #[tactic(auto, unfolding(crate::specs::Machine::step))]
    pub fn set_down(&mut self, is_down: bool)
        ensures { step (seen self.old) (Lower is_down) ≡ Some (seen self.new) }
    {
        self.state.is_down = is_down;
    }

    /// Coordinates are relative from here on, or absolute.
    #[tactic(auto, unfolding(crate::specs::Machine::step))]
    pub fn set_relative(&mut self, is_relative: bool)
        ensures { step (seen self.old) (Relate is_relative) ≡ Some (seen self.new) }
    {
        self.state.is_relative = is_relative;
    }
}
