//! Escapes: what their commands do.
ghost use Rattle.std.specs.Prelude.{◌≡◌, ◌∷◌, [], IfErr, IfOk, Some, None};
ghost use Rattle.std.specs.Prelude as prelude;
ghost use Rattle.escapes.specs.Views.{all_of};
ghost use Rattle.hpgl_plot.specs.Bounds.{IsInRange};
ghost use Rattle.plot_page.specs.declared.stroke.TheConstants.{FARTHEST_END};
ghost use Rattle.hpgl_plot.specs.declared.plotter.Stop.TheVariants.{OffRange};
ghost use Rattle.full_plot.specs.Commands as commands;
ghost use Rattle.full_plot.specs.Commands.{after_request, asked_of, noted_on, obeyed_from, page_end, then_asked};
ghost use Rattle.full_plot.specs.Machine.{seen, run, Runs, Obey, EndSheet};
ghost use Rattle.full_plot.specs.Sheets.{has_more, last_end};

use crate::plotter::FullPlotter;
use escapes::{Step, first_step};
use exact::Spot;
use hpgl_plot::{NoteKind, Stop};
use raster_graphics::{Answer, Fault, Language, Place, Places, Request};

impl FullPlotter {
    /// An escape, by its bytes after the ESC: its commands are obeyed, in order.
    pub(crate) fn take_escape(&mut self, taken: &[u8]) -> Result<Option<NoteKind>, Stop>
        ensures runs { Runs (run (seen self.old) (Obey (asked_of taken.now) ∷ [])) (seen self.new) result }
        ensures noted { IfOk result (λ noted. noted ≡ noted_on (asked_of taken.now) (seen self.old)) }
    {
        match first_step(taken) {
            None => Ok(None),
            Some(first) => self.obey_from(first),
        }
    }

    // The commands of an escape, from this one on.
    fn obey_from(&mut self, first: Step<'_>) -> Result<Option<NoteKind>, Stop>
        ensures done { IfOk result (λ noted. obeyed_from None (prelude.map commands.asked_by (all_of first.entry).0) (seen self.old)
            ≡ Some (seen self.new, noted)) }
        ensures stopped { IfErr result (λ stop. stop ≡ OffRange
            → obeyed_from None (prelude.map commands.asked_by (all_of first.entry).0) (seen self.old) ≡ None) }
    {
        let mut noted = None;
        let mut next = Some(first);
        'commands: while let Some(step) = next {
            let request = Request::of(&step.command);
            let Some(answer) = self.obey_request(request, step.command.input)? else {
                return Ok(noted);
            };
            noted = noted_with(noted, answer);
            next = step.following();
        }
        Ok(noted)
    }

    /// A form feed of HP RTL: the page ends.
    pub(crate) fn end_page(&mut self) -> Result<(), Stop>
        ensures { Runs (run (seen self.old) (Obey page_end ∷ [])) (seen self.new) result }
    {
        self.obey_request(Request::EndPage, &[])?;
        Ok(())
    }

    // Obeys a request. None after too many dots.
    fn obey_request(&mut self, request: Request, input: &[u8]) -> Result<Option<Answer>, Stop>
        ensures done { IfOk result (λ did. after_request (request, input.now) (seen self.old) ≡ Some (seen self.new, did)) }
        ensures stopped { IfErr result (λ stop. stop ≡ OffRange → after_request (request, input.now) (seen self.old) ≡ None) }
    {
        match self.graphics.obey(self.alloc, request, input) {
            Ok(answer) => {
                self.gather()?;
                self.do_asked(request)?;
                Ok(Some(answer))
            }
            Err(Fault::TooFar) => Err(Stop::OffRange),
            Err(Fault::Memory) => Err(Stop::Memory),
            Err(Fault::TooMuch) => {
                self.plotter.is_full = true;
                Ok(None)
            }
        }
    }

    /// Takes the images that are done out of the machine.
    pub(crate) fn gather(&mut self) -> Result<(), Stop>
        ensures { Runs (Some (commands.gathered (seen self.old))) (seen self.new) result }
    {
        let count = u32::try_from(self.plotter.strokes.len()).map_err(|_| Stop::Memory)?;
        self.graphics
            .gather(&self.plotter.page, count)
            .map_err(|_| Stop::Memory)
    }

    // What a request asks besides images.
    fn do_asked(&mut self, request: Request) -> Result<(), Stop>
        ensures { Runs (then_asked request (seen self.old)) (seen self.new) result }
    {
        match request {
            Request::Enter(Language::Rtl, Places::Carried) => self.place_at_pen(),
            Request::Enter(Language::Hpgl2, Places::Carried) => self.put_at_image(),
            Request::EndPage => self.end_sheet(),
            _ => Ok(()),
        }
    }

    // The next image begins where the pen is.
    fn place_at_pen(&mut self) -> Result<(), Stop>
        ensures { Runs (commands.at_pen (seen self.old)) (seen self.new) result }
    {
        let place = self.plotter.state.place;
        self.plotter.begin(place)?;
        self.graphics.set_place(place_of(place));
        Ok(())
    }

    // The pen and the left margin are where the next image begins.
    fn put_at_image(&mut self) -> Result<(), Stop>
        ensures { Runs (commands.at_image (seen self.old)) (seen self.new) result }
    {
        let place = spot_of(self.graphics.place());
        self.plotter.put(place)?;
        self.margin = self.plotter.state.place;
        Ok(())
    }

    /// Ends a sheet, if it has a stroke or an image.
    pub(crate) fn end_sheet(&mut self) -> Result<(), Stop>
        ensures { Runs (run (seen self.old) (EndSheet ∷ [])) (seen self.new) result }
    {
        let count = self.plotter.strokes.len();
        if has_more(
            self.ends.as_slice(),
            count,
            self.graphics.ends(),
            self.graphics.count(),
        ) {
            self.ends.push(count).map_err(|_| Stop::Memory)?;
            self.graphics.end_sheet().map_err(|_| Stop::Memory)?;
        }
        Ok(())
    }
}

// A place of the pen as one of the machine.
fn place_of(spot: Spot) -> Place
    requires { IsInRange FARTHEST_END spot }
    ensures { result ≡ record { x = spot.x; y = spot.y } }
{
    Place {
        x: spot.x as i32,
        y: spot.y as i32,
    }
}

// A place of the machine as one of the pen.
fn spot_of(place: Place) -> Spot
    ensures { result ≡ commands.spot_of place }
{
    Spot {
        x: i128::from(place.x),
        y: i128::from(place.y),
    }
}

// What is noted on an escape after a command that did this.
fn noted_with(noted: Option<NoteKind>, answer: Answer) -> Option<NoteKind>
    ensures { result ≡ commands.noted_with noted answer }
{
    match answer {
        Answer::Bad => Some(NoteKind::Bad),
        Answer::Done => noted,
        Answer::Skipped => Some(noted.unwrap_or(NoteKind::Skipped)),
    }
}

/// Whether there are strokes or images after the last sheet, by how many there were when each sheet ended.
pub(crate) fn has_more(ends: &[usize], count: usize, image_ends: &[usize], images: usize) -> bool
    ensures { result ≡ has_more ends.now count image_ends.now images }
{
    last_end(ends) < count || last_end(image_ends) < images
}

// How many there were when the last sheet ended.
fn last_end(ends: &[usize]) -> usize
    ensures { result ≡ last_end ends.now }
{
    match ends {
        [] => 0,
        [.., last] => *last,
    }
}
