//! Carrying out a plot, one item at a time.
ghost use Rattle.std.specs.Prelude.{◌≡◌, IfErr, IfOk, OnOk, Ok};
ghost use Rattle.full_plot.specs.Drawings.{finished, full_at_start, full_at_start_with, is_too_much, full_runs, CarriesOut, Explains};
ghost use Rattle.full_plot.specs.Machine.{seen};
ghost use Rattle.full_plot.specs.Noted.{full_noted};

use crate::filling::Filling;
use crate::graphics::Graphics;
use crate::plotter::FullPlotter;
use crate::writing::Writing;
use carousel::Carousel;
use character_sets::Encoding;
use full_notes::Context;
use full_settings::{Characters, LineStyle, percent_of_all};
use hpgl_plot::{NoteKind, PlotFault, Plotter, Stop};
use hpgl_text::Item;
use plot_page::{MOST_STROKES, Page};
use polygons::Buffer;
use raster_graphics::Fault;
use std::alloc::Global;

impl FullPlotter {
    /// A plotter on a page, before the first item.
    pub fn new(alloc: Global, page: &Page) -> FullPlotter
        ensures { seen result ≡ full_at_start page.now }
    {
        FullPlotter::with(alloc, Encoding::ByPlot, page, &Carousel::empty())
    }

    /// The same with texts read as the user says, and with the pens of a carousel.
    pub fn with(alloc: Global, encoding: Encoding, page: &Page, carousel: &Carousel) -> FullPlotter
        ensures { seen result ≡ full_at_start_with encoding carousel.now page.now }
    {
        let plotter = Plotter::far(alloc, page, carousel);
        let margin = plotter.state.place;
        FullPlotter {
            plotter,
            context: Context::first(),
            style: LineStyle::new(),
            run: None,
            percents: percent_of_all(None),
            encoding,
            characters: Characters::usual(),
            writing: Writing::usual(alloc),
            margin,
            filling: Filling::usual(),
            buffer: Buffer::new(alloc),
            extra: 0,
            ends: Vec::new(alloc),
            areas: Vec::new(alloc),
            graphics: Graphics::new(alloc),
            alloc,
        }
    }

    /// Carries out an item, and answers what is noted on it at its first byte, or the refusal at it: of a
    /// place out of range, or of a stroke too many.
    pub fn carry_out(&mut self, item: &Item<'_>) -> Result<Option<NoteKind>, PlotFault>
        ensures carried { CarriesOut full_runs (seen self.old) item.now (seen self.new) result }
        ensures noted { IfOk result (λ noted. noted ≡ full_noted (seen self.old) item.now.body) }
    {
        match self.take(item) {
            Ok(noted) => {
                if self.is_too_much() {
                    Err(PlotFault::TooManyStrokes { at: item.at })
                } else {
                    Ok(noted)
                }
            }
            Err(Stop::Memory) => Err(PlotFault::Memory),
            Err(Stop::OffRange) => Err(PlotFault::OffRange { at: item.at }),
        }
    }

    /// Closes the image that is open after the last item, at the plot's end.
    pub fn finish(&mut self, end: usize) -> Result<(), PlotFault>
        ensures done { OnOk result (finished end (Ok (seen self.old)) ≡ Ok (seen self.new)) }
        ensures refused { IfErr result (λ fault. Explains fault (finished end (Ok (seen self.old)))) }
    {
        match self.graphics.close(self.alloc) {
            Ok(()) => self.gather().map_err(|_| PlotFault::Memory),
            Err(Fault::Memory) => Err(PlotFault::Memory),
            Err(_) => Err(PlotFault::OffRange { at: end }),
        }
    }

    // Whether there are more strokes than a plot may have, with the work that counts besides, or as many places
    // of polygons.
    fn is_too_much(&self) -> bool
        ensures { result ≡ is_too_much (seen self.now) }
    {
        self.plotter.is_full
            || self.plotter.strokes.len() + self.extra as usize > MOST_STROKES
            || self.buffer.places() > MOST_STROKES
    }
}
