//! What escapes make: the images of a plot.
ghost use Rattle.std.specs.Prelude.{◌≡◌, ◌≢◌, IfErr, IfOk, OnOk, Ok, Err, length, true};
ghost use Rattle.raster_graphics.specs.Machines.{closed, obeyed, start};
ghost use Rattle.raster_graphics.specs.declared.fault.Fault.TheVariants.{Memory};
ghost use Rattle.full_plot.specs.Commands.{gathered_on};
ghost use Rattle.full_plot.specs.Sheets.{graphics_ended};
ghost use Rattle.full_plot.specs.Worlds.{no_graphics};

use page_images::PageImage;
use plot_page::Page;
use raster_graphics::{Answer, Fault, Machine, Place, Request};
use std::alloc::{AllocError, Global};
use std::marker::Model;

/// The machine of HP RTL, the images of a plot, and how many of these there were when each sheet ended.
#[derive(Drop)]
pub struct Graphics {
    machine: Machine,
    images: Vec<PageImage>,
    ends: Vec<usize>,
}

impl Model for Graphics {
    ghost use Rattle.raster_graphics.specs.Laws.{IsInOrder};
    ghost use Rattle.full_plot.specs.Worlds.{Graphics};

    ghost Value = { Graphics };

    ghost view = { λ g. record { machine = g.machine; images = g.images.items; ends = g.ends.items } };

    ghost invariant = { λ g. IsInOrder g.machine };
}

impl Graphics {
    /// Before the first escape.
    pub fn new(alloc: Global) -> Graphics
        ensures { result ≡ no_graphics }
    {
        Graphics {
            machine: Machine::new(alloc),
            images: Vec::new(alloc),
            ends: Vec::new(alloc),
        }
    }

    /// Obeys a request; `input` is the data of its command. After an error nothing is left of the machine.
    pub fn obey(&mut self, alloc: Global, request: Request, input: &[u8]) -> Result<Answer, Fault>
        ensures obeyed { IfOk result (λ did. (obeyed request input.now self.old.machine ≡ Ok (self.new.machine, did))
            × (self.new ≡ record self.old { machine = self.new.machine })) }
        ensures refused { IfErr result (λ fault. fault ≢ Memory → obeyed request input.now self.old.machine ≡ Err fault) }
        ensures forgotten { IfErr result (λ fault. self.new ≡ record self.old { machine = start }) }
    {
        match self.machine.obey(alloc, request, input) {
            Ok(answer) => Ok(answer),
            Err(fault) => {
                self.machine = Machine::new(alloc);
                Err(fault)
            }
        }
    }

    /// Ends the image that is open, if one is. After an error nothing is left of the machine.
    pub fn close(&mut self, alloc: Global) -> Result<(), Fault>
        ensures closed { OnOk result ((closed self.old.machine ≡ Ok self.new.machine)
            × (self.new ≡ record self.old { machine = self.new.machine })) }
        ensures refused { IfErr result (λ fault. fault ≢ Memory → closed self.old.machine ≡ Err fault) }
    {
        match self.machine.close() {
            Ok(()) => Ok(()),
            Err(fault) => {
                self.machine = Machine::new(alloc);
                Err(fault)
            }
        }
    }

    /// Takes the images that are done out of the machine: they are drawn on a page, after so many strokes.
    pub fn gather(&mut self, page: &Page, count: u32) -> Result<(), AllocError>
        ensures { OnOk result (self.new ≡ gathered_on page.now count self.old) }
    {
        'images: while let Some(image) = self.machine.take_done() {
            self.images.push(PageImage::new(image, page, count))?;
        }
        Ok(())
    }

    /// Where the next image begins.
    pub fn place(&self) -> Place
        ensures { result ≡ self.now.machine.place }
    {
        self.machine.place()
    }

    /// Sets where the next image begins.
    pub fn set_place(&mut self, place: Place)
        ensures { self.new ≡ record self.old { machine = record self.old.machine { place = place } } }
    {
        self.machine.set_place(place);
    }

    /// How many images there were when each sheet ended.
    pub fn ends(&self) -> &[usize]
        ensures { result.now ≡ self.now.ends }
    {
        self.ends.as_slice()
    }

    /// How many images there are.
    pub fn count(&self) -> usize
        ensures { result ≡ length self.now.images }
    {
        self.images.len()
    }

    /// Ends a sheet.
    pub fn end_sheet(&mut self) -> Result<(), AllocError>
        ensures { OnOk result (self.new ≡ graphics_ended true self.old) }
    {
        self.ends.push(self.images.len())?;
        Ok(())
    }

    /// The images, and how many of them there were when each sheet ended.
    pub fn into_parts(self) -> (Vec<PageImage>, Vec<usize>)
        ensures images { result.0.items ≡ self.images }
        ensures ends { result.1.items ≡ self.ends }
    {
        (self.images, self.ends)
    }
}
