//! The labels of a plot: their texts, and where they are.
ghost use Rattle.std.specs.Prelude.{◌≡◌, ◌++◌, length, option_map, IfOk, Some};
ghost use Rattle.hpgl_text.specs.Seen.{body_shape};
ghost use Rattle.hpgl_plot.specs.Machine.{CarriesOut};
ghost use Rattle.full_plot.specs.Drawings.{full_runs};
ghost use Rattle.full_plot.specs.Labels.{label_between, label_of, labels_kept, lines_of, text_written};
ghost use Rattle.full_plot.specs.Machine.{seen};
ghost use Rattle.full_plot.specs.Noted.{full_noted};

use crate::plotter::FullPlotter;
use hpgl_plot::{NoteKind, PlotFault};
use hpgl_text::{Body, Further, Item};
use labels::{Label, Line};
use std::alloc::AllocError;

// The most bytes of a label, 2^26.
const LONGEST: usize = 67_108_864;

impl FullPlotter {
    /// Carries out an item as `carry_out` does, and adds the label that it writes to some labels if they are kept.
    pub fn advance(
        &mut self,
        item: &Item<'_>,
        keeps_labels: bool,
        labels: &mut Vec<Label>,
    ) -> Result<Option<NoteKind>, PlotFault>
        ensures carried { CarriesOut full_runs (seen self.old) item.now (seen self.new) result }
        ensures noted { IfOk result (λ noted. noted ≡ full_noted (seen self.old) item.now.body) }
        ensures labels { IfOk result (λ _. labels.new.items ≡ labels.old.items
            ++ labels_kept keeps_labels (label_between (seen self.old) item.now.body (seen self.new))) }
    {
        if keeps_labels {
            self.carry_out_labelled(item, labels)
        } else {
            self.carry_out(item)
        }
    }

    // The same with the label.
    fn carry_out_labelled(
        &mut self,
        item: &Item<'_>,
        labels: &mut Vec<Label>,
    ) -> Result<Option<NoteKind>, PlotFault>
        ensures carried { CarriesOut full_runs (seen self.old) item.now (seen self.new) result }
        ensures noted { IfOk result (λ noted. noted ≡ full_noted (seen self.old) item.now.body) }
        ensures labels { IfOk result (λ _. labels.new.items
            ≡ labels.old.items ++ label_between (seen self.old) item.now.body (seen self.new)) }
    {
        let first = self.plotter.strokes.len();
        let lines = self
            .lines_written(&item.body)
            .map_err(|_| PlotFault::Memory)?;
        let noted = self.carry_out(item)?;
        let after = self.plotter.strokes.len();
        add_label(labels, first, after, lines).map_err(|_| PlotFault::Memory)?;
        Ok(noted)
    }

    // The lines of the text that an item writes from the pen on.
    fn lines_written(&self, body: &Body<'_>) -> Result<Vec<Line>, AllocError>
        ensures { IfOk result (λ lines. lines.items ≡ lines_of (seen self.now) (text_written (seen self.now) (body_shape body.now))) }
    {
        match self.text_written(body) {
            Some(text) => self.lines_of(text),
            None => Ok(Vec::new(self.alloc)),
        }
    }

    // The lines of a text that is written from the pen on.
    fn lines_of(&self, text: &[u8]) -> Result<Vec<Line>, AllocError>
        ensures { IfOk result (λ lines. lines.items ≡ lines_of (seen self.now) (Some text.now)) }
    {
        if text.len() > LONGEST {
            return Ok(Vec::new(self.alloc));
        }
        let signs = self.reading().signs(text);
        self.lettering()
            .lines(self.alloc, self.plotter.state.place, signs)
    }

    // The text that an item writes.
    fn text_written<'a>(&'a self, body: &'a Body<'_>) -> Option<&'a [u8]>
        ensures { option_map (λ text. text.now) result ≡ text_written (seen self.now) (body_shape body.now) }
    {
        match body {
            Body::Label(text) => Some(*text),
            Body::Further(Further::PrintBuffer, _) => Some(self.writing.text()),
            _ => None,
        }
    }
}

// Adds a label of these lines, if it has lines and strokes.
fn add_label(
    labels: &mut Vec<Label>,
    first: usize,
    after: usize,
    lines: Vec<Line>,
) -> Result<(), AllocError>
    ensures { IfOk result (λ _. labels.new.items ≡ labels.old.items ++ label_of first after lines.items) }
{
    if lines.len() == 0 || after <= first {
        return Ok(());
    }
    labels.push(Label {
        first,
        after,
        lines,
    })?;
    Ok(())
}
