//! Labels, stroke by stroke.
ghost use Rattle.std.specs.Prelude.{◌≡◌, true, map};
ghost use Rattle.std.specs.Bool.{OnTrue};
ghost use Rattle.stick_font.specs.Bounds.{IsLabelPoint, IsLabelStroke, IsShortCell, IsShortPoint, IsShortStroke};
ghost use Rattle.hpgl_plot.specs.Bounds.{IsLevel};
ghost use Rattle.stick_font.specs.Labels.{character_strokes};
ghost use Rattle.hpgl_plot.specs.Paths as labels;
ghost use Rattle.hpgl_plot.specs.Machine.{seen, step, Runs, travelled, travelled_all, put_at};
ghost use Rattle.plot_settings.specs.Meanings.{Write};

use crate::plotter::{Plotter, Stop};
use crate::turn::{is_unturned, turned_vector};
use exact::Spot;
use stick_font::{Cell, LabelStroke, label_stroke};

impl Plotter {
    /// LB: writes the bytes from the pen's place on, and leaves the pen where the next character would
    /// begin.
    pub fn write(&mut self, bytes: &[u8]) -> Result<(), Stop>
        ensures { Runs (step (seen self.old) (Write bytes.now)) (seen self.new) result }
    {
        let mut cell = Cell::FIRST;
        for byte in bytes {
            self.write_byte(cell, *byte)?;
            cell = cell.after(*byte);
        }
        self.end_label(cell.corner())
    }

    // The strokes of a byte in a cell. Most labels are level, which needs less arithmetic.
    fn write_byte(&mut self, cell: Cell, byte: u8) -> Result<(), Stop>
        ensures { Runs
            (travelled_all (seen self.old) true
            (map (labels.stroke_places self.old.state) (character_strokes cell byte))) (seen self.new) result }
    {
        if self.is_level() && cell.is_short() {
            self.write_byte_by(cell, byte, true)
        } else {
            self.write_byte_by(cell, byte, false)
        }
    }

    // The same, for a label that is level and a cell near its start, or for any.
    #[inline(always)]
    fn write_byte_by(&mut self, cell: Cell, byte: u8, is_level: bool) -> Result<(), Stop>
        requires level { is_level ≡ true → IsLevel self.old.state }
        requires short { is_level ≡ true → IsShortCell cell }
        ensures { Runs
            (travelled_all (seen self.old) true
            (map (labels.stroke_places self.old.state) (character_strokes cell byte))) (seen self.new) result }
    {
        let mut k = 0;
        'strokes: while let Some(stroke) = label_stroke(cell, byte, k) {
            self.write_stroke(stroke, is_level)?;
            k += 1;
        }
        Ok(())
    }

    // A stroke, drawn whether the pen is down or not. The pen stays at the label's start.
    #[inline(always)]
    fn write_stroke(&mut self, stroke: LabelStroke, is_level: bool) -> Result<(), Stop>
        requires stroke { IsLabelStroke stroke }
        requires level { is_level ≡ true → IsLevel self.old.state }
        requires short { is_level ≡ true → IsShortStroke stroke }
        ensures { Runs (travelled (seen self.old) true (labels.stroke_places self.old.state stroke))
            (seen self.new) result }
    {
        let from = self.point_place(stroke.from, is_level);
        let to = self.point_place(stroke.to, is_level);
        self.travel_to(from, to, true)
    }

    // Where a point of a label lies on the page.
    #[inline(always)]
    fn point_place(&self, point: Spot, is_level: bool) -> Spot
        requires point { IsLabelPoint point }
        requires level { is_level ≡ true → IsLevel self.now.state }
        requires short { is_level ≡ true → IsShortPoint point }
        ensures { result ≡ labels.label_place self.now.state point }
    {
        if is_level {
            self.level_place(point)
        } else {
            self.label_place(point)
        }
    }

    // Whether neither DI nor RO turns a label.
    #[inline]
    fn is_level(&self) -> bool
        ensures { OnTrue result (IsLevel self.now.state) }
    {
        is_unturned(self.state.direction) && is_unturned(self.state.frame.rotation)
    }

    // The same as `label_place`, for a point near the start of a level label.
    #[inline(always)]
    fn level_place(&self, point: Spot) -> Spot
        requires level { IsLevel self.now.state }
        requires short { IsShortPoint point }
        ensures { result ≡ labels.label_place self.now.state point }
    {
        let on_page = self.state.size.short_offset(point);
        let start = self.state.place;
        Spot {
            x: i128::from(start.x as i64 + on_page.x as i64),
            y: i128::from(start.y as i64 + on_page.y as i64),
        }
    }

    // The pen goes to the end of the label.
    fn end_label(&mut self, end: Spot) -> Result<(), Stop>
        requires { IsLabelPoint end }
        ensures { Runs (put_at (seen self.old) (labels.pen_at_point self.old.page self.old.state end))
            (seen self.new) result }
    {
        let place = self.label_place(end);
        self.put(place)
    }

    // Where a point of a label that begins at the pen's place lies on the page.
    fn label_place(&self, point: Spot) -> Spot
        requires { IsLabelPoint point }
        ensures { result ≡ labels.label_place self.now.state point }
    {
        let state = &self.state;
        let unturned = state.size.offset(point);
        let along = turned_vector(state.direction, unturned);
        let on_page = turned_vector(state.frame.rotation, along);
        Spot {
            x: state.place.x + on_page.x,
            y: state.place.y + on_page.y,
        }
    }
}
