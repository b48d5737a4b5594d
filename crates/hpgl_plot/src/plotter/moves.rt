//! Moves, and the strokes along a path.
ghost use Rattle.std.specs.Prelude.{◌≡◌, ◌≤◌, ◌^◌, ◌*ℤ◌, Bool, [], ◌∷◌, nat_abs, true, false, IfOk, IfErr, Some};
ghost use Rattle.plot_frame.specs.Bounds.{IsNear};
ghost use Rattle.hpgl_plot.specs.Bounds.{IsInRange, IsPlain};
ghost use Rattle.hpgl_plot.specs.Frames as frames;
ghost use Rattle.hpgl_plot.specs.Machine.{seen, step, Runs, kept_with, full_with, moved, travelled, ends_in, put_at};
ghost use Rattle.hpgl_plot.specs.Paths as paths;
ghost use Rattle.hpgl_plot.specs.Paths.{pen_placed};
ghost use Rattle.plot_page.specs.declared.stroke.TheConstants.{GREATEST_WIDTH};
ghost use Rattle.hpgl_plot.specs.Inks.{draws_nothing, own_colour, pen_colour, unscreened};
ghost use Rattle.hpgl_plot.specs.Strokes.{by_a_pen, drawn, pen_width, stroke};
ghost use Rattle.plot_settings.specs.Meanings.{Touch, Move, Go};

use crate::inks::screened;
use crate::place::{coordinates_at, is_place_in_range, place_on, target_of};
use crate::plotter::{Plotter, Stop};
use crate::state::Position;
use exact::Spot;
use hpgl_text::Number;
use plot_page::{Colour, MOST_STROKES, Stroke};

impl Plotter {
    /// A move to coordinates, which are relative or absolute by the most recent PA or PR. If the frame
    /// is plain, which `is_plain` tells once for many moves, it is faster.
    #[tactic(auto, unfolding(crate::specs::Machine::step))]
    #[inline(always)]
    pub(crate) fn move_to(&mut self, x: Number, y: Number, is_plain: bool) -> Result<(), Stop>
        requires { is_plain ≡ true → IsPlain self.old.page self.old.state.frame }
        ensures { Runs (step (seen self.old) (Move x y)) (seen self.new) result }
    {
        let is_relative = self.state.is_relative;
        self.go_by(is_relative, x, y, is_plain)?;
        Ok(())
    }

    /// A move to coordinates, drawn if the pen is down.
    pub fn go(&mut self, is_relative: bool, x: Number, y: Number) -> Result<(), Stop>
        ensures { Runs (step (seen self.old) (Go is_relative x y)) (seen self.new) result }
    {
        let is_plain = self.is_plain();
        self.go_by(is_relative, x, y, is_plain)
    }

    /// The same. If the frame is plain, which `is_plain` tells once for many moves, it is faster.
    #[inline(always)]
    pub(crate) fn go_by(
        &mut self,
        is_relative: bool,
        x: Number,
        y: Number,
        is_plain: bool,
    ) -> Result<(), Stop>
        requires { is_plain ≡ true → IsPlain self.old.page self.old.state.frame }
        ensures { Runs (step (seen self.old) (Go is_relative x y)) (seen self.new) result }
    {
        if is_plain {
            let end = self.plain_end(is_relative, x, y);
            self.come_to(end)
        } else {
            let end = self.end_of(is_relative, x, y);
            self.come_to(end)
        }
    }

    /// Where the pen is after a move to coordinates.
    #[inline(always)]
    pub fn end_of(&self, is_relative: bool, x: Number, y: Number) -> Position
        ensures { result ≡ paths.pen_at self.now.page self.now.state.frame
            (paths.target is_relative self.now.state.coordinates x y) }
    {
        let coordinates = self.target(is_relative, x, y);
        let place = self.place_of(coordinates);
        Position { place, coordinates }
    }

    // The pen moves to a position, drawn if it is down.
    #[inline(always)]
    fn come_to(&mut self, end: Position) -> Result<(), Stop>
        requires { end ≡ paths.pen_at self.old.page self.old.state.frame end.coordinates }
        ensures { Runs (ends_in (moved self.old.state end) (travelled (seen self.old) self.old.state.is_down
            (self.old.state.place ∷ (end.place ∷ [])))) (seen self.new) result }
    {
        let start = self.state.place;
        let draws = self.state.is_down;
        self.reach(start, end.place, draws)?;
        self.arrive(end);
        Ok(())
    }

    /// A dot, unless the pen is down.
    pub fn touch(&mut self) -> Result<(), Stop>
        ensures { Runs (step (seen self.old) Touch) (seen self.new) result }
    {
        let pen = self.state.place;
        let draws = !self.state.is_down;
        self.travel_to(pen, pen, draws)
    }

    /// Where a move ends, in coordinates.
    pub fn target(&self, is_relative: bool, x: Number, y: Number) -> Spot
        ensures value { result ≡ paths.target is_relative self.now.state.coordinates x y }
        ensures x_near { nat_abs (self.now.axes.x.slope *ℤ result.x) ≤ 2 ^ 118 }
        ensures y_near { nat_abs (self.now.axes.y.slope *ℤ result.y) ≤ 2 ^ 118 }
    {
        let from = self.state.coordinates;
        target_of(
            &self.axes,
            from,
            is_relative,
            x.millionths(),
            y.millionths(),
        )
    }

    /// Where coordinates lie on the page.
    #[inline(always)]
    pub fn place_of(&self, coordinates: Spot) -> Spot
        requires x_near { nat_abs (self.now.axes.x.slope *ℤ coordinates.x) ≤ 2 ^ 118 }
        requires y_near { nat_abs (self.now.axes.y.slope *ℤ coordinates.y) ≤ 2 ^ 118 }
        ensures { result ≡ frames.place self.now.page self.now.state.frame coordinates }
    {
        place_on(&self.page, &self.state.frame, &self.axes, coordinates)
    }

    /// Travels a path: from its start to each of these places in turn, in strokes if it draws. The pen
    /// stays where it is.
    pub fn travel(&mut self, start: Spot, places: &[Spot], draws: bool) -> Result<(), Stop>
        ensures { Runs (travelled (seen self.old) draws (start ∷ places.now)) (seen self.new) result }
    {
        self.begin(start)?;
        let mut from = start;
        for place in places {
            self.reach(from, *place, draws)?;
            from = *place;
        }
        Ok(())
    }

    /// Travels from a place to another, in a stroke if it draws. The pen stays where it is.
    #[inline(always)]
    pub fn travel_to(&mut self, start: Spot, place: Spot, draws: bool) -> Result<(), Stop>
        ensures { Runs (travelled (seen self.old) draws (start ∷ (place ∷ []))) (seen self.new) result }
    {
        self.begin(start)?;
        self.reach(start, place, draws)?;
        Ok(())
    }

    /// Begins a path at a place, which need not be the pen's.
    pub fn begin(&self, place: Spot) -> Result<(), Stop>
        ensures in_range { IfOk result (λ _. IsInRange self.now.range place) }
        ensures runs { (draws : Bool) → Runs (travelled (seen self.now) draws (place ∷ [])) (seen self.now) result }
    {
        if is_place_in_range(place, self.range) {
            Ok(())
        } else {
            Err(Stop::OffRange)
        }
    }

    /// Comes to the next place of a path, in a stroke if it draws.
    #[inline(always)]
    pub fn reach(&mut self, from: Spot, place: Spot, draws: bool) -> Result<(), Stop>
        requires from_in { IsInRange self.old.range from }
        ensures in_range { IfOk result (λ _. IsInRange self.new.range place) }
        ensures runs { Runs (travelled (seen self.old) draws (from ∷ (place ∷ []))) (seen self.new) result }
    {
        if !is_place_in_range(place, self.range) {
            return Err(Stop::OffRange);
        }
        if draws {
            self.draw(from, place)?;
        }
        Ok(())
    }

    /// Puts the pen at a place, with its coordinates recomputed. No stroke is made.
    pub fn put(&mut self, place: Spot) -> Result<(), Stop>
        ensures { Runs (put_at (seen self.old) (pen_placed self.old.page self.old.state.frame place))
            (seen self.new) result }
    {
        self.begin(place)?;
        let coordinates = coordinates_at(&self.page, &self.state.frame, &self.axes, place);
        self.set_position(Position { place, coordinates });
        Ok(())
    }

    /// The pen comes to a position.
    #[inline(always)]
    pub fn arrive(&mut self, end: Position)
        requires place_in { IsInRange self.old.range end.place }
        requires placed { end.place ≡ frames.place self.old.page self.old.state.frame end.coordinates }
        ensures { ends_in (moved self.old.state end) (Some (seen self.old)) ≡ Some (seen self.new) }
    {
        self.set_position(end);
    }

    // Sets where the pen is.
    #[inline(always)]
    fn set_position(&mut self, end: Position)
        requires place_in { IsInRange self.old.range end.place }
        requires x_near { IsNear self.old.axes.x end.coordinates.x }
        requires y_near { IsNear self.old.axes.y end.coordinates.y }
        ensures { ends_in (moved self.old.state end) (Some (seen self.old)) ≡ Some (seen self.new) }
    {
        self.state.place = end.place;
        self.state.coordinates = end.coordinates;
    }

    // A stroke between two places, unless the pen draws nothing.
    #[inline(always)]
    fn draw(&mut self, a: Spot, b: Spot) -> Result<(), Stop>
        requires a_in { IsInRange self.old.range a }
        requires b_in { IsInRange self.old.range b }
        ensures page { self.new.page ≡ self.old.page }
        ensures range { self.new.range ≡ self.old.range }
        ensures state { self.new.state ≡ self.old.state }
        ensures kept { IfOk result
            (λ _. self.new.strokes.items
            ≡ kept_with self.old.strokes.items self.old.is_full (drawn self.old.state a b)) }
        ensures full { IfOk result
            (λ _. self.new.is_full
            ≡ full_with self.old.strokes.items self.old.is_full (drawn self.old.state a b)) }
        ensures memory { IfErr result (λ e. e ≡ Stop.Memory) }
    {
        if self.draws_nothing() {
            return Ok(());
        }
        if self.strokes.len() >= MOST_STROKES {
            self.is_full = true;
            return Ok(());
        }
        let stroke = self.stroke(a, b);
        self.strokes.push(stroke).map_err(|_| Stop::Memory)
    }

    // A stroke between two places, by the pen that is selected, of its colour and its width, in the
    // window.
    fn stroke(&self, a: Spot, b: Spot) -> Stroke
        requires pen { 1 ≤ self.now.state.pen }
        requires a_in { IsInRange self.now.range a }
        requires b_in { IsInRange self.now.range b }
        ensures { result ≡ stroke self.now.state a b }
    {
        self.line(a, b)
    }

    /// The width in grains that a pen has if it is selected: the carousel's, or else the most recent one.
    #[inline]
    pub fn width_of(&self, pen: u8) -> u32
        ensures value { result ≡ pen_width (record self.now.state { pen = pen }) }
        ensures range { result ≤ GREATEST_WIDTH }
    {
        match self.state.carousel.width_of(pen) {
            Some(width) => width,
            None => self.state.widths[usize::from(pen)],
        }
    }

    // The colour that strokes of a pen have if it is selected.
    #[inline]
    fn colour_of(&self, pen: u8) -> Colour
        ensures { result ≡ pen_colour (record self.now.state { pen = pen }) }
    {
        let own = self.own_colour(pen);
        match self.state.screen {
            None => own,
            Some(level) => screened(level, own),
        }
    }

    /// The same if they are not screened, as areas are not.
    #[inline]
    pub fn own_colour(&self, pen: u8) -> Colour
        ensures { result ≡ own_colour (record self.now.state { pen = pen }) }
    {
        match self.state.carousel.colour_of(pen) {
            Some(colour) => colour,
            None => self.state.colours[usize::from(pen)],
        }
    }

    /// Whether the pen that is selected draws nothing: pen 0, and a white one if TR hides it.
    #[inline(always)]
    pub fn draws_nothing(&self) -> bool
        ensures value { result ≡ draws_nothing self.now.state }
        ensures pen { result ≡ false → 1 ≤ self.now.state.pen }
    {
        if self.state.pen == 0 {
            return true;
        }
        self.state.hides_white && self.colour_of(self.state.pen).is_white()
    }

    /// The same of an area, which is not screened.
    pub fn fills_nothing(&self) -> bool
        ensures { result ≡ draws_nothing (unscreened self.now.state) }
    {
        if self.state.pen == 0 {
            return true;
        }
        self.state.hides_white && self.own_colour(self.state.pen).is_white()
    }

    /// The stroke that the pen draws between two places, or pen 1 if none is selected.
    pub fn line(&self, a: Spot, b: Spot) -> Stroke
        requires a_in { IsInRange self.now.range a }
        requires b_in { IsInRange self.now.range b }
        ensures { result ≡ stroke (by_a_pen self.now.state) a b }
    {
        let width = self.width_of(self.state.pen.max(1));
        self.line_of_width(width, a, b)
    }

    /// The same of a width in grains, up to 12,800, in the pen's own colour, whether strokes are screened or not.
    pub fn unscreened_line(&self, width: u32, a: Spot, b: Spot) -> Stroke
        requires width { width ≤ GREATEST_WIDTH }
        requires a_in { IsInRange self.now.range a }
        requires b_in { IsInRange self.now.range b }
        ensures { result ≡ record (stroke (by_a_pen (unscreened self.now.state)) a b) { width = width } }
    {
        let line = self.line_of_width(width, a, b);
        let colour = self.own_colour(line.pen);
        Stroke { colour, ..line }
    }

    /// The same of a width in grains, up to 12,800.
    pub fn line_of_width(&self, width: u32, a: Spot, b: Spot) -> Stroke
        requires width { width ≤ GREATEST_WIDTH }
        requires a_in { IsInRange self.now.range a }
        requires b_in { IsInRange self.now.range b }
        ensures { result ≡ record (stroke (by_a_pen self.now.state) a b) { width = width } }
    {
        let state = &self.state;
        let pen = state.pen.max(1);
        Stroke {
            pen,
            colour: self.colour_of(pen),
            width,
            window: state.window,
            ax: a.x as i32,
            ay: a.y as i32,
            bx: b.x as i32,
            by: b.y as i32,
        }
    }
}
