//! The places that circles and arcs pass, for a plotter that draws them in its own way.
ghost use Rattle.std.specs.Prelude.{◌≡◌, ◌∷◌, ◌++◌, [], IfOk, IfErr, true};
ghost use Rattle.hpgl_plot.specs.Bounds.{IsCurve};
ghost use Rattle.hpgl_plot.specs.Paths.{along, chord_count, curve_places, curve_point, path, pen_at};
ghost use Rattle.plot_settings.specs.Bounds.{IsArc, IsCircle};
ghost use Rattle.plot_settings.specs.Meanings.{DrawArc, DrawCircle};

use crate::curve::{Curve, chord_count, chord_end, is_short_curve};
use crate::plotter::{Plotter, Stop};
use crate::state::Position;
use exact::Spot;
use plot_settings::{Arc, Circle};
use std::alloc::Global;

/// What a circle or an arc passes: the place where it begins, those where its chords end, and where the pen is
/// after it.
#[derive(Drop)]
pub struct Outline {
    pub start: Spot,
    pub places: Vec<Spot>,
    pub end: Position,
}

impl Plotter {
    /// What a circle about the pen passes. The pen stays where it is.
    pub fn circle_outline(&self, alloc: Global, circle: Circle) -> Result<Outline, Stop>
        requires { IsCircle circle }
        ensures path { IfOk result (λ o. path self.now.page self.now.state (DrawCircle circle)
            ≡ along (o.start ∷ o.places.items) true o.end) }
        ensures memory { IfErr result (λ e. e ≡ Stop.Memory) }
    {
        let curve = self.circle_curve(circle);
        let start = self.place_of(curve.from);
        let places = self.chord_places(alloc, curve)?;
        let end = Position {
            place: self.state.place,
            coordinates: self.state.coordinates,
        };
        Ok(Outline { start, places, end })
    }

    /// What an arc from the pen on passes.
    pub fn arc_outline(&self, alloc: Global, is_relative: bool, arc: Arc) -> Result<Outline, Stop>
        requires { IsArc arc }
        ensures path { IfOk result (λ o. path self.now.page self.now.state (DrawArc is_relative arc)
            ≡ along (self.now.state.place ∷ o.places.items) self.now.state.is_down o.end) }
        ensures start { IfOk result (λ o. o.start ≡ self.now.state.place) }
        ensures memory { IfErr result (λ e. e ≡ Stop.Memory) }
    {
        let curve = self.arc_curve(is_relative, arc);
        let start = self.state.place;
        let places = self.chord_places(alloc, curve)?;
        let end = self.last_end(curve);
        Ok(Outline { start, places, end })
    }

    // The places of the ends of a curve's chords.
    fn chord_places(&self, alloc: Global, curve: Curve) -> Result<Vec<Spot>, Stop>
        requires { IsCurve self.now.page self.now.state.frame curve }
        ensures places { IfOk result
            (λ places. places.items ≡ curve_places self.now.page self.now.state.frame curve) }
        ensures memory { IfErr result (λ e. e ≡ Stop.Memory) }
    {
        let is_short = is_short_curve(&self.axes, curve);
        let mut places = Vec::new(alloc);
        for k in 0..chord_count(curve) {
            let end = chord_end(
                &self.page,
                &self.state.frame,
                &self.axes,
                curve,
                k + 1,
                is_short,
            );
            push(&mut places, end.place)?;
        }
        Ok(places)
    }

    // Where the pen is at the end of a curve's last chord.
    fn last_end(&self, curve: Curve) -> Position
        requires { IsCurve self.now.page self.now.state.frame curve }
        ensures { result ≡ pen_at self.now.page self.now.state.frame (curve_point curve (chord_count curve)) }
    {
        let count = chord_count(curve);
        chord_end(
            &self.page,
            &self.state.frame,
            &self.axes,
            curve,
            count,
            false,
        )
    }
}

// Appends a place.
fn push(places: &mut Vec<Spot>, place: Spot) -> Result<(), Stop>
    ensures places { IfOk result (λ _. places.new.items ≡ places.old.items ++ place ∷ []) }
    ensures memory { IfErr result (λ e. e ≡ Stop.Memory) }
{
    places.push(place).map_err(|_| Stop::Memory)
}
