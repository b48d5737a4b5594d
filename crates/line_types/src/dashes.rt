//! The dashes of a line, one at a time.
ghost use Rattle.std.specs.Prelude.{◌≡◌, [], ◌∷◌};
ghost use Rattle.std.specs.Iterator.{YieldsFirst, item_count};

use crate::repeated::Repeated;
use exact::Spot;
use std::marker::Model;

/// The dashes of a line that are to come, in order, each as the places of its two ends, in grains. A
/// dot has its place twice.
#[derive(Drop)]
pub struct Dashes<'a> {
    repeated: Option<Repeated<'a>>,
    last: Option<(Spot, Spot)>,
}

impl<'a> Model for Dashes<'a> {
    ghost use Rattle.std.specs.Prelude.{List};
    ghost use Rattle.std.specs.Option.{ForSome};
    ghost use Rattle.exact.specs.declared.spot.Spot.{Spot};
    ghost use Rattle.line_types.specs.Left.{dashes_left, IsRepeated};

    ghost Value = { List (Spot × Spot) };

    ghost view = { λ d. dashes_left d.repeated d.last };

    ghost invariant = { λ d. ForSome d.repeated IsRepeated };
}

impl<'a> Dashes<'a> {
    ghost use Rattle.line_types.specs.Left.{dashes_left, IsRepeated};

    // One dash, or a dot.
    pub(crate) fn one(from: Spot, to: Spot) -> Dashes<'a>
        ensures { result ≡ (from, to) ∷ [] }
    {
        Dashes {
            repeated: None,
            last: Some((from, to)),
        }
    }

    // Those of a pattern, and a dot if there is one after them.
    pub(crate) fn of(repeated: Repeated<'a>, last: Option<(Spot, Spot)>) -> Dashes<'a>
        requires { IsRepeated repeated }
        ensures { result ≡ dashes_left (Some repeated.entry) last }
    {
        Dashes {
            repeated: Some(repeated),
            last,
        }
    }
}

impl<'a> Iterator for Dashes<'a> {
    type Item = (Spot, Spot);

    ghost next_gives = { YieldsFirst (λ s. s) };

    ghost remaining = { item_count (λ s. s) };

    fn next(&mut self) -> Option<(Spot, Spot)> {
        if let Some(repeated) = &mut self.repeated {
            if let Some(dash) = repeated.next() {
                return Some(dash);
            }
        }
        self.last.take()
    }
}
