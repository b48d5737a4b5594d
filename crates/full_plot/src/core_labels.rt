//! Labels that are written as in core.
ghost use Rattle.std.specs.Prelude.{◌≡◌, IsTrue};
ghost use Rattle.full_plot.specs.Texts.{core_style};

use crate::texts::turn_by;
use directions::Direction;
use hpgl_plot::State;
use lettering::Style;

/// Whether labels in this style are those that core writes with what is set.
pub fn is_as_in_core(style: &Style, state: &State) -> bool
    ensures { IsTrue result → style.now ≡ core_style state.now }
{
    let direction = Direction::RIGHT
        .turned(turn_by(state.direction))
        .turned(turn_by(state.frame.rotation));
    style.is_usual(state.size, direction)
}
