//! What strokes are, one at a time.
ghost use Rattle.std.specs.Prelude.{◌≡◌, ◌-◌, ◌^◌, ◌<◌};
ghost use Rattle.stroke_runs.specs.Drawn.{is_drawn};
ghost use Rattle.stroke_runs.specs.Roles.{after_first, first_role, role_if, role_of, roles_after, roles_at};

use crate::drawn::is_drawn;
use crate::role::Role;
use areas::{Area, Areas};
use plot_page::{PenSet, Stroke};

/// Says of strokes, one at a time, which are drawn, and what they are.
#[derive(Clone, Copy)]
pub struct Roles<'a> {
    areas: Areas<'a>,
    // How many strokes come before the next one.
    before: usize,
    // Where the last area ends that has begun, and whether it is drawn.
    end: usize,
    is_drawn: bool,
}

impl<'a> Roles<'a> {
    /// After the first `before` of the strokes among which these areas are. An area that has begun by then does not count.
    pub fn new(areas: Areas<'a>, before: usize) -> Roles<'a>
        ensures { result ≡ roles_at areas.entry before }
    {
        Roles {
            areas,
            before,
            end: 0,
            is_drawn: false,
        }
    }

    /// Takes the next stroke, and says what it is, if it is drawn.
    pub fn next(&mut self, pens: &PenSet, stroke: &Stroke) -> Option<Role>
        requires few { self.old.before < 2 ^ 64 - 1 }
        ensures role { result ≡ role_of pens.now self.old stroke.now }
        ensures after { self.new ≡ roles_after pens.now self.old stroke.now }
    {
        if self.before < self.end {
            self.before += 1;
            return role_if(self.is_drawn, Role::NextEdge);
        }
        let area = self.areas.beginning_at(self.before);
        let is_drawn = is_drawn(pens, stroke);
        self.begin(area, is_drawn);
        role_if(is_drawn, first_role(area))
    }

    // Takes the first stroke of a shape, with which this area begins.
    fn begin(&mut self, area: Option<Area>, is_drawn: bool)
        requires few { self.old.before < 2 ^ 64 - 1 }
        ensures { self.new ≡ after_first is_drawn self.old area }
    {
        self.before += 1;
        if let Some(area) = area {
            self.end = area.end;
            self.is_drawn = is_drawn;
        }
    }
}

// What a stroke is, if it is drawn.
fn role_if(is_drawn: bool, role: Role) -> Option<Role>
    ensures { result ≡ role_if is_drawn role }
{
    if is_drawn { Some(role) } else { None }
}

// What the first stroke of a shape is, by the area that begins with it.
fn first_role(area: Option<Area>) -> Role
    ensures { result ≡ first_role area }
{
    match area {
        Some(area) => Role::FirstEdge(area.rule),
        None => Role::Stroke,
    }
}
