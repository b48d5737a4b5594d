//! The path that is being written.
ghost use Rattle.std.specs.Prelude.{◌≡◌};
ghost use Rattle.pdf.specs.Steps.{first_after, no_path, path_after};
ghost use Rattle.stroke_runs.specs.Links.{link_as};

use plot_page::Stroke;
use stroke_runs::{Link, Role, Runs};

/// The path that is being written: the run whose strokes it has, and the first stroke of the chain, since which each begins
/// where the last one ended.
#[derive(Clone, Copy)]
pub(crate) struct Path {
    pub runs: Runs,
    pub first: Option<Stroke>,
}

impl Path {
    // Before the first stroke.
    pub fn new() -> Path
        ensures { result ≡ no_path }
    {
        Path {
            runs: Runs::new(),
            first: None,
        }
    }

    // Takes the next stroke that is drawn, by what it is, and says how it follows.
    pub fn next(&mut self, stroke: &Stroke, role: Role) -> Link
        ensures link { result ≡ link_as self.old.runs stroke.now role }
        ensures after { self.new ≡ path_after self.old stroke.now role }
    {
        let link = self.runs.next_as(stroke, role);
        self.first = first_after(link, self.first, stroke);
        link
    }
}

// The first stroke of the chain, after a stroke that follows in this way.
fn first_after(link: Link, first: Option<Stroke>, stroke: &Stroke) -> Option<Stroke>
    ensures { result ≡ first_after link first stroke.now }
{
    match link {
        Link::Begins | Link::Apart => Some(*stroke),
        Link::Joined => first,
    }
}
