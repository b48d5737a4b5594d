//! Strokes cut into runs, one stroke at a time.
ghost use Rattle.std.specs.Prelude.{◌≡◌, Some, is_some};
ghost use Rattle.stroke_runs.specs.Drawn.{is_joined};
ghost use Rattle.stroke_runs.specs.Links.{after_edge, at_start, has_begun, link_after, link_as, link_in_run, link_of, link_of_edge, runs_after, runs_as};
ghost use Rattle.stroke_runs.specs.Runs.{goes_on};

use crate::drawn::{is_alike, is_joined};
use crate::role::Role;
use plot_page::Stroke;
use polygons::Rule;

/// The most strokes of a run.
pub const MOST_IN_RUN: u32 = 1000;

/// How a stroke that is drawn follows the one that was drawn before it.
#[derive(Clone, Copy, Debug, PartialEq, Eq)]
pub enum Link {
    /// It begins a run.
    Begins,
    /// It goes on the run, at another place than where the one before it ends.
    Apart,
    /// It goes on the run where the one before it ends.
    Joined,
}

/// Cuts the strokes that are drawn into runs, one stroke at a time.
#[derive(Clone, Copy)]
pub struct Runs {
    last: Option<Stroke>,
    // How many more strokes fit into the run, and its rule if it is an area.
    room: u32,
    rule: Option<Rule>,
}

impl Runs {
    /// Before the first stroke.
    pub fn new() -> Runs
        ensures { result ≡ at_start }
    {
        Runs {
            last: None,
            room: 0,
            rule: None,
        }
    }

    /// Whether a run has begun.
    pub fn has_begun(&self) -> bool
        ensures { result ≡ has_begun self.now }
    {
        self.last.is_some()
    }

    /// The last stroke that was taken, if there is one.
    pub fn last(&self) -> Option<Stroke>
        ensures { result ≡ self.now.last }
    {
        self.last
    }

    /// The rule by which the run is filled that has begun, if it is an area.
    pub fn rule(&self) -> Option<Rule>
        ensures { result ≡ self.now.rule }
    {
        self.rule
    }

    /// Takes the next stroke that is drawn, by what it is, and says how it follows. An area is a run by itself.
    pub fn next_as(&mut self, stroke: &Stroke, role: Role) -> Link
        ensures link { result ≡ link_as self.old stroke.now role }
        ensures after { self.new ≡ runs_as self.old stroke.now role }
    {
        match role {
            Role::Stroke => self.next(stroke),
            Role::FirstEdge(rule) => self.begin_area(stroke, rule),
            Role::NextEdge => self.next_edge(stroke),
        }
    }

    // Takes the first edge of an area.
    fn begin_area(&mut self, stroke: &Stroke, rule: Rule) -> Link
        ensures link { result ≡ Link.Begins }
        ensures after { self.new ≡ after_edge stroke.now rule }
    {
        self.last = Some(*stroke);
        self.room = 0;
        self.rule = Some(rule);
        Link::Begins
    }

    // Takes another edge of an area.
    fn next_edge(&mut self, stroke: &Stroke) -> Link
        ensures link { result ≡ link_of_edge self.old.last stroke.now }
        ensures last { self.new.last ≡ Some stroke.now }
        ensures room { self.new.room ≡ self.old.room }
        ensures rule { self.new.rule ≡ self.old.rule }
    {
        let link = match self.last {
            Some(last) => link_in_run(&last, stroke),
            None => Link::Begins,
        };
        self.last = Some(*stroke);
        link
    }

    /// Takes the next stroke that is drawn and no edge of an area, and says how it follows.
    pub fn next(&mut self, stroke: &Stroke) -> Link
        ensures link { result ≡ link_of self.old stroke.now }
        ensures after { self.new ≡ runs_after self.old stroke.now }
    {
        let link = match self.last {
            Some(last) => link_after(&last, self.room, stroke),
            None => Link::Begins,
        };
        self.room = match link {
            Link::Begins => MOST_IN_RUN - 1,
            Link::Apart | Link::Joined => self.room - 1,
        };
        self.last = Some(*stroke);
        self.rule = None;
        link
    }
}

// How a stroke follows another one, after which so many more fit into the run.
fn link_after(last: &Stroke, room: u32, next: &Stroke) -> Link
    ensures { result ≡ link_after last.now room next.now }
{
    if goes_on(last, room, next) {
        link_in_run(last, next)
    } else {
        Link::Begins
    }
}

// How a stroke follows another one in its run.
fn link_in_run(last: &Stroke, next: &Stroke) -> Link
    ensures { result ≡ link_in_run last.now next.now }
{
    if is_joined(last, next) {
        Link::Joined
    } else {
        Link::Apart
    }
}

// Whether a stroke goes on the run of another one, after which so many more fit into it.
fn goes_on(last: &Stroke, room: u32, next: &Stroke) -> bool
    ensures { result ≡ goes_on last.now room next.now }
{
    room >= 1 && is_alike(last, next)
}
