//! What is written for each stroke, one at a time.
ghost use Rattle.std.specs.Prelude.{◌≡◌, ◌<◌};
ghost use Rattle.pieces.specs.Texts.{IsSound, Puts};
ghost use Rattle.plot_page.specs.declared.stroke.TheConstants.{MOST_STROKES};
ghost use Rattle.svg.specs.Commands.{command_text};
ghost use Rattle.svg.specs.Paths.{line_of};
ghost use Rattle.svg.specs.Places.{IsNear};
ghost use Rattle.svg.specs.Steps.{after_step, apart_text, begun_text, last_place, member_text, open_end, step_text};
ghost use Rattle.stroke_runs.specs.Links.{runs_as};
ghost use Rattle.stroke_runs.specs.Roles.{roles_after};

use crate::commands::{put_first, put_line, put_move};
use crate::paths::put_start;
use crate::places::{Place, end_of, start_of};
use devices::Sink;
use pieces::Text;
use plot_page::{Page, PenSet, Stroke};
use polygons::Rule;
use stroke_runs::{Link, Role, Roles, Runs};

// Puts what is written for a stroke, if it is drawn.
pub(crate) fn put_step<K: Sink>(
    text: &mut Text<'_, K>,
    page: &Page,
    pens: &PenSet,
    roles: &mut Roles<'_>,
    runs: &mut Runs,
    stroke: &Stroke,
)
    requires sound { IsSound K.state text.old }
    requires few { roles.old.before < MOST_STROKES }
    ensures puts { Puts K.state text.old text.new (step_text page.now pens.now roles.old runs.old stroke.now) }
    ensures roles { roles.new ≡ roles_after pens.now roles.old stroke.now }
    ensures runs { runs.new ≡ after_step pens.now roles.old runs.old stroke.now }
{
    let Some(role) = roles.next(pens, stroke) else {
        return;
    };
    put_member(text, page, runs, stroke, role);
}

// Puts what is written for a stroke that is drawn, by what it is.
fn put_member<K: Sink>(
    text: &mut Text<'_, K>,
    page: &Page,
    runs: &mut Runs,
    stroke: &Stroke,
    role: Role,
)
    requires sound { IsSound K.state text.old }
    ensures puts { Puts K.state text.old text.new (member_text page.now runs.old stroke.now role) }
    ensures after { runs.new ≡ runs_as runs.old stroke.now role }
{
    let before = *runs;
    match runs.next_as(stroke, role) {
        Link::Begins => {
            put_end(text, &before);
            put_begun(text, page, runs.rule(), stroke);
        }
        Link::Apart => put_apart(text, page, last_place(page, &before), stroke),
        Link::Joined => put_line_of(text, page, stroke),
    }
}

// Puts the end of the path that has begun, if there is one.
pub(crate) fn put_end<K: Sink>(text: &mut Text<'_, K>, runs: &Runs)
    requires sound { IsSound K.state text.old }
    ensures puts { Puts K.state text.old text.new (open_end runs.now) }
{
    if !runs.has_begun() {
        return;
    }
    text.put(b"\"/>\n");
}

// Puts a stroke that begins a path, which is filled by this rule if it is an area.
fn put_begun<K: Sink>(text: &mut Text<'_, K>, page: &Page, rule: Option<Rule>, stroke: &Stroke)
    requires sound { IsSound K.state text.old }
    ensures puts { Puts K.state text.old text.new (begun_text page.now rule stroke.now) }
{
    put_start(text, page, stroke, rule);
    put_first(text, start_of(page, stroke));
    put_line_of(text, page, stroke);
}

// Where the last stroke ended, or the corner of the page before the first one.
fn last_place(page: &Page, runs: &Runs) -> Place
    ensures value { result ≡ last_place page.now runs.now.last }
    ensures near { IsNear result }
{
    match runs.last() {
        Some(stroke) => end_of(page, &stroke),
        None => Place { x: 0, y: 0 },
    }
}

// Puts a stroke that goes on a path at another place than this one.
fn put_apart<K: Sink>(text: &mut Text<'_, K>, page: &Page, from: Place, stroke: &Stroke)
    requires sound { IsSound K.state text.old }
    requires from { IsNear from }
    ensures puts { Puts K.state text.old text.new (apart_text page.now from stroke.now) }
{
    put_move(text, from, start_of(page, stroke));
    put_line_of(text, page, stroke);
}

// Puts the line of a stroke.
fn put_line_of<K: Sink>(text: &mut Text<'_, K>, page: &Page, stroke: &Stroke)
    requires sound { IsSound K.state text.old }
    ensures puts { Puts K.state text.old text.new (command_text (line_of page.now stroke.now)) }
{
    let from = start_of(page, stroke);
    put_line(text, from, end_of(page, stroke));
}
