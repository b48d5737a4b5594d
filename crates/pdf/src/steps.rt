//! What is written for each stroke, one at a time.
ghost use Rattle.std.specs.Prelude.{◌≡◌, Some};
ghost use Rattle.pdf.specs.Contained.{Fills, IsOpen};
ghost use Rattle.pdf.specs.RunTexts.{begin_text, chain_end_text, closing_text};
ghost use Rattle.pdf.specs.Steps.{after_step, drawn_text, open_chain, open_end, path_after, path_chain, step_text};
ghost use Rattle.stroke_runs.specs.Drawn.{is_joined};

use crate::content::PageContent;
use crate::path::Path;
use crate::paths::{put_fill, put_line, put_paint, put_start, put_stroke};
use devices::Sink;
use pieces::Text;
use plot_page::{Page, Stroke};
use polygons::Rule;
use stroke_runs::{Link, Role};

// Puts what is written for a stroke, by what it is if it is drawn.
pub(crate) fn put_step<K: Sink>(
    document: &mut Text<'_, K>,
    content: &mut PageContent<'_>,
    page: &Page,
    path: &mut Path,
    stroke: &Stroke,
    role: Option<Role>,
)
    requires open { IsOpen K.state document.old content.old }
    ensures fills { Fills K.state document.old document.new content.old content.new (step_text page.now path.old role stroke.now) }
    ensures after { path.new ≡ after_step path.old role stroke.now }
{
    match role {
        None => {}
        Some(role) => put_drawn(document, content, page, path, stroke, role),
    }
}

// Puts what is written for a stroke that is drawn.
fn put_drawn<K: Sink>(
    document: &mut Text<'_, K>,
    content: &mut PageContent<'_>,
    page: &Page,
    path: &mut Path,
    stroke: &Stroke,
    role: Role,
)
    requires open { IsOpen K.state document.old content.old }
    ensures fills { Fills K.state document.old document.new content.old content.new (drawn_text page.now path.old stroke.now role) }
    ensures after { path.new ≡ path_after path.old stroke.now role }
{
    let before = *path;
    match path.next(stroke, role) {
        Link::Begins => {
            put_end(document, content, &before);
            put_begun(document, content, page, path.runs.rule(), stroke);
        }
        Link::Apart => {
            put_chain(document, content, &before);
            put_stroke(document, content, stroke);
        }
        Link::Joined => put_line(document, content, stroke),
    }
}

// Puts a stroke that begins a run, which has this rule if it is an area.
fn put_begun<K: Sink>(
    document: &mut Text<'_, K>,
    content: &mut PageContent<'_>,
    page: &Page,
    rule: Option<Rule>,
    stroke: &Stroke,
)
    requires open { IsOpen K.state document.old content.old }
    ensures fills { Fills K.state document.old document.new content.old content.new (begin_text page.now rule stroke.now) }
{
    put_start(document, content, page, stroke);
    put_fill(document, content, rule, stroke.colour);
    put_stroke(document, content, stroke);
}

// Puts the end of the run that has begun, if there is one.
pub(crate) fn put_end<K: Sink>(
    document: &mut Text<'_, K>,
    content: &mut PageContent<'_>,
    path: &Path,
)
    requires open { IsOpen K.state document.old content.old }
    ensures fills { Fills K.state document.old document.new content.old content.new (open_end path.now) }
{
    if !path.runs.has_begun() {
        return;
    }
    put_chain(document, content, path);
    put_paint(document, content, path.runs.rule());
}

// Puts the end of the chain of a path.
fn put_chain<K: Sink>(document: &mut Text<'_, K>, content: &mut PageContent<'_>, path: &Path)
    requires open { IsOpen K.state document.old content.old }
    ensures fills { Fills K.state document.old document.new content.old content.new (path_chain path.now) }
{
    match path.first {
        None => {}
        Some(first) => put_chain_from(document, content, path, &first),
    }
}

// Puts the end of the chain of a path, which began with this stroke.
fn put_chain_from<K: Sink>(
    document: &mut Text<'_, K>,
    content: &mut PageContent<'_>,
    path: &Path,
    first: &Stroke,
)
    requires open { IsOpen K.state document.old content.old }
    ensures fills { Fills K.state document.old document.new content.old content.new
        (open_chain path.now.runs.rule (Some first.now) path.now.runs.last) }
{
    match path.runs.last() {
        None => {}
        Some(last) => put_chain_end(document, content, path.runs.rule(), first, &last),
    }
}

// Puts the end of a chain: one of edges is closed that leads back to where it began.
fn put_chain_end<K: Sink>(
    document: &mut Text<'_, K>,
    content: &mut PageContent<'_>,
    rule: Option<Rule>,
    first: &Stroke,
    last: &Stroke,
)
    requires open { IsOpen K.state document.old content.old }
    ensures fills { Fills K.state document.old document.new content.old content.new (chain_end_text rule first.now last.now) }
{
    match rule {
        None => {}
        Some(_) => put_closing(document, content, first, last),
    }
}

// Closes a chain that leads back to where it began.
fn put_closing<K: Sink>(
    document: &mut Text<'_, K>,
    content: &mut PageContent<'_>,
    first: &Stroke,
    last: &Stroke,
)
    requires open { IsOpen K.state document.old content.old }
    ensures fills { Fills K.state document.old document.new content.old content.new (closing_text first.now last.now) }
{
    if leads_back(first, last) {
        content.put(document, b"h\n");
    }
}

// Whether a stroke ends where another one begins.
fn leads_back(first: &Stroke, last: &Stroke) -> bool
    ensures { result ≡ is_joined last.now first.now }
{
    first.ax == last.bx && first.ay == last.by
}
