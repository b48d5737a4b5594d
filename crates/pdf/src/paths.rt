//! Paths: the strokes of a run, or the edges of an area, in the content of a page.
ghost use Rattle.std.specs.Prelude.{◌≡◌, ◌≤◌, ◌++◌, ◌-ℤ◌, nat_abs, max, codes};
ghost use Rattle.pdf.specs.Contained.{Fills, IsOpen};
ghost use Rattle.pdf.specs.Numbers.{part};
ghost use Rattle.pdf.specs.Operators.{colour_text, place_text, width_text};
ghost use Rattle.pdf.specs.RunTexts.{clip_text, end_text, fill_text, layer_text, line_text, start_text, stroke_text, window_text};
ghost use Rattle.stroke_runs.specs.declared.shown.TheConstants.{LEAST_WIDTH};

use crate::content::PageContent;
use crate::numbers::put_part;
use devices::Sink;
use pieces::Text;
use plot_page::{Colour, Page, Stroke, Window};
use polygons::Rule;
use stroke_runs::{is_whole_page, shown_width};

// Puts what comes before the places of a run that begins with this stroke.
pub(crate) fn put_start<K: Sink>(
    document: &mut Text<'_, K>,
    content: &mut PageContent<'_>,
    page: &Page,
    stroke: &Stroke,
)
    requires open { IsOpen K.state document.old content.old }
    ensures fills { Fills K.state document.old document.new content.old content.new (start_text page.now stroke.now) }
{
    put_layer(document, content, stroke.pen);
    put_clip(document, content, page, stroke);
    put_colour(document, content, stroke.colour);
    put_width(document, content, stroke);
}

// Puts the layer of a pen.
fn put_layer<K: Sink>(document: &mut Text<'_, K>, content: &mut PageContent<'_>, pen: u8)
    requires open { IsOpen K.state document.old content.old }
    ensures fills { Fills K.state document.old document.new content.old content.new (layer_text pen) }
{
    content.put(document, b"/OC /P");
    content.put_number(document, pen);
    content.put(document, b" BDC\nq\n");
}

// Puts the window of a stroke, if it is not the whole page.
fn put_clip<K: Sink>(
    document: &mut Text<'_, K>,
    content: &mut PageContent<'_>,
    page: &Page,
    stroke: &Stroke,
)
    requires open { IsOpen K.state document.old content.old }
    ensures fills { Fills K.state document.old document.new content.old content.new (clip_text page.now stroke.now.window) }
{
    if !is_whole_page(page, stroke.window) {
        put_window(document, content, stroke.window);
    }
}

// Puts a window as what is drawn alone.
fn put_window<K: Sink>(document: &mut Text<'_, K>, content: &mut PageContent<'_>, window: Window)
    requires open { IsOpen K.state document.old content.old }
    requires x0 { nat_abs window.x0 ≤ 134217712 }
    requires y0 { nat_abs window.y0 ≤ 134217712 }
    requires x1 { nat_abs window.x1 ≤ 134217712 }
    requires y1 { nat_abs window.y1 ≤ 134217712 }
    ensures fills { Fills K.state document.old document.new content.old content.new (window_text window) }
{
    let width = distance(window.x0, window.x1);
    let height = distance(window.y0, window.y1);
    put_rectangle(document, content, window.x0, window.y0, width, height);
    content.put(document, b"W\nn\n");
}

// Puts a rectangle, from its lower left corner.
fn put_rectangle<K: Sink>(
    document: &mut Text<'_, K>,
    content: &mut PageContent<'_>,
    x: i32,
    y: i32,
    width: i32,
    height: i32,
)
    requires open { IsOpen K.state document.old content.old }
    ensures fills { Fills K.state document.old document.new content.old content.new
        (place_text x y ++ codes " " ++ place_text width height ++ codes " re\n") }
{
    put_place(document, content, x, y);
    content.put(document, b" ");
    put_place(document, content, width, height);
    content.put(document, b" re\n");
}

// How far one place is from another.
pub(crate) fn distance(from: i32, to: i32) -> i32
    requires from { nat_abs from ≤ 134217712 }
    requires to { nat_abs to ≤ 134217712 }
    ensures value { result ≡ to -ℤ from }
    ensures near { nat_abs result ≤ 268435456 }
{
    to - from
}

// Puts the colour of lines.
fn put_colour<K: Sink>(document: &mut Text<'_, K>, content: &mut PageContent<'_>, colour: Colour)
    requires open { IsOpen K.state document.old content.old }
    ensures fills { Fills K.state document.old document.new content.old content.new (colour_text colour) }
{
    put_parts(document, content, colour);
    content.put(document, b" RG\n");
}

// Puts the parts of a colour.
fn put_parts<K: Sink>(document: &mut Text<'_, K>, content: &mut PageContent<'_>, colour: Colour)
    requires open { IsOpen K.state document.old content.old }
    ensures fills { Fills K.state document.old document.new content.old content.new
        (part colour.red ++ codes " " ++ part colour.green ++ codes " " ++ part colour.blue) }
{
    put_part(document, content, colour.red);
    content.put(document, b" ");
    put_part(document, content, colour.green);
    content.put(document, b" ");
    put_part(document, content, colour.blue);
}

// Puts the colour of what is inside the edges of an area, if this is one.
pub(crate) fn put_fill<K: Sink>(
    document: &mut Text<'_, K>,
    content: &mut PageContent<'_>,
    rule: Option<Rule>,
    colour: Colour,
)
    requires open { IsOpen K.state document.old content.old }
    ensures fills { Fills K.state document.old document.new content.old content.new (fill_text rule colour) }
{
    match rule {
        None => {}
        Some(_) => {
            put_parts(document, content, colour);
            content.put(document, b" rg\n");
        }
    }
}

// Puts what comes after the places of a run: strokes are drawn, and an area is filled, too.
pub(crate) fn put_paint<K: Sink>(
    document: &mut Text<'_, K>,
    content: &mut PageContent<'_>,
    rule: Option<Rule>,
)
    requires open { IsOpen K.state document.old content.old }
    ensures fills { Fills K.state document.old document.new content.old content.new (end_text rule) }
{
    match rule {
        None => content.put(document, b"S\nQ\nEMC\n"),
        Some(Rule::OddCounts) => content.put(document, b"B*\nQ\nEMC\n"),
        Some(Rule::Winding) => content.put(document, b"B\nQ\nEMC\n"),
    }
}

// Puts the width of a stroke, or the least one.
fn put_width<K: Sink>(document: &mut Text<'_, K>, content: &mut PageContent<'_>, stroke: &Stroke)
    requires open { IsOpen K.state document.old content.old }
    ensures fills { Fills K.state document.old document.new content.old content.new (width_text (max LEAST_WIDTH stroke.now.width)) }
{
    content.put_number(document, shown_width(stroke));
    content.put(document, b" w\n");
}

// Puts a stroke that begins elsewhere than where the last one ended.
pub(crate) fn put_stroke<K: Sink>(
    document: &mut Text<'_, K>,
    content: &mut PageContent<'_>,
    stroke: &Stroke,
)
    requires open { IsOpen K.state document.old content.old }
    ensures fills { Fills K.state document.old document.new content.old content.new (stroke_text stroke.now) }
{
    put_place(document, content, stroke.ax, stroke.ay);
    content.put(document, b" m\n");
    put_line(document, content, stroke);
}

// Puts a stroke that begins where the last one ended.
pub(crate) fn put_line<K: Sink>(
    document: &mut Text<'_, K>,
    content: &mut PageContent<'_>,
    stroke: &Stroke,
)
    requires open { IsOpen K.state document.old content.old }
    ensures fills { Fills K.state document.old document.new content.old content.new (line_text stroke.now) }
{
    put_place(document, content, stroke.bx, stroke.by);
    content.put(document, b" l\n");
}

// Puts a place.
pub(crate) fn put_place<K: Sink>(
    document: &mut Text<'_, K>,
    content: &mut PageContent<'_>,
    x: i32,
    y: i32,
)
    requires open { IsOpen K.state document.old content.old }
    ensures fills { Fills K.state document.old document.new content.old content.new (place_text x y) }
{
    content.put_number(document, x);
    content.put(document, b" ");
    content.put_number(document, y);
}
