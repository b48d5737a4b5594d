//! Paths: how the strokes of a run are drawn, and how areas are filled.
ghost use Rattle.std.specs.Prelude.{◌≡◌, max};
ghost use Rattle.pieces.specs.Texts.{IsSound, Puts};
ghost use Rattle.stroke_runs.specs.declared.shown.TheConstants.{LEAST_WIDTH};
ghost use Rattle.svg.specs.Numbers.{colour_digits};
ghost use Rattle.svg.specs.Paths.{clip_of, fill_text, pen_text, start_text};

use crate::clips::put_clipped;
use devices::Sink;
use pieces::{Text, hex_digit};
use plot_page::{Colour, Page, Stroke};
use polygons::Rule;
use stroke_runs::shown_width;

// Puts what comes before the commands of a run that begins with this stroke, and is filled by this rule if it is an area.
pub(crate) fn put_start<K: Sink>(
    text: &mut Text<'_, K>,
    page: &Page,
    stroke: &Stroke,
    rule: Option<Rule>,
)
    requires sound { IsSound K.state text.old }
    ensures puts { Puts K.state text.old text.new (start_text stroke.now.pen stroke.now.colour
        (max LEAST_WIDTH stroke.now.width) rule (clip_of page.now stroke.now.window)) }
{
    put_pen_of(text, stroke);
    put_fill(text, stroke.colour, rule);
    put_clipped(text, page, stroke);
    text.put(b" d=\"");
}

// Puts how the strokes of a path are drawn that begins with this stroke.
fn put_pen_of<K: Sink>(text: &mut Text<'_, K>, stroke: &Stroke)
    requires sound { IsSound K.state text.old }
    ensures puts { Puts K.state text.old text.new
        (pen_text stroke.now.pen stroke.now.colour (max LEAST_WIDTH stroke.now.width)) }
{
    let pen = u32::from(stroke.pen);
    put_pen(text, pen, stroke.colour, shown_width(stroke));
}

// Puts how the strokes of a path are drawn.
fn put_pen<K: Sink>(text: &mut Text<'_, K>, pen: u32, colour: Colour, width: u32)
    requires sound { IsSound K.state text.old }
    ensures puts { Puts K.state text.old text.new (pen_text pen colour width) }
{
    text.put(b"<path class=\"pen");
    text.put_number(pen);
    text.put(b"\" stroke=\"#");
    text.put(&colour_digits(colour));
    text.put(b"\" stroke-width=\"");
    text.put_number(width);
    text.put(b"\"");
}

// Puts how the inside of a path is filled, if it is an area. Winding is not named, since it is what SVG takes.
fn put_fill<K: Sink>(text: &mut Text<'_, K>, colour: Colour, rule: Option<Rule>)
    requires sound { IsSound K.state text.old }
    ensures puts { Puts K.state text.old text.new (fill_text rule (colour_digits colour)) }
{
    let Some(rule) = rule else {
        return;
    };
    text.put(b" fill=\"#");
    text.put(&colour_digits(colour));
    match rule {
        Rule::OddCounts => text.put(b"\" fill-rule=\"evenodd\""),
        Rule::Winding => text.put(b"\""),
    }
}

// A colour in six hexadecimal digits.
fn colour_digits(colour: Colour) -> [u8; 6]
    ensures { result ≡ colour_digits colour }
{
    [
        hex_digit(colour.red / 16),
        hex_digit(colour.red % 16),
        hex_digit(colour.green / 16),
        hex_digit(colour.green % 16),
        hex_digit(colour.blue / 16),
        hex_digit(colour.blue % 16),
    ]
}
