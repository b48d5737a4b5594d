//! The whole document.
ghost use Rattle.std.specs.Prelude.{◌≡◌, ◌-◌, ◌^◌, ◌<◌, ◌≤◌, length};
ghost use Rattle.areas.specs.Views.{areas_in};
ghost use Rattle.labels.specs.Sheets.{all_counted};
ghost use Rattle.pieces.specs.Texts.{IsNew, IsSound, Puts, WritesText};
ghost use Rattle.plot_page.specs.declared.stroke.TheConstants.{MOST_STROKES};
ghost use Rattle.dxf.specs.Documents.{dxf_bytes, dxf_sheets_bytes, foot_text};

use crate::groups::put_group;
use crate::head::{put_head, put_middle};
use crate::layers::{Layers, put_layers};
use crate::parts::put_parts;
use crate::sheets::{Section, put_sheets};
use devices::{Sink, WriteFault};
use pieces::Text;
use stroke_runs::SheetView;

/// Writes the strokes of the selected pens on a page as a document in DXF R12 (AC1009, in ASCII). Its unit is the millimetre,
/// from the lower left corner of the page.
///
/// Each pen that is drawn has a layer, `PEN_2` if it is pen 2, of the colour of its first stroke that is drawn: the nearest of
/// the 255 colours that have a number. Strokes of another colour have a colour of their own.
///
/// A stroke is cut to its window, which DXF R12 does not have, and left out if nothing of it is seen. Strokes that follow one
/// another, with the same pen, colour and width, are a polyline of this width; others are lines, or points if they have no
/// length. An area is a closed polyline along each of its polygons, since DXF R12 has no hatches; if its window cuts it, what is
/// seen of its edges is written as strokes are.
///
/// A label is a text for each of its lines, instead of its strokes, as high and as wide as its letters. Printable ASCII is
/// written as it is, and other characters as `\U+00E4`. U+FFFD replaces control characters, and code points over U+FFFF. A
/// label of which no stroke is drawn is left out. A stroke of two labels belongs to the first one.
///
/// Returns how many bytes the document has. It asks for no memory.
///
/// Errors: a `WriteFault` if and only if the sink fails; it has then taken the first `bytes` bytes. Both counts stop at
/// 2^64 - 1.
pub fn write_dxf<K: Sink>(view: &SheetView<'_>, sink: &mut K) -> Result<u64, WriteFault>
    requires sound { (K.state sink.old).faults < 2 ^ 64 - 1 }
    requires strokes { length view.now.strokes.now ≤ MOST_STROKES }
    ensures writes { WritesText (K.state sink.old) (K.state sink.new)
        (dxf_bytes view.now.page.now view.now.pens.now view.now.strokes.now (areas_in view.now.areas)
        (all_counted view.now.before view.now.labels.now)) result }
{
    let mut text = Text::new(sink);
    put_document(&mut text, view)
}

/// Writes all sheets of a plot as one document, one above another: the layers of the first one are `S1_PEN_1` and so on, those
/// of the second one `S2_PEN_1`. `ends` tells how many strokes there were when each sheet ended; the end of the strokes ends
/// one, too, and a sheet without strokes does not count. A label is on the sheet of its first stroke. All else is as
/// `write_dxf` has it.
pub fn write_dxf_sheets<K: Sink>(
    view: &SheetView<'_>,
    ends: &[usize],
    sink: &mut K,
) -> Result<u64, WriteFault>
    requires sound { (K.state sink.old).faults < 2 ^ 64 - 1 }
    requires strokes { length view.now.strokes.now ≤ MOST_STROKES }
    ensures writes { WritesText (K.state sink.old) (K.state sink.new)
        (dxf_sheets_bytes view.now.page.now view.now.pens.now view.now.strokes.now (areas_in view.now.areas) ends.now
        (all_counted view.now.before view.now.labels.now)) result }
{
    let mut text = Text::new(sink);
    put_all_sheets(&mut text, view, ends)
}

// Writes the document of strokes as a new text.
fn put_document<K: Sink>(text: &mut Text<'_, K>, view: &SheetView<'_>) -> Result<u64, WriteFault>
    requires sound { IsSound K.state text.old }
    requires new { IsNew text.old }
    requires strokes { length view.now.strokes.now ≤ MOST_STROKES }
    ensures same { text.new.sink.ghost_name ≡ text.old.sink.ghost_name }
    ensures writes { WritesText (K.state text.old.sink.now) (K.state text.new.sink.now)
        (dxf_bytes view.now.page.now view.now.pens.now view.now.strokes.now (areas_in view.now.areas)
        (all_counted view.now.before view.now.labels.now)) result }
{
    let layers = Layers::of(None, view.pens, view.strokes);
    put_head(text, view.page);
    put_layers(text, &layers);
    put_middle(text);
    put_parts(text, &layers, view, 0);
    put_foot(text);
    text.finish()
}

// Writes the document of all sheets as a new text.
fn put_all_sheets<K: Sink>(
    text: &mut Text<'_, K>,
    view: &SheetView<'_>,
    ends: &[usize],
) -> Result<u64, WriteFault>
    requires sound { IsSound K.state text.old }
    requires new { IsNew text.old }
    requires strokes { length view.now.strokes.now ≤ MOST_STROKES }
    ensures same { text.new.sink.ghost_name ≡ text.old.sink.ghost_name }
    ensures writes { WritesText (K.state text.old.sink.now) (K.state text.new.sink.now)
        (dxf_sheets_bytes view.now.page.now view.now.pens.now view.now.strokes.now (areas_in view.now.areas) ends.now
        (all_counted view.now.before view.now.labels.now)) result }
{
    put_head(text, view.page);
    put_sheets(text, Section::Layers, view, ends);
    put_middle(text);
    put_sheets(text, Section::Entities, view, ends);
    put_foot(text);
    text.finish()
}

// Puts what comes after the entities.
fn put_foot<K: Sink>(text: &mut Text<'_, K>)
    requires sound { IsSound K.state text.old }
    ensures puts { Puts K.state text.old text.new foot_text }
{
    put_group(text, 0, b"ENDSEC");
    put_group(text, 0, b"EOF");
}
