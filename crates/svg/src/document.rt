//! The whole document.
ghost use Rattle.std.specs.Prelude.{◌≡◌, ◌-◌, ◌^◌, ◌<◌, ◌≤◌, ◌++◌, length};
ghost use Rattle.pieces.specs.Texts.{IsNew, IsSound, Puts, WritesText};
ghost use Rattle.plot_page.specs.declared.stroke.TheConstants.{MOST_STROKES};
ghost use Rattle.svg.specs.Clips.{clips_of, clips_text, collected};
ghost use Rattle.svg.specs.Documents.{head_text};
ghost use Rattle.svg.specs.Sections.{sheets_document, shown_sheets, shown_text, svg_document};
ghost use Rattle.svg.specs.Views.{contents};

use crate::clip_paths::ClipPaths;
use crate::clips::put_clips;
use crate::head::put_head;
use crate::parts::put_parts;
use crate::pictured::put_pictured;
use crate::sections::put_sections;
use crate::sheets::put_sheets;
use devices::{Sink, WriteFault};
use pieces::Text;
use plot_page::Page;
use stroke_runs::SheetView;

/// Writes the strokes of the selected pens on a page as an SVG 1.1 document. Its size is that of the page, its unit the
/// grain (1/16 plotter unit).
///
/// Each run of strokes with the same pen, colour, width and window is a path, with the class `pen2` if the pen is 2, at
/// most 1,000 strokes, and a width of at least 24 grains. An area is a path of all its edges, which is filled with their
/// colour. A stroke with an empty window is left out. A window other than the page is a clip path: `clips` has those of these
/// strokes.
///
/// The strokes of a label are a group, with the text of the label as its title: its lines, separated by a line feed. U+FFFD
/// replaces control characters, and code points that XML does not have. A label of which no stroke is drawn is left out. A
/// stroke of two labels belongs to the first one.
///
/// An image is a group of `image` elements, each a PNG, among the paths of the strokes. Rows that were not sent are no part of
/// it, and white shows nothing unless it is opaque. What lies outside of the image's window is not seen.
///
/// Returns how many bytes the document has. It asks for no memory.
///
/// Errors: a `WriteFault` if and only if the sink fails; it has then taken the first `bytes` bytes. Both counts stop at
/// 2^64 - 1.
pub fn write_svg<K: Sink>(
    view: &SheetView<'_>,
    clips: &ClipPaths,
    sink: &mut K,
) -> Result<u64, WriteFault>
    requires sound { (K.state sink.old).faults < 2 ^ 64 - 1 }
    requires strokes { length view.now.strokes.now ≤ MOST_STROKES }
    requires clips { collected clips.now ≡ clips_of view.now.page.now view.now.pens.now view.now.strokes.now }
    ensures writes { WritesText (K.state sink.old) (K.state sink.new)
        (svg_document view.now.page.now view.now.pens.now (contents view.now)) result }
{
    let mut text = Text::new(sink);
    put_document(&mut text, view, clips)
}

/// Writes all sheets of a plot as one document, one above another: each one is a group, `sheet-1`, `sheet-2` and so on.
/// `ends` tells how many strokes there were when each sheet ended, and `image_ends` how many images; the end of the plot ends
/// one, too, and a sheet without strokes and images does not count. A label is on the sheet of its first stroke. All else is as
/// `write_svg` has it.
pub fn write_svg_sheets<K: Sink>(
    view: &SheetView<'_>,
    ends: &[usize],
    image_ends: &[usize],
    clips: &ClipPaths,
    sink: &mut K,
) -> Result<u64, WriteFault>
    requires sound { (K.state sink.old).faults < 2 ^ 64 - 1 }
    requires strokes { length view.now.strokes.now ≤ MOST_STROKES }
    requires clips { collected clips.now ≡ clips_of view.now.page.now view.now.pens.now view.now.strokes.now }
    ensures writes { WritesText (K.state sink.old) (K.state sink.new)
        (sheets_document view.now.page.now view.now.pens.now (contents view.now) ends.now image_ends.now) result }
{
    let mut text = Text::new(sink);
    put_all_sheets(&mut text, view, ends, image_ends, clips)
}

// Writes the document of strokes as a new text.
fn put_document<K: Sink>(
    text: &mut Text<'_, K>,
    view: &SheetView<'_>,
    clips: &ClipPaths,
) -> Result<u64, WriteFault>
    requires sound { IsSound K.state text.old }
    requires new { IsNew text.old }
    requires strokes { length view.now.strokes.now ≤ MOST_STROKES }
    requires clips { collected clips.now ≡ clips_of view.now.page.now view.now.pens.now view.now.strokes.now }
    ensures same { text.new.sink.ghost_name ≡ text.old.sink.ghost_name }
    ensures writes { WritesText (K.state text.old.sink.now) (K.state text.new.sink.now)
        (svg_document view.now.page.now view.now.pens.now (contents view.now)) result }
{
    put_start(text, view.page, clips);
    put_shown(text, view);
    text.put(b"</g></svg>\n");
    text.finish()
}

// Writes the document of all sheets as a new text.
fn put_all_sheets<K: Sink>(
    text: &mut Text<'_, K>,
    view: &SheetView<'_>,
    ends: &[usize],
    image_ends: &[usize],
    clips: &ClipPaths,
) -> Result<u64, WriteFault>
    requires sound { IsSound K.state text.old }
    requires new { IsNew text.old }
    requires strokes { length view.now.strokes.now ≤ MOST_STROKES }
    requires clips { collected clips.now ≡ clips_of view.now.page.now view.now.pens.now view.now.strokes.now }
    ensures same { text.new.sink.ghost_name ≡ text.old.sink.ghost_name }
    ensures writes { WritesText (K.state text.old.sink.now) (K.state text.new.sink.now)
        (sheets_document view.now.page.now view.now.pens.now (contents view.now) ends.now image_ends.now) result }
{
    put_start(text, view.page, clips);
    put_shown_sheets(text, view, ends, image_ends);
    text.put(b"</g></svg>\n");
    text.finish()
}

// Puts what is shown, with its images.
fn put_shown<K: Sink>(text: &mut Text<'_, K>, view: &SheetView<'_>)
    requires sound { IsSound K.state text.old }
    requires strokes { length view.now.strokes.now ≤ MOST_STROKES }
    ensures puts { Puts K.state text.old text.new (shown_text view.now.page.now view.now.pens.now (contents view.now)) }
{
    if view.images.list.is_empty() {
        put_parts(text, view, 0);
    } else {
        let end = view.strokes.len();
        put_sections(text, view, 0, end, view.labels, view.images.list);
    }
}

// Puts all sheets, with their images.
fn put_shown_sheets<K: Sink>(
    text: &mut Text<'_, K>,
    view: &SheetView<'_>,
    ends: &[usize],
    image_ends: &[usize],
)
    requires sound { IsSound K.state text.old }
    requires strokes { length view.now.strokes.now ≤ MOST_STROKES }
    ensures puts { Puts K.state text.old text.new
        (shown_sheets view.now.page.now view.now.pens.now (contents view.now) ends.now image_ends.now) }
{
    if view.images.list.is_empty() {
        put_sheets(text, view, ends);
    } else {
        put_pictured(text, view, ends, image_ends);
    }
}

// Puts what comes before the paths.
fn put_start<K: Sink>(text: &mut Text<'_, K>, page: &Page, clips: &ClipPaths)
    requires sound { IsSound K.state text.old }
    ensures puts { Puts K.state text.old text.new (head_text page.now ++ clips_text (collected clips.now)) }
{
    put_head(text, page);
    put_clips(text, clips);
}
