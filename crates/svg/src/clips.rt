//! Clip paths: what strokes are clipped to.
ghost use Rattle.std.specs.Prelude.{◌≡◌, ◌+◌, ◌≤◌, length, Some, IfOk};
ghost use Rattle.plot_page.specs.declared.stroke.TheConstants.{MOST_STROKES};
ghost use Rattle.pieces.specs.Texts.{IsSound, Puts};
ghost use Rattle.svg.specs.Clips.{clip_text, clips_of, clips_text, collected, rectangle_text, with_clip};
ghost use Rattle.svg.specs.Paths.{clip_name, clip_of, clipped_text};

use crate::clip_paths::ClipPaths;
use crate::places::{Rectangle, rectangle_of};
use devices::Sink;
use pieces::Text;
use plot_page::{Page, PenSet, Stroke};
use std::alloc::{AllocError, Global};
use std::collections::BTreeSet;
use stroke_runs::{is_drawn, is_whole_page};

impl ClipPaths {
    /// What those of the strokes are clipped to that are drawn by the selected pens on a page.
    ///
    /// Errors: only want of memory.
    pub fn of(
        alloc: Global,
        page: &Page,
        pens: &PenSet,
        strokes: &[Stroke],
    ) -> Result<ClipPaths, AllocError>
        requires { length strokes.now ≤ MOST_STROKES }
        ensures { IfOk result (λ clips. collected clips ≡ clips_of page.now pens.now strokes.now) }
    {
        let mut rectangles = BTreeSet::new(alloc);
        for stroke in strokes {
            if is_drawn(pens, stroke) {
                add_clip(&mut rectangles, page, stroke)?;
            }
        }
        Ok(ClipPaths { rectangles })
    }
}

// Adds what a stroke is clipped to.
fn add_clip(
    rectangles: &mut BTreeSet<Rectangle>,
    page: &Page,
    stroke: &Stroke,
) -> Result<(), AllocError>
    ensures added { IfOk result
        (λ _. rectangles.new.keys ≡ with_clip rectangles.old.keys (clip_of page.now stroke.now.window)) }
    ensures count { IfOk result (λ _. length rectangles.new.keys ≤ length rectangles.old.keys + 1) }
{
    if is_whole_page(page, stroke.window) {
        return Ok(());
    }
    match rectangles.insert(rectangle_of(page, stroke)) {
        Ok(_) => Ok(()),
        Err(_) => Err(AllocError),
    }
}

// Puts the clip paths.
pub(crate) fn put_clips<K: Sink>(text: &mut Text<'_, K>, clips: &ClipPaths)
    requires sound { IsSound K.state text.old }
    ensures puts { Puts K.state text.old text.new (clips_text (collected clips.now)) }
{
    if clips.rectangles.is_empty() {
        return;
    }
    text.put(b"<defs>\n");
    for clip in &clips.rectangles {
        put_clip(text, *clip);
    }
    text.put(b"</defs>\n");
}

// Puts a clip path.
fn put_clip<K: Sink>(text: &mut Text<'_, K>, clip: Rectangle)
    requires sound { IsSound K.state text.old }
    ensures puts { Puts K.state text.old text.new (clip_text clip) }
{
    text.put(b"<clipPath id=\"");
    put_name(text, clip);
    text.put(b"\">");
    put_rectangle(text, clip);
    text.put(b"</clipPath>\n");
}

// Puts the name of a clip path.
fn put_name<K: Sink>(text: &mut Text<'_, K>, clip: Rectangle)
    requires sound { IsSound K.state text.old }
    ensures puts { Puts K.state text.old text.new (clip_name clip) }
{
    text.put(b"w");
    text.put_number(clip.x);
    text.put(b"_");
    text.put_number(clip.y);
    text.put(b"_");
    text.put_number(clip.width);
    text.put(b"_");
    text.put_number(clip.height);
}

// Puts a rectangle.
fn put_rectangle<K: Sink>(text: &mut Text<'_, K>, clip: Rectangle)
    requires sound { IsSound K.state text.old }
    ensures puts { Puts K.state text.old text.new (rectangle_text clip) }
{
    text.put(b"<rect x=\"");
    text.put_number(clip.x);
    text.put(b"\" y=\"");
    text.put_number(clip.y);
    text.put(b"\" width=\"");
    text.put_number(clip.width);
    text.put(b"\" height=\"");
    text.put_number(clip.height);
    text.put(b"\"/>");
}

// Puts the reference to the clip path of a stroke, if it is clipped.
pub(crate) fn put_clipped<K: Sink>(text: &mut Text<'_, K>, page: &Page, stroke: &Stroke)
    requires sound { IsSound K.state text.old }
    ensures puts { Puts K.state text.old text.new (clipped_text (clip_of page.now stroke.now.window)) }
{
    if is_whole_page(page, stroke.window) {
        return;
    }
    put_reference(text, rectangle_of(page, stroke));
}

// Puts the reference to a clip path.
fn put_reference<K: Sink>(text: &mut Text<'_, K>, clip: Rectangle)
    requires sound { IsSound K.state text.old }
    ensures puts { Puts K.state text.old text.new (clipped_text (Some clip)) }
{
    text.put(b" clip-path=\"url(#");
    put_name(text, clip);
    text.put(b")\"");
}
