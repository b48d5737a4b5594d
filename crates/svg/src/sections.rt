//! The sections of a sheet: what is drawn between its images.
ghost use Rattle.std.specs.Prelude.{◌≡◌, ◌≤◌, length, min};
ghost use Rattle.areas.specs.Views.{areas_in};
ghost use Rattle.labels.specs.Sheets.{all_counted};
ghost use Rattle.page_images.specs.PageImages as shapes;
ghost use Rattle.pieces.specs.Texts.{IsSound, Puts};
ghost use Rattle.plot_page.specs.declared.stroke.TheConstants.{MOST_STROKES};
ghost use Rattle.svg.specs.Sections.{section_between, section_text, sections_text};
ghost use Rattle.svg.specs.Views.{contents};

use crate::images::put_image;
use crate::parts::put_parts;
use devices::Sink;
use labels::Label;
use page_images::PageImage;
use pieces::Text;
use stroke_runs::{SheetView, between, count_to};

// Puts the strokes after the first `at`, up to and including number `end`, with these images among them, and with the first of
// these labels, if they are their own.
pub(crate) fn put_sections<K: Sink>(
    text: &mut Text<'_, K>,
    view: &SheetView<'_>,
    at: usize,
    end: usize,
    labels: &[Label],
    images: &[PageImage],
)
    requires sound { IsSound K.state text.old }
    requires few { length view.now.strokes.now ≤ MOST_STROKES }
    requires start { at ≤ length view.now.strokes.now }
    requires within { end ≤ length view.now.strokes.now }
    ensures puts { Puts K.state text.old text.new (sections_text view.now.page.now view.now.pens.now (contents view.now) at end
        (all_counted view.now.before labels.now) (shapes.all_counted view.now.images.first images.now)) }
{
    let mut done = at;
    let mut rest = labels;
    for image in images {
        let cut = strokes_before(view, image, end);
        put_section(text, view, done, cut, rest);
        put_image(text, view.page, image);
        let (_, later) = rest.split_at(count_to(rest, view.before, cut));
        rest = later;
        done = done.max(cut);
    }
    put_section(text, view, done, end, rest);
}

// How many strokes are drawn before an image, up to number `end`.
fn strokes_before(view: &SheetView<'_>, image: &PageImage, end: usize) -> usize
    ensures value { result ≡ min (shapes.counted view.now.images.first image.now).before end }
    ensures within { result ≤ end }
{
    let before = image.before as usize;
    before.saturating_sub(view.images.first).min(end)
}

// Puts the strokes after the first `at`, up to and including number `end`, with those of these labels that are theirs.
fn put_section<K: Sink>(
    text: &mut Text<'_, K>,
    view: &SheetView<'_>,
    at: usize,
    end: usize,
    labels: &[Label],
)
    requires sound { IsSound K.state text.old }
    requires few { length view.now.strokes.now ≤ MOST_STROKES }
    requires within { at ≤ length view.now.strokes.now }
    ensures puts { Puts K.state text.old text.new (section_text view.now.page.now view.now.pens.now
        (section_between (contents view.now) at end (all_counted view.now.before labels.now))) }
{
    let (here, _) = labels.split_at(count_to(labels, view.before, end));
    let shown = SheetView {
        strokes: between(view.strokes, at, end),
        labels: here,
        ..*view
    };
    put_parts(text, &shown, at);
}
