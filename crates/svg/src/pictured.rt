//! The sheets of a document with images.
ghost use Rattle.std.specs.Prelude.{◌≡◌, ◌++◌, ◌∷◌, [], ◌≤◌, length, min};
ghost use Rattle.std.specs.List.{slice_index_or};
ghost use Rattle.labels.specs.Sheets.{all_counted};
ghost use Rattle.page_images.specs.PageImages.{images_between};
ghost use Rattle.pieces.specs.Texts.{IsSound, Puts};
ghost use Rattle.plot_page.specs.declared.stroke.TheConstants.{MOST_STROKES};
ghost use Rattle.svg.specs.Sections.{is_bare, pictured_after};
ghost use Rattle.svg.specs.Views.{contents};

use crate::sections::put_sections;
use crate::sheets::put_open;
use devices::Sink;
use page_images::PageImage;
use pieces::Text;
use plot_page::Stroke;
use stroke_runs::{SheetView, between, count_to, end_of};

// Puts all sheets, with their images. A sheet that has only images counts.
pub(crate) fn put_pictured<K: Sink>(
    text: &mut Text<'_, K>,
    view: &SheetView<'_>,
    ends: &[usize],
    image_ends: &[usize],
)
    requires sound { IsSound K.state text.old }
    requires few { length view.now.strokes.now ≤ MOST_STROKES }
    ensures puts { Puts K.state text.old text.new (pictured_after view.now.page.now view.now.pens.now (contents view.now)
        image_ends.now 0 0 0 0 (ends.now ++ length view.now.strokes.now ∷ []) (all_counted view.now.before view.now.labels.now)) }
{
    let mut rest = view.labels;
    let mut at = 0;
    let mut from = 0;
    let mut number = 0;
    for ended in 0..ends.len() + 1 {
        let end = end_of(view.strokes, ends, ended).min(view.strokes.len());
        let image_end = image_end_of(view.images.list, image_ends, ended);
        let images = images_between(view.images.list, from, image_end);
        if !is_bare(between(view.strokes, at, end), images) {
            number += 1;
            put_open(text, number);
            put_sections(text, view, at, end, rest, images);
            text.put(b"</g>\n");
            let (_, later) = rest.split_at(count_to(rest, view.before, end));
            rest = later;
            at = end;
            from = image_end;
        }
    }
}

// Whether there are neither strokes nor images.
fn is_bare(strokes: &[Stroke], images: &[PageImage]) -> bool
    ensures { result ≡ is_bare strokes.now images.now }
{
    strokes.is_empty() && images.is_empty()
}

// How many images there were when a sheet ended that has so many before it: all of them, after the last end.
fn image_end_of(images: &[PageImage], image_ends: &[usize], before: usize) -> usize
    ensures { result ≡ slice_index_or image_ends.now before (length images.now) }
{
    match image_ends.get(before) {
        Some(end) => *end,
        None => images.len(),
    }
}

// The images after the first `from`, up to number `end`.
fn images_between(images: &[PageImage], from: usize, end: usize) -> &[PageImage]
    ensures { result.now ≡ images_between from end images.now }
{
    let kept = &images[..end.min(images.len())];
    &kept[from.min(kept.len())..]
}
