//! What the tests draw. No contract here promises anything, so that no proof of a test reads what is proved of the
//! document.
use areas::Areas;
use deflate::TextEncoder;
use devices::Sink;
use labels::Label;
use page_images::PageImages;
use pdf::{has_few_letters, room_for, write_pdf};
use plot_page::{Colour, MOST_STROKES, Page, PenSet, Stroke, Window};
use std::alloc::Global;
use std::test::Fail;
use stroke_runs::SheetView;

/// How a stroke is drawn.
#[derive(Clone, Copy)]
pub struct Look {
    pub pen: u8,
    pub colour: [u8; 3],
    pub width: u32,
    pub window: [i32; 4],
}

/// The window that is the whole page of 1,016 by 2,032 plotter units, which is one inch by two.
pub const WHOLE: [i32; 4] = [0, 0, 16_256, 32_512];

/// Pen 1, black, with a width of 56 grains.
pub const BLACK: Look = Look {
    pen: 1,
    colour: [0, 0, 0],
    width: 56,
    window: WHOLE,
};

impl Look {
    /// A stroke from one place to another.
    pub fn stroke(self, ends: [i32; 4]) -> Result<Stroke, Fail> {
        let [red, green, blue] = self.colour;
        let [x0, y0, x1, y1] = self.window;
        let [ax, ay, bx, by] = ends;
        let colour = Colour { red, green, blue };
        let window = Window { x0, y0, x1, y1 };
        Ok(Stroke::new(self.pen, colour, self.width, window, ax, ay, bx, by).ok_or("no stroke")?)
    }
}

/// Writes a document without a title and without labels of sheets that end there on the page of one inch by two, for the
/// pens 1, 2, 7, 9 and 255. Returns the count of bytes, whole or not.
pub fn write<K: Sink>(
    alloc: Global,
    encoder: &mut TextEncoder,
    strokes: &[Stroke],
    ends: &[usize],
    sink: &mut K,
) -> Result<u64, Fail> {
    write_titled(alloc, encoder, "", strokes, ends, &[], 0, sink)
}

/// The same with a title, and with labels that count strokes from `before` strokes before these.
pub fn write_titled<K: Sink>(
    alloc: Global,
    encoder: &mut TextEncoder,
    title: &str,
    strokes: &[Stroke],
    ends: &[usize],
    labels: &[Label],
    before: usize,
    sink: &mut K,
) -> Result<u64, Fail> {
    let page = Page::new(1016, 2032, 7, 8)?;
    let mut pens = PenSet::none();
    for pen in [1, 2, 7, 9, 255] {
        pens = pens.with(pen);
    }
    let view = SheetView {
        page: &page,
        pens: &pens,
        strokes,
        areas: Areas::none(),
        labels,
        before,
        images: PageImages::none(),
    };
    write_view(alloc, encoder, title, &view, ends, sink)
}

/// The same of what a view shows.
pub fn write_view<K: Sink>(
    alloc: Global,
    encoder: &mut TextEncoder,
    title: &str,
    view: &SheetView<'_>,
    ends: &[usize],
    sink: &mut K,
) -> Result<u64, Fail> {
    if ends.len() > MOST_STROKES || sink.failures() > 0 {
        return Err("too many sheets".into());
    }
    if view.strokes.len() > MOST_STROKES || !has_few_letters(view.labels) {
        return Err("too many strokes or letters".into());
    }
    let mut offsets = vec![in alloc; 0u64; room_for(ends.len())]?;
    let offsets = offsets.as_mut_slice();
    match write_pdf("0.2.0", title, view, ends, offsets, encoder, sink) {
        Ok(bytes) => Ok(bytes),
        Err(fault) => Ok(fault.bytes()),
    }
}
