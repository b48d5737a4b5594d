//! Pages: three objects for each sheet.
ghost use Rattle.std.specs.Prelude.{◌+◌, ◌-◌, ◌*◌, ◌^◌, ◌<◌, ◌≤◌, [], ◌∷◌, length, decimal};
ghost use Rattle.areas.specs.Views.{areas_in};
ghost use Rattle.labels.specs.Sheets.{all_counted};
ghost use Rattle.pieces.specs.Texts.{IsSound, Puts};
ghost use Rattle.plot_page.specs.declared.stroke.TheConstants.{MOST_STROKES};
ghost use Rattle.pdf.specs.Contents.{content_text};
ghost use Rattle.pdf.specs.Documents.{page_areas, page_object, sheet_labels, sheets, user_unit};
ghost use Rattle.pdf.specs.Texts.{letter_count};
ghost use Rattle.pdf.specs.Units.{unit_of};
ghost use Rattle.pdf.specs.Writings.{Adds, AddsPage, AddsPages, AddsStream, stream_start};
ghost use Rattle.pdf.specs.declared.counts.TheConstants.{MOST_LETTERS};
ghost use Rattle.stroke_runs.specs.Sheets.{sheet_areas};

use crate::objects::{begin_object, end_object, put_reference};
use crate::sheet::Sheet;
use crate::stream::put_stream;
use crate::units::{PageUnit, unit_of};
use deflate::TextEncoder;
use devices::Sink;
use pieces::Text;
use stroke_runs::{SheetView, between, count_to};

// Puts the pages of sheets after `before` objects. A sheet has the strokes after those of the one before it, up to so many of
// all as its end says, and the labels before whose strokes it ends.
pub(crate) fn put_pages<K: Sink>(
    text: &mut Text<'_, K>,
    offsets: &mut [u64],
    encoder: &mut TextEncoder,
    before: u32,
    view: &SheetView<'_>,
    ends: &[usize],
)
    requires sound { IsSound K.state text.old }
    requires letters { letter_count view.now.labels.now ≤ MOST_LETTERS }
    requires pages { length ends.now ≤ MOST_STROKES }
    requires number { before ≤ 1000 }
    requires room { before + 3 * length ends.now ≤ length offsets.old }
    ensures adds { AddsPages K.state text.old text.new offsets.old offsets.new before view.now.page.now view.now.pens.now
        (sheets view.now.strokes.now 0 ends.now) (page_areas (areas_in view.now.areas) 0 ends.now)
        (sheet_labels (all_counted view.now.before view.now.labels.now) 0 ends.now) }
{
    let mut from = 0;
    let mut rest = view.labels;
    for index in 0..ends.len() {
        let count = count_to(rest, view.before, ends[index]);
        let (labels, others) = rest.split_at(count);
        let sheet = Sheet {
            page: view.page,
            pens: view.pens,
            strokes: between(view.strokes, from, ends[index]),
            areas: view.areas,
            labels,
            earlier: view.before,
            from,
        };
        put_page(text, offsets, encoder, before + 3 * index as u32, &sheet);
        from = ends[index];
        rest = others;
    }
}

// Puts a page after `before` objects.
fn put_page<K: Sink>(
    text: &mut Text<'_, K>,
    offsets: &mut [u64],
    encoder: &mut TextEncoder,
    before: u32,
    sheet: &Sheet<'_>,
)
    requires sound { IsSound K.state text.old }
    requires letters { letter_count sheet.now.labels.now ≤ MOST_LETTERS }
    requires number { before < 2 ^ 31 }
    requires room { before + 3 ≤ length offsets.old }
    ensures adds { AddsPage K.state text.old text.new offsets.old offsets.new (unit_of sheet.now.page.now) before
        (content_text sheet.now.page.now sheet.now.pens.now sheet.now.strokes.now
        (sheet_areas sheet.now.from (areas_in sheet.now.areas))
        (all_counted sheet.now.from (all_counted sheet.now.earlier sheet.now.labels.now))) }
{
    put_start(text, offsets, unit_of(sheet.page), before);
    let size = put_content(text, offsets, encoder, before + 1, sheet);
    put_length(text, offsets, before + 2, size);
}

// Puts the first object of a page with this unit, whose content is the object after it.
fn put_start<K: Sink>(text: &mut Text<'_, K>, offsets: &mut [u64], unit: PageUnit, before: u32)
    requires sound { IsSound K.state text.old }
    requires number { before < 2 ^ 31 }
    requires room { before + 1 ≤ length offsets.old }
    ensures adds { Adds K.state text.old text.new offsets.old offsets.new before (page_object unit (before + 2) ∷ []) }
{
    begin_object(text, offsets, before);
    text.put(b"<</Type/Page/Parent 3 0 R");
    put_user_unit(text, unit);
    text.put(b"/Contents");
    put_reference(text, before + 2);
    text.put(b">>");
    end_object(text);
}

// Puts how many points the unit of a page has, if they are more than one.
fn put_user_unit<K: Sink>(text: &mut Text<'_, K>, unit: PageUnit)
    requires sound { IsSound K.state text.old }
    ensures puts { Puts K.state text.old text.new (user_unit unit) }
{
    match unit {
        PageUnit::One => {}
        PageUnit::Two => text.put(b"/UserUnit 2"),
        PageUnit::Three => text.put(b"/UserUnit 3"),
    }
}

// Puts the content of a page, whose length is in the object after it, and returns that length, a count that stops at its
// greatest.
fn put_content<K: Sink>(
    text: &mut Text<'_, K>,
    offsets: &mut [u64],
    encoder: &mut TextEncoder,
    before: u32,
    sheet: &Sheet<'_>,
) -> u64
    requires sound { IsSound K.state text.old }
    requires letters { letter_count sheet.now.labels.now ≤ MOST_LETTERS }
    requires number { before < 2 ^ 32 - 2 }
    requires room { before + 1 ≤ length offsets.old }
    ensures adds { AddsStream K.state text.old text.new offsets.old offsets.new before (content_text sheet.now.page.now
        sheet.now.pens.now sheet.now.strokes.now (sheet_areas sheet.now.from (areas_in sheet.now.areas))
        (all_counted sheet.now.from (all_counted sheet.now.earlier sheet.now.labels.now))) result }
{
    begin_object(text, offsets, before);
    put_stream_start(text, before + 2);
    let size = put_stream(text, encoder, sheet);
    text.put(b"\nendstream");
    end_object(text);
    size
}

// Puts what comes before a stream, whose length is the object of this number.
fn put_stream_start<K: Sink>(text: &mut Text<'_, K>, number: u32)
    requires sound { IsSound K.state text.old }
    ensures puts { Puts K.state text.old text.new (stream_start number) }
{
    text.put(b"<</Filter/FlateDecode/Length");
    put_reference(text, number);
    text.put(b">>stream\n");
}

// Puts the length of a stream as an object.
fn put_length<K: Sink>(text: &mut Text<'_, K>, offsets: &mut [u64], before: u32, size: u64)
    requires sound { IsSound K.state text.old }
    requires number { before < 2 ^ 32 - 1 }
    requires room { before < length offsets.old }
    ensures adds { Adds K.state text.old text.new offsets.old offsets.new before (decimal size ∷ []) }
{
    begin_object(text, offsets, before);
    text.put_number(size);
    end_object(text);
}
