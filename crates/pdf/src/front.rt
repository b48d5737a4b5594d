//! The first objects: the root, the producer, what all pages have, and the list of layers.
ghost use Rattle.std.specs.Prelude.{◌+◌, ◌*◌, ◌≤◌, [], ◌∷◌, length};
ghost use Rattle.pieces.specs.Texts.{IsSound, Puts};
ghost use Rattle.plot_page.specs.declared.stroke.TheConstants.{MOST_STROKES};
ghost use Rattle.pdf.specs.Documents.{catalog_text, info_text, kids_text, list_text, pages_text, shared_text};
ghost use Rattle.pdf.specs.Numbers.{points};
ghost use Rattle.pdf.specs.Units.{count_of};
ghost use Rattle.pdf.specs.Writings.{Adds};

use crate::fonts::{font_count, put_resources};
use crate::layers::{put_properties, put_references};
use crate::objects::{begin_object, end_object, put_object, put_reference};
use crate::pens::PENS;
use crate::rows::ROWS;
use crate::title::put_title;
use crate::units::{PageUnit, count_of, unit_of};
use devices::Sink;
use pieces::{Fraction, Text};
use plot_page::Page;

// Puts the first two objects of a document.
pub(crate) fn put_front<K: Sink>(
    text: &mut Text<'_, K>,
    offsets: &mut [u64],
    version: &str,
    title: &str,
)
    requires sound { IsSound K.state text.old }
    requires room { 2 ≤ length offsets.old }
    ensures adds { Adds K.state text.old text.new offsets.old offsets.new 0
        (catalog_text ∷ info_text version.now title.now ∷ []) }
{
    let catalog =
        b"<</Type/Catalog/Pages 3 0 R/OCProperties<</OCGs 4 0 R/D<</Order 4 0 R/ON 4 0 R>>>>>>";
    put_object(text, offsets, 0, catalog);
    put_info(text, offsets, version, title);
}

// Puts the next two, of a document with layers for these pens, with fonts for these rows and with a page for each end.
pub(crate) fn put_shared_objects<K: Sink>(
    text: &mut Text<'_, K>,
    offsets: &mut [u64],
    page: &Page,
    pens: &[u8],
    rows: &[u8],
    ends: &[usize],
)
    requires sound { IsSound K.state text.old }
    requires few { length pens.now ≤ PENS }
    requires rows { length rows.now ≤ ROWS }
    requires pages { length ends.now ≤ MOST_STROKES }
    requires room { 4 ≤ length offsets.old }
    ensures adds { Adds K.state text.old text.new offsets.old offsets.new 2
        (pages_text page.now pens.now rows.now ends.now ∷ list_text pens.now ∷ []) }
{
    put_kids(text, offsets, page, pens, rows, ends);
    put_list(text, offsets, pens);
}

// Puts the second object: the producer and the title.
fn put_info<K: Sink>(text: &mut Text<'_, K>, offsets: &mut [u64], version: &str, title: &str)
    requires sound { IsSound K.state text.old }
    requires room { 2 ≤ length offsets.old }
    ensures adds { Adds K.state text.old text.new offsets.old offsets.new 1 (info_text version.now title.now ∷ []) }
{
    begin_object(text, offsets, 1);
    text.put(b"<</Producer(plotraster ");
    text.put(version.as_bytes());
    text.put(b")");
    put_title(text, title);
    text.put(b">>");
    end_object(text);
}

// Puts the third object: what all pages have, and references to them.
fn put_kids<K: Sink>(
    text: &mut Text<'_, K>,
    offsets: &mut [u64],
    page: &Page,
    pens: &[u8],
    rows: &[u8],
    ends: &[usize],
)
    requires sound { IsSound K.state text.old }
    requires few { length pens.now ≤ PENS }
    requires rows { length rows.now ≤ ROWS }
    requires pages { length ends.now ≤ MOST_STROKES }
    requires room { 3 ≤ length offsets.old }
    ensures adds { Adds K.state text.old text.new offsets.old offsets.new 2
        (pages_text page.now pens.now rows.now ends.now ∷ []) }
{
    begin_object(text, offsets, 2);
    put_shared(text, page, pens, rows, ends.len() as u32);
    let number = 5 + pens.len() as u32 + font_count(rows);
    put_pages(text, number, ends);
    text.put(b"]>>");
    end_object(text);
}

// Puts what all pages have, up to the references to them.
fn put_shared<K: Sink>(text: &mut Text<'_, K>, page: &Page, pens: &[u8], rows: &[u8], count: u32)
    requires sound { IsSound K.state text.old }
    requires few { length pens.now ≤ PENS }
    requires rows { length rows.now ≤ ROWS }
    ensures puts { Puts K.state text.old text.new (shared_text page.now pens.now rows.now count) }
{
    text.put(b"<</Type/Pages/MediaBox[0 0 ");
    let unit = unit_of(page);
    put_points(text, unit, page.width);
    text.put(b" ");
    put_points(text, unit, page.height);
    text.put(b"]/Resources<</Properties<<");
    put_properties(text, 5, pens);
    text.put(b">>");
    put_resources(text, 5 + pens.len() as u32, rows);
    text.put(b">>/Count ");
    text.put_number(count);
    text.put(b"/Kids[");
}

// Puts a length of so many plotter units in units of a page.
fn put_points<K: Sink>(text: &mut Text<'_, K>, unit: PageUnit, units: u32)
    requires sound { IsSound K.state text.old }
    requires small { units ≤ 524288 }
    ensures puts { Puts K.state text.old text.new (points (count_of unit) units) }
{
    let count = count_of(unit);
    let thousandths = (18_000 * u64::from(units) + 127 * count) / (254 * count);
    text.put_number(thousandths / 1000);
    text.put(Fraction::new((thousandths % 1000) as u32).as_bytes());
}

// Puts references to the pages of sheets that end there, from this number on.
fn put_pages<K: Sink>(text: &mut Text<'_, K>, number: u32, ends: &[usize])
    requires sound { IsSound K.state text.old }
    requires pages { length ends.now ≤ MOST_STROKES }
    requires number { number ≤ 1000 }
    ensures puts { Puts K.state text.old text.new (kids_text number ends.now) }
{
    for index in 0..ends.len() {
        put_reference(text, number + 3 * index as u32);
    }
}

// Puts the fourth object: the list of layers.
fn put_list<K: Sink>(text: &mut Text<'_, K>, offsets: &mut [u64], pens: &[u8])
    requires sound { IsSound K.state text.old }
    requires few { length pens.now ≤ PENS }
    requires room { 4 ≤ length offsets.old }
    ensures adds { Adds K.state text.old text.new offsets.old offsets.new 3 (list_text pens.now ∷ []) }
{
    begin_object(text, offsets, 3);
    text.put(b"[");
    put_references(text, 5, pens);
    text.put(b"]");
    end_object(text);
}
