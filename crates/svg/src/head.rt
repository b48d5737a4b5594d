//! What comes before the paths of a document.
ghost use Rattle.pieces.specs.Texts.{IsSound, Puts};
ghost use Rattle.svg.specs.Documents.{head_text, page_text};
ghost use Rattle.svg.specs.Numbers.{millimetres};

use devices::Sink;
use pieces::{Fraction, Text};
use plot_page::Page;

// Puts the head.
pub(crate) fn put_head<K: Sink>(text: &mut Text<'_, K>, page: &Page)
    requires sound { IsSound K.state text.old }
    ensures puts { Puts K.state text.old text.new (head_text page.now) }
{
    text.put(
        b"<?xml version=\"1.0\" encoding=\"UTF-8\"?>\n<svg xmlns=\"http://www.w3.org/2000/svg\"",
    );
    put_page(text, page);
    text.put(b"<g fill=\"none\" stroke-linecap=\"round\" stroke-linejoin=\"round\">\n");
}

// Puts the size of the page, in millimetres and in grains.
fn put_page<K: Sink>(text: &mut Text<'_, K>, page: &Page)
    requires sound { IsSound K.state text.old }
    ensures puts { Puts K.state text.old text.new (page_text page.now) }
{
    text.put(b" width=\"");
    put_millimetres(text, page.width);
    text.put(b"mm\" height=\"");
    put_millimetres(text, page.height);
    text.put(b"mm\" viewBox=\"0 0 ");
    text.put_number(16 * page.width);
    text.put(b" ");
    text.put_number(16 * page.height);
    text.put(b"\">\n");
}

// Puts a length in millimetres, to as many decimals as it needs.
fn put_millimetres<K: Sink>(text: &mut Text<'_, K>, units: u32)
    requires sound { IsSound K.state text.old }
    ensures puts { Puts K.state text.old text.new (millimetres units) }
{
    text.put_number(units / 40);
    text.put(Fraction::new(25 * (units % 40)).as_bytes());
}
