//! What comes before the entities of a document, but for the layers of pens.
ghost use Rattle.std.specs.Prelude.{◌≡◌};
ghost use Rattle.pieces.specs.Texts.{IsSound, Puts};
ghost use Rattle.dxf.specs.Documents.{header_text, line_types_text, middle_text, section_start, side, start_text, styles_text, table_start};

use crate::groups::{GRAIN, put_count, put_group, put_size};
use crate::layers::put_layer_zero;
use devices::Sink;
use pieces::Text;
use plot_page::Page;

// Puts what comes before the layers of pens.
pub(crate) fn put_head<K: Sink>(text: &mut Text<'_, K>, page: &Page)
    requires sound { IsSound K.state text.old }
    ensures puts { Puts K.state text.old text.new (start_text page.now) }
{
    put_header(text, page);
    put_section(text, b"TABLES");
    put_line_types(text);
    put_table(text, b"LAYER", 32_767);
    put_layer_zero(text);
}

// Puts what comes between the layers and the entities.
pub(crate) fn put_middle<K: Sink>(text: &mut Text<'_, K>)
    requires sound { IsSound K.state text.old }
    ensures puts { Puts K.state text.old text.new middle_text }
{
    put_group(text, 0, b"ENDTAB");
    put_styles(text);
    put_group(text, 0, b"ENDSEC");
    put_section(text, b"ENTITIES");
}

// Puts the start of a section.
fn put_section<K: Sink>(text: &mut Text<'_, K>, name: &[u8])
    requires sound { IsSound K.state text.old }
    ensures puts { Puts K.state text.old text.new (section_start name.now) }
{
    put_group(text, 0, b"SECTION");
    put_group(text, 2, name);
}

// Puts the start of a table that has at most so many entries.
fn put_table<K: Sink>(text: &mut Text<'_, K>, name: &[u8], most: u32)
    requires sound { IsSound K.state text.old }
    ensures puts { Puts K.state text.old text.new (table_start name.now most) }
{
    put_group(text, 0, b"TABLE");
    put_group(text, 2, name);
    put_count(text, 70, most);
}

// Puts the version, the corners of the page, and the unit.
fn put_header<K: Sink>(text: &mut Text<'_, K>, page: &Page)
    requires sound { IsSound K.state text.old }
    ensures puts { Puts K.state text.old text.new (header_text page.now) }
{
    put_section(text, b"HEADER");
    put_group(text, 9, b"$ACADVER");
    put_group(text, 1, b"AC1009");
    put_group(text, 9, b"$EXTMIN");
    put_count(text, 10, 0);
    put_count(text, 20, 0);
    put_count(text, 30, 0);
    put_group(text, 9, b"$EXTMAX");
    put_size(text, 10, side(page.width));
    put_size(text, 20, side(page.height));
    put_count(text, 30, 0);
    put_group(text, 9, b"$INSUNITS");
    put_count(text, 70, 4);
    put_group(text, 0, b"ENDSEC");
}

// A side of the page, in parts.
fn side(units: u32) -> u128
    ensures { result ≡ side units }
{
    16 * GRAIN * u128::from(units)
}

// Puts the table with the one line type.
fn put_line_types<K: Sink>(text: &mut Text<'_, K>)
    requires sound { IsSound K.state text.old }
    ensures puts { Puts K.state text.old text.new line_types_text }
{
    put_table(text, b"LTYPE", 1);
    put_group(text, 0, b"LTYPE");
    put_group(text, 2, b"CONTINUOUS");
    put_count(text, 70, 0);
    put_group(text, 3, b"Solid line");
    put_count(text, 72, 65);
    put_count(text, 73, 0);
    put_count(text, 40, 0);
    put_group(text, 0, b"ENDTAB");
}

// Puts the table with the one style of letters.
fn put_styles<K: Sink>(text: &mut Text<'_, K>)
    requires sound { IsSound K.state text.old }
    ensures puts { Puts K.state text.old text.new styles_text }
{
    put_table(text, b"STYLE", 1);
    put_group(text, 0, b"STYLE");
    put_group(text, 2, b"STANDARD");
    put_count(text, 70, 0);
    put_count(text, 40, 0);
    put_count(text, 41, 1);
    put_count(text, 50, 0);
    put_count(text, 71, 0);
    put_count(text, 42, 1);
    put_group(text, 3, b"txt");
    put_group(text, 4, b"");
    put_group(text, 0, b"ENDTAB");
}
