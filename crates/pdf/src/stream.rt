//! The content of a page, written as a zlib stream.
ghost use Rattle.std.specs.Prelude.{◌≤◌};
ghost use Rattle.areas.specs.Views.{areas_in};
ghost use Rattle.labels.specs.Sheets.{all_counted};
ghost use Rattle.pieces.specs.Texts.{IsSound};
ghost use Rattle.pdf.specs.Contained.{Fills, IsOpen};
ghost use Rattle.pdf.specs.Contents.{content_text};
ghost use Rattle.pdf.specs.RunTexts.{shapes_text};
ghost use Rattle.pdf.specs.Texts.{letter_count};
ghost use Rattle.pdf.specs.Writings.{PutsStream};
ghost use Rattle.pdf.specs.declared.counts.TheConstants.{MOST_LETTERS};
ghost use Rattle.stroke_runs.specs.Sheets.{sheet_areas};

use crate::content::PageContent;
use crate::path::Path;
use crate::sheet::Sheet;
use crate::steps::{put_end, put_step};
use crate::texts::put_texts;
use crate::units::put_head;
use deflate::TextEncoder;
use devices::Sink;
use pieces::Text;
use stroke_runs::Roles;

// Puts the content of a page as a zlib stream, and returns how many bytes that is, a count that stops at its greatest.
pub(crate) fn put_stream<K: Sink>(
    document: &mut Text<'_, K>,
    encoder: &mut TextEncoder,
    sheet: &Sheet<'_>,
) -> u64
    requires sound { IsSound K.state document.old }
    requires letters { letter_count sheet.now.labels.now ≤ MOST_LETTERS }
    ensures puts { PutsStream K.state document.old document.new (content_text sheet.now.page.now sheet.now.pens.now
        sheet.now.strokes.now (sheet_areas sheet.now.from (areas_in sheet.now.areas))
        (all_counted sheet.now.from (all_counted sheet.now.earlier sheet.now.labels.now))) result }
{
    let mut content = PageContent::new(encoder);
    put_content(document, &mut content, sheet);
    content.finish(document)
}

// Puts the content of a page.
fn put_content<K: Sink>(
    document: &mut Text<'_, K>,
    content: &mut PageContent<'_>,
    sheet: &Sheet<'_>,
)
    requires open { IsOpen K.state document.old content.old }
    requires letters { letter_count sheet.now.labels.now ≤ MOST_LETTERS }
    ensures fills { Fills K.state document.old document.new content.old content.new (content_text sheet.now.page.now sheet.now.pens.now
        sheet.now.strokes.now (sheet_areas sheet.now.from (areas_in sheet.now.areas))
        (all_counted sheet.now.from (all_counted sheet.now.earlier sheet.now.labels.now))) }
{
    put_shapes(document, content, sheet);
    put_texts(document, content, sheet);
}

// Puts the drawn shapes of a page.
fn put_shapes<K: Sink>(document: &mut Text<'_, K>, content: &mut PageContent<'_>, sheet: &Sheet<'_>)
    requires open { IsOpen K.state document.old content.old }
    ensures fills { Fills K.state document.old document.new content.old content.new
        (shapes_text sheet.now.page.now sheet.now.pens.now sheet.now.strokes.now
        (sheet_areas sheet.now.from (areas_in sheet.now.areas))) }
{
    let mut path = Path::new();
    let mut roles = Roles::new(sheet.areas, sheet.from);
    put_head(document, content, sheet.page);
    for stroke in sheet.strokes {
        let role = roles.next(sheet.pens, stroke);
        put_step(document, content, sheet.page, &mut path, stroke, role);
    }
    put_end(document, content, &path);
}
