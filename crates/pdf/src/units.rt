//! The unit of pages.
ghost use Rattle.std.specs.Prelude.{◌≡◌, ◌≤◌};
ghost use Rattle.pdf.specs.Operators.{scale_text};
ghost use Rattle.pdf.specs.Contained.{Fills, IsOpen};
ghost use Rattle.pdf.specs.RunTexts.{head_text};
ghost use Rattle.pdf.specs.Units.{count_of, unit_by, unit_of};

use crate::content::PageContent;
use devices::Sink;
use pieces::Text;
use plot_page::Page;

/// The longest side of a page in units of a point, in plotter units: 14,400 points.
pub(crate) const LONGEST_IN_POINTS: u32 = 203_200;

/// The unit of a page: one point, two or three.
#[derive(Clone, Copy)]
pub(crate) enum PageUnit {
    One,
    Two,
    Three,
}

// The unit of a page.
pub(crate) fn unit_of(page: &Page) -> PageUnit
    ensures { result ≡ unit_of page.now }
{
    unit_by(page.width.max(page.height))
}

// The unit of a page whose longer side is so long.
fn unit_by(side: u32) -> PageUnit
    ensures { result ≡ unit_by side }
{
    if side <= LONGEST_IN_POINTS {
        PageUnit::One
    } else if side <= 2 * LONGEST_IN_POINTS {
        PageUnit::Two
    } else {
        PageUnit::Three
    }
}

// How many points a unit has.
pub(crate) fn count_of(unit: PageUnit) -> u64
    ensures value { result ≡ count_of unit }
    ensures least { 1 ≤ result }
    ensures most { result ≤ 3 }
{
    match unit {
        PageUnit::One => 1,
        PageUnit::Two => 2,
        PageUnit::Three => 3,
    }
}

// Puts what comes first in the content of a page: its scale, and the shape of the ends and corners of lines.
pub(crate) fn put_head<K: Sink>(
    document: &mut Text<'_, K>,
    content: &mut PageContent<'_>,
    page: &Page,
)
    requires open { IsOpen K.state document.old content.old }
    ensures fills { Fills K.state document.old document.new content.old content.new (head_text page.now) }
{
    put_scale(document, content, unit_of(page));
    content.put(document, b"1 J\n1 j\n");
}

// Puts how many units of a page a grain is.
fn put_scale<K: Sink>(document: &mut Text<'_, K>, content: &mut PageContent<'_>, unit: PageUnit)
    requires open { IsOpen K.state document.old content.old }
    ensures fills { Fills K.state document.old document.new content.old content.new (scale_text unit) }
{
    match unit {
        PageUnit::One => content.put(document, b"0.004429133858 0 0 0.004429133858 0 0 cm\n"),
        PageUnit::Two => content.put(document, b"0.002214566929 0 0 0.002214566929 0 0 cm\n"),
        PageUnit::Three => content.put(document, b"0.001476377953 0 0 0.001476377953 0 0 cm\n"),
    }
}
