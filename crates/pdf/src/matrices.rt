//! Where lines of letters are placed.
ghost use Rattle.std.specs.Prelude.{◌≡◌, ◌*◌, ◌≤◌, nat_abs, length};
ghost use Rattle.pdf.specs.Contained.{Fills, IsOpen};
ghost use Rattle.pdf.specs.Operators.{TextMatrix, matrix_text, operator_text};
ghost use Rattle.pdf.specs.Texts.{above, along, matrix_of};
ghost use Rattle.pdf.specs.declared.counts.TheConstants.{MOST_LETTERS};
ghost use Rattle.plot_page.specs.declared.stroke.TheConstants.{FARTHEST_END};

use crate::content::PageContent;
use crate::numbers::{put_signed_thousandths, rounded};
use crate::paths::{distance, put_place};
use devices::Sink;
use labels::Line;
use pieces::Text;

// Puts the place of a line that has letters.
pub(crate) fn put_matrix<K: Sink>(
    document: &mut Text<'_, K>,
    content: &mut PageContent<'_>,
    line: &Line,
)
    requires open { IsOpen K.state document.old content.old }
    requires some { 1 ≤ length line.now.text }
    requires few { length line.now.text ≤ MOST_LETTERS }
    ensures fills { Fills K.state document.old document.new content.old content.new
        (operator_text (TextMatrix (matrix_of line.now) line.now.start.x line.now.start.y)) }
{
    put_numbers(document, content, line);
    content.put(document, b" ");
    put_place(document, content, line.start.x, line.start.y);
    content.put(document, b" Tm\n");
}

// Puts the four numbers.
fn put_numbers<K: Sink>(document: &mut Text<'_, K>, content: &mut PageContent<'_>, line: &Line)
    requires open { IsOpen K.state document.old content.old }
    requires some { 1 ≤ length line.now.text }
    requires few { length line.now.text ≤ MOST_LETTERS }
    ensures fills { Fills K.state document.old document.new content.old content.new (matrix_text (matrix_of line.now)) }
{
    let letters = line.text.as_slice().len() as u64;
    let a = along(line.start.x, line.end.x, letters);
    let b = along(line.start.y, line.end.y, letters);
    let c = above(line.start.x, line.top.x);
    let d = above(line.start.y, line.top.y);
    put_four(document, content, a, b, c, d);
}

// Puts four numbers, in thousandths.
fn put_four<K: Sink>(
    document: &mut Text<'_, K>,
    content: &mut PageContent<'_>,
    a: i64,
    b: i64,
    c: i64,
    d: i64,
)
    requires open { IsOpen K.state document.old content.old }
    ensures fills { Fills K.state document.old document.new content.old content.new (matrix_text (record { a = a; b = b; c = c; d = d })) }
{
    put_signed_thousandths(document, content, a);
    content.put(document, b" ");
    put_signed_thousandths(document, content, b);
    content.put(document, b" ");
    put_signed_thousandths(document, content, c);
    content.put(document, b" ");
    put_signed_thousandths(document, content, d);
}

// From one place to another for each of so many letters, which are 3/5 wide, in thousandths.
fn along(from: i32, to: i32, letters: u64) -> i64
    requires from { nat_abs from ≤ FARTHEST_END }
    requires to { nat_abs to ≤ FARTHEST_END }
    requires some { 1 ≤ letters }
    requires few { letters ≤ MOST_LETTERS }
    ensures { result ≡ along from to letters }
{
    rounded(5000, distance(from, to), 3 * letters)
}

// From one place to another for a letter that is 9/16 high, in thousandths.
fn above(from: i32, to: i32) -> i64
    requires from { nat_abs from ≤ FARTHEST_END }
    requires to { nat_abs to ≤ FARTHEST_END }
    ensures { result ≡ above from to }
{
    rounded(16_000, distance(from, to), 9)
}
