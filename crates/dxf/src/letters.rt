//! The entities of labels.
ghost use Rattle.std.specs.Prelude.{◌≡◌, ◌∷◌, [], ◌<◌, true};
ghost use Rattle.std.specs.Fmt.{digit_glyph};
ghost use Rattle.std.specs.List.{list_any};
ghost use Rattle.labels.specs.Labels.{IsNear};
ghost use Rattle.pieces.specs.Texts.{IsSound, Puts};
ghost use Rattle.dxf.specs.Cuts.{point_of};
ghost use Rattle.dxf.specs.Groups.{group};
ghost use Rattle.dxf.specs.Letters.{fit_groups, form_groups, four_digits, has_letters, is_letter, is_plain, is_written, leaning_group, letter, letter_text, letters_text, line_text, lines_text, mirrored_group, text_entity};

use crate::cuts::{Point, point_of};
use crate::entities::put_point;
use crate::forms::{Form, form_of};
use crate::groups::{put_count, put_group, put_signed, put_size};
use crate::layers::{Layers, put_layer_groups};
use devices::Sink;
use labels::{Line, Place};
use pieces::Text;
use plot_page::Stroke;

/// Signs that have a meaning in a text.
pub(crate) const PERCENT: u32 = 0x25;

pub(crate) const BACKSLASH: u32 = 0x5C;

pub(crate) const CARET: u32 = 0x5E;

/// What replaces a code point that cannot be written: U+FFFD.
pub(crate) const REPLACEMENT: u32 = 0xFFFD;

// Whether a label has a letter.
pub(crate) fn is_written(lines: &[Line]) -> bool
    ensures { result ≡ list_any has_letters lines.now }
{
    for line in lines {
        if has_letters(line) {
            return true;
        }
    }
    false
}

// Whether a line has a letter.
fn has_letters(line: &Line) -> bool
    ensures { result ≡ has_letters line.now }
{
    line.text.len() != 0
}

// Puts the lines of a label, with the layer and the colour of a stroke.
pub(crate) fn put_lines<K: Sink>(
    text: &mut Text<'_, K>,
    layers: &Layers,
    stroke: &Stroke,
    lines: &[Line],
)
    requires sound { IsSound K.state text.old }
    ensures puts { Puts K.state text.old text.new (lines_text layers.now stroke.now lines.now) }
{
    for line in lines {
        put_line(text, layers, stroke, line);
    }
}

// Puts a line of a label, if it has a letter.
fn put_line<K: Sink>(text: &mut Text<'_, K>, layers: &Layers, stroke: &Stroke, line: &Line)
    requires sound { IsSound K.state text.old }
    ensures puts { Puts K.state text.old text.new (line_text layers.now stroke.now line.now) }
{
    if has_letters(line) {
        put_entity(text, layers, stroke, line);
    }
}

// Puts the entity of a line of letters.
fn put_entity<K: Sink>(text: &mut Text<'_, K>, layers: &Layers, stroke: &Stroke, line: &Line)
    requires sound { IsSound K.state text.old }
    ensures puts { Puts K.state text.old text.new (text_entity layers.now stroke.now line.now) }
{
    let form = form_of(line);
    put_group(text, 0, b"TEXT");
    put_layer_groups(text, layers, stroke.pen, stroke.colour);
    put_point(text, 10, 20, point_at(line.start));
    put_size(text, 40, form.height);
    put_letters(text, &line.text);
    put_form(text, &form, line.end);
}

// A place of letters as a point of the document.
fn point_at(place: Place) -> Point
    ensures { result ≡ point_of place.x place.y }
{
    point_of(place.x, place.y)
}

// Puts a text as a group.
fn put_letters<K: Sink>(text: &mut Text<'_, K>, code_points: &[u32])
    requires sound { IsSound K.state text.old }
    ensures puts { Puts K.state text.old text.new (group 1 (letters_text code_points.now)) }
{
    text.put_number(1u32);
    text.put(b"\n");
    put_code_points(text, code_points);
    text.put(b"\n");
}

// Puts a text of any code points.
fn put_code_points<K: Sink>(text: &mut Text<'_, K>, code_points: &[u32])
    requires sound { IsSound K.state text.old }
    ensures puts { Puts K.state text.old text.new (letters_text code_points.now) }
{
    for code_point in code_points {
        put_code_point(text, *code_point);
    }
}

// Puts a code point: a plain one as it is, and the others by four hexadecimal digits.
fn put_code_point<K: Sink>(text: &mut Text<'_, K>, code_point: u32)
    requires sound { IsSound K.state text.old }
    ensures puts { Puts K.state text.old text.new (letter_text code_point) }
{
    if is_plain(code_point) {
        text.put(&[code_point as u8]);
    } else {
        text.put(b"\\U+");
        text.put(&four_digits(letter(code_point)));
    }
}

// Whether a code point is a byte that stands for itself.
fn is_plain(code_point: u32) -> bool
    ensures { result ≡ is_plain code_point }
{
    matches!(code_point, 0x20..=0x7E) && !matches!(code_point, PERCENT | BACKSLASH | CARET)
}

// A code point, which is U+FFFD if it cannot be written.
fn letter(code_point: u32) -> u32
    ensures { result ≡ letter code_point }
{
    if is_letter(code_point) {
        code_point
    } else {
        REPLACEMENT
    }
}

// Whether a code point can be written.
fn is_letter(code_point: u32) -> bool
    ensures { result ≡ is_letter code_point }
{
    matches!(code_point, 0x20..=0x7E | 0xA0..=0xD7FF | 0xE000..=0xFFFD)
}

// A code point in four hexadecimal digits.
fn four_digits(code_point: u32) -> [u8; 4]
    ensures { result ≡ four_digits code_point }
{
    [
        capital_digit((code_point / 4096 % 16) as u8),
        capital_digit((code_point / 256 % 16) as u8),
        capital_digit((code_point / 16 % 16) as u8),
        capital_digit((code_point % 16) as u8),
    ]
}

// A number below 16 as a hexadecimal digit, in capitals.
fn capital_digit(number: u8) -> u8
    requires { number < 16 }
    ensures { result ≡ digit_glyph true number }
{
    if number < 10 {
        b'0' + number
    } else {
        b'A' + (number - 10)
    }
}

// Puts how letters lie whose line has this end.
fn put_form<K: Sink>(text: &mut Text<'_, K>, form: &Form, end: Place)
    requires sound { IsSound K.state text.old }
    ensures puts { Puts K.state text.old text.new (form_groups form.now end) }
{
    put_size(text, 50, 1000 * u128::from(form.rotation));
    put_size(text, 41, form.factor);
    put_leaning(text, form.is_backward, form.leaning);
    put_group(text, 7, b"STANDARD");
    put_mirrored(text, form.is_mirrored);
    put_fit(text, form.is_fit, end);
}

// Puts by how much letters lean, if they do.
fn put_leaning<K: Sink>(text: &mut Text<'_, K>, is_backward: bool, leaning: u64)
    requires sound { IsSound K.state text.old }
    ensures puts { Puts K.state text.old text.new (leaning_group is_backward leaning) }
{
    if leaning == 0 {
        return;
    }
    put_signed(text, 51, is_backward, 1000 * u128::from(leaning));
}

// Puts that letters are upside down, if they are.
fn put_mirrored<K: Sink>(text: &mut Text<'_, K>, mirrored: bool)
    requires sound { IsSound K.state text.old }
    ensures puts { Puts K.state text.old text.new (mirrored_group mirrored) }
{
    if mirrored {
        put_count(text, 71, 4);
    }
}

// Puts where a line of letters ends, if it is fit.
fn put_fit<K: Sink>(text: &mut Text<'_, K>, fit: bool, end: Place)
    requires sound { IsSound K.state text.old }
    ensures puts { Puts K.state text.old text.new (fit_groups fit end) }
{
    if fit {
        put_count(text, 72, 5);
        put_point(text, 11, 21, point_at(end));
    } else {
        put_count(text, 72, 0);
    }
}
