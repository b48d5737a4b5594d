//! Colours as text.
ghost use Rattle.std.specs.Prelude.{◌≡◌, ◌<◌, ◌&&◌, SomeIff, map};
ghost use Rattle.std.specs.Char.{digit_value, is_digit};
ghost use Rattle.plot_settings.specs.Colours.{rgb};
ghost use Rattle.plot_settings.specs.Parameters.{when};
ghost use Rattle.pen_list.specs.Colours.{by_digits, by_six_digits, colour_written, named_in, names, pair};

use plot_page::Colour;

// The names of HTML 4, each with its red, green and blue. `grey` is another spelling of `gray`.
const NAMES: [(&str, (u8, u8, u8)); 17] = [
    ("black", (0, 0, 0)),
    ("silver", (192, 192, 192)),
    ("gray", (128, 128, 128)),
    ("grey", (128, 128, 128)),
    ("white", (255, 255, 255)),
    ("maroon", (128, 0, 0)),
    ("red", (255, 0, 0)),
    ("purple", (128, 0, 128)),
    ("fuchsia", (255, 0, 255)),
    ("green", (0, 128, 0)),
    ("lime", (0, 255, 0)),
    ("olive", (128, 128, 0)),
    ("yellow", (255, 255, 0)),
    ("navy", (0, 0, 128)),
    ("blue", (0, 0, 255)),
    ("teal", (0, 128, 128)),
    ("aqua", (0, 255, 255)),
];

// The colour that a text writes.
pub(crate) fn read_colour(text: &str) -> Option<Colour>
    ensures { result ≡ colour_written text.now }
{
    match by_digits(text.as_bytes()) {
        Some(colour) => Some(colour),
        None => named(text),
    }
}

// The colour of six hexadecimal digits, or of six or three after `#`. Of three each counts twice.
fn by_digits(text: &[u8]) -> Option<Colour>
    ensures { result ≡ by_digits text.now }
{
    match text {
        [b'#', red, green, blue] => by_six_digits(&[*red, *red, *green, *green, *blue, *blue]),
        [b'#', digits @ ..] => by_six_digits(digits),
        _ => by_six_digits(text),
    }
}

fn by_six_digits(digits: &[u8]) -> Option<Colour>
    ensures { result ≡ by_six_digits digits.now }
{
    let [a, b, c, d, e, f] = digits else {
        return None;
    };
    Some(Colour {
        red: pair(*a, *b)?,
        green: pair(*c, *d)?,
        blue: pair(*e, *f)?,
    })
}

// The number that two hexadecimal digits write.
fn pair(first: u8, second: u8) -> Option<u8>
    ensures { result ≡ when (is_digit first 16 && is_digit second 16) (pair first second) }
{
    Some((16 * digit(first)? + digit(second)?) as u8)
}

fn digit(byte: u8) -> Option<u32>
    ensures { SomeIff result (digit_value byte < 16) (digit_value byte) }
{
    char::from(byte).to_digit(16)
}

fn named(text: &str) -> Option<Colour>
    ensures { result ≡ named_in names text.now }
{
    named_in(&NAMES, text)
}

// The colour in the first row of this name.
fn named_in(rows: &[(&str, (u8, u8, u8))], text: &str) -> Option<Colour>
    ensures { result ≡ named_in (map (λ row. (row.0.now, rgb row.1.0 row.1.1 row.1.2)) rows.now) text.now }
{
    for &(name, (red, green, blue)) in rows {
        if name.eq_ignore_ascii_case(text) {
            return Some(Colour { red, green, blue });
        }
    }
    None
}
