//! The palette of a picture.
ghost use Rattle.std.specs.Prelude.{◌≡◌, ℕ, List, ◌<◌, ◌≤◌, ◌∷◌, [], All, IfOk, IfSome, length, get_or, take, true, false};
ghost use Rattle.std.specs.List.{list_any};
ghost use Rattle.std.specs.Str.{bytes_eq};
ghost use Rattle.rows.specs.Palettes.{AreNumbers, IsNumbered, colours_used, with_colour};
ghost use Rattle.rows.specs.Known.{HasNumber};
ghost use Rattle.rows.specs.PixelRows.{place_of};

use plot_page::{Colour, PenSet, Stroke};
use std::alloc::{AllocError, Global};

/// The most colours of a palette.
pub const MOST_COLOURS: usize = 256;

/// White and each further colour of the selected strokes, in the order in which it first comes, as red, green and blue; and
/// for each stroke the number of its colour, counted from 0, or 0 if its pen is not selected.
#[derive(Drop)]
pub struct Palette {
    pub colours: Vec<[u8; 3]>,
    pub numbers: Vec<u8>,
}

/// The palette of strokes, or `None` if they have too many colours for one.
///
/// Errors: if the heap gives no memory.
pub fn palette_of(
    alloc: Global,
    strokes: &[Stroke],
    pens: PenSet,
) -> Result<Option<Palette>, AllocError>
    ensures colours { IfOk result (λ found. IfSome found (λ p. p.colours.items ≡ colours_used pens strokes.now)) }
    ensures few { IfOk result (λ found. IfSome found (λ p. length p.colours.items ≤ MOST_COLOURS)) }
    ensures numbers { IfOk result (λ found. IfSome found (λ p. AreNumbers pens strokes.now p.colours.items p.numbers.items)) }
{
    let mut colours = vec![in alloc; [255u8; 3]; 1]?;
    let mut numbers = Vec::with_capacity(alloc, strokes.len())?;
    for stroke in strokes {
        match number_of(*stroke, pens, &mut colours)? {
            Some(number) => numbers.push(number)?,
            None => return Ok(None),
        }
    }
    Ok(Some(Palette { colours, numbers }))
}

// The number of a stroke's colour among the colours, to which it is added if it is new and there is room; 0 if the pen is
// not selected.
fn number_of(
    stroke: Stroke,
    pens: PenSet,
    colours: &mut Vec<[u8; 3]>,
) -> Result<Option<u8>, AllocError>
    requires some { 0 < length colours.old.items }
    requires few { length colours.old.items ≤ MOST_COLOURS }
    ensures few { length colours.new.items ≤ MOST_COLOURS }
    ensures number { IfOk result (λ found. IfSome found (IsNumbered pens stroke colours.old.items colours.new.items)) }
{
    if !pens.has(stroke.pen) {
        return Ok(Some(0));
    }
    add_colour(bytes_of(stroke.colour), colours)
}

/// The number of a colour among these, to which it is added if it is new and there is room; `None` if there is none.
///
/// Errors: if the heap gives no memory.
pub fn add_colour(colour: [u8; 3], colours: &mut Vec<[u8; 3]>) -> Result<Option<u8>, AllocError>
    requires few { length colours.old.items ≤ MOST_COLOURS }
    ensures few { length colours.new.items ≤ MOST_COLOURS }
    ensures kept { length colours.old.items ≤ length colours.new.items }
    ensures added { IfOk result (λ found. IfSome found (λ _. colours.new.items ≡ with_colour colours.old.items colour)) }
    ensures within { IfOk result (λ found. IfSome found (λ number. number < length colours.new.items)) }
    ensures named { IfOk result (λ found. IfSome found (λ number. get_or colours.new.items number [] ≡ colour)) }
    ensures placed { IfOk result (λ found. IfSome found (λ number. HasNumber colours.new.items colour number)) }
{
    let number = position_of(colours.as_slice(), colour);
    if number < colours.len() {
        return Ok(Some(number as u8));
    }
    if number == MOST_COLOURS {
        return Ok(None);
    }
    colours.push(colour)?;
    Ok(Some(number as u8))
}

fn bytes_of(colour: Colour) -> [u8; 3]
    ensures { result ≡ colour.red ∷ colour.green ∷ colour.blue ∷ [] }
{
    [colour.red, colour.green, colour.blue]
}

/// Where the colour is among these, or how many they are.
pub fn position_of(colours: &[[u8; 3]], colour: [u8; 3]) -> usize
    ensures place { result ≡ place_of colours.now colour }
    ensures most { result ≤ length colours.now }
    ensures found { result < length colours.now → get_or colours.now result [] ≡ colour }
    ensures has { result < length colours.now → list_any (bytes_eq colour) colours.now ≡ true }
    ensures none { result ≡ length colours.now → list_any (bytes_eq colour) colours.now ≡ false }
{
    let mut at = 0;
    while at < colours.len() && colour != colours[at] {
        at += 1;
    }
    at
}
