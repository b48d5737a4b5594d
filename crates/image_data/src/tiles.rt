//! Which tiles an image has.
ghost use Rattle.std.specs.Prelude.{◌≡◌, ◌+◌, ◌*◌, ◌<◌, ◌≤◌, ◌^◌, length, drop};
ghost use Rattle.image_data.specs.declared.tile.TheConstants.{STRIP};
ghost use Rattle.image_data.specs.Tiles.{band_rows, begins, following, shown_dots, strip_count, tile};

use crate::tile::{MOST_DOTS, MOST_ROWS, STRIP, Tile};
use raster_graphics::Image;

/// Whether the row at a position among those that were sent begins a band: it does not follow the one before it.
pub fn begins(image: &Image, position: usize) -> bool
    requires { position < length image.now.numbers }
    ensures { result ≡ begins image.now.numbers position }
{
    let numbers = image.numbers.as_slice();
    !(position > 0 && u64::from(numbers[position]) == u64::from(numbers[position - 1]) + 1)
}

/// How many rows the band has that begins at a position.
pub fn band_rows(image: &Image, position: usize) -> u32
    requires { position < length image.now.numbers }
    ensures value { result ≡ band_rows image.now.numbers position }
    ensures within { position + result ≤ 2 ^ 61 }
{
    let numbers = image.numbers.as_slice();
    let more = following(numbers[position], &numbers[position + 1..]);
    more.saturating_add(1).min(MOST_ROWS as usize) as u32
}

// How many of these rows follow a row, each directly after the one before it.
fn following(last: u32, numbers: &[u32]) -> usize
    ensures value { result ≡ following last numbers.now }
    ensures few { result ≤ length numbers.now }
{
    let mut count = 0;
    let mut previous = last;
    for number in numbers {
        if u64::from(*number) != u64::from(previous) + 1 {
            return count;
        }
        previous = *number;
        count += 1;
    }
    count
}

/// How many strips a band of an image has.
pub fn strip_count(image: &Image) -> u32
    ensures { result ≡ strip_count image.now }
{
    shown_dots(image).div_ceil(STRIP)
}

// How many dots of a row are shown.
fn shown_dots(image: &Image) -> u32
    ensures { result ≡ shown_dots image.now }
{
    image.width.min(MOST_DOTS) as u32
}

/// A strip, by its number, of the band that begins at a position and has so many rows.
pub fn tile_of(image: &Image, position: usize, rows: u32, strip: u32) -> Tile
    requires rows { rows ≡ band_rows image.now.numbers position }
    requires strip { strip < strip_count image.now }
    ensures tile { result ≡ tile image.now position strip }
    ensures columns { result.columns ≤ STRIP }
    ensures within { result.column + result.columns < 2 ^ 32 }
{
    let column = STRIP * strip;
    Tile {
        position,
        rows,
        column,
        columns: STRIP.min(shown_dots(image).saturating_sub(column)),
    }
}
