//! Images: a group of tiles, each of which is a PNG.
ghost use Rattle.std.specs.Prelude.{◌≡◌, ◌+◌, ◌≤◌, ◌<◌, ◌^◌, flat_map, get_or, length};
ghost use Rattle.directions.specs.declared.turn.Turn.{Turn};
ghost use Rattle.image_data.specs.Tiles.{band_tiles, tiles, tiles_at};
ghost use Rattle.image_data.specs.declared.tile.TheConstants.{STRIP};
ghost use Rattle.pieces.specs.Texts.{IsSound, Puts};
ghost use Rattle.svg.specs.Images.{after_scale, before_scale, between_scales, dot_size, group_text, image_text, matrix_text, scale, tile_start, tile_text, view_text};

use crate::commands::put_place;
use crate::places::{Rectangle, rectangle_of, start_of};
use devices::Sink;
use directions::Turn;
use image_data::{Tile, band_rows, begins, put_png, strip_count, tile_of};
use page_images::PageImage;
use pieces::Text;
use plot_page::Page;
use raster_graphics::{Density, Image};
use stroke_runs::has_place;

/// How many billionths of a grain an inch has.
const INCH: u64 = 16_256_000_000_000;

// Puts an image, unless its window holds no place.
pub(crate) fn put_image<K: Sink>(text: &mut Text<'_, K>, page: &Page, image: &PageImage)
    requires sound { IsSound K.state text.old }
    ensures puts { Puts K.state text.old text.new (image_text page.now image.now) }
{
    if !has_place(image.frame.window) {
        return;
    }
    put_group(text, page, image);
}

// Puts an image as a group of its tiles.
fn put_group<K: Sink>(text: &mut Text<'_, K>, page: &Page, image: &PageImage)
    requires sound { IsSound K.state text.old }
    ensures puts { Puts K.state text.old text.new (group_text page.now image.now) }
{
    put_view(text, rectangle_of(page, &image.frame));
    text.put(b"<g transform=\"matrix(");
    put_matrix(text, page, image);
    text.put(b")\">\n");
    put_tiles(text, &image.image);
    text.put(b"</g></svg>\n");
}

// Puts what is seen of an image.
fn put_view<K: Sink>(text: &mut Text<'_, K>, view: Rectangle)
    requires sound { IsSound K.state text.old }
    ensures puts { Puts K.state text.old text.new (view_text view) }
{
    text.put(b"<svg x=\"");
    text.put_number(view.x);
    text.put(b"\" y=\"");
    text.put_number(view.y);
    text.put(b"\" width=\"");
    text.put_number(view.width);
    text.put(b"\" height=\"");
    text.put_number(view.height);
    text.put(b"\" viewBox=\"");
    text.put_number(view.x);
    text.put(b" ");
    text.put_number(view.y);
    text.put(b" ");
    text.put_number(view.width);
    text.put(b" ");
    text.put_number(view.height);
    text.put(b"\">\n");
}

// Puts the numbers of the matrix from dots to the grains of the document.
fn put_matrix<K: Sink>(text: &mut Text<'_, K>, page: &Page, image: &PageImage)
    requires sound { IsSound K.state text.old }
    ensures puts { Puts K.state text.old text.new (matrix_text page.now image.now) }
{
    let density = image.image.settings.resolution;
    text.put(before_scale(image.turn));
    put_scale(text, density);
    text.put(between_scales(image.turn));
    put_scale(text, density);
    text.put(after_scale(image.turn));
    put_place(text, start_of(page, &image.frame));
}

// Puts how many grains a dot is wide.
fn put_scale<K: Sink>(text: &mut Text<'_, K>, density: Density)
    requires sound { IsSound K.state text.old }
    ensures puts { Puts K.state text.old text.new (scale density) }
{
    text.put_number(dot_size(density));
    text.put(b"e-9");
}

// The same in billionths, rounded to the nearest.
fn dot_size(density: Density) -> u64
    ensures { result ≡ dot_size density }
{
    let density = u64::from(density.number());
    (2 * INCH + density) / (2 * density)
}

// What stands before the size of a dot in a matrix.
fn before_scale(turn: Turn) -> &'static [u8]
    ensures { result.now ≡ before_scale turn }
{
    match turn {
        Turn::None => b"0 -",
        Turn::Quarter => b"-",
        Turn::Half => b"0 ",
        Turn::ThreeQuarters => b"",
    }
}

// What stands between the two sizes.
fn between_scales(turn: Turn) -> &'static [u8]
    ensures { result.now ≡ between_scales turn }
{
    match turn {
        Turn::None => b" ",
        Turn::Quarter => b" 0 0 -",
        Turn::Half => b" -",
        Turn::ThreeQuarters => b" 0 0 ",
    }
}

// What stands after them.
fn after_scale(turn: Turn) -> &'static [u8]
    ensures { result.now ≡ after_scale turn }
{
    match turn {
        Turn::None | Turn::Half => b" 0 ",
        Turn::Quarter | Turn::ThreeQuarters => b" ",
    }
}

// Puts all tiles of an image.
fn put_tiles<K: Sink>(text: &mut Text<'_, K>, image: &Image)
    requires sound { IsSound K.state text.old }
    ensures puts { Puts K.state text.old text.new (flat_map (tile_text image.now) (tiles image.now)) }
{
    for position in 0..image.numbers.as_slice().len() {
        put_tiles_at(text, image, position);
    }
}

// Puts the tiles of the band that begins at a position, if one begins there.
fn put_tiles_at<K: Sink>(text: &mut Text<'_, K>, image: &Image, position: usize)
    requires sound { IsSound K.state text.old }
    requires there { position < length image.now.numbers }
    ensures puts { Puts K.state text.old text.new (flat_map (tile_text image.now) (tiles_at image.now position)) }
{
    if !begins(image, position) {
        return;
    }
    put_band(text, image, position);
}

// Puts the tiles of the band that begins at a position.
fn put_band<K: Sink>(text: &mut Text<'_, K>, image: &Image, position: usize)
    requires sound { IsSound K.state text.old }
    requires there { position < length image.now.numbers }
    ensures puts { Puts K.state text.old text.new (flat_map (tile_text image.now) (band_tiles image.now position)) }
{
    let rows = band_rows(image, position);
    for strip in 0..strip_count(image) {
        put_tile(text, image, tile_of(image, position, rows, strip));
    }
}

// Puts a tile.
fn put_tile<K: Sink>(text: &mut Text<'_, K>, image: &Image, tile: Tile)
    requires sound { IsSound K.state text.old }
    requires there { tile.position < length image.now.numbers }
    requires rows { tile.position + tile.rows ≤ 2 ^ 61 }
    requires columns { tile.columns ≤ STRIP }
    requires within { tile.column + tile.columns < 2 ^ 32 }
    ensures puts { Puts K.state text.old text.new (tile_text image.now tile) }
{
    put_tile_start(text, image, tile);
    put_png(text, image, tile);
    text.put(b"\"/>\n");
}

// Puts where a tile lies in its image.
fn put_tile_start<K: Sink>(text: &mut Text<'_, K>, image: &Image, tile: Tile)
    requires sound { IsSound K.state text.old }
    requires there { tile.position < length image.now.numbers }
    ensures puts { Puts K.state text.old text.new (tile_start image.now tile) }
{
    text.put(b"<image x=\"");
    text.put_number(tile.column);
    text.put(b"\" y=\"");
    text.put_number(first_row(image, tile));
    text.put(b"\" width=\"");
    text.put_number(tile.columns);
    text.put(b"\" height=\"");
    text.put_number(tile.rows);
    text.put(
        b"\" preserveAspectRatio=\"none\" image-rendering=\"pixelated\" xmlns:xlink=\"http://www.w3.org/1999/xlink\" xlink:href=\"data:image/png;base64,",
    );
}

// The number of the first row of a tile.
fn first_row(image: &Image, tile: Tile) -> u32
    requires there { tile.position < length image.now.numbers }
    ensures { result ≡ get_or image.now.numbers tile.position 0 }
{
    image.numbers.as_slice()[tile.position]
}
