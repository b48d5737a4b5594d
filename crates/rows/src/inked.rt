//! What forms without colours show of images.
ghost use Rattle.std.specs.Prelude.{◌≡◌, ◌<◌, ◌^◌, ◌+◌, map};
ghost use Rattle.image_raster.specs.Cells.{AreCells};
ghost use Rattle.rows.specs.ImageCells.{inked, is_light, luminance, without_light};

use crate::image_inks::ink_of_mark;
use picture_out::{Form, Ink};

// The least mark of a colour, which is that of black.
const LEAST_MARK: u32 = 2_147_483_648;

/// Makes the cells of a row those that a form shows: PBM and PCL have no colours, so that light dots of images are as paper.
pub fn ink_row(form: Form, cells: &mut [u32])
    requires { AreCells cells.old }
    ensures cells { cells.new ≡ inked form cells.old }
    ensures small { AreCells cells.new }
{
    match form {
        Form::Pbm | Form::Pcl => clear_light(cells),
        Form::Marks | Form::Ppm => {}
    }
}

// Makes the cells of light dots of images 0.
fn clear_light(cells: &mut [u32])
    requires { AreCells cells.old }
    ensures cells { cells.new ≡ map without_light cells.old }
    ensures small { AreCells cells.new }
{
    for cell in cells.iter_mut() {
        if is_light(*cell) {
            *cell = 0;
        }
    }
}

// Whether a cell is a dot of an image that is as paper where there are no colours.
fn is_light(cell: u32) -> bool
    requires { cell < 2 ^ 31 + 2 ^ 24 }
    ensures { result ≡ is_light cell }
{
    cell >= LEAST_MARK && luminance(ink_of_mark(cell)) >= 128_000
}

// A thousand times the luminance of a colour.
fn luminance(ink: Ink) -> u32
    ensures { result ≡ luminance ink }
{
    299 * u32::from(ink.red) + 587 * u32::from(ink.green) + 114 * u32::from(ink.blue)
}
