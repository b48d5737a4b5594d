//! Places of a page that is turned.
ghost use Rattle.std.specs.Prelude.{◌≡◌, ◌*◌, ◌≤◌, pos};
ghost use Rattle.turning.specs.Turns.{spot, turned_place};

use directions::Turn;
use exact::Spot;
use plot_page::Page;

/// Where a place of a page lies after a turn, in grains.
pub(crate) fn turned_place(turn: Turn, page: &Page, x: i32, y: i32) -> Spot
    ensures { result ≡ turned_place turn page.now (spot x y) }
{
    let x = i128::from(x);
    let y = i128::from(y);
    match turn {
        Turn::None => Spot { x, y },
        Turn::Quarter => Spot {
            x: grains(page.height) - y,
            y: x,
        },
        Turn::Half => Spot {
            x: grains(page.width) - x,
            y: grains(page.height) - y,
        },
        Turn::ThreeQuarters => Spot {
            x: y,
            y: grains(page.width) - x,
        },
    }
}

// How many grains so many plotter units have.
fn grains(units: u32) -> i128
    ensures { result ≡ pos (16 * units) }
{
    16 * i128::from(units)
}
