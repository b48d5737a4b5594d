//! Pages on their sides.
ghost use Rattle.std.specs.Prelude.{◌≡◌};
ghost use Rattle.turning.specs.Turns.{page_on_side, turned_page};

use directions::Turn;
use plot_page::Page;

/// The page after a turn: after one or three quarters its height is its width. Its `left` and `below` stay: they say where the
/// corner of the page lay before the turn.
pub fn turned_page(turn: Turn, page: &Page) -> Page
    ensures { result ≡ turned_page turn page.now }
{
    match turn {
        Turn::Quarter | Turn::ThreeQuarters => page_on_side(page),
        Turn::None | Turn::Half => *page,
    }
}

fn page_on_side(page: &Page) -> Page
    ensures { result ≡ page_on_side page.now }
{
    Page {
        width: page.height,
        height: page.width,
        left: page.left,
        below: page.below,
    }
}
