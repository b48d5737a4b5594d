//! The items of a plot in either profile, one at a time.
ghost use Rattle.std.specs.Prelude.{◌≡◌};
ghost use Rattle.std.specs.Iterator.{YieldsFirst, item_count};
ghost use Rattle.full_text.specs.Cut.{cut_by};

use crate::full_items::FullItems;
use hpgl_text::{Item, Items, Profile};
use std::marker::Model;

/// The items of a plot that are to come, in a profile.
#[derive(Drop)]
pub struct PlotItems<'a> {
    items: ItemsBy<'a>,
}

// Those of each profile.
#[derive(Drop)]
enum ItemsBy<'a> {
    Core(Items<'a>),
    Full(FullItems<'a>),
}

impl<'a> Model for PlotItems<'a> {
    ghost use Rattle.std.specs.Prelude.{List};
    ghost use Rattle.hpgl_text.specs.Shapes.{ItemShape};
    ghost use Rattle.full_text.specs.Seen.{items_of};

    ghost Value = { List ItemShape };

    ghost view = { λ s. items_of s.items };
}

impl<'a> PlotItems<'a> {
    /// All the items of a plot, in a profile.
    pub fn new(profile: Profile, plot: &'a [u8]) -> PlotItems<'a>
        ensures { result ≡ cut_by profile plot.now }
    {
        let items = match profile {
            Profile::Core => ItemsBy::Core(Items::new(plot)),
            Profile::Full => ItemsBy::Full(FullItems::new(plot)),
        };
        PlotItems { items }
    }
}

impl<'a> Iterator for PlotItems<'a> {
    type Item = Item<'a>;

    ghost next_gives = { YieldsFirst (λ s. s) };

    ghost remaining = { item_count (λ s. s) };

    #[inline]
    fn next(&mut self) -> Option<Item<'a>> {
        match &mut self.items {
            ItemsBy::Core(items) => items.next(),
            ItemsBy::Full(items) => items.next(),
        }
    }
}
