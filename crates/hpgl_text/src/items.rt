//! The items of a plot, one at a time.
ghost use Rattle.std.specs.Prelude.{◌≡◌, ◌<◌, length};
ghost use Rattle.std.specs.Iterator.{YieldsFirst, item_count};
ghost use Rattle.hpgl_text.specs.Cut.{cut, cut_by, silent_at};
ghost use Rattle.hpgl_text.specs.Left.{left_from};
ghost use Rattle.hpgl_text.specs.declared.profile.Profile.{Profile};
ghost use Rattle.hpgl_text.specs.declared.terminator.Terminator.{Terminator};

use crate::bytes::past;
use crate::item::Item;
use crate::profile::Profile;
use crate::program::{read_item, terminator_left_by};
use crate::silent::silent_count;
use crate::terminator::{FIRST_TERMINATOR, Terminator};
use std::marker::Model;

/// The items of a plot that are to come, each of which is cut when it is asked for.
#[derive(Drop)]
pub struct Items<'a> {
    profile: Profile,
    plot: &'a [u8],
    at: usize,
    terminator: Terminator,
}

impl<'a> Model for Items<'a> {
    ghost use Rattle.std.specs.Prelude.{List};
    ghost use Rattle.hpgl_text.specs.Shapes.{ItemShape};
    ghost use Rattle.hpgl_text.specs.Left.{left_from};

    ghost Value = { List ItemShape };

    ghost view = { λ s. left_from s.profile s.plot.now s.terminator s.at };
}

impl<'a> Items<'a> {
    /// All the items of a plot, in the profile core.
    pub fn new(plot: &'a [u8]) -> Items<'a>
        ensures { result ≡ cut plot.now }
    {
        Items::by_profile(Profile::Core, plot)
    }

    /// All the items of a plot, in a profile.
    pub fn by_profile(profile: Profile, plot: &'a [u8]) -> Items<'a>
        ensures { result ≡ cut_by profile plot.now }
    {
        Items {
            profile,
            plot,
            at: 0,
            terminator: FIRST_TERMINATOR,
        }
    }
}

impl<'a> Iterator for Items<'a> {
    type Item = Item<'a>;

    ghost next_gives = { YieldsFirst (λ s. s) };

    ghost remaining = { item_count (λ s. s) };

    #[inline]
    fn next(&mut self) -> Option<Item<'a>> {
        let at = past_silence(self.plot, self.at);
        if at >= self.plot.len() {
            self.at = at;
            return None;
        }
        let (item, bytes) = read_item(self.profile, at, past(self.plot, at), self.terminator);
        self.terminator = terminator_left_by(&item, self.terminator);
        self.at = at + bytes;
        Some(item)
    }
}

// The first place from here on at which nothing silent begins.
fn past_silence(plot: &[u8], from: usize) -> usize
    ensures left { (profile : Profile) (terminator : Terminator)
        → left_from profile plot.now terminator from ≡ left_from profile plot.now terminator result }
    ensures loud { result < length plot.now → silent_at plot.now result ≡ 0 }
{
    let mut at = from;
    'silent: while at < plot.len() {
        let silent = silent_count(past(plot, at));
        if silent == 0 {
            return at;
        }
        at += silent;
    }
    at
}
