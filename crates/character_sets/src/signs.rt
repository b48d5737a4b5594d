//! The signs of a text, one at a time.
ghost use Rattle.std.specs.Prelude.{◌≡◌, ◌∷◌, [], IfSome, None};
ghost use Rattle.std.specs.Iterator.{YieldsFirst, item_count};

use crate::sign::Sign;
use crate::unread::Unread;
use std::marker::Model;

/// The signs of a text that are to come, in order.
#[derive(Drop)]
pub struct Signs<'a> {
    unread: Unread<'a>,
}

impl<'a> Model for Signs<'a> {
    ghost use Rattle.std.specs.Prelude.{List};
    ghost use Rattle.character_sets.specs.Left.{signs_left};
    ghost use Rattle.character_sets.specs.declared.sign.Sign.{Sign};

    ghost Value = { List Sign };

    ghost view = { λ s. signs_left s.unread };
}

impl<'a> Signs<'a> {
    ghost use Rattle.character_sets.specs.Left.{signs_left};

    // Those of bytes that are not read yet.
    pub(crate) fn of(unread: Unread<'a>) -> Signs<'a>
        ensures { result ≡ signs_left unread.entry }
    {
        Signs { unread }
    }

    /// The same signs once more.
    pub fn again(&self) -> Signs<'a>
        ensures { result ≡ self.now }
    {
        Signs {
            unread: self.unread,
        }
    }

    /// The next sign.
    pub fn next_sign(&mut self) -> Option<Sign>
        ensures taken { IfSome result (λ sign. self.old ≡ sign ∷ self.new) }
        ensures none { result ≡ None → self.old ≡ [] }
        ensures end { result ≡ None → self.new ≡ [] }
    {
        self.unread.next()
    }
}

impl<'a> Iterator for Signs<'a> {
    type Item = Sign;

    ghost next_gives = { YieldsFirst (λ s. s) };

    ghost remaining = { item_count (λ s. s) };

    fn next(&mut self) -> Option<Sign> {
        self.unread.next()
    }
}
