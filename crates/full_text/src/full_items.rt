//! The items of a plot in the profile full, one at a time.
ghost use Rattle.std.specs.Prelude.{◌≡◌, ◌+◌, ◌<◌, ◌≤◌, ◌^◌, length, drop, false};
ghost use Rattle.std.specs.Iterator.{YieldsFirst, item_count};
ghost use Rattle.hpgl_text.specs.declared.terminator.Terminator.{Terminator};
ghost use Rattle.full_text.specs.Cut.{escape_at, silent_of, silent_in, item_of, item_in, language_of, full_cut};
ghost use Rattle.hpgl_text.specs.Seen.{body_shape};
ghost use Rattle.full_text.specs.Left.{left_from, silent_at};

use crate::languages::language_after;
use crate::text::escape_at;
use hpgl_text::{
    Body, ESCAPE, FIRST_TERMINATOR, Item, Profile, Terminator, past, read_item, silent_count,
    terminator_left_by,
};
use raster_requests::Language;
use std::marker::Model;

const FORM_FEED: u8 = 0x0c;

/// The items of a plot that are to come, in the profile full, each of which is cut when it is asked for.
#[derive(Drop)]
pub struct FullItems<'a> {
    plot: &'a [u8],
    at: usize,
    language: Language,
    terminator: Terminator,
}

impl<'a> Model for FullItems<'a> {
    ghost use Rattle.std.specs.Prelude.{List};
    ghost use Rattle.hpgl_text.specs.Shapes.{ItemShape};
    ghost use Rattle.full_text.specs.Left.{left_from};

    ghost Value = { List ItemShape };

    ghost view = { λ s. left_from s.plot.now s.language s.terminator s.at };
}

impl<'a> FullItems<'a> {
    /// All the items of a plot.
    pub fn new(plot: &'a [u8]) -> FullItems<'a>
        ensures { result ≡ full_cut plot.now }
    {
        FullItems {
            plot,
            at: 0,
            language: Language::Hpgl2,
            terminator: FIRST_TERMINATOR,
        }
    }
}

impl<'a> Iterator for FullItems<'a> {
    type Item = Item<'a>;

    ghost next_gives = { YieldsFirst (λ s. s) };

    ghost remaining = { item_count (λ s. s) };

    #[inline]
    fn next(&mut self) -> Option<Item<'a>> {
        let at = past_silence(self.language, self.plot, self.at);
        if at >= self.plot.len() {
            self.at = at;
            return None;
        }
        let text = past(self.plot, at);
        let (item, bytes) = read_any(self.language, at, text, self.terminator);
        self.language = language_left(self.language, text);
        self.terminator = terminator_left_by(&item, self.terminator);
        self.at = at + bytes;
        Some(item)
    }
}

// The first place from here on at which nothing silent begins.
fn past_silence(language: Language, plot: &[u8], from: usize) -> usize
    ensures left { (terminator : Terminator)
        → left_from plot.now language terminator from ≡ left_from plot.now language terminator result }
    ensures loud { result < length plot.now → silent_at language plot.now result ≡ 0 }
{
    let mut at = from;
    'silent: while at < plot.len() {
        let silent = any_silent_count(language, past(plot, at));
        if silent == 0 {
            return at;
        }
        at += silent;
    }
    at
}

// How many bytes of a text are passed over in silence, 0 if it begins with an item.
fn any_silent_count(language: Language, text: &[u8]) -> usize
    requires { 0 < length text.now }
    ensures value { result ≡ silent_of (escape_at text.now) language text.now }
    ensures within { result ≤ length text.now }
{
    if escape_at(text).is_some() {
        return 0;
    }
    match language {
        Language::Rtl if text[0] == FORM_FEED => 0,
        Language::Rtl => 1,
        Language::Hpgl2 => silent_count(text),
    }
}

// The item that the text at a place begins with, and how many bytes it takes.
fn read_any<'a>(
    language: Language,
    at: usize,
    text: &'a [u8],
    terminator: Terminator,
) -> (Item<'a>, usize)
    requires some { 0 < length text.now }
    requires room { at + length text.now < 2 ^ 63 }
    ensures item { result.0 ≡ (item_of (escape_at text.now) language terminator at text.now).item }
    ensures bytes { result.1 ≡ (item_of (escape_at text.now) language terminator at text.now).bytes }
    ensures within { (0 < result.1) × (result.1 ≤ length text.now) }
{
    match escape_at(text) {
        Some(first) => {
            let taken = &text[1..text.len() - first.end().len()];
            (
                item_with(at, [ESCAPE, 0], Body::Escape(taken)),
                1 + taken.len(),
            )
        }
        None => read_in(language, at, text, terminator),
    }
}

// The same where no escape is.
fn read_in<'a>(
    language: Language,
    at: usize,
    text: &'a [u8],
    terminator: Terminator,
) -> (Item<'a>, usize)
    requires some { 0 < length text.now }
    requires room { at + length text.now < 2 ^ 63 }
    ensures item { result.0 ≡ (item_in language terminator at text.now).item }
    ensures bytes { result.1 ≡ (item_in language terminator at text.now).bytes }
    ensures within { (0 < result.1) × (result.1 ≤ length text.now) }
{
    match language {
        Language::Rtl => (item_with(at, [0, 0], Body::FormFeed), 1),
        Language::Hpgl2 => read_item(Profile::Full, at, text, terminator),
    }
}

// An item whose end is not missing.
fn item_with<'a>(at: usize, code: [u8; 2], body: Body<'a>) -> Item<'a>
    ensures { result ≡ record { at = at; code = code; body = body_shape body.entry; unended = false } }
{
    Item {
        at,
        code,
        body,
        unended: false,
    }
}

// The language after the item that the text begins with.
fn language_left(language: Language, text: &[u8]) -> Language
    ensures { result ≡ language_of (escape_at text.now) language }
{
    match escape_at(text) {
        None => language,
        Some(first) => language_after(language, first),
    }
}
