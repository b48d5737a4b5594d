//! The notes on a plot in the profile full, one at a time.
ghost use Rattle.std.specs.Prelude.{◌≡◌, ◌≤◌, length};
ghost use Rattle.std.specs.Iterator.{YieldsFirst, item_count};
ghost use Rattle.full_text.specs.Cut.{full_cut};
ghost use Rattle.full_notes.specs.Notes.{first_told, notes_told, others_told};

use crate::context::Context;
use crate::noting::take_note;
use full_text::FullItems;
use hpgl_plot::{ItemNotes, Note, NoteKind, NoteSource};
use hpgl_text::Body;
use std::marker::Model;

/// The notes on a plot that are still to come, in order. Items are read lazily.
#[derive(Drop)]
pub struct FullNotes<'a> {
    // What is left to tell of the item at hand, and the items after it.
    item: ItemNotes<'a>,
    items: FullItems<'a>,
    // The context before these.
    context: Context,
    // What is noted on each escape of these.
    told: &'a [Option<NoteKind>],
}

impl<'a> Model for FullNotes<'a> {
    ghost use Rattle.std.specs.Prelude.{◌++◌, List};
    ghost use Rattle.hpgl_plot.specs.declared.note.Note.{Note};
    ghost use Rattle.full_notes.specs.Notes.{notes_from};

    ghost Value = { List Note };

    ghost view = { λ n. n.item ++ notes_from n.context n.told.now n.items };
}

impl<'a> FullNotes<'a> {
    /// The notes on a plot: at most as many as it has bytes. `told` is what is noted on each of its escapes, in order.
    pub fn new(plot: &'a [u8], told: &'a [Option<NoteKind>]) -> FullNotes<'a>
        ensures notes { result ≡ notes_told told.now (full_cut plot.now) }
        ensures few { length result ≤ length plot.now }
    {
        FullNotes {
            item: ItemNotes::none(),
            items: FullItems::new(plot),
            context: Context::first(),
            told,
        }
    }
}

// What is noted on the first escape of which it is told, which then are those after it.
fn next_told(told: &mut &[Option<NoteKind>]) -> Option<NoteKind>
    ensures noted { result ≡ first_told told.old.now }
    ensures rest { told.new.now ≡ others_told told.old.now }
{
    match *told {
        [] => None,
        [first, rest @ ..] => {
            *told = rest;
            *first
        }
    }
}

impl<'a> Iterator for FullNotes<'a> {
    type Item = Note;

    ghost next_gives = { YieldsFirst (λ s. s) };

    ghost remaining = { item_count (λ s. s) };

    fn next(&mut self) -> Option<Note> {
        'items: loop {
            if let Some(note) = self.item.next() {
                return Some(note);
            }
            let item = self.items.next()?;
            let noted = match item.body {
                Body::Escape(_) => next_told(&mut self.told),
                _ => take_note(&item, &mut self.context),
            };
            self.item = ItemNotes::new(&item, noted);
        }
    }
}

impl<'a> NoteSource for FullNotes<'a> {
    ghost notes = { λ n. n };

    fn next_note(&mut self) -> Option<Note> {
        self.next()
    }
}
