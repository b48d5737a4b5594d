//! The notes on an item, one at a time.
ghost use Rattle.std.specs.Prelude.{◌≡◌, [], ◌∷◌, MatchOption};
ghost use Rattle.std.specs.Iterator.{YieldsFirst, item_count};
ghost use Rattle.std.specs.List.{flat_map};
ghost use Rattle.hpgl_text.specs.SeenEntries.{part_shape};
ghost use Rattle.hpgl_plot.specs.Notes.{notes_with, entries_in, entry_note, part_noted};

use crate::note::{Note, NoteKind};
use hpgl_text::{Body, Entries, Item, Part};
use std::marker::Model;

/// The notes on an item that are still to come, in order: what is noted at its first byte, what is
/// noted within a `PE`, and that its end is missing.
#[derive(Drop)]
pub struct ItemNotes<'a> {
    at: usize,
    code: [u8; 2],
    own: Option<NoteKind>,
    entries: Entries<'a>,
    unended: bool,
}

impl<'a> Model for ItemNotes<'a> {
    ghost use Rattle.std.specs.Prelude.{◌++◌, List};
    ghost use Rattle.std.specs.List.{flat_map};
    ghost use Rattle.hpgl_plot.specs.declared.note.Note.{Note};
    ghost use Rattle.hpgl_plot.specs.Notes.{note_at, entry_note, open_noted};

    ghost Value = { List Note };

    ghost view = { λ n. note_at n.code n.at n.own
        ++ (flat_map (entry_note n.code) n.entries ++ note_at n.code n.at (open_noted n.unended)) };
}

impl<'a> ItemNotes<'a> {
    /// The notes on an item on whose first byte this is noted.
    pub fn new(item: &Item<'a>, own: Option<NoteKind>) -> ItemNotes<'a>
        ensures { result ≡ notes_with own item.now }
    {
        ItemNotes {
            at: item.at,
            code: item.code,
            own,
            entries: entries_of(item),
            unended: item.unended,
        }
    }

    /// No notes.
    pub fn none() -> ItemNotes<'a>
        ensures { result ≡ [] }
    {
        ItemNotes {
            at: 0,
            code: [0, 0],
            own: None,
            entries: Entries::none(),
            unended: false,
        }
    }
}

impl<'a> Iterator for ItemNotes<'a> {
    type Item = Note;

    ghost next_gives = { YieldsFirst (λ s. s) };

    ghost remaining = { item_count (λ s. s) };

    fn next(&mut self) -> Option<Note> {
        if let Some(kind) = self.own {
            self.own = None;
            return Some(note_on(self.code, self.at, kind));
        }
        if let Some(note) = next_noted(self.code, &mut self.entries) {
            return Some(note);
        }
        if self.unended {
            self.unended = false;
            return Some(note_on(self.code, self.at, NoteKind::Open));
        }
        None
    }
}

// The entries of an item that is a PE; another has none.
fn entries_of<'a>(item: &Item<'a>) -> Entries<'a>
    ensures { result ≡ entries_in item.now.body }
{
    match &item.body {
        Body::Coded(polyline) => polyline.entries(),
        _ => Entries::none(),
    }
}

// The next note within a PE, whose letters are given; `None` if there are no more.
fn next_noted(code: [u8; 2], entries: &mut Entries<'_>) -> Option<Note>
    ensures { MatchOption result
        ((flat_map (entry_note code) entries.old ≡ []) × (entries.new ≡ []))
        (λ note. flat_map (entry_note code) entries.old ≡ note ∷ flat_map (entry_note code) entries.new) }
{
    'entries: while let Some(entry) = entries.next() {
        if let Some(kind) = part_kind(entry.what) {
            return Some(note_on(code, entry.at, kind));
        }
    }
    None
}

fn part_kind(part: Part) -> Option<NoteKind>
    ensures { result ≡ part_noted (part_shape part) }
{
    match part {
        Part::Pen(_) | Part::Pair { .. } => None,
        Part::Bad => Some(NoteKind::Bad),
        Part::Stray(byte) => Some(NoteKind::Stray(byte)),
    }
}

// A note on what is at a place.
fn note_on(code: [u8; 2], at: usize, kind: NoteKind) -> Note
    ensures { result ≡ record { at = at; code = code; kind = kind } }
{
    Note { at, code, kind }
}
