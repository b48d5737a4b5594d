//! Noting what is skipped, wrong or open.
ghost use Rattle.std.specs.Prelude.{◌≡◌, ◌<◌, ◌^◌, ◌++◌, ℕ, List, IfOk, length};
ghost use Rattle.plot_settings.specs.Meanings.{meaning};
ghost use Rattle.plot_settings.specs.Requests.{request_meaning};
ghost use Rattle.hpgl_plot.specs.Notes.{item_noted, note_at, notes_with, open_noted, parameters_noted};

use crate::item_notes::ItemNotes;
use crate::note::{Note, NoteKind};
use hpgl_text::{Body, Instruction, Item, Numbers};
use plot_settings::{Request, is_off_axis, request_of};
use std::alloc::AllocError;

/// Appends to the notes those on an item on whose first byte this is noted.
pub fn note_item(
    item: &Item<'_>,
    own: Option<NoteKind>,
    notes: &mut Vec<Note>,
) -> Result<(), AllocError>
    ensures { IfOk result (λ _. notes.new.items ≡ notes.old.items ++ notes_with own item.now) }
{
    let mut rest = ItemNotes::new(item, own);
    'notes: while let Some(note) = rest.next() {
        notes.push(note)?;
    }
    Ok(())
}

/// How many notes there are on an item on whose first byte this is noted.
pub fn count_notes(item: &Item<'_>, own: Option<NoteKind>) -> usize
    requires { length (notes_with own item.now) < 2 ^ 63 }
    ensures { result ≡ length (notes_with own item.now) }
{
    match &item.body {
        Body::Coded(_) => count_left(ItemNotes::new(item, own)),
        _ => count_at_first(own) + count_at_first(open_kind(item.unended)),
    }
}

// How many notes are to come.
fn count_left(notes: ItemNotes<'_>) -> usize
    requires { length notes < 2 ^ 63 }
    ensures { result ≡ length notes.entry }
{
    let mut count = 0;
    let mut rest = notes;
    'notes: while let Some(_) = rest.next() {
        count += 1;
    }
    count
}

// How many notes this makes at a place: one, or none.
fn count_at_first(kind: Option<NoteKind>) -> usize
    ensures { (code : List ℕ) (at : ℕ) → result ≡ length (note_at code at kind) }
{
    match kind {
        Some(_) => 1,
        None => 0,
    }
}

// What is noted on an item if its end is missing.
fn open_kind(unended: bool) -> Option<NoteKind>
    ensures { result ≡ open_noted unended }
{
    if unended { Some(NoteKind::Open) } else { None }
}

/// What is noted on an item at its first byte.
pub fn noted_kind(item: &Item<'_>) -> Option<NoteKind>
    ensures { result ≡ item_noted item.now }
{
    match &item.body {
        Body::Params(instruction, numbers) => {
            let request = request_of(*instruction, numbers);
            noted_parameters(*instruction, numbers, &request)
        }
        Body::Coded(_) | Body::Label(_) | Body::Terminator(_) => None,
        Body::Further(_, _) | Body::Kept(_) | Body::Symbol(_) | Body::Known => None,
        Body::Escape(_) | Body::FormFeed => None,
        Body::Skipped => Some(NoteKind::Skipped),
        Body::Bad | Body::DamagedMoves(_, _) | Body::DamagedCurves(_, _) => Some(NoteKind::Bad),
        Body::Stray(byte) => Some(NoteKind::Stray(*byte)),
    }
}

/// What is noted on an instruction that asks for this by its numbers.
#[inline(always)]
pub fn noted_parameters(
    instruction: Instruction,
    numbers: &Numbers<'_>,
    request: &Request,
) -> Option<NoteKind>
    requires { request_meaning request.now numbers.now ≡ meaning instruction numbers.now }
    ensures { result ≡ parameters_noted instruction numbers.now }
{
    if request.is_wrong(numbers) {
        Some(NoteKind::Bad)
    } else if is_off_axis(instruction, numbers) {
        Some(NoteKind::Axis)
    } else {
        None
    }
}
