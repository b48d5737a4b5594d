//! Where notes come from.
ghost use Rattle.std.specs.Prelude.{◌≡◌, [], ◌∷◌, List, MatchOption};
ghost use Rattle.hpgl_plot.specs.declared.note.Note.{Note};

use crate::note::Note;

/// Gives the notes on a plot, one at a time.
pub trait NoteSource {
    // The notes that are still to come, in order.
    ghost notes: { Self → List Note };

    /// The next note; `None` if there are no more.
    fn next_note(&mut self) -> Option<Note>
        ensures { MatchOption result
            ((notes self.old ≡ []) × (notes self.new ≡ []))
            (λ note. notes self.old ≡ note ∷ notes self.new) };
}
