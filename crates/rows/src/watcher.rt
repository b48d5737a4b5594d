//! Who is told how far the writing of a picture is.
ghost use Rattle.std.specs.Prelude.{◌≡◌, ◌<◌, ◌≤◌, ℕ};

/// Is told how far the writing of a picture is. It can change neither the picture nor how the writing ends.
pub trait Watcher {
    /// What it makes of being told that a number of rows is written, of so many: from what it was to what it is.
    ghost hears: { Self → ℕ → ℕ → Self → Type 0 };

    /// Is told after each band that `done` of the picture's `rows` rows are written: those from the job's first row on,
    /// the rows of this band among them.
    fn rows_written(&mut self, done: u32, rows: u32)
        requires some { 0 < done }
        requires within { done ≤ rows }
        ensures { hears self.old done rows self.new };
}

/// Takes no notice of what it is told.
#[derive(Clone, Copy, Debug)]
pub struct Unwatched;

impl Watcher for Unwatched {
    ghost hears = { λ before _ _ after. after ≡ before };

    fn rows_written(&mut self, _done: u32, _rows: u32) {}
}
