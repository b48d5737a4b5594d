//! Work that counts besides strokes.
ghost use Rattle.std.specs.Prelude.{◌≡◌, ◌<◌, ◌+◌, ◌^◌, length};
ghost use Rattle.full_plot.specs.Machine.{seen};
ghost use Rattle.full_plot.specs.Work.{worked};

use crate::plotter::FullPlotter;
use plot_page::MOST_STROKES;

impl FullPlotter {
    /// Counts work that is no stroke.
    pub fn work(&mut self, amount: usize)
        ensures { seen self.new ≡ worked amount (seen self.old) }
    {
        if amount > MOST_STROKES || self.sum() + amount > MOST_STROKES {
            self.plotter.is_full = true;
        } else {
            self.extra += amount as u32;
        }
    }

    // How many strokes there are, and how much work counts besides.
    fn sum(&self) -> usize
        ensures value { result ≡ length self.now.plotter.strokes.items + self.now.extra }
        ensures most { result < 2 ^ 63 + 2 ^ 33 }
    {
        self.plotter.strokes.len() + self.extra as usize
    }
}
