//! From the text of a plot to its strokes.
ghost use Rattle.std.specs.Prelude.{◌≡◌, ◌==◌, IfOk, IfErr, count_by};
ghost use Rattle.conversion.specs.Pictures.{plot_strokes};
ghost use Rattle.library_examples.specs.Refusals.{HasDrawing, HasNoDrawing};

use hpgl_plot::draw;
use hpgl_text::{TextFault, lex};
use plotraster::{Fault, Page};
use std::alloc::Global;

/// How many strokes a plot draws on a page with this pen.
pub fn strokes_of_pen(alloc: Global, page: &Page, plot: &[u8], pen: u8) -> Result<usize, Fault>
    ensures count { IfOk result (λ n. n ≡ count_by (λ stroke. stroke.pen == pen) (plot_strokes page.now plot.now)) }
    ensures accepted { IfOk result (λ _. HasDrawing page.now plot.now) }
    ensures refused { IfErr result (HasNoDrawing page.now plot.now) }
{
    let program = match lex(alloc, plot) {
        Ok(program) => program,
        Err(TextFault::TooLong) => return Err(Fault::TooLong),
        Err(TextFault::Memory) => return Err(Fault::Memory),
    };
    let drawing = draw(alloc, &program, page)?;
    let of_pen = drawing.strokes().iter().filter(|stroke| stroke.pen == pen);
    Ok(of_pen.count())
}
