//! One plot, whose output goes to one place.
ghost use Rattle.std.specs.Prelude.{Bool, List, Option, Some, ℕ};
ghost use Rattle.output_files.specs.declared.file_id.FileId.{FileId};
ghost use Rattle.output_files.specs.Claims.{is_plot};
ghost use Rattle.delivery.specs.Deliveries.{Anything, Delivers, IsPut, IsShown};

use crate::about::About;
use crate::desk::Desk;
use crate::output::{Scene, deliver_to, write_stdout};
use crate::sheets::{PlotOf, Work};
use std::alloc::Global;
use std::io::{Read, Write};

/// Reads a plot, whose file has this name, and writes its output where `deliver_to` writes it. A plot that has the very path of
/// the output may be replaced.
pub fn deliver_plot_to<D: Desk, W: Work, R: Read + Drop>(
    desk: &mut D,
    alloc: Global,
    scene: Scene<'_>,
    work: &W,
    file: &str,
    plot: R,
    path: &str,
) -> u8
    ensures { Delivers D.does (is_plot scene.entry.plots.now) (Some path.now) desk.old desk.new result Anything Anything (IsPut (record { file = file.now; sheet = 0 }) path.now) }
{
    let content = PlotOf {
        work,
        about: scene.about,
        file,
        plot,
    };
    deliver_to(desk, alloc, scene, content, path)
}

/// Reads a plot, whose file has this name, and writes its output to standard output.
pub fn write_plot_to<D: Desk, W: Work, R: Read + Drop, T: Write + Drop>(
    desk: &mut D,
    about: About<'_>,
    work: &W,
    file: &str,
    plot: R,
    to: T,
) -> u8
    ensures { (plots : Option FileId → Bool) → (own : Option (List ℕ)) → Delivers D.does plots own desk.old desk.new result
        Anything Anything (IsShown (record { file = file.now; sheet = 0 })) }
{
    let content = PlotOf {
        work,
        about,
        file,
        plot,
    };
    write_stdout(desk, about, content, to)
}
