//! Rows of cells with images, written in a form.
ghost use Rattle.std.specs.Prelude.{◌≡◌, ℕ, List, ◌+◌, ◌-◌, ◌^◌, ◌<◌, ◌≤◌, length, IfOk};
ghost use Rattle.plot_page.specs.Resolutions.{columns_of, rows_of};
ghost use Rattle.plot_page.specs.declared.dots.TheConstants.{MOST_PIXELS_A_SIDE};
ghost use Rattle.page_images.specs.Views.{images_in};
ghost use Rattle.image_raster.specs.Cells.{AreCells};
ghost use Rattle.picture_out.specs.Forms.{row_bytes};
ghost use Rattle.picture_out.specs.Rooms.{AreInked, room_of};
ghost use Rattle.rows.specs.ImageCells.{inked, with_images};
ghost use Rattle.rows.specs.Inks.{image_inks_held};
ghost use Rattle.rows.specs.Progress.{WritesRows};

use crate::buffer::buffer_of;
use crate::cell_row::CellRow;
use crate::image_inks::ImageInks;
use crate::writing::{Broken, whole_before};
use devices::Sink;
use picture_out::{Cells, Form, Inks, put_row, row_space};
use std::alloc::{AllocError, Global};

/// A row of cells with images, and what it is written with: its form, the inks, and a buffer.
#[derive(Drop)]
pub struct ImageRow<'a> {
    pub(crate) row: CellRow<'a>,
    pub(crate) form: Form,
    pub(crate) inks: ImageInks<'a>,
    pub(crate) buffer: Vec<u8>,
    ghost room: { room_of form (columns_of row.page row.dots) ≤ length buffer.items },
}

impl<'a> ImageRow<'a> {
    /// What rows of these images are written with.
    ///
    /// Errors: if the heap gives no memory.
    pub fn new(
        alloc: Global,
        row: CellRow<'a>,
        form: Form,
        inks: ImageInks<'a>,
    ) -> Result<ImageRow<'a>, AllocError>
        ensures row { IfOk result (λ made. made.row ≡ row.entry) }
        ensures form { IfOk result (λ made. made.form ≡ form) }
        ensures inks { IfOk result (λ made. made.inks ≡ inks.entry) }
    {
        let columns = row.dots.columns(&row.page);
        let buffer = buffer_of(alloc, row_space(form, columns))?;
        Ok(ImageRow {
            row,
            form,
            inks,
            buffer,
        })
    }

    /// Writes the row of these cells with images over them after `done` bytes, and answers how many bytes there are then. Row
    /// `first` is the one that the picture begins with.
    pub fn put<K: Sink>(
        &mut self,
        first: u32,
        row: u32,
        done: u64,
        cells: &[u32],
        sink: &mut K,
    ) -> Result<u64, Broken>
        requires sinking { (K.state sink.old).faults < 2 ^ 64 - 1 }
        requires row_in { row < rows_of self.old.row.page self.old.row.dots }
        requires wide { length cells.now ≡ columns_of self.old.row.page self.old.row.dots }
        requires narrow { length cells.now ≤ MOST_PIXELS_A_SIDE }
        requires cells { AreCells cells.now }
        requires done_in { done ≤ 2 ^ 63 }
        ensures row { (text : ℕ → List ℕ) → text row ≡ row_bytes self.old.form row (image_inks_held self.old.inks) (inked self.old.form
            (with_images (images_in self.old.row.images) self.old.row.page self.old.row.dots row cells.now)) →
            WritesRows text first row (row + 1) done (K.state sink.old) (K.state sink.new) result }
        ensures count { IfOk result (λ n. n ≤ done + 33554432) }
        ensures quiet { IfOk result (λ _. (K.state sink.new).faults ≡ (K.state sink.old).faults) }
        ensures images { self.new.row.images ≡ self.old.row.images }
        ensures page { self.new.row.page ≡ self.old.row.page }
        ensures dots { self.new.row.dots ≡ self.old.row.dots }
        ensures form { self.new.form ≡ self.old.form }
        ensures inks { self.new.inks ≡ self.old.inks }
    {
        self.row.paint(self.form, row, cells);
        let painted = &self.row;
        put_cells(
            self.form,
            first,
            row,
            done,
            painted.cells.as_slice(),
            &self.inks,
            &mut self.buffer,
            sink,
        )
    }
}

// Writes a row of cells in a form after `done` bytes.
fn put_cells<I: Inks, K: Sink>(
    form: Form,
    first: u32,
    row: u32,
    done: u64,
    cells: &[u32],
    inks: &I,
    buffer: &mut [u8],
    sink: &mut K,
) -> Result<u64, Broken>
    requires sinking { (K.state sink.old).faults < 2 ^ 64 - 1 }
    requires columns { length cells.now ≤ MOST_PIXELS_A_SIDE }
    requires inked { AreInked (I.inks inks.now) cells.now }
    requires room { room_of form (length cells.now) ≤ length buffer.old }
    requires done_in { done ≤ 2 ^ 63 }
    ensures row { (text : ℕ → List ℕ) → text row ≡ row_bytes form row (I.inks inks.now) cells.now →
        WritesRows text first row (row + 1) done (K.state sink.old) (K.state sink.new) result }
    ensures count { IfOk result (λ n. n ≤ done + 33554432) }
    ensures quiet { IfOk result (λ _. (K.state sink.new).faults ≡ (K.state sink.old).faults) }
    ensures size { length buffer.new ≡ length buffer.old }
{
    match put_row(form, row, Cells::new(cells), inks, buffer, sink) {
        Ok(bytes) => Ok(done + bytes),
        Err(fault) => Err(Broken {
            row,
            whole: whole_before(row, first, done),
            bytes: done + fault.bytes(),
        }),
    }
}
