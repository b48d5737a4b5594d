//! A row of cells that images are painted over.
ghost use Rattle.std.specs.Prelude.{◌≡◌, ◌<◌, length, IfOk};
ghost use Rattle.plot_page.specs.Resolutions.{columns_of, rows_of};
ghost use Rattle.page_images.specs.Views.{images_in};
ghost use Rattle.image_raster.specs.Cells.{AreCells};
ghost use Rattle.rows.specs.ImageCells.{inked, with_images};

use crate::inked::ink_row;
use image_raster::paint_images;
use page_images::PageImages;
use picture_out::Form;
use plot_page::{Dots, Page};
use std::alloc::{AllocError, Global};

/// The images of a page at a resolution, and the cells of a row of its pixels.
#[derive(Drop)]
pub struct CellRow<'a> {
    pub(crate) images: PageImages<'a>,
    pub(crate) page: Page,
    pub(crate) dots: Dots,
    pub(crate) cells: Vec<u32>,
    ghost wide: { length cells.items ≡ columns_of page dots },
}

impl<'a> CellRow<'a> {
    /// A row of these images.
    ///
    /// Errors: if the heap gives no memory.
    pub fn new(
        alloc: Global,
        images: PageImages<'a>,
        page: Page,
        dots: Dots,
    ) -> Result<CellRow<'a>, AllocError>
        ensures images { IfOk result (λ row. row.images ≡ images.entry) }
        ensures page { IfOk result (λ row. row.page ≡ page) }
        ensures dots { IfOk result (λ row. row.dots ≡ dots) }
    {
        let columns = dots.columns(&page) as usize;
        let cells = vec![in alloc; 0u32; columns]?;
        Ok(CellRow {
            images,
            page,
            dots,
            cells,
        })
    }

    /// Makes the cells these with the images over them, as a form shows them.
    pub fn paint(&mut self, form: Form, row: u32, cells: &[u32])
        requires row_in { row < rows_of self.old.page self.old.dots }
        requires wide { length cells.now ≡ columns_of self.old.page self.old.dots }
        requires cells { AreCells cells.now }
        ensures cells { self.new.cells.items ≡ inked form (with_images (images_in self.old.images) self.old.page self.old.dots row cells.now) }
        ensures small { AreCells self.new.cells.items }
        ensures images { self.new.images ≡ self.old.images }
        ensures page { self.new.page ≡ self.old.page }
        ensures dots { self.new.dots ≡ self.old.dots }
    {
        let painted = self.cells.as_mut_slice();
        paint_over(self.images, &self.page, self.dots, row, cells, painted);
        ink_row(form, painted);
    }
}

/// Makes the cells of a row these, with the images over them.
pub fn paint_over(
    images: PageImages<'_>,
    page: &Page,
    dots: Dots,
    row: u32,
    cells: &[u32],
    painted: &mut [u32],
)
    requires row_in { row < rows_of page.now dots }
    requires wide { length cells.now ≡ columns_of page.now dots }
    requires room { length painted.old ≡ length cells.now }
    requires cells { AreCells cells.now }
    ensures cells { painted.new ≡ with_images (images_in images.entry) page.now dots row cells.now }
    ensures small { AreCells painted.new }
    ensures size { length painted.new ≡ length painted.old }
{
    painted.copy_from_slice(cells);
    paint_images(images, page, dots, row, painted);
}
