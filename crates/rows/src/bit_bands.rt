//! Bands of bits, which are the rows of a PBM.
ghost use Rattle.std.specs.Prelude.{◌≡◌, ⊤};
ghost use Rattle.plot_page.specs.Resolutions.{rows_of};
ghost use Rattle.picture_out.specs.declared.form.Form.TheVariants.{Pbm};
ghost use Rattle.areas.specs.Views.{shapes_in};
ghost use Rattle.rows.specs.Pictures.{row_of_list};
ghost use Rattle.rows.specs.Boxes.{boxes_between};
ghost use Rattle.rows.specs.Progress.{painting_row, tests_left};

use crate::bands::{BIT_ROOM, Bands, height_within};
use crate::even_rows::write_rows;
use crate::scene::Scene;
use crate::writing::Broken;
use bit_rows::packed_length;
use devices::Sink;
use std::alloc::Global;
use stroke_raster::{Gauge, Inker, PaintFault};

impl<'a> Bands<'a> for Inker<'a> {
    type Ask = ();

    ghost can_begin = { λ _ _. ⊤ };

    ghost asked_text = { λ _ scene reaches row.
        row_of_list Pbm reaches scene.pens (shapes_in scene.shapes) scene.page scene.dots row };

    ghost asked_tests = { λ _ scene first end.
        boxes_between scene.pens scene.shapes.strokes.now scene.page scene.dots first end };

    ghost row_text = { λ p. painting_row Pbm p };

    ghost rows = { λ p. rows_of p.page p.dots };

    ghost next = { λ p. p.next };

    ghost end = { λ p. p.end };

    ghost height = { λ p. p.band_rows };

    ghost tests = { λ p. tests_left p };

    fn begin(
        alloc: Global,
        _ask: (),
        scene: Scene<'a>,
        band_rows: u32,
        first_row: u32,
        end_row: u32,
    ) -> Result<Inker<'a>, PaintFault> {
        let size = packed_length(scene.dots.columns(&scene.page) as usize) as u32;
        let height = height_within(band_rows, size, BIT_ROOM);
        let mut inker = Inker::of_shapes(
            alloc,
            scene.shapes,
            scene.page,
            scene.dots,
            scene.pens,
            height,
            first_row,
        )?;
        inker.stop_at(end_row);
        Ok(inker)
    }

    fn next_row(&self) -> u32 {
        Inker::next_row(self)
    }

    fn end_row(&self) -> u32 {
        Inker::end_row(self)
    }

    fn rows(&self) -> u32 {
        Inker::rows(self)
    }

    fn write_next<G: Gauge, K: Sink>(
        &mut self,
        first: u32,
        done: u64,
        gauge: &mut G,
        sink: &mut K,
    ) -> Result<u64, Broken> {
        let at = Inker::next_row(self);
        let stride = packed_length(Inker::columns(self) as usize) as u64;
        self.ink_next(gauge);
        write_rows(first, at, stride, done, self.bytes(), sink)
    }
}
