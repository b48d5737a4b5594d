//! Strokes from a generator, painted in bands, against the pixel test itself, and as bits.
use crate::gauges::Plain;
use crate::strokes::{WHOLE, bits_by, cells_by, dots, is_near, packed, page, stroke};
use plot_page::{Dots, PenSet, Stroke, Window};
use std::alloc::Global;
use std::process::Abort;
use std::test::Fail;
use stroke_raster::{Exact, Gauge};

// The heights of bands.
const BANDS: [u32; 3] = [1, 3, 4096];

// A linear congruential generator.
#[derive(Drop)]
struct Numbers {
    state: u32,
}

impl Numbers {
    // 0 to 1599, less 288: a place on a page of 1024 grains or not far from it.
    fn place(&mut self) -> i32 {
        self.state = self
            .state
            .wrapping_mul(1_664_525)
            .wrapping_add(1_013_904_223);
        ((self.state >> 16) % 1600) as i32 - 288
    }

    // A stroke of one of three pens, in the page's window or in a part of it.
    fn any_stroke(&mut self, n: u32) -> Result<Stroke, Fail> {
        let window = if n % 3 == 0 {
            Window {
                x0: 300,
                y0: 200,
                x1: 900,
                y1: 640,
            }
        } else {
            WHOLE
        };
        let width = [0, 16, 224, 1000][(n % 4) as usize];
        let (ax, ay) = (self.place(), self.place());
        let (bx, by) = (self.place(), self.place());
        stroke((n % 3 + 1) as u8, width, window, [ax, ay, bx, by])
    }

    // A stroke of at most 31 grains in each direction, whose box has few pixels.
    fn short_stroke(&mut self, n: u32) -> Result<Stroke, Fail> {
        let (ax, ay) = (self.place(), self.place());
        let bx = ax.wrapping_add(self.place() % 32);
        let by = ay.wrapping_add(self.place() % 32);
        stroke((n % 3 + 1) as u8, 16, WHOLE, [ax, ay, bx, by])
    }

    // A narrow stroke, of at most 127 grains in each direction or as long as it comes.
    fn narrow_stroke(&mut self, n: u32) -> Result<Stroke, Fail> {
        let width = [0, 30, 60, 120][(n % 4) as usize];
        let (ax, ay) = (self.place(), self.place());
        let (x, y) = (self.place(), self.place());
        let (x, y) = if n < 40 { (x % 128, y % 128) } else { (x, y) };
        let ends = [ax, ay, ax.wrapping_add(x), ay.wrapping_add(y)];
        stroke((n % 3 + 1) as u8, width, WHOLE, ends)
    }
}

// The cells of the whole page, each the position of the last stroke that is near, or 0.
fn cells_by_near(
    alloc: Global,
    strokes: &[Stroke],
    dots: Dots,
    pens: PenSet,
) -> Result<Vec<u32>, Fail> {
    let page = page()?;
    let mut cells = Vec::new(alloc);
    for row in 0..dots.rows(&page) {
        for column in 0..dots.columns(&page) {
            let mut cell = 0u32;
            let mut position = 0u32;
            for stroke in strokes {
                position = position.wrapping_add(1);
                if pens.has(stroke.pen) && is_near(stroke, &page, dots, row, column) {
                    cell = position;
                }
            }
            cells.push(cell)?;
        }
    }
    Ok(cells)
}

// 24 strokes from the generator, and between them as many short ones if they are wanted.
fn some_strokes(alloc: Global, seed: u32, with_short_ones: bool) -> Result<Vec<Stroke>, Fail> {
    let mut numbers = Numbers { state: seed };
    let mut strokes = Vec::new(alloc);
    for n in 0..24 {
        strokes.push(numbers.any_stroke(n)?)?;
        if with_short_ones {
            strokes.push(numbers.short_stroke(n)?)?;
        }
    }
    Ok(strokes)
}

// Fails unless the cells in bands of any height are those of `near`.
fn has_cells_by_near(
    rt: &impl Abort,
    alloc: Global,
    strokes: &[Stroke],
    resolution: u32,
    pens: PenSet,
) -> Result<(), Fail> {
    let dots = dots(resolution)?;
    let wanted = cells_by_near(alloc, strokes, dots, pens)?;
    for band_rows in BANDS {
        let cells = cells_by(alloc, &mut Exact::new(), strokes, dots, pens, band_rows)?;
        assert!(rt;
            cells.as_slice() == wanted.as_slice(),
            "{resolution} {band_rows}"
        );
    }
    Ok(())
}

#[test]
fn strokes_in_bands(rt: HostRuntime) -> Result<(), Fail> {
    let strokes = some_strokes(rt.alloc(), 7, true)?;
    assert_eq!(rt; strokes.len(), 48);
    let pens = PenSet::none().with(1).with(2);
    has_cells_by_near(&rt, rt.alloc(), &strokes, 127, pens)?;
    has_cells_by_near(&rt, rt.alloc(), &strokes, 600, pens)
}

// Fails unless a stroke with these ends, in two widths, has the cells of `near`.
fn is_wide(rt: &impl Abort, alloc: Global, ends: [i32; 4]) -> Result<(), Fail> {
    for width in [224, 1000] {
        let stroke = stroke(1, width, WHOLE, ends)?;
        has_cells_by_near(rt, alloc, &[stroke], 600, PenSet::none().with(1))?;
    }
    Ok(())
}

// Rows through rounded ends, where the run is not what the stroke's sides cut out.
#[test]
fn wide_strokes(rt: HostRuntime) -> Result<(), Fail> {
    is_wide(&rt, rt.alloc(), [512, 512, 512, 512])?;
    is_wide(&rt, rt.alloc(), [300, 320, 700, 500])?;
    is_wide(&rt, rt.alloc(), [700, 200, 340, 760])
}

// Fails unless the bits in bands of any height are the cells packed, and the tests that are made for them are at
// least as many as the pixels covered, each counted for each stroke, and at most as many as a plain gauge makes.
fn has_bits_of_cells(
    rt: &impl Abort,
    alloc: Global,
    strokes: &[Stroke],
    resolution: u32,
) -> Result<(), Fail> {
    let dots = dots(resolution)?;
    let columns = dots.columns(&page()?);
    let pens = PenSet::none().with(1).with(2);
    let mut gauge = Exact::new();
    let cells = cells_by(alloc, &mut gauge, strokes, dots, pens, 5)?;
    let wanted = packed(alloc, &cells, columns)?;
    let mut plain = Plain::new();
    let tested = bits_by(alloc, &mut plain, strokes, dots, pens, 4096, 0)?;
    assert!(rt; tested.as_slice() == wanted.as_slice());
    let later = wanted.as_slice().get(4 * columns.div_ceil(8) as usize..);
    for band_rows in BANDS {
        let mut inking = Exact::new();
        let bits = bits_by(alloc, &mut inking, strokes, dots, pens, band_rows, 0)?;
        assert!(rt;
            bits.as_slice() == wanted.as_slice(),
            "{resolution} {band_rows}"
        );
        assert!(rt; gauge.tests() <= inking.tests() && inking.tests() <= plain.tests());
        let bits = bits_by(alloc, &mut inking, strokes, dots, pens, band_rows, 4)?;
        assert!(rt; Some(bits.as_slice()) == later, "{resolution} {band_rows}");
    }
    Ok(())
}

// At 1200 dots a run of pixels may be longer than eight bytes take.
#[test]
fn strokes_as_bits(rt: HostRuntime) -> Result<(), Fail> {
    let strokes = some_strokes(rt.alloc(), 11, false)?;
    assert_eq!(rt; strokes.len(), 24);
    for resolution in [127, 600, 1200] {
        has_bits_of_cells(&rt, rt.alloc(), &strokes, resolution)?;
    }
    Ok(())
}

// Strokes in boxes of a few pixels, and long ones, which no wide stroke covers.
#[test]
fn narrow_strokes_as_bits(rt: HostRuntime) -> Result<(), Fail> {
    let mut numbers = Numbers { state: 3 };
    let mut strokes = Vec::new(rt.alloc());
    for n in 0..60 {
        strokes.push(numbers.narrow_stroke(n)?)?;
    }
    for resolution in [300, 600, 1000] {
        has_bits_of_cells(&rt, rt.alloc(), &strokes, resolution)?;
    }
    Ok(())
}

// An upright stroke nearly fills its box, so no gauge may count its pixels twice.
#[test]
fn an_upright_stroke_as_bits(rt: HostRuntime) -> Result<(), Fail> {
    let upright = stroke(1, 224, WHOLE, [500, 100, 500, 900])?;
    for resolution in [600, 1200] {
        has_bits_of_cells(&rt, rt.alloc(), &[upright], resolution)?;
    }
    Ok(())
}

// Rows near the rounded ends of a slanted stroke are bounded by circles, and those between them by its sides.
#[test]
fn slanted_strokes_as_bits(rt: HostRuntime) -> Result<(), Fail> {
    let falling = stroke(1, 500, WHOLE, [343, 1118, 1183, 61])?;
    let rising = stroke(1, 500, WHOLE, [343, -94, 1183, 963])?;
    for resolution in [600, 1200] {
        has_bits_of_cells(&rt, rt.alloc(), &[falling], resolution)?;
        has_bits_of_cells(&rt, rt.alloc(), &[rising], resolution)?;
    }
    Ok(())
}
