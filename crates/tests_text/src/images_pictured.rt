// Pictures of strokes and images, of 8 columns and rows, each 8 plotter units.
ghost use Rattle.std.specs.Prelude.{◌≤◌, length};

use crate::images_made::{bytes_of, images_of, run};
use areas::Shapes;
use devices::OverWrite;
use picture_job::{Job, RowChoice, Smoothing};
use picture_out::Form;
use plot_page::{Colour, Dots, Page, PenSet, Stroke, Window};
use raster_graphics::Machine;
use rows::{Contents, PageImages, Unwatched, is_possible, paint};
use std::alloc::Global;
use std::test::Fail;
use stroke_raster::Exact;

// Three dots on the left edge, from the top: cyan, magenta and yellow.
const THREE: &str = "^*t127R^*r3u8s1A^*b1V<254>^*b1V<253>^*b1W<251>";

// A black dot of half a pixel in the lower left pixel.
const SMALL: &str = "^*t254R^*r4s1A^*b1W<0>^*b1W<64>";

const MARKS: &str = "0 0 0 00ffff\n1 0 0 ff00ff\n2 0 0 ffff00\n";

const WHOLE: Window = Window {
    x0: 0,
    y0: 0,
    x1: 1024,
    y1: 1024,
};

// A stroke over the whole page.
fn over_all() -> Stroke {
    Stroke {
        pen: 3,
        colour: Colour {
            red: 10,
            green: 20,
            blue: 30,
        },
        width: 4096,
        window: WHOLE,
        ax: 0,
        ay: 512,
        bx: 1024,
        by: 512,
    }
}

// Which strokes come before images: so many, the first of which are those of earlier sheets.
#[derive(Clone, Copy)]
struct Before {
    strokes: u32,
    first: usize,
}

const NONE: Before = Before {
    strokes: 0,
    first: 0,
};

const ONE: Before = Before {
    strokes: 1,
    first: 0,
};

// The picture of strokes, and of the images of a text among them.
fn picture(
    alloc: Global,
    text: &str,
    strokes: &[Stroke],
    before: Before,
    form: Form,
    times: u32,
) -> Result<Vec<u8>, Fail>
    requires { length strokes.now ≤ 1 }
{
    let bytes = bytes_of(alloc, text)?;
    let mut machine = Machine::new(alloc);
    let mut did = String::new(alloc);
    run(alloc, &mut machine, bytes.as_slice(), &mut did)?;
    let page = Page::new(64, 64, 0, 0)?;
    let list = images_of(alloc, &mut machine, &page, before.strokes)?;
    let job = Job {
        page,
        dots: Dots::new(127).ok_or("no resolution")?,
        pens: PenSet::all(),
        band: 3,
        first_row: 0,
        form,
    };
    let rows = RowChoice::all(Smoothing::new(times).ok_or("no smoothing")?);
    if !is_possible(&job, rows.smoothing) {
        return Err("not possible")?;
    }
    let contents = Contents {
        shapes: Shapes::of_strokes(strokes),
        images: PageImages {
            list: list.as_slice(),
            first: before.first,
        },
    };
    let mut sink = OverWrite::new(Vec::new(alloc));
    let mut gauge = Exact::new();
    paint(
        alloc,
        &job,
        rows,
        contents,
        &mut gauge,
        &mut sink,
        &mut Unwatched,
    )?;
    Ok(sink.into_inner())
}

// The colour of a pixel of a PPM, whose header has 11 bytes.
fn colour_in(picture: &[u8], row: usize, column: usize) -> Result<[u8; 3], Fail> {
    let start = 11 + 3 * (8 * row.min(7) + column.min(7));
    match picture.get(start..start + 3) {
        Some([red, green, blue]) => Ok([*red, *green, *blue]),
        _ => Err("no pixel")?,
    }
}

#[test]
fn colours_as_marks(rt: HostRuntime) -> Result<(), Fail> {
    let marks = picture(rt.alloc(), THREE, &[], NONE, Form::Marks, 1)?;
    assert_eq!(rt; marks.as_slice(), MARKS.as_bytes());
    Ok(())
}

#[test]
fn light_dots_are_paper_in_a_bitmap(rt: HostRuntime) -> Result<(), Fail> {
    let bits = picture(rt.alloc(), THREE, &[], NONE, Form::Pbm, 1)?;
    assert_eq!(rt;
        bits.as_slice(),
        b"P4\n8 8\n\x00\x80\x00\x00\x00\x00\x00\x00".as_slice()
    );
    Ok(())
}

#[test]
fn images_among_strokes(rt: HostRuntime) -> Result<(), Fail> {
    let strokes = [over_all()];
    let under = picture(rt.alloc(), THREE, &strokes, NONE, Form::Ppm, 1)?;
    assert_eq!(rt; colour_in(under.as_slice(), 0, 0)?, [10, 20, 30]);
    let over = picture(rt.alloc(), THREE, &strokes, ONE, Form::Ppm, 1)?;
    assert_eq!(rt; colour_in(over.as_slice(), 0, 0)?, [0, 255, 255]);
    assert_eq!(rt; colour_in(over.as_slice(), 2, 0)?, [255, 255, 0]);
    assert_eq!(rt; colour_in(over.as_slice(), 3, 0)?, [10, 20, 30]);
    Ok(())
}

#[test]
fn images_of_a_later_sheet(rt: HostRuntime) -> Result<(), Fail> {
    let strokes = [over_all()];
    let under = Before {
        strokes: 4,
        first: 4,
    };
    let over = Before {
        strokes: 5,
        first: 4,
    };
    let hidden = picture(rt.alloc(), THREE, &strokes, under, Form::Ppm, 1)?;
    assert_eq!(rt; colour_in(hidden.as_slice(), 1, 0)?, [10, 20, 30]);
    let seen = picture(rt.alloc(), THREE, &strokes, over, Form::Ppm, 1)?;
    assert_eq!(rt; colour_in(seen.as_slice(), 1, 0)?, [255, 0, 255]);
    Ok(())
}

#[test]
fn smoothed_images(rt: HostRuntime) -> Result<(), Fail> {
    let small = picture(rt.alloc(), SMALL, &[], NONE, Form::Ppm, 2)?;
    assert_eq!(rt; colour_in(small.as_slice(), 7, 0)?, [191, 191, 191]);
    assert_eq!(rt; colour_in(small.as_slice(), 7, 1)?, [255, 255, 255]);
    assert_eq!(rt; colour_in(small.as_slice(), 6, 0)?, [255, 255, 255]);
    let three = picture(rt.alloc(), THREE, &[], NONE, Form::Ppm, 2)?;
    assert_eq!(rt; colour_in(three.as_slice(), 1, 0)?, [255, 0, 255]);
    assert_eq!(rt; colour_in(three.as_slice(), 4, 0)?, [255, 255, 255]);
    Ok(())
}
