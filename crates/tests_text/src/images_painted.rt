// Images over cells of pixels: of 8 columns and rows, each 8 plotter units. An independent reader of HP RTL made what is wanted.
ghost use Rattle.std.specs.Prelude.{◌≡◌, ◌≤◌, nat_abs, true};
ghost use Rattle.plot_page.specs.Strokes.{is_roll_window};

use crate::images_made::{bytes_of, images_of, run};
use image_raster::{PageImage, PageImages, Turn, paint_images};
use plot_page::{Dots, Page, Stroke, Window};
use raster_graphics::{Machine, Place};
use std::alloc::Global;
use std::process::Abort;
use std::test::Fail;

// A turn, a text, in which ^ is ESC and a number in brackets a byte, and the rows of pixels over which images lie: in each the
// colours that they show, - for none. A cell of column n shows stroke n at first, and the images come after stroke 4.
const PAINTED: &str = "\
0 ^*t127R^*r1A^*b1W<176> = 4:000000.-*7 5:000000.-*7 7:000000.-*7
90 ^*t127R^*r1A^*b1W<176> = 7:-*4.000000.-*3
180 ^*t127R^*r8s1A^*b5y1W<176> = 0:-*2.000000.-*5 2:-*2.000000.-*5 3:-*2.000000.-*5
270 ^*t127R^*r1A^*b1W<176> = 0:000000.-.000000*2.-*4
0 ^*t127R^*r3u8s1A^*b1V<254>^*b1V<253>^*b1W<251> = 0:00ffff.-*7 1:ff00ff.-*7 2:ffff00.-*7
0 ^*t127R^*v1N^*r1A^*b1W<255>^*b2y1W<15> = 0:000000.-*2.000000.-*4 1:000000.-*2.000000.-*4 2:000000.-*2.000000.-*4 3:000000.-*2.000000.-*4 4:000000.-*2.ffffff.-*4 5:000000.-*2.ffffff.-*4 6:000000.-*2.ffffff.-*4 7:000000.-*2.ffffff.-*4
270 ^*t127R^*v1N^*r1A^*b1W<255>^*b2y1W<15> = 0:000000*5.-*3 3:ffffff*4.000000.-*3
0 ^*t100R^*r4s1A^*b1W<160>^*b1W<64> = 4:000000.-*7 5:-.000000*2.-*5 6:-.000000*2.-*5 7:000000.-*7
0 ^*t254R^*r4s1A^*b1W<0>^*b1W<64> = 7:000000.-*7
180 ^*t254R^*r4s1A^*b12y1W<64> = none
90 ^*t254R^*r4s1A^*b1W<0>^*b1W<64> = none
0 ^*t10R^*r1A^*b1W<128> = 0:000000*5.-*3 1:000000*5.-*3 2:000000*5.-*3 3:000000*5.-*3 4:000000*5.-*3 5:000000*5.-*3 6:000000*5.-*3 7:000000*5.-*3
270 ^*t10R^*r2s1A^*b1W<192>^*b1W<64> = 0:000000*5.-*3 1:000000*5.-*3 2:000000*5.-*3 3:000000*5.-*3 4:000000*5.-*3 5:000000*5.-*3 6:000000*5.-*3 7:000000*5.-*3
0 ^*t127R^*p6x3Y^*r1A^*b1W<255>^*b1W<170> = 0:-.000000*2.-*5 1:-.000000.-*6 2:-.000000*2.-*5 3:-.000000.-*6 4:-.000000*2.-*5
180 ^*t127R^*p6x8Y^*r1A^*b1W<255>^*b1W<170> = 3:-*3.000000*2.-*3 4:-*4.000000.-*3 5:-*3.000000*2.-*3 6:-*4.000000.-*3 7:-*3.000000*2.-*3
0 ^*t127R^*r1A^*b1W<255>^*b1W<255>^*rC^*p0x0Y^*r3u1A^*b1v<240>1W<15> = 0:00ff00.000000.-*6 1:00ff00.000000.-*6 2:00ff00.000000.-*6 3:00ff00.000000.-*6 4:ff0000.000000.-*6 5:ff0000.000000.-*6 6:ff0000.000000.-*6 7:ff0000.000000.-*6
90 ^*t127R^*r8s1A^*b7y1W<255> = 0:000000*5.-*3
0 ^*t2400R^*r64s1A^*b2m2W<249><170> = none";

// What a window hides is not painted.
const SEEN: &str = "3:000000.-*7 4:000000.-*7 5:000000.-*7";

const WHOLE: Window = Window {
    x0: 0,
    y0: 0,
    x1: 1024,
    y1: 1024,
};

// How an image of a page of 64 by 64 units is turned, and where its corner lies then.
fn turned(word: &str, corner: Place) -> (Turn, Place)
    ensures x { nat_abs result.1.x ≤ 200000 }
    ensures y { nat_abs result.1.y ≤ 200000 }
{
    let x = side(corner.x);
    let y = side(corner.y);
    match word {
        "90" => (Turn::Quarter, Place { x: 1024 - y, y: x }),
        "180" => (
            Turn::Half,
            Place {
                x: 1024 - x,
                y: 1024 - y,
            },
        ),
        "270" => (Turn::ThreeQuarters, Place { x: y, y: 1024 - x }),
        _ => (Turn::None, Place { x, y }),
    }
}

// A coordinate near the page.
fn side(grains: i32) -> i32
    ensures { nat_abs result ≤ 100000 }
{
    grains.clamp(-100_000, 100_000)
}

// Turns an image, and lets it be seen in a window.
fn place(image: &mut PageImage, word: &str, window: Window)
    requires { is_roll_window window ≡ true }
{
    let frame = image.frame;
    let corner = Place {
        x: frame.ax,
        y: frame.ay,
    };
    let (turn, corner) = turned(word, corner);
    image.turn = turn;
    image.frame = Stroke {
        window,
        ax: corner.x,
        ay: corner.y,
        ..frame
    };
}

// A colour of a text as a cell has it, or the stroke of a column.
fn cell(word: &str, column: u32) -> Result<u32, Fail> {
    if word == "-" {
        return Ok(column);
    }
    Ok(0x8000_0000 | u32::from_str_radix(word, 16)?)
}

// The cells of a row that a text says.
fn cells_wanted(alloc: Global, row: u32, wanted: &str) -> Result<Vec<u32>, Fail> {
    let mut cells = Vec::new(alloc);
    for word in wanted.split(" ") {
        let (number, runs) = word.split_once(":").unwrap_or(("9", ""));
        if number.parse::<u32>()? != row {
            continue;
        }
        for run in runs.split(".") {
            let (word, count) = run.split_once("*").unwrap_or((run, "1"));
            for _ in 0..count.parse::<u32>()? {
                cells.push(cell(word, u32::try_from(cells.len())?)?)?;
            }
        }
    }
    for column in cells.len()..8 {
        cells.push(u32::try_from(column)?)?;
    }
    Ok(cells)
}

// Fails unless the images of a text are painted so.
fn is_painted(
    rt: &impl Abort,
    alloc: Global,
    turn: &str,
    text: &str,
    window: Window,
    wanted: &str,
) -> Result<(), Fail>
    requires { is_roll_window window ≡ true }
{
    let bytes = bytes_of(alloc, text)?;
    let mut machine = Machine::new(alloc);
    let mut did = String::new(alloc);
    run(alloc, &mut machine, bytes.as_slice(), &mut did)?;
    let page = Page::new(64, 64, 0, 0)?;
    let mut list = images_of(alloc, &mut machine, &page, 4)?;
    for image in list.iter_mut() {
        place(image, turn, window);
    }
    let dots = Dots::new(127).ok_or("no resolution")?;
    for row in 0..dots.rows(&page) {
        let mut cells: [u32; 8] = [0, 1, 2, 3, 4, 5, 6, 7];
        let images = PageImages {
            list: list.as_slice(),
            first: 0,
        };
        paint_images(images, &page, dots, row, &mut cells);
        assert!(rt;
            cells_wanted(alloc, row, wanted)?.as_slice() == cells.as_slice(),
            "{turn} {text}, row {row}"
        );
    }
    Ok(())
}

#[test]
fn painted(rt: HostRuntime) -> Result<(), Fail> {
    for line in PAINTED.lines() {
        let (case, wanted) = line.split_once(" = ").ok_or("no answer")?;
        let (turn, text) = case.split_once(" ").ok_or("no turn")?;
        is_painted(&rt, rt.alloc(), turn, text, WHOLE, wanted)?;
    }
    Ok(())
}

#[test]
fn seen_in_a_window(rt: HostRuntime) -> Result<(), Fail> {
    let window = Window {
        x0: 0,
        y0: 256,
        x1: 100,
        y1: 640,
    };
    let text = "^*t127R^*r1A^*b1W<255>^*b1W<255>";
    is_painted(&rt, rt.alloc(), "0", text, window, SEEN)
}
