// Images within plots: where they lie, among which strokes and on which sheets, and what is refused. The answers come from a
// plotter that was written apart from this one.
use crate::full_cases::{Asked, has_answers};
use full_plot::{PageImage, draw_full, images_on};
use hpgl_plot::Page;
use std::alloc::{AllocError, Global};
use std::test::Fail;

const AMONG_STROKES: &str = "\
// between two strokes
PD4,8;\x1b%0A\x1b*r1A\x1b*b1W@\x1b*b1W@\x1b*rB\x1b%0BPD9,9;
0,0 8 by 2 after 1;

// each language ends the image of the other, and the plot's end the last one
\x1b%0A\x1b*b1W@\x1b%0BPD9,9;\x1b%0A\x1b*b2W@@\x1b%0APD8,8;\x1b*r5S\x1b*b1W@
0,0 8 by 1 after 0;54,0 16 by 1 after 1;108,0 5 by 1 after 1;

// an image goes on among instructions, also after IN, BP and DF
\x1b*b1W@PD4,8;IN;PD1,1;\x1b*b1W@DF;BP;\x1b*b2W@@PD2,2;\x1b*rCPD3,3;
0,0 16 by 3 after 3;

// several commands of one escape
\x1b*b1w@3y1W@\x1b*rbAPD4,8;\x1b*p30x+60Y\x1b*b1w@1W@
0,0 8 by 5 after 0;3522,0 8 by 2 after 0;

// an image without a row is none
\x1b*r1A\x1b*b3Y\x1b*rBPD4,8;\x1b*r1A\x1b*rB
none

// a reset ends it
PD4,8;\x1b%0A\x1b*p9X\x1b*r1A\x1b*b1W@\x1bE\x1b*r1A\x1b*b1W@\x1b%0B
0,488 8 by 1 after 1;0,0 8 by 1 after 1;

// labels go on
LBA\x03\x1b*b1W@\x1b*rBLBB\x03
0,0 8 by 1 after 5;";

const PLACES: &str = "\
// where the pen is
PU100,200;\x1b%1A\x1b*r1A\x1b*b1W@\x1b%0B
1600,3200 8 by 1 after 0;

// and at the margin there
PU100,200;\x1b%1A\x1b*b1W@\x1b%0B
1600,0 8 by 1 after 0;

// with 0 the place stays
PU100,200;\x1b%0A\x1b*r1A\x1b*b1W@\x1b%0BPU5,5;\x1b%1A\x1b*r1A\x1b*b1W@
0,0 8 by 1 after 0;80,80 8 by 1 after 0;

// turned and scaled
RO90;PU100,200;\x1b%1A\x1b*r1A\x1b*b1W@\x1b%0BRO;SC0,100,0,100;PU1,1;\x1b%1A\x1b*r1A\x1b*b1W@
12800,1600 8 by 1 after 0;160,160 8 by 1 after 0;";

const PENS: &str = "\
// the pen is where the next row would begin
\x1b%0A\x1b*p300x+600Y\x1b%1BPD;PR1,1;
32512,16256 32512,16256;32512,16256 32528,16272;

\x1b%1A\x1b*p300X\x1b*r1A\x1b*b1w@1W@\x1b%1BPD0,0;
108,16256 0,0;

// its coordinates are recomputed
SC0,100,0,100;\x1b%0A\x1b*p300Y\x1b%1BPD;PR1,1;
16256,0 16256,0;16256,0 16416,160;

// with 0 it stays
PU5,5;\x1b%0A\x1b*p300x+600Y\x1b%0BPD9,9;
80,80 144,144;

// the left margin is there
PU50,50;\x1b%0A\x1b*p30x+60Y\x1b%1BCP;PD;
3251,-1830 3251,-1830;

// no point of a polygon
PU5,5;PM0;PD9,5;\x1b%0A\x1b*p3x+6Y\x1b%1BPD9,9;PM2;EP;
80,80 144,80;144,80 144,144;144,144 80,80;";

const SHEETS: &str = "\
// sheets with images only
\x1b%0A\x1b*b1W@\x1b&l0H\x1b*b1W@\x0c\x1b*b1W@\x1b%0BPG;PD9,9;
0,0 8 by 1 after 0;0,0 8 by 1 after 0;0,0 8 by 1 after 0; sheet to 0 and 1 sheet to 0 and 2 sheet to 0 and 3

// a sheet ends once
PD4,8;\x1b%0A\x1b*b1W@\x0c\x0c\x1b&l0H\x1b%0BPG;\x1b%0A\x1b&l0H\x1b%0BPD4,4;PG;
0,0 8 by 1 after 1; sheet to 1 and 1 sheet to 2 and 1

// the place of a new page
\x1b%0A\x1b*p30x60Y\x1b*r1A\x1b*b1W@\x1b&l0H\x1b*r1A\x1b*b1W@\x1b*p30x60Y\x0c\x1b*r1A\x1b*b1W@
3251,1626 8 by 1 after 0;0,0 8 by 1 after 0;0,0 8 by 1 after 0; sheet to 0 and 1 sheet to 0 and 2

// PG ends no image
\x1b*b1W@PG;PD4,8;PG;\x1b*b1W@\x1b*rBPD5,5;
0,0 8 by 2 after 1; sheet to 1 and 0";

const COUNTS: &str = "\
// a sheet with an image only
\x1b%0A\x1b*b1W@
1

PD4,8;PG;\x1b*b1W@\x1b*rB
2

PD4,8;\x1b*b1W@\x1b*rBPG;
1

PD4,8;PG;\x1b*b1W@
2";

const REFUSED: &str = "\
// a place off range
PD4,8;\x1b%0A\x1b*p2476951Y
OffRange { at: 10 }

\x1b%0A\x1b*p2476950Y
none

// a row off range, a form feed, and a language that is entered
\x1b%0A\x1b*p2476950Y\x1b*b1W@
OffRange { at: 15 }

\x1b%0A\x1b*p2476900Y\x1b*t2400R\x1b*r1A\x1b*b40Y\x1b*t10R\x0c
OffRange { at: 40 }

\x1b%0A\x1b*p2476900Y\x1b*t2400R\x1b*r1A\x1b*b40Y\x1b*t10R\x1b%0B
OffRange { at: 40 }

// the end of the plot
\x1b%0A\x1b*p2476900Y\x1b*t2400R\x1b*r1A\x1b*b40Y\x1b*t10R
OffRange { at: 40 }

\x1b%0A\x1b*p2476900Y\x1b*t2400R\x1b*r1A\x1b*b40Y
none";

const NOTED: &str = "\
// data that break off, and are bad before an unknown command
\x1b*b9g2m2W\x03@\x1b*r8S\x1b*b2m2W\x03@
0 bad ESC;16 bad ESC;

// what is set after data is passed over
\x1b*t5R\x1b*b1W@\x1b*t5R\x1b*rB\x1b*t5R
0 bad ESC;20 bad ESC;

// notes on escapes among others, also after DF
PA1;\x1b*t5RPA2;\x1b*b5MDF;\x1b*b1W@PD1;
0 bad PA;4 bad ESC;9 bad PA;13 skipped ESC;27 bad PD;

// an entry of a palette, which an image sets
\x1b*v3I\x1b*v1I\x1b*r3U\x1b*v3I\x1b*v8I
0 bad ESC;20 bad ESC;";

#[test]
fn among_strokes(rt: HostRuntime) -> Result<(), Fail> {
    has_answers(&rt, rt.alloc(), Asked::Images, AMONG_STROKES, 7)
}

#[test]
fn at_the_pen(rt: HostRuntime) -> Result<(), Fail> {
    has_answers(&rt, rt.alloc(), Asked::Images, PLACES, 4)
}

#[test]
fn pens_at_images(rt: HostRuntime) -> Result<(), Fail> {
    has_answers(&rt, rt.alloc(), Asked::Strokes, PENS, 6)
}

#[test]
fn on_sheets(rt: HostRuntime) -> Result<(), Fail> {
    has_answers(&rt, rt.alloc(), Asked::Images, SHEETS, 4)
}

#[test]
fn sheets_counted(rt: HostRuntime) -> Result<(), Fail> {
    has_answers(&rt, rt.alloc(), Asked::Sheets, COUNTS, 4)
}

#[test]
fn off_range(rt: HostRuntime) -> Result<(), Fail> {
    has_answers(&rt, rt.alloc(), Asked::Images, REFUSED, 7)
}

#[test]
fn noted(rt: HostRuntime) -> Result<(), Fail> {
    has_answers(&rt, rt.alloc(), Asked::Notes, NOTED, 4)
}

// Three sheets: an image, a stroke with two images, and a stroke with one.
const THREE_SHEETS: &[u8] =
    b"\x1b%0A\x1b*b1W@\x1b&l0H\x1b%0BPD4,8;\x1b*b2W@@\x1b*rB\x1b*b1W@\x1b*rBPG;PD9,9;\x1b*b3W@@@";

#[test]
fn of_each_sheet(rt: HostRuntime) -> Result<(), Fail> {
    let page = Page::new(1000, 1000, 0, 0)?;
    let drawn = draw_full(rt.alloc(), THREE_SHEETS, &page)?;
    assert_eq!(rt; drawn.sheets(), 3);
    let mut widths = String::new(rt.alloc());
    for sheet in 0..5 {
        let images = images_on(drawn.images.as_slice(), drawn.image_ends.as_slice(), sheet);
        widths.push_str(widths_of(rt.alloc(), images)?.as_str())?;
    }
    assert_eq!(rt; widths.as_str(), " 8 16 8 24; 8; 16 8; 24;;");
    Ok(())
}

// How many dots the rows of images have.
fn widths_of(alloc: Global, images: &[PageImage]) -> Result<String, AllocError> {
    let mut list = String::new(alloc);
    for image in images {
        let width = image.image.width;
        write!(list, " {width}")?;
    }
    list.push_str(";")?;
    Ok(list)
}
