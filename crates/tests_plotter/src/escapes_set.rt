// Escapes of HP RTL and PCL within plots: what is read between them, which of them end sheets, and what is noted. The answers
// come from a plotter that was written apart from this one.
use crate::full_cases::{Asked, has_answers};
use std::test::Fail;

const DRAWN: &str = "\
// text in HP RTL
\x1b%0APD64,64;\x1b%0BPU8,8;PD16,8;
128,128 256,128;

// data are no instructions
\x1b&p5XPD9,9\x1b)s5WPD8,8PD;
0,0 0,0;

// sheets
PU0,8;PD4,8;\x1b%0A\x0c\x1b%0BPU0,16;PD4,16;\x1b&l0HPD0,0;\x1b&l1HPD9,9;\x1b&l5o0h1E
0,128 64,128;0,256 64,256;64,256 0,0;0,0 144,144; sheet to 1 sheet to 2 sheet to 4

// escapes keep the polygon, the pen and the instructions before them
PU5,5;PM0;PD9,5\x1b*t5RPD9,9;\x1bEPM2;EP;
80,80 144,80;144,80 144,144;144,144 80,80;";

const NOTED: &str = "\
\x1b*c5P\x1b*t5R\x1b*b\x1b\x1b(s3B\x1b9\x1b*r9a1G\x1b*r1g9A
0 skipped ESC;5 bad ESC;10 stray 27;11 stray 42;12 stray 98;13 stray 27;21 bad ESC;28 bad ESC;

// numbers out of range
\x1b*t9R\x1b*t10R\x1b*t2401R\x1b&u9D\x1b&u10D\x1b*r4A\x1b*r3A\x1b*r2U\x1b*r-4U\x1b*v2N\x1b*v1N
0 bad ESC;11 bad ESC;19 bad ESC;30 bad ESC;40 bad ESC;51 bad ESC;

// what is not known
\x1b*b5M\x1b*b9M\x1b*b1X\x1b!1A\x1b*r1K\x1b*rF\x1b(8U\x1b*o1M\x1b%0@
0 skipped ESC;10 skipped ESC;15 skipped ESC;19 skipped ESC;

// images, also after IN
\x1b*r1A\x1b*b1V.\x1b*b1W.\x1b%0BIN;BP;\x1b*b1W.
none

\x1b*b1w5M\x1b*b1W.
none

\x1b*b1W.\x1b*b1w5M
none

// data that configure no image, and data of no image
\x1b*v6W......\x1b&p2X..\x1b(s3W...
0 bad ESC;";

#[test]
fn drawn_between_escapes(rt: HostRuntime) -> Result<(), Fail> {
    has_answers(&rt, rt.alloc(), Asked::Strokes, DRAWN, 4)
}

#[test]
fn notes_on_escapes(rt: HostRuntime) -> Result<(), Fail> {
    has_answers(&rt, rt.alloc(), Asked::Notes, NOTED, 7)
}
