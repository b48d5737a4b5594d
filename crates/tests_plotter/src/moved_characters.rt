// Characters by moves, by the text of plots. The strokes that are wanted come from a plotter that was written apart from this
// one.
use crate::full_cases::{Asked, has_answers};
use std::test::Fail;

const DRAWN: &str = "\
// a box, and the pen on by a character
PU8,8;UC0,0,99,4,0,0,8,-4,0,-99,2,-8;PD;
128,128 1344,128;1344,128 1344,1856;1344,1856 128,1856;1952,128 1952,128;

// the second number of a move is no pen, nor are numbers between -99 and 99
PU0,0;UC98.999999,99,99,-98,-99;
30096,21384 304,0;

// size, slant and direction
SI.1,.1;PU0,0;UC0,8,99,0,-8,4,0;
0,640 0,0;0,0 640,0;

SL1;PU0,0;UC99,0,4;
0,0 864,864;

RO90;DI0,1;PU500,500;UC99,4,0;PD;
8000,8000 6784,8000;6176,8000 6176,8000;

SI-.1,.1;PU500,500;UC99,4,8;
8000,8000 7360,8640;

// origin and path
LO5;PU500,500;UC0,0,99,4,8;PD;
7392,7136 8608,8864;8912,8000 8912,8000;

LO19;PU500,500;UC99,4,8;PD;
6176,5408 7392,7136;8000,8000 8000,8000;

LO9;DV1;PU500,500;UC99,4,0;PD;
8000,8000 9216,8000;8000,4544 8000,4544;

// a number alone is dropped
PU8,8;UC99,4,0,5;PD;
128,128 1344,128;1952,128 1952,128;

// without numbers nothing, and by a pen alone the pen goes on
PU8,8;UC;PD;PU;UC99;PD;
128,128 128,128;1952,128 1952,128;

// not dashed, and the margin stays
LT2,1;PU500,500;UC99,4,0;CP;PD;
8000,8000 9216,8000;8000,4544 8000,4544;

// nothing in a polygon
PU8,8;PM0;UC99,4,0;PM2;PD;
128,128 128,128;

// a bold font draws no move with the pen up
SD6,3;PU0,0;UC1,1,99,1,1;
304,216 608,432;

// a pen that is put down by 100 and up by -100
PU0,0;UC100,1,1,-100,1,1,99,1,1;
0,0 304,216;608,432 912,648;";

const NOTED: &str = "\
UC;UC1,2,99,3;UC99;UC1,2;PM0;UC;PM2;
3 bad UC;29 bad UC;";

#[test]
fn drawn_by_moves(rt: HostRuntime) -> Result<(), Fail> {
    has_answers(&rt, rt.alloc(), Asked::Strokes, DRAWN, 15)
}

#[test]
fn noted_on_moves(rt: HostRuntime) -> Result<(), Fail> {
    has_answers(&rt, rt.alloc(), Asked::Notes, NOTED, 1)
}
