// Instructions with a wrong byte, by the text of plots. The strokes that are wanted come from a plotter that was written apart
// from this one.
use crate::full_cases::{Asked, has_answers};
use std::test::Fail;

const DRAWN: &str = "\
// the pairs before the wrong byte, and the next instruction from the last of them on
PU8,8;PD16,8,24,8,3?0,8;PD8,16;
128,128 256,128;256,128 384,128;384,128 128,256;

// without a pair PD makes its dot, and the pen is down
PU8,8;PD:PA16,8;
128,128 128,128;128,128 256,128;

// the pen is up, coordinates are absolute or relative
PU8,8;PD;PU?;PD9,9;
128,128 128,128;128,128 144,144;

PU1,1;PD;PA2,2,-;PR3,3,9999999;PD0,0;
16,16 16,16;16,16 32,32;32,32 80,80;80,80 80,80;

// curves
PU0,0;PD;BZ0,4,8,4,8,0,7,!;
0,0 0,0;0,0 20,36;20,36 64,48;64,48 108,36;108,36 128,0;

PU10,10;PD;BR0,4,8,4,8,0,!;
160,160 160,160;160,160 180,196;180,196 224,208;224,208 268,196;268,196 288,160;

// points of a polygon
PU5,5;PM0;PD9,5,9,9,1!;PM2;EP;
80,80 144,80;144,80 144,144;144,144 80,80;

// others do nothing
PU0,0;PD4,4;EA8,8!;CI4!;
0,0 64,64;";

const NOTED: &str = "\
PU8,8;PD16,8,24,8,3?0,8;PU!;PA:;PR9999999;PD8,16;
6 bad PD;24 bad PU;28 bad PA;32 bad PR;

BZ0,4,8,4,8,0,7,!;BR-;EA1!;
0 bad BZ;18 bad BR;22 bad EA;";

#[test]
fn drawn_in_part(rt: HostRuntime) -> Result<(), Fail> {
    has_answers(&rt, rt.alloc(), Asked::Strokes, DRAWN, 8)
}

#[test]
fn noted_as_bad(rt: HostRuntime) -> Result<(), Fail> {
    has_answers(&rt, rt.alloc(), Asked::Notes, NOTED, 2)
}
