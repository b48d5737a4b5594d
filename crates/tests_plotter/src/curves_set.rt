// Arcs through three places and Bezier curves, by the text of plots. The strokes that are wanted come from a plotter that
// was written apart from this one.
use crate::full_cases::{Asked, has_answers};
use std::test::Fail;

const BEZIER_CURVES: &str = "\
// relative points count from where each curve begins
PU10,10;PD;BR0,4,8,4,8,0,0,4,8,4,8,0;
160,160 160,160;160,160 180,196;180,196 224,208;224,208 268,196;268,196 288,160;288,160 308,196;308,196 352,208;\
352,208 396,196;396,196 416,160;

// numbers after the last six draw nothing
PU0,0;PD;BZ0,4,8,4,8,0,7;
0,0 0,0;0,0 20,36;20,36 64,48;64,48 108,36;108,36 128,0;

// with the pen up, and by pen 0, the pen is moved
PU5,5;BZ0,4,8,4,8,0;PD;PR1,0;
128,0 128,0;128,0 144,0;

SP0;PU0,0;PD;BZ0,4,8,4,8,0;SP1;PD1,1;
128,0 16,16;

// the pattern goes on from chord to chord, and to the next line
LT2,2,1;PU0,0;PD;BZ0,40,80,40,80,0;PD90,0;
0,0 0,0;0,0 14,113;14,113 55,210;55,210 118,293;118,293 200,360;200,360 297,413;297,413 392,445;1015,395 1080,360;\
1080,360 1162,293;1162,293 1225,210;1225,210 1266,113;1266,113 1280,0;1280,0 1417,0;

// the left margin is where a curve ends, and no symbol is drawn there
PU100,100;BR4,4,8,4,12,0;CP;PD;
1792,-1856 1792,-1856;

SM.;PU0,0;PD;BZ0,4,8,4,8,0;
0,-864 0,-864;0,0 0,0;0,0 20,36;20,36 64,48;64,48 108,36;108,36 128,0;";

#[test]
fn bezier_curves(rt: HostRuntime) -> Result<(), Fail> {
    has_answers(&rt, rt.alloc(), Asked::Strokes, BEZIER_CURVES, 7)
}

const ARCS_THROUGH_POINTS: &str = "\
// on one line only the end is reached
PU0,0;PD;AT10,0,20,0;
0,0 0,0;0,0 320,0;

PU10,10;PD;AT10,10,20,20;
160,160 160,160;160,160 320,320;

PU5,5;PD;AT5,5,5,5;
80,80 80,80;80,80 80,80;

// relative points
PU10,10;PD;RT5,0,10,0;BR1,1,2,2,3,3;
160,160 160,160;160,160 320,160;320,160 332,172;332,172 344,184;344,184 356,196;356,196 368,208;

// the coordinates are those of the end, in the user's units
SC0,100,0,100;PU10,10;AT20,20,30,10;PR;PD;PR10,10;
4800,1600 4800,1600;4800,1600 6400,3200;";

#[test]
fn arcs_through_points(rt: HostRuntime) -> Result<(), Fail> {
    has_answers(&rt, rt.alloc(), Asked::Strokes, ARCS_THROUGH_POINTS, 5)
}

// Each point has to be in range, even if the pen does not come to it.
const CURVES_OFF_RANGE: &str = "\
PD;AT8388607.9,0,65536,0;
OffRange { at: 3 }

PD;AT100,100,65536,8388607.9;
OffRange { at: 3 }

BZ8388607.9,0,8,4,8,0;
OffRange { at: 0 }

BZ0,4,8388607.9,4,8,0;
OffRange { at: 0 }

BZ0,4,8,4,0,-8388607.9;
OffRange { at: 0 }

AT0,1,8388606,8388606;AT8388607,0,0,0;
OffRange { at: 22 }";

#[test]
fn curves_off_range(rt: HostRuntime) -> Result<(), Fail> {
    has_answers(&rt, rt.alloc(), Asked::Strokes, CURVES_OFF_RANGE, 6)
}
