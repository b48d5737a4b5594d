// Widths that WU, PW and PT set, by the text of plots. The strokes that are wanted come from a plotter that was written
// apart from this one. The diagonal of (0,0) to (300,400) is 8,000 grains, so one percent is 80.
use crate::full_cases::{Asked, has_answers};
use std::test::Fail;

const WIDTHS_IN_PERCENT: &str = "\
// P1 and P2 are those of the moment
IP0,0,300,400;WU1;PW1;PU0,0;PD10,0;IP0,0,600,800;PD20,0;
1 80 160;1 160 320;

WU1;PW1;IP0,0,300,400;PD10,0;IP100,100;PD20,0;IP;PD30,0;
1 80 160;1 80 320;1 226 480;

// 0.1 percent by WU, and 224 grains
IP0,0,300,400;PW2;WU1;PU0,0;PD10,0;WU;PD20,0;
1 8 160;1 224 320;

IP0,0,300,400;WU1;PW1;PW;PD10,0;WU0;PW2;PD20,0;
1 8 160;1 1280 320;

// the width of one pen
IP0,0,300,400;WU1;PW1,2;PD10,0;SP2;PD20,0;SP255;PD30,0;
1 8 160;2 80 320;255 8 480;

// at most 20 mm, rounded to nearest
IP0,0,60000,80000;WU1;PW100;PD10,0;IP0,0,3,4;PW0.61;PD20,0;PW0.63;PD30,0;
1 12800 160;1 0 320;1 1 480;

IP0,0,30000,1;WU1;PW0.05;PD10,0;
1 240 160;

IP0,0,1,30000;WU1;PW0.05;PD10,0;
1 240 160;

IP400,300,0,0;WU1;PW1;PD10,0;
1 80 160;

IP0,0,300,400;WU1;PW1;IR0,0,50,50;PD10,0;
1 113 160;

// in an encoded polyline
IP0,0,300,400;WU1;PW1,2;PE7:c?c_;
2 80 1024;";

#[test]
fn widths_in_percent(rt: HostRuntime) -> Result<(), Fail> {
    has_answers(&rt, rt.alloc(), Asked::Widths, WIDTHS_IN_PERCENT, 11)
}

const WIDTHS_OF_PT: &str = "\
PT0.5;PU0,0;PD10,0;SP2;PD20,0;
1 320 160;2 224 320;

PT;PD10,0;PT20;PD20,0;PT0;PD30,0;
1 192 160;1 12800 320;1 0 480;

// in millimetres, whatever WU says
WU1;PT0.5;PU0,0;PD10,0;
1 320 160;

IP0,0,300,400;WU1;PW1;PT0.5;PD10,0;SP2;PD20,0;IP0,0,600,800;PD30,0;SP1;PD40,0;
1 320 160;2 80 320;2 160 480;1 320 640;

IP0,0,300,400;WU1;PT0.5;PW1,1;PD10,0;PT0.5;WU1;PD20,0;
1 80 160;1 8 320;";

#[test]
fn widths_of_pt(rt: HostRuntime) -> Result<(), Fail> {
    has_answers(&rt, rt.alloc(), Asked::Widths, WIDTHS_OF_PT, 5)
}

const WHAT_KEEPS_WIDTHS: &str = "\
// IN and BP set millimetres, and DF sets nothing
IP0,0,300,400;WU1;PW1;IN;PD10,0;PW1;PD20,0;
1 224 160;1 640 320;

WU1;PW1;BP;PW1;PD10,0;
1 640 160;

IP0,0,300,400;WU1;PW1;DF;PD10,0;PW2;PD20,0;
1 80 160;1 160 320;

// wrong numbers set nothing
WU2;WU-1;PT20.000001;PT-0.000001;PD10,0;PW1;PD20,0;
1 224 160;1 640 320;

IP0,0,300,400;WU1;PW100.000001;PW-0.000001;PW1,256;PW1,-1;WU2;PD10,0;PW1;PD20,0;
1 8 160;1 80 320;

// further numbers are ignored
IP0,0,300,400;WU1,0;PW1,1,2;PD10,0;PT0.5,1;PD20,0;
1 80 160;1 320 320;

// dashes, dots and labels have the width of the pen
IP0,0,300,400;WU1;PW1;LT2,10;PU0,0;PD50,0;LT;PU;PD;LB.\x03
1 80 400;1 80 800;1 80 1408;";

#[test]
fn what_keeps_widths(rt: HostRuntime) -> Result<(), Fail> {
    has_answers(&rt, rt.alloc(), Asked::Widths, WHAT_KEEPS_WIDTHS, 7)
}
