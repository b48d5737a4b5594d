// Lines in the line types that LT and UL set, by the text of plots. The strokes that are wanted come from a plotter
// that was written apart from this one. The diagonal of (0,0) to (300,400) is 8,000 grains, so ten percent are 800.
use crate::full_cases::{Asked, has_answers};
use std::test::Fail;

const LINES_IN_TYPES: &str = "\
IP0,0,300,400;LT2,10;PU0,100;PD120,100,120,150;
0,1600 400,1600;800,1600 1200,1600;1600,1600 1920,1600;1920,1600 1920,1680;1920,2080 1920,2400;

IP0,0,300,400;LT2,10;PU0,0;PD20,0;PU;PD;PD60,0;
0,0 320,0;320,0 320,0;320,0 400,0;800,0 960,0;

LT2,10,1;PU0,0;PD1000,0;
0,0 3200,0;6400,0 9600,0;12800,0 16000,0;

LT0;PU0,100;PD50,100,50,150;
800,1600 800,1600;800,2400 800,2400;

IP0,0,300,400;UL1,50,20,30;LT1,10;PU0,0;PD100,0;
0,0 400,0;560,0 800,0;800,0 1200,0;1360,0 1600,0;

IP0,0,300,400;LT2,10;LT;PU0,0;PD50,0;LT99;PD100,0;
0,0 800,0;800,0 1200,0;

IP0,0,300,400;LT2,10;PU0,0;EA50,25;
0,0 400,0;800,0 800,400;400,400 0,400;

IP0,0,300,400;LT2,10;PU0,0;PE7?c_;
0,0 400,0;800,0 1024,0;

PG;PU0,0;PD10,0;PG;PG;PD20,0;
0,0 160,0;160,0 320,0; sheet to 1

LT2,1;PU0,0;LBL\x03
0,1728 0,0;0,0 1216,0;";

#[test]
fn lines_in_types(rt: HostRuntime) -> Result<(), Fail> {
    has_answers(&rt, rt.alloc(), Asked::Strokes, LINES_IN_TYPES, 10)
}

const TYPES_AND_PATTERNS: &str = "\
// LT99 brings back the type before solid lines, and changes no other type
IP0,0,300,400;LT2,10;LT;LT;LT99;PU0,0;PD50,0;
0,0 400,0;

IP0,0,300,400;LT2,10;LT;LT3,10;LT99;PU0,0;PD50,0;
0,0 560,0;

// a pattern of UL is that of both types with its number
IP0,0,300,400;UL1,50,20,30;LT-1,10;PU0,0;PD75,0;
0,0 300,0;420,0 600,0;600,0 900,0;1020,0 1200,0;

IP0,0,300,400;UL2,50,20,30;UL2;LT2,10;PU0,0;PD50,0;
0,0 400,0;

// wrong numbers set nothing
LT9;LT2,0;LT2,1,2;UL0,1;UL1,0,0;UL1,1,-1;PU0,0;PD50,0;
0,0 800,0;

UL2,1,1,2,2;UL2,-1;LT2,6,1;PU0,0;PD240,0;
0,0 640,0;1280,0 2560,0;

LT0;DF;PD50,0;LT0;BP;PD60,0;
0,0 800,0;0,0 960,0;

// LT99 brings back no type from before DF
LT2,10;LT;DF;LT99;PD900,0;
0,0 14400,0;";

#[test]
fn types_and_patterns(rt: HostRuntime) -> Result<(), Fail> {
    has_answers(&rt, rt.alloc(), Asked::Strokes, TYPES_AND_PATTERNS, 8)
}

const RUNS_AND_FIGURES: &str = "\
// LT ends the run, and a wrong LT and lines of pen 0 do not
IP0,0,300,400;LT2,10;PU0,0;PD20,0;LT2;PD60,0;
0,0 320,0;320,0 720,0;

LT2,10,1;PU0,100;PD150,100;LT9;PD300,100;
0,1600 2400,1600;2400,1600 3200,1600;

IP0,0,300,400;LT2,10;SP0;PU0,0;PD20,0;SP1;PD60,0;
320,0 400,0;800,0 960,0;

// nor does a label
IP0,0,300,400;LT2,10;PU0,0;PD20,0;LB\x03PD60,0;
0,0 320,0;320,0 400,0;800,0 960,0;

IP0,0,300,400;LT2,10;PU0,0;CI5,90;
80,0 0,80;0,80 -80,0;-80,0 0,-80;0,-80 43,-37;

IP0,0,300,400;LT2,10;PU50,0;PD;AA0,0,60,30;
800,0 800,0;800,0 697,386;420,673 400,693;

IP0,0,300,400;LT2,10;PU50,0;PD;AA0,0,90,90;LT;PR0,50;
800,0 800,0;800,0 517,283;234,566 0,800;0,800 0,1600;";

#[test]
fn runs_and_figures(rt: HostRuntime) -> Result<(), Fail> {
    has_answers(&rt, rt.alloc(), Asked::Strokes, RUNS_AND_FIGURES, 7)
}
