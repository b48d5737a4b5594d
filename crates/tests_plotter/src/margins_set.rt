// Moves by CP, and the left margin of labels, by the text of plots. The strokes that are wanted come from a plotter
// that was written apart from this one. A place is 1,824 grains wide, and a line is 3,456 high.
use crate::full_cases::{Asked, has_answers};
use std::test::Fail;

const MOVES_BY_PLACES: &str = "\
PU100,100;CP2,-1;PD;
5248,-1856 5248,-1856;

CP1.5,0.5;PD;
2736,1728 2736,1728;

ES1,1;CP1,-1;PD;
3648,-6912 3648,-6912;

DV1;CP1,-1;PD;
-1824,-3456 -1824,-3456;

DI0,1;PU100,500;CP1,-1;PD;
5056,9824 5056,9824;

// the coordinates are those of the place
SC0,10,0,10;CP1,-1;PR0,1;PD;
1824,-1856 1824,-1856;

// whatever LO is
LO5;PU100,100;CP2,-1;PD;
5248,-1856 5248,-1856;

// a lowered pen draws nothing
PD100,100;CP2,-1;PD200,200;
0,0 1600,1600;5248,-1856 3200,3200;

// wrong numbers move nothing
PU100,100;CP2;PD;
1600,1600 1600,1600;";

#[test]
fn moves_by_places(rt: HostRuntime) -> Result<(), Fail> {
    has_answers(&rt, rt.alloc(), Asked::Strokes, MOVES_BY_PLACES, 9)
}

const MOVES_TO_THE_MARGIN: &str = "\
CP;PD;
0,-3456 0,-3456;

PU100,500;LB.\x03LB.\x03CP;PD;
2208,8000 2208,8000;4032,8000 4032,8000;1600,4544 1600,4544;

// after a label by LO
PU100,500;LO4;LB..\x03CP;PD;
688,8000 688,8000;2512,8000 2512,8000;1600,4544 1600,4544;

PU100,500;LO7;LB..\x03CP;PD;
-832,8000 -832,8000;992,8000 992,8000;1600,4544 1600,4544;

// lines of labels and of CP move it, and places do not
PU100,500;CP1,1;CP;PD;
1600,8000 1600,8000;

PU100,500;LB.\x03CP2,0;LB.\r\n.\x03CP;PD;
2208,8000 2208,8000;7680,8000 7680,8000;7680,4544 7680,4544;1600,1088 1600,1088;

PD100,500;LB.\r\n.\x03CP;PU;PD;
0,0 1600,8000;2208,8000 2208,8000;2208,4544 2208,4544;1600,1088 1600,1088;

DI0,1;PU100,500;LB.\x03CP;PD;
1600,8608 1600,8608;5056,8000 5056,8000;";

#[test]
fn moves_to_the_margin(rt: HostRuntime) -> Result<(), Fail> {
    has_answers(&rt, rt.alloc(), Asked::Strokes, MOVES_TO_THE_MARGIN, 8)
}

const WHAT_SETS_THE_MARGIN: &str = "\
// DI, DR, DV, LO and IN
PU100,500;LB.\x03DI;CP;PD;
2208,8000 2208,8000;3424,4544 3424,4544;

PU100,500;LB.\x03DR;CP;PD;
2208,8000 2208,8000;3424,4544 3424,4544;

PU100,500;LB.\x03DV;CP;PD;
2208,8000 2208,8000;3424,4544 3424,4544;

PU100,500;LB.\x03LO;CP;PD;
2208,8000 2208,8000;3424,4544 3424,4544;

PU100,500;LB.\x03IN;CP;PD;
2208,8000 2208,8000;0,-3456 0,-3456;

// moves and arcs
PU100,500;LB.\x03PR10,0;CP;PD;
2208,8000 2208,8000;3584,4544 3584,4544;

PU100,500;LB.\x03AA100,500,90;CP;PU;PD;
2208,8000 2208,8000;1600,6368 1600,6368;";

#[test]
fn what_sets_the_margin(rt: HostRuntime) -> Result<(), Fail> {
    has_answers(&rt, rt.alloc(), Asked::Strokes, WHAT_SETS_THE_MARGIN, 7)
}

const WHAT_KEEPS_THE_MARGIN: &str = "\
PU100,500;LB.\x03DF;CP;PD;
2208,8000 2208,8000;1600,4544 1600,4544;

PU100,500;LB.\x03SR;SL;ES;SI;CP;PD;
2208,8000 2208,8000;1600,4544 1600,4544;

PU100,500;LB.\x03PA;PU;CP;PD;
2208,8000 2208,8000;1600,4544 1600,4544;

PU100,500;LB.\x03LO0;DV4;DI0,0;CP;PD;
2208,8000 2208,8000;1600,4544 1600,4544;

// figures
PU100,500;LB.\x03EA200,200;CI5,180;CP;PD;
2208,8000 2208,8000;3424,8000 3200,8000;3200,8000 3200,3200;3200,3200 3424,3200;3424,3200 3424,8000;\
3504,8000 3344,8000;3344,8000 3504,8000;1600,4544 1600,4544;";

#[test]
fn what_keeps_the_margin(rt: HostRuntime) -> Result<(), Fail> {
    has_answers(&rt, rt.alloc(), Asked::Strokes, WHAT_KEEPS_THE_MARGIN, 5)
}
