// Labels as SR, SL, DI, DR, ES, LO and DV set them, by the text of plots. The strokes that are wanted come from a
// plotter that was written apart from this one. L goes from (0,6) over (0,0) to (4,0) on its grid; a full stop is
// the dot (2,0), which is 608 grains from its left. A place is 1,824 grains wide, and a line is 3,456 high.
use crate::full_cases::{Asked, has_answers};
use std::test::Fail;

const SIZES_OF_LETTERS: &str = "\
// relative size, and a mirrored one
IP0,0,300,400;SR10,10;PU0,0;LBL\x03
0,640 0,0;0,0 480,0;

IP300,0,0,400;SR10,10;PU500,0;LBL\x03
8000,640 8000,0;8000,0 7520,0;

IP0,0,300,400;SR;PU0,0;LBL\x03
0,96 0,0;0,0 36,0;

// by P1 and P2 when it is written
SR10,10;IP0,0,300,400;PU0,0;LBL\x03
0,640 0,0;0,0 480,0;

// SI ends the relative size, but not with wrong numbers
IP0,0,300,400;SR10,10;SI;PU0,0;LBL\x03
0,1728 0,0;0,0 1216,0;

IP0,0,300,400;SR10,10;SI1;PU0,0;LBL\x03
0,640 0,0;0,0 480,0;

// wrong numbers set nothing
IP0,0,300,400;SR10,10;SR1;SR0,5;SR5,0;SR1001,5;PU0,0;LBL\x03
0,640 0,0;0,0 480,0;";

#[test]
fn sizes_of_letters(rt: HostRuntime) -> Result<(), Fail> {
    has_answers(&rt, rt.alloc(), Asked::Strokes, SIZES_OF_LETTERS, 7)
}

const DIRECTIONS_AND_SLANTS: &str = "\
// direction of 3 to 4, which DR names by P1 and P2
DI3,4;PU500,500;LBL\x03
6618,9037 8000,8000;8000,8000 8730,8973;

IP0,0,300,400;DR1,1;PU500,500;LBL\x03
6618,9037 8000,8000;8000,8000 8730,8973;

DR1,1;IP0,0,300,400;PU500,500;LBL\x03
6618,9037 8000,8000;8000,8000 8730,8973;

// direction turned
RO90;DI3,4;PU500,500;LBL\x03
6963,6618 8000,8000;8000,8000 7027,8730;

DI3,4;DI;PU0,0;LBL\x03
0,1728 0,0;0,0 1216,0;

DR3,4;DR;PU0,0;LBL\x03
0,1728 0,0;0,0 1216,0;

// slant
SL1;PU0,0;LBL\x03
1728,1728 0,0;0,0 1216,0;

// wrong numbers set nothing
DI0,1;DI0,0;DI1;DR0,0;DR1;SL1001;PU0,0;LBL\x03
-1728,0 0,0;0,0 0,1216;";

#[test]
fn directions_and_slants(rt: HostRuntime) -> Result<(), Fail> {
    has_answers(&rt, rt.alloc(), Asked::Strokes, DIRECTIONS_AND_SLANTS, 8)
}

const EXTRA_SPACE_AND_PATHS: &str = "\
// extra space, and extra lines
ES1;PU0,0;LB..\x03
608,0 608,0;4256,0 4256,0;

ES0,1;PU0,500;LB.\r\n.\x03
608,8000 608,8000;608,1088 608,1088;

ES-.5,-.5;PU0,500;LB..\r\n.\x03
608,8000 608,8000;1520,8000 1520,8000;608,6272 608,6272;

// label downwards, to the left and upwards
DV1;PU500,500;LB..\x03PD;
8608,8000 8608,8000;8608,4544 8608,4544;8000,1088 8000,1088;

DV2;PU500,500;LB..\x03PD;
8608,8000 8608,8000;6784,8000 6784,8000;4352,8000 4352,8000;

DV3;PU500,500;LB..\x03PD;
8608,8000 8608,8000;8608,11456 8608,11456;8000,14912 8000,14912;

// the next line on the other side
DV0,1;PU500,500;LB.\r\n.\x03
8608,8000 8608,8000;8608,11456 8608,11456;

DV1;PU500,500;LB.\r\n.\x03PD;
8608,8000 8608,8000;6784,8000 6784,8000;6176,4544 6176,4544;

// LO counts only for labels to the right
DV1,1;LO5;PU500,500;LB.\r\n.\x03
8608,8000 8608,8000;10432,8000 10432,8000;";

#[test]
fn extra_space_and_paths(rt: HostRuntime) -> Result<(), Fail> {
    has_answers(&rt, rt.alloc(), Asked::Strokes, EXTRA_SPACE_AND_PATHS, 9)
}

const ORIGINS: &str = "\
LO2;PU500,500;LB.\x03PD;
8608,7136 8608,7136;9824,8000 9824,8000;

// origin on top
LO3;PU500,500;LBL\x03
8000,8000 8000,6272;8000,6272 9216,6272;

// in the middle, and line by line
LO4;PU500,500;LB.\x03PD;
8000,8000 8000,8000;8912,8000 8912,8000;

LO4;PU500,500;LB..\r\n.\x03
7088,8000 7088,8000;8912,8000 8912,8000;8000,4544 8000,4544;

// in the centre
LO5;PU500,500;LB.\x03
8000,7136 8000,7136;

LO6;PU500,500;LB.\x03PD;
8000,6272 8000,6272;8912,8000 8912,8000;

// on the right
LO7;PU500,500;LB..\x03PD;
5568,8000 5568,8000;7392,8000 7392,8000;8000,8000 8000,8000;

LO8;PU500,500;LB.\x03PD;
7392,7136 7392,7136;8000,8000 8000,8000;

LO9;PU500,500;LB.\x03PD;
7392,6272 7392,6272;8000,8000 8000,8000;";

#[test]
fn origins(rt: HostRuntime) -> Result<(), Fail> {
    has_answers(&rt, rt.alloc(), Asked::Strokes, ORIGINS, 9)
}

const ORIGINS_WITH_A_GAP: &str = "\
LO11;PU500,500;LB.\x03PD;
9216,8864 9216,8864;9824,8000 9824,8000;

LO12;PU500,500;LB.\x03PD;
9216,7136 9216,7136;9824,8000 9824,8000;

LO13;PU500,500;LB.\x03PD;
9216,5408 9216,5408;9824,8000 9824,8000;

LO14;PU500,500;LB.\x03PD;
8000,8864 8000,8864;8912,8000 8912,8000;

LO15;PU500,500;LB.\x03PD;
8000,7136 8000,7136;8912,8000 8912,8000;

LO16;PU500,500;LB.\x03PD;
8000,5408 8000,5408;8912,8000 8912,8000;

LO17;PU500,500;LB.\x03PD;
6784,8864 6784,8864;8000,8000 8000,8000;

LO18;PU500,500;LB.\x03PD;
6784,7136 6784,7136;8000,8000 8000,8000;

LO19;PU500,500;LBL\x03
6176,7136 6176,5408;6176,5408 7392,5408;";

#[test]
fn origins_with_a_gap(rt: HostRuntime) -> Result<(), Fail> {
    has_answers(&rt, rt.alloc(), Asked::Strokes, ORIGINS_WITH_A_GAP, 9)
}

const ORIGINS_BEYOND_THE_USUAL: &str = "\
// 21 is 1
LO7;LO21;PU500,500;LB.\x03PD;
8608,8000 8608,8000;9824,8000 9824,8000;

LO7;LO;PU500,500;LB.\x03PD;
8608,8000 8608,8000;9824,8000 9824,8000;

// wrong numbers set nothing
LO7;LO0;LO10;LO20;LO22;LO-1;PU500,500;LB..\x03PD;
5568,8000 5568,8000;7392,8000 7392,8000;8000,8000 8000,8000;";

#[test]
fn origins_beyond_the_usual(rt: HostRuntime) -> Result<(), Fail> {
    has_answers(&rt, rt.alloc(), Asked::Strokes, ORIGINS_BEYOND_THE_USUAL, 3)
}

const WHAT_RESTORES_LETTERS: &str = "\
// DF, IN and BP
SL1;DI3,4;ES1,1;LO5;DV1;DF;PU0,0;LB..\r\nL\x03
608,0 608,0;2432,0 2432,0;0,-1728 0,-3456;0,-3456 1216,-3456;

SL1;DI3,4;ES1,1;LO5;DV1;IN;PU0,0;LB..\r\nL\x03
608,0 608,0;2432,0 2432,0;0,-1728 0,-3456;0,-3456 1216,-3456;

SL1;DI3,4;ES1,1;LO5;DV1;BP;PU0,0;LB..\r\nL\x03
608,0 608,0;2432,0 2432,0;0,-1728 0,-3456;0,-3456 1216,-3456;

SR5,5;DF;PU0,0;LBL\x03
0,1728 0,0;0,0 1216,0;

SR5,5;IN;PU0,0;LBL\x03
0,1728 0,0;0,0 1216,0;

// and no numbers
SL1;SL;ES1,1;ES;LO5;LO;DV1,1;DV;PU0,0;LB..\r\nL\x03
608,0 608,0;2432,0 2432,0;0,-1728 0,-3456;0,-3456 1216,-3456;

// SP, SC and IP keep them
LO7;SL1;SP2;SC;IP;PU0,0;LBL\x03PD;
512,1728 -1216,0;-1216,0 0,0;0,0 0,0;";

#[test]
fn what_restores_letters(rt: HostRuntime) -> Result<(), Fail> {
    has_answers(&rt, rt.alloc(), Asked::Strokes, WHAT_RESTORES_LETTERS, 7)
}
