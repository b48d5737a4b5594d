// What labels write, and what sets their size and direction.
use crate::core_cases::{Asked, has_answers, has_drawing};
use std::test::Fail;

const LETTERS: &str = "\
// A letter begins at the pen's place, and the terminator is not written.
PU0,28;LBL\x03
0,2176 to 0,448
0,448 to 1216,448

PD;PU0,28;LBL\x03
0,0 to 0,0
0,2176 to 0,448
0,448 to 1216,448

DT$;PU0,28;LBL$
0,2176 to 0,448
0,448 to 1216,448

PU0,28;LBL
0,2176 to 0,448
0,448 to 1216,448
note 7 LB Open

PU0,28;LBl\x03
0,1600 to 0,448
0,448 to 811,448

SP0;PU0,28;LBL\x03

LB \x03LB\x03

// Sizes are tested as they are written: 0 is wrong, and so is more than 40 centimetres.
SI.1,.2;LB-\x03
0,640 to 640,640

SI-.1,-.1;LB--\x03
0,-320 to -640,-320
-960,-320 to -1600,-320

SI.00001,.1;LB-\x03
0,320 to 0,320

SI40,-40;LB-\x03
0,-128000 to 256000,-128000

SI.1,.1;SI0,1;SI1,0;SI40.000001,1;SI1,-40.000001;SI1;LB-\x03
0,320 to 640,320
note 8 SI Bad
note 14 SI Bad
note 20 SI Bad
note 34 SI Bad
note 49 SI Bad

SI.1,.1;SI;LB-\x03
0,864 to 1216,864

PU1,0;SI.00001,.27;LB-\x03
16,864 to 16,864

// DF and IN restore the size, the direction and the terminator.
DT$;SI1,1;DI0,1;DF;LB-\x03
0,864 to 1216,864

DT$;SI1,1;DI0,1;IN;LB-\x03
0,864 to 1216,864

";

#[test]
fn letters(rt: HostRuntime) -> Result<(), Fail> {
    has_answers(&rt, rt.alloc(), Asked::Drawing, LETTERS, 16)
}

const DIRECTIONS: &str = "\
// The direction, turned with the page.
PU0,28;DI0,1;LBL\x03
-1728,448 to 0,448
0,448 to 0,1664

SI.1,.1;DI0,-1;LB-\x03
320,0 to 320,-640

SI.1,.1;DI-1,0;LB-\x03
0,-320 to -640,-320

SI.1,.1;DI0,1;DI;LB-\x03
0,320 to 640,320

RO90;SI.1,.1;PU0,0;LB-\x03
704,0 to 704,640

RO90;PU0,0;DI-2,1;SI.1,.1;LB-\x03
1344,0 to 1344,-640
note 11 DI Axis

// A tie goes to the run. A direction along no axis is noted, and (0, 0) is wrong.
DI1,-1;SI.1,.1;LB-\x03
0,320 to 640,320
note 0 DI Axis

DI-1,1;SI.1,.1;LB-\x03
0,-320 to -640,-320
note 0 DI Axis

DI1,1.5;SI.1,.1;LB-\x03
-320,0 to -320,640
note 0 DI Axis

DI0,0;DI1;DI1,1;DI;
note 0 DI Bad
note 6 DI Bad
note 10 DI Axis

DI.0000001,1;DI5,0;DI0,-2,9;

";

#[test]
fn directions(rt: HostRuntime) -> Result<(), Fail> {
    has_answers(&rt, rt.alloc(), Asked::Drawing, DIRECTIONS, 11)
}

const THE_PEN_AFTER_LABELS: &str = "\
// After a label the pen is at the next character's place, and its coordinates are recomputed.
SI.1,.1;PU1,1;LBl\x03PD;
16,443 to 16,16
16,16 to 443,16
976,16 to 976,16

PU.03,0;LB\x03PR.03,0;PD;
0,0 to 0,0

SC0,64,0,32;SI.1,.1;PU1,1;LB \x03PD;PR0,1;
976,32 to 976,32
976,32 to 976,64

PD;LB \x03PA0,0;
0,0 to 0,0
1824,0 to 0,0

// A rectangle after a label begins at the pen's place, and its other corners are placed by coordinates.
SC0,3,0,3;SI.1,.1;LB \x03ER1,1;
960,0 to 1301,0
1301,0 to 1301,341
1301,341 to 960,341
960,341 to 960,0

";

// A line feed keeps the column, a carriage return the line; other bytes take no room.
const LINES: &str = "\
0,320 to 640,320
960,-960 to 1600,-960
0,-960 to 640,-960
";

const LINES_AND_MOVES: &str = "\
976,-1264 to 976,-1264
976,-1264 to 992,-1248
992,-1248 to 1008,-1248
";

#[test]
fn the_pen_after_labels(rt: HostRuntime) -> Result<(), Fail> {
    has_answers(&rt, rt.alloc(), Asked::Drawing, THE_PEN_AFTER_LABELS, 5)?;
    let lines_and_moves = b"SI.1,.1;PU1,1;LB  \r\n \x03PD;PR1,1;LB\x03PR1,0;";
    has_drawing(&rt, rt.alloc(), lines_and_moves, LINES_AND_MOVES)?;
    has_drawing(&rt, rt.alloc(), b"SI.1,.1;LB-\n-\r-\x03", LINES)?;
    let no_room = b"SI.1,.1;LB\x01\t\x7f\xff-\x03";
    has_drawing(&rt, rt.alloc(), no_room, "0,320 to 640,320\n")
}
