// What plots draw, by their text. The drawings that are wanted come from a plotter that was written
// apart from this one.
use crate::core_cases::{Asked, has_answers, has_drawing};
use std::test::Fail;

const PENS_AND_FRAMES: &str = "\
// Pens and widths.
SP1;PU0,28;PD64,28;
0,448 to 1024,448

PU0,28;PW0.4;PD64,28;PW0.4,2;SP2;PD0,0;
1 256 in 0 0 1024 1024: 0,448 to 1024,448
2 256 in 0 0 1024 1024: 1024,448 to 0,0

SP0;PD64,64;SP255.4;PW20;PD0,0;
255 12800 in 0 0 1024 1024: 1024,1024 to 0,0

// Scaled.
SC0,8,0,8;PU0,3.5;PD8,3.5;
0,448 to 1024,448

SC0,8,0,8,2;PU0,3.5;PD8,3.5;
0,448 to 1024,448

SC8,0,0,8;SC0,0,0,8;PU0,3.5;PD4,3.5;
1024,448 to 512,448
note 10 SC Bad

// Rotated.
RO90;PU0,28;PD64,28;
576,0 to 576,1024

PU10,20;RO90;PR;PD1,0;
160,320 to 160,336

// In a window.
PU0,28;PD64,28;IW0,0,20,64;PU0,12;PD64,12;
0,448 to 1024,448
1 224 in 0 0 320 1024: 0,192 to 1024,192

IW70,0,80,64;PD64,12;
1 224 in 1 1 0 0: 0,0 to 1024,192

IW0,0,20,64;RO90;SC0,8,0,8;PD1,1;
1 224 in 0 0 320 1024: 0,0 to 896,128

// The corners of the scaling.
IP10,20,30,60;IP20,30;SC0,2,0,4;PU1,1;PD1,1;
480,640 to 480,640

IP10,20,10,60;SC0,1,0,4;PU1,1;PD1,1;
176,480 to 176,480

RO45;
note 0 RO Bad

";

#[test]
fn pens_and_frames(rt: HostRuntime) -> Result<(), Fail> {
    has_answers(&rt, rt.alloc(), Asked::Drawing, PENS_AND_FRAMES, 14)
}

const ON_A_WIDE_PAGE: &str = "\
// Scaled.
SC0,8,0,8,1;PU0,3.5;PD8,3.5;
1 224 in 0 0 2048 1024: 512,448 to 1536,448

SC0,8,0,8,1,100;PU0,3.5;PD8,3.5;
1 224 in 0 0 2048 1024: 1024,448 to 2048,448

// Rotated.
RO90;IP;SC0,8,0,8;PU0,4;PD8,4;
1 224 in 0 0 2048 1024: 1024,0 to 1024,1024

RO270;PU0,28;PD64,28;
1 224 in 0 0 2048 1024: 448,1024 to 448,0

// A window that is cut to the page.
IW0,0,200,200;PD1,0;
1 224 in 0 0 2048 1024: 0,0 to 16,0

";

#[test]
fn on_a_wide_page(rt: HostRuntime) -> Result<(), Fail> {
    has_answers(&rt, rt.alloc(), Asked::WideDrawing, ON_A_WIDE_PAGE, 5)
}

const COLOURS: &str = "\
PC2,10,20,30;SP2;PU0,28;PD64,28;PC2;PU0,12;PD64,12;
2 10 20 30: 0,448 to 1024,448
2 255 0 0: 0,192 to 1024,192
0 notes

PC1,255,0,0;DF;PU0,28;PD64,28;
1 255 0 0: 0,448 to 1024,448
0 notes

PC1,255,0,0;IN;PU0,28;PD64,28;
1 0 0 0: 0,448 to 1024,448
0 notes

PC1,255,0,0;PC;PU0,28;PD64,28;
1 0 0 0: 0,448 to 1024,448
0 notes

PC1,256,0,0;PC1,2;PC1,2,3;PU0,28;PD64,28;
1 0 0 0: 0,448 to 1024,448
3 notes

PC1.4,255.4,-0.5,0,7;CR;PU0,28;PD64,28;
1 255 0 0: 0,448 to 1024,448
1 notes

PC0,9,9,9;SP0;PU0,28;PD64,28;
0 notes

PC2,3;SP0;LBx
2 notes

PC2,10,20,30;PU0,28;PE7:c?c_;
2 10 20 30: 0,448 to 1024,448
0 notes

PD1,0;SP3;PD2,0;SP4;PD3,0;SP5;PD4,0;SP6;PD5,0;SP7;PD6,0;SP8;PD7,0;
1 0 0 0: 0,0 to 16,0
3 0 255 0: 16,0 to 32,0
4 255 255 0: 32,0 to 48,0
5 0 0 255: 48,0 to 64,0
6 255 0 255: 64,0 to 80,0
7 0 255 255: 80,0 to 96,0
8 0 0 0: 96,0 to 112,0
0 notes

// Notes within a polyline.
PE!#;
2 notes

// Some of everything.
SP1;PD9,9,9;!WU1;PE<=7!!;PU1;EA5,5;PE!
1 0 0 0: 0,0 to 144,144
1 0 0 0: 144,144 to 80,144
1 0 0 0: 80,144 to 80,80
1 0 0 0: 80,80 to 144,80
1 0 0 0: 144,80 to 144,144
8 notes

";

#[test]
fn colours(rt: HostRuntime) -> Result<(), Fail> {
    has_answers(&rt, rt.alloc(), Asked::Colours, COLOURS, 12)
}

const MOVES_AND_POLYLINES: &str = "\
// Relative moves.
PU0,28;SC0,8,0,8;PR;PD8,0;
0,448 to 1024,448

SC0,8,0,8;PU0,3.5;DF;PD64,28;
0,448 to 1024,448

SC0,3,0,8;PU0,3.5;PR;PD1,0,1,0,1,0;
0,448 to 341,448
341,448 to 683,448
683,448 to 1024,448

SC0,3,0,3;PA1,1;RO;PR;PD1,1;
341,341 to 682,682

// What is noted.
ZZ1,2;CO,a,b;PA1
note 0 ZZ Skipped
note 6 CO Skipped
note 9 -- Stray(97)
note 10 -- Stray(44)
note 11 -- Stray(98)
note 13 PA Bad

!PD5;PW1,2,3;SC1;IN7;
0,0 to 0,0
note 0 -- Stray(33)
note 1 PD Bad
note 13 SC Bad

// Encoded polylines.
PU0,28;PE7?c_;
0,448 to 1024,448

PU0,28;PE7>c?o_;
0,448 to 1024,448

PU0,28;PE7:c?c_;
2 224 in 0 0 1024 1024: 0,448 to 1024,448

PE7<=_w?c_;
0,192 to 1024,192

PEG
note 0 PE Open

PE7_!w;PE7_w:
0,0 to 0,192
0,192 to 0,384
note 4 PE Stray(33)
note 7 PE Open

";

#[test]
fn moves_and_polylines(rt: HostRuntime) -> Result<(), Fail> {
    has_answers(&rt, rt.alloc(), Asked::Drawing, MOVES_AND_POLYLINES, 12)?;
    has_drawing(
        &rt,
        rt.alloc(),
        b"PU0,28;PE?\xc1\xbf;",
        "0,448 to 1024,448\n",
    )?;
    has_drawing(
        &rt,
        rt.alloc(),
        b"PU0,28;PE:;PU0,28;PE?\xc1;",
        "note 9 PE Bad\nnote 20 PE Bad\n",
    )
}

const NOTES: &str = "\
SP1;PD9,9,9;!WU1;PE<=7!!;PU1;EA5,5;PE!
note 4 PD Bad
note 12 -- Stray(33)
note 13 WU Skipped
note 22 PE Stray(33)
note 23 PE Stray(33)
note 25 PU Bad
note 37 PE Stray(33)
note 35 PE Open

";

#[test]
fn one_item_at_a_time(rt: HostRuntime) -> Result<(), Fail> {
    has_answers(&rt, rt.alloc(), Asked::Notes, NOTES, 1)
}

const REFUSED: &str = "\
PA70000,0;IN;
Some(OffRange { at: 0 })

SP0;PU0,0,0,-65537;
Some(OffRange { at: 4 })

SC0,1,0,1;PA1024,1024;PA1025,0;
Some(OffRange { at: 22 })

SP0;PU1,1;ER70000,0;
Some(OffRange { at: 10 })

PA70000,0;LBx
Some(OffRange { at: 0 })

// A place out of range, drawn or not, comes before a stroke too many.
CI70000;
Some(OffRange { at: 0 })

SP0;PU1,1;AA1,70000,180;
Some(OffRange { at: 10 })

SC0,.000001,0,.000001;SP0;AA8388607,8388607,1;
Some(OffRange { at: 26 })

// Both ends of each stroke of a label are in range, and so is the place after it; with pen 0 too.
PU65536,0;LB-\x03
Some(OffRange { at: 10 })

SP0;PU65536,0;LB \x03
Some(OffRange { at: 14 })

PU65536,0;DI-1,0;LB \x03
None

PU0,65536;LB-\x03
Some(OffRange { at: 10 })

PU65536,0;LB \r\x03
None

";

#[test]
fn refused(rt: HostRuntime) -> Result<(), Fail> {
    has_answers(&rt, rt.alloc(), Asked::Refusal, REFUSED, 13)
}
