//! Reports on plots.
use crate::cases::has_answers;
use crate::runs::Asked;
use std::test::Fail;

// If a plot is refused, nothing is written.
const REPORTS: &str = "\
SP1;PU0,28;PD64,28;
= Ok(Done { rows: 0, bytes: 71, strokes: 1, areas: 0, images: 0, notes: 0 }), 1 ends, page 64 64 0 0
strokes 1
pen 1 strokes 1 widest 224 box 0 448 1024 448

ZZ1,2;CO\"a;b\";PA1
= Ok(Done { rows: 0, bytes: 76, strokes: 0, areas: 0, images: 0, notes: 3 }), 1 ends, page 64 64 0 0
strokes 0
note 0 skipped ZZ
note 6 skipped CO
note 14 bad PA

PU48,32;PD;AA32,32,37.5;
= Ok(Done { rows: 0, bytes: 72, strokes: 9, areas: 0, images: 0, notes: 0 }), 1 ends, page 64 64 0 0
strokes 9
pen 1 strokes 9 widest 224 box 715 512 768 668

PU0,28;LBl\x03
= Ok(Done { rows: 0, bytes: 71, strokes: 2, areas: 0, images: 0, notes: 0 }), 1 ends, page 64 64 0 0
strokes 2
pen 1 strokes 2 widest 224 box 0 448 811 1600

SC0,3,0,8;PU0,3.5;PR;PD1,0,1,0,1,0;
= Ok(Done { rows: 0, bytes: 71, strokes: 3, areas: 0, images: 0, notes: 0 }), 1 ends, page 64 64 0 0
strokes 3
pen 1 strokes 3 widest 224 box 0 448 1024 448

PW1;SP9;PU-1,-2;PD3,4;SP2;PD-70,100;SP0;PD9,9;DI1,2;!LBa
= Ok(Done { rows: 0, bytes: 167, strokes: 2, areas: 0, images: 0, notes: 3 }), 1 ends, page 64 64 0 0
strokes 2
pen 2 strokes 1 widest 640 box -1120 64 48 1600
pen 9 strokes 1 widest 640 box -16 -32 48 64
note 46 axis DI
note 52 stray 33
note 53 open LB

!PA70000,0;IN;
= Err(Plot(OffRange { at: 1 })), 1 ends, 

SP0;PU0,65536.04;
= Err(Plot(OffRange { at: 4 })), 1 ends, ";

#[test]
fn reports_on_plots(rt: HostRuntime) -> Result<(), Fail> {
    has_answers(&rt, rt.alloc(), Asked::Report, REPORTS, 8)
}
