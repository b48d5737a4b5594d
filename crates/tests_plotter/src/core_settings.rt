// What instructions set, what stays as it was, and the edges of rectangles.
use crate::core_cases::{Asked, has_answers};
use std::test::Fail;

const SETTINGS_AND_EDGES: &str = "\
// Settings that stay.
RO90;DF;PU0,28;PD64,28;
576,0 to 576,1024

RO90;IN;PU0,28;PD64,28;
0,448 to 1024,448

PW1,1;SP2;PD5,0;
2 224 in 0 0 1024 1024: 0,0 to 80,0

PD5,0;PD;
0,0 to 80,0

PU0,28;PE7?c_;PU0,0;PD5,0;
0,448 to 1024,448
0,0 to 80,0

IW0,0,20,64;PD1,0;IW;PD2,0;
1 224 in 0 0 320 1024: 0,0 to 16,0
16,0 to 32,0

// The edges of rectangles.
PU8,8;EA16,24;
128,128 to 256,128
256,128 to 256,384
256,384 to 128,384
128,384 to 128,128

PU8,8;PR;EA16,24;
128,128 to 256,128
256,128 to 256,384
256,384 to 128,384
128,384 to 128,128

PU8,8;ER8,16;
128,128 to 256,128
256,128 to 256,384
256,384 to 128,384
128,384 to 128,128

// Limits of numbers.
SC0,0,0,1,2;PU0,0;PD1,1;
0,0 to 16,16
note 0 SC Bad

SC0,8,0,4,1,0,100;PU0,0;PD8,0;
0,512 to 1024,512

SP0;PU65536,-65536;PU0,0;SP1;PD1,0,2;
0,0 to 16,0
note 29 PD Bad

";

#[test]
fn settings_and_edges(rt: HostRuntime) -> Result<(), Fail> {
    has_answers(&rt, rt.alloc(), Asked::Drawing, SETTINGS_AND_EDGES, 12)
}
