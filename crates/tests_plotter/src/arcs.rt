// Circles and arcs. The drawings that are wanted come from a plotter that was written apart from
// this one.
use crate::core_cases::{Asked, has_answers};
use std::test::Fail;

const CIRCLES: &str = "\
PU32,32;CI16,90;
768,512 to 512,768
512,768 to 256,512
256,512 to 512,256
512,256 to 768,512

PR;PU32,32;CI16,90,7;
768,512 to 512,768
512,768 to 256,512
256,512 to 512,256
512,256 to 768,512

SC0,8,0,8;PU4,4;CI2,90;
768,512 to 512,768
512,768 to 256,512
256,512 to 512,256
512,256 to 768,512

PU32,32;CI-16,120;
256,512 to 640,290
640,290 to 640,734
640,734 to 256,512

PU32,32;CI16,100;
768,512 to 468,764
468,764 to 271,424
271,424 to 640,290
640,290 to 768,512

PU1,2;CI0,180;
16,32 to 16,32
16,32 to 16,32

SP0;PU32,32;CI16;

";

const ARCS: &str = "\
PU48,32;PD;AA32,32,-90,40;
768,512 to 768,512
768,512 to 708,347
708,347 to 556,260
556,260 to 512,256

PU48,32;PD;AR-16,0,-90,40,7;
768,512 to 768,512
768,512 to 708,347
708,347 to 556,260
556,260 to 512,256

PU10,20;PD;PR;AA30,30,100,30.25;PU;
160,320 to 160,320
160,320 to 284,181
284,181 to 462,123
462,123 to 644,162
644,162 to 693,193

PU48,32;PD;AA32,32,37.5;
768,512 to 768,512
768,512 to 767,534
767,534 to 764,556
764,556 to 759,578
759,578 to 753,600
753,600 to 744,620
744,620 to 734,640
734,640 to 722,659
722,659 to 715,668

PD1,2;AA9,9,0;
0,0 to 16,32
16,32 to 16,32

// A circle leaves the pen where and as it is, and an arc takes it along, also if it is up. Roundings do not add up
// on the way.
PU32,32;PW0;CI0,180;PD40,32;
1 0 in 0 0 1024 1024: 512,512 to 512,512
1 0 in 0 0 1024 1024: 512,512 to 512,512
1 0 in 0 0 1024 1024: 512,512 to 640,512

SP0;PU32,32;CI16;SP1;PD40,32;
512,512 to 640,512

PU48,32;AA32,32,90;PD;
512,768 to 512,768

PU48,32;AA32,32,360,.5;PD;
768,512 to 768,512

// Angles are rounded to thousandths of a degree before they are tested.
SP0;CI1,0.4995;CI1,180.0004;

SP0;CI1,0.4994;CI1,180.0005;
note 4 CI Bad
note 15 CI Bad

SP0;AA1,1,360.0004;AR1,1,-360.0005,.5;

AA1,1,360.0005;AR1,1,-360.0006;AA1,1,9,181;
note 0 AA Bad
note 15 AR Bad
note 31 AA Bad

CI;AA;AA1;AR1,1;CI16,0.4;AA0,0,361;
note 0 CI Bad
note 3 AA Bad
note 6 AA Bad
note 10 AR Bad
note 16 CI Bad
note 25 AA Bad

";

#[test]
fn circles_and_arcs(rt: HostRuntime) -> Result<(), Fail> {
    has_answers(&rt, rt.alloc(), Asked::Drawing, CIRCLES, 7)?;
    has_answers(&rt, rt.alloc(), Asked::Drawing, ARCS, 14)
}
