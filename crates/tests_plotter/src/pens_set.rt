// Pens whose widths and colours the user says, by the text of plots. Pen 2 is 64 grains wide, pen 3 orange, and pen 4
// 2 mm wide, which are 1,280 grains; yellow is its colour at the start, and red that of pen 2.
use crate::full_cases::{Asked, has_answers};
use full_plot::Carousel;
use hpgl_plot::Colour;
use std::test::Fail;

const ORANGE: Colour = Colour {
    red: 255,
    green: 165,
    blue: 0,
};

// The pens of these tests.
pub fn carousel() -> Carousel {
    Carousel::empty()
        .with_width(2, 64)
        .with_colour(3, ORANGE)
        .with_width(4, 1280)
}

const PENS: &str = "\
// widths by WU, PW and PT; pen 1 takes them
IP0,0,300,400;WU1;PW1;SP2;PD10,0;PT0.5;PD20,0;SP1;PD30,0;
2 64 255 0 0 160,0;2 64 255 0 0 320,0;1 80 0 0 0 480,0;

// BP and IN, after which pen 1 is selected
PW2;SP2;BP;SP2;PD10,0;IN;PD20,0;SP2;PD30,0;
2 64 255 0 0 160,0;1 224 0 0 0 320,0;2 64 255 0 0 480,0;

// colours in the ranges of CR; pen 2 takes them
CR0,63,0,63,0,63;PC3,63,0,0;SP3;PD10,0;PC2,63,63,63;SP2;PD20,0;
3 224 255 165 0 160,0;2 64 255 255 255 320,0;

// dashes and edges of polygons
IP0,0,300,400;SP2;LT2,10;PU0,0;PD50,0;
2 64 255 0 0 400,0;

SP;PU0,0;RA4,3;SP2;EP;
2 64 255 0 0 64,0;2 64 255 0 0 64,48;2 64 255 0 0 0,48;2 64 255 0 0 0,0;

// the edges of solid fills have the width 0, and the lines of shading 0.35 mm
SP4;PU0,0;RA2,1;
4 0 255 255 0 32,0;4 0 255 255 0 32,16;4 0 255 255 0 0,16;4 0 255 255 0 0,0;

SP3;PU0,0;RA2,1;
3 0 255 165 0 32,0;3 0 255 165 0 32,16;3 0 255 165 0 0,16;3 0 255 165 0 0,0;

SP4;FT10,50;PU0,0;RA60,60;
4 224 255 255 0 960,326;4 224 255 255 0 960,960;4 224 255 255 0 326,960;

// lines of hatching are no denser than half the pen's width
SP4;FT3,1;PU0,0;RA100,100;
4 1280 255 255 0 1600,0;4 1280 255 255 0 1600,640;4 1280 255 255 0 1600,1280;

PW2;SP2;FT3,1;PU0,0;RA10,10;
2 64 255 0 0 160,0;2 64 255 0 0 160,32;2 64 255 0 0 160,64;2 64 255 0 0 160,96;2 64 255 0 0 160,128;";

#[test]
fn pens_of_a_carousel(rt: HostRuntime) -> Result<(), Fail> {
    has_answers(&rt, rt.alloc(), Asked::Pens, PENS, 10)
}
