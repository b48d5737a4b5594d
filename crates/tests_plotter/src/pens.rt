// Pens whose widths and colours the user says, whatever the plot sets. Pen 2 is 64 grains wide, pen 3 orange, pen 4
// both 320 grains wide and navy, and pen 5 has the width 0.
use crate::core_cases::{Asked, has_answers};
use crate::core_told::square;
use hpgl_plot::{Carousel, Colour, Drawn, PlotFault, draw_plot_with};
use std::alloc::Global;
use std::test::Fail;

const ORANGE: Colour = Colour {
    red: 255,
    green: 165,
    blue: 0,
};

const NAVY: Colour = Colour {
    red: 0,
    green: 0,
    blue: 128,
};

fn carousel() -> Carousel {
    Carousel::empty()
        .with_width(2, 64)
        .with_colour(3, ORANGE)
        .with_width(4, 320)
        .with_colour(4, NAVY)
        .with_width(5, 0)
}

fn drawn(alloc: Global, text: &[u8]) -> Result<Result<Drawn, PlotFault>, Fail> {
    Ok(draw_plot_with(alloc, text, &square()?, &carousel()))
}

// The strokes with these pens, a line each: pen, width, red, green and blue, and the last end in x.
pub fn penned_drawing(alloc: Global, text: &[u8]) -> Result<String, Fail> {
    let mut lines = String::new(alloc);
    for stroke in drawn(alloc, text)??.strokes.as_slice() {
        let (pen, width, colour, x) = (stroke.pen, stroke.width, stroke.colour, stroke.bx);
        let (red, green, blue) = (colour.red, colour.green, colour.blue);
        write!(lines, "{pen} {width} {red} {green} {blue}: {x}\n")?;
    }
    Ok(lines)
}

const PENS: &str = "\
// PW before and after, for all pens and for one; pen 1 takes its widths.
PW2;SP2;PD1,0;PW1,2;PD2,0;SP1;PD3,0;PW0.4;PD4,0;
2 64 255 0 0: 16
2 64 255 0 0: 32
1 1280 0 0 0: 48
1 256 0 0 0: 64

// PC before and after; pen 2 takes its colours.
PC3,1,2,3;SP3;PD1,0;PC2,1,2,3;SP2;PD2,0;PC;PC3;SP3;PD3,0;
3 224 255 165 0: 16
2 64 1 2 3: 32
3 224 255 165 0: 48

// IN and DF.
IN;SP2;PD1,0;IN;SP2;PD2,0;DF;PD3,0;SP3;PD4,0;SP1;PD5,0;
2 64 255 0 0: 16
2 64 255 0 0: 32
2 64 255 0 0: 48
3 224 255 165 0: 64
1 224 0 0 0: 80

// Both, a width of 0, and pen 0, which draws nothing.
PW5;PC4,9,9,9;SP4;PD1,0;SP5;PD2,0;SP0;PD3,0;
4 320 0 0 128: 16
5 0 0 0 255: 32

// Rectangles, circles, and polylines that select pens.
SP2;EA1,1;PU2,0;SP4;CI1,180;PE7:e?c_;
2 64 255 0 0: 16
2 64 255 0 0: 16
2 64 255 0 0: 0
2 64 255 0 0: 0
4 320 0 0 128: 16
4 320 0 0 128: 48
3 224 255 165 0: 1056
";

#[test]
fn pens_of_a_carousel(rt: HostRuntime) -> Result<(), Fail> {
    has_answers(&rt, rt.alloc(), Asked::Pens, PENS, 5)
}
