// Symbols, ticks, kept texts and refusals of labels, by the text of plots. The strokes that are wanted come from a plotter
// that was written apart from this one. A capital is 1,216 by 1,728 grains.
use crate::full_cases::{Asked, has_answers};
use full_plot::draw_full;
use hpgl_plot::{Page, PlotFault};
use std::alloc::Global;
use std::test::Fail;

const MOVES_SYMBOLS_AND_TICKS: &str = "\
// moved by places
PU100,100;CP2,-1;PD;
5248,-1856 5248,-1856;

// to the margin
PU100,500;LB.\x03LB.\x03CP;PD;
2208,8000 2208,8000;4032,8000 4032,8000;1600,4544 1600,4544;

// margin after lines
PU100,500;CP1,1;CP;PD;
1600,8000 1600,8000;

// buffered label
BL.\x03PU100,100;PB;
2208,1600 2208,1600;

// symbols
SM.;PU10,100;PD20,100;SM;PD30,100;
160,736 160,736;160,1600 320,1600;320,736 320,736;320,1600 480,1600;

// ticks
IP0,0,300,400;TL10,5;PU500,500;XT;YT;
8000,7680 8000,8640;7760,8000 8480,8000;

// tick to the right
IP0,0,300,400;TL10;PU500,500;YT;
8000,8000 8480,8000;";

#[test]
fn moves_symbols_and_ticks(rt: HostRuntime) -> Result<(), Fail> {
    has_answers(&rt, rt.alloc(), Asked::Strokes, MOVES_SYMBOLS_AND_TICKS, 7)
}

const SYMBOLS_AND_TURNED_TICKS: &str = "\
// a symbol after a move, and none after a circle
SM.;PU50,50;CI0,180;
800,-64 800,-64;800,800 800,800;800,800 800,800;

// the most recent BL
BLx.\x03BL.\x03PB;
608,0 608,0;

// after a text without bytes, too, the coordinates are those of the place
SC0,3,0,3;PU1,1;SI.1,.1;BL\x03PB;PR1,1;PD;
10666,10666 10666,10666;

// a symbol is not dashed
LT2,1,1;SML;PU50,100;
192,2464 192,736;192,736 1408,736;

IP0,0,300,400;TL10,5;RO90;PU500,500;XT;YT;
8320,8000 7360,8000;8000,7760 8000,8480;";

#[test]
fn symbols_and_turned_ticks(rt: HostRuntime) -> Result<(), Fail> {
    has_answers(&rt, rt.alloc(), Asked::Strokes, SYMBOLS_AND_TURNED_TICKS, 5)
}

// A BL with a text of 100,000 bytes that print nothing, and 42 times PB.
fn texts_too_long(alloc: Global) -> Result<Vec<u8>, Fail> {
    let mut text = Vec::new(alloc);
    text.extend_from_slice(b"BL")?;
    text.resize(100_002, 1)?;
    text.push(3)?;
    for _ in 0..42 {
        text.extend_from_slice(b"PB;")?;
    }
    Ok(text)
}

const TEXTS_OFF_RANGE: &str = "\
DI1,1;PU8388000,8388000;LBLLLLLLLLLL\x03
OffRange { at: 24 }

// a symbol of pen 0, too
SP0;SI10,10;SM*;PU8388607,0;
OffRange { at: 16 }

// the next line
PU0,-8388600;CP;
OffRange { at: 13 }";

#[test]
fn texts_off_range(rt: HostRuntime) -> Result<(), Fail> {
    has_answers(&rt, rt.alloc(), Asked::Strokes, TEXTS_OFF_RANGE, 3)
}

#[test]
fn texts_printed_too_often(rt: HostRuntime) -> Result<(), Fail> {
    let page = Page::new(1000, 1000, 0, 0)?;
    let text = texts_too_long(rt.alloc())?;
    let fault = draw_full(rt.alloc(), text.as_slice(), &page).err();
    assert_eq!(rt; fault, Some(PlotFault::TooManyStrokes { at: 100_126 }));
    Ok(())
}
