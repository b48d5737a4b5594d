// Sets of characters, fonts and the terminator's mode, by the text of plots. The strokes that are wanted come from a plotter
// that was written apart from this one.
use crate::full_cases::{Asked, has_answers};
use std::test::Fail;

const LETTERS: &str = "\
// a small letter, a capital, and a letter below the line
PU0,0;LBl\x03PU0,500;LBLj\x03
304,1728 608,1728;608,1728 608,288;608,288 912,0;0,9728 0,8000;0,8000 1216,8000;2432,9152 2736,9152;2736,9152 2736,7712;2736,7712 2432,7424;2432,7424 1824,7424;2736,9728 2736,9728;

// a set of HP-GL
CS33;PU0,0;LB|\x03
304,0 0,288;0,288 0,864;0,864 304,1152;304,1152 912,1152;912,1152 1216,864;1216,864 1216,288;1216,288 912,0;912,0 304,0;304,1728 304,1728;912,1728 912,1728;

// the alternate set by SO, until SI
CA33;PU0,0;LB.\x0e|\x0f|\x03
608,0 608,0;2128,0 1824,288;1824,288 1824,864;1824,864 2128,1152;2128,1152 2736,1152;2736,1152 3040,864;3040,864 3040,288;3040,288 2736,0;2736,0 2128,0;2128,1728 2128,1728;2736,1728 2736,1728;4256,1728 4256,0;

// SO stays after its label, until SS
CA33;PU0,0;LB\x0e\x03PU0,0;LB|\x03SS;PU0,0;LB|\x03
304,0 0,288;0,288 0,864;0,864 304,1152;304,1152 912,1152;912,1152 1216,864;1216,864 1216,288;1216,288 912,0;912,0 304,0;304,1728 304,1728;912,1728 912,1728;608,1728 608,0;

// SO in a text of PB stays, too
CA33;BL\x0e\x03PU0,0;PB;LB|\x03
304,0 0,288;0,288 0,864;0,864 304,1152;304,1152 912,1152;912,1152 1216,864;1216,864 1216,288;1216,288 912,0;912,0 304,0;304,1728 304,1728;912,1728 912,1728;

// selected by SA
CA33;SA;PU0,0;LB|\x03
304,0 0,288;0,288 0,864;0,864 304,1152;304,1152 912,1152;912,1152 1216,864;1216,864 1216,288;1216,288 912,0;912,0 304,0;304,1728 304,1728;912,1728 912,1728;

// a set of HP-GL/2
SD1,39;PU0,0;LB|\x03
304,0 0,288;0,288 0,864;0,864 304,1152;304,1152 912,1152;912,1152 1216,864;1216,864 1216,288;1216,288 912,0;912,0 304,0;304,1728 304,1728;912,1728 912,1728;

// DF, IN and BP
CS33;DF;PU0,0;LB|\x03CS33;IN;LB|\x03CS33;BP;LB|\x03
608,1728 608,0;608,1728 608,0;608,1728 608,0;";

#[test]
fn letters(rt: HostRuntime) -> Result<(), Fail> {
    has_answers(&rt, rt.alloc(), Asked::Strokes, LETTERS, 8)
}

const COLUMNS: &str = "\
// a column back, and the next of eight
PU0,0;LB.\x08.\x03PD;PU0,100;LB.\x09.\x03PD;
608,0 608,0;608,0 608,0;1824,0 1824,0;608,1600 608,1600;15200,1600 15200,1600;16416,1600 16416,1600;

// columns before the first
PU500,500;LB\x08\x08.\x09.\x03PD;
4960,8000 4960,8000;8608,8000 8608,8000;9824,8000 9824,8000;

// a label's origin counts the greatest column
PU500,500;LO4;LB.\x08.\x03LO5;PU500,500;LB\x08.\x03
8000,8000 8000,8000;8000,8000 8000,8000;6176,7136 6176,7136;";

#[test]
fn columns(rt: HostRuntime) -> Result<(), Fail> {
    has_answers(&rt, rt.alloc(), Asked::Strokes, COLUMNS, 3)
}

const SIZES: &str = "\
// height, pitch and spacing
SD4,23;PU0,0;LBL\x03SD;SD3,18;PU0,0;LB..\x03SD;SD2,1,4,23;PU0,0;LBL\x03
0,3456 0,0;0,0 1216,0;304,0 304,0;1216,0 1216,0;0,3456 0,0;0,0 1980,0;

// SI's numbers come first, until SI without numbers
SI.4,.5;SD4,23;PU0,0;LBL\x03SI;PU0,0;LBL\x03
0,3200 0,0;0,0 2560,0;0,3456 0,0;0,0 1216,0;

// the alternate font
AD4,23;SA;PU0,0;LBL\x03SS;PU0,0;LBL\x03
0,3456 0,0;0,0 1216,0;0,1728 0,0;0,0 1216,0;

// the size at the beginning of a text, and after it
AD4,23,3,18;PU0,0;LB.\x0e.\x03CP;PD;
608,0 608,0;2432,0 2432,0;0,-6912 0,-6912;

// DF
SD4,23;DF;PU0,0;LBL\x03
0,1728 0,0;0,0 1216,0;

// SR after SI, and SI after SR
SD4,23;SI.4,.5;SR10,10;SI;PU0,0;LBL\x03
0,3456 0,0;0,0 1216,0;";

#[test]
fn sizes_of_fonts(rt: HostRuntime) -> Result<(), Fail> {
    has_answers(&rt, rt.alloc(), Asked::Strokes, SIZES, 6)
}

const SYMBOLS: &str = "\
SMl;PU500,500;
7696,8864 8000,8864;8000,8864 8000,7424;8000,7424 8304,7136;

// by the set when it is drawn
SM|;CS33;PU500,500;
7696,7136 7392,7424;7392,7424 7392,8000;7392,8000 7696,8288;7696,8288 8304,8288;8304,8288 8608,8000;8608,8000 8608,7424;8608,7424 8304,7136;8304,7136 7696,7136;7696,8864 7696,8864;8304,8864 8304,8864;

// in the size of the font
SD4,23;SML;PU500,500;
7392,9728 7392,6272;7392,6272 8608,6272;";

#[test]
fn symbols_by_the_set(rt: HostRuntime) -> Result<(), Fail> {
    has_answers(&rt, rt.alloc(), Asked::Strokes, SYMBOLS, 3)
}

const TERMINATORS: &str = "\
// printed in mode 0
DT$,0;PU0,0;LB.$PD;
608,0 608,0;3040,1440 1824,1440;1824,1440 1824,864;1824,864 3040,864;3040,864 3040,288;3040,288 1824,288;2432,1728 2432,0;3648,0 3648,0;

// and not in mode 1
DT$,1;PU0,0;LB.$PD;
608,0 608,0;1824,0 1824,0;

// a CR
DT\x0d,0;PU100,500;LB..\x0dPD;
2208,8000 2208,8000;4032,8000 4032,8000;1600,8000 1600,8000;

// BL keeps what its own mode says
DT$,0;BL.$DT$,1;PU0,0;PB;PD;
608,0 608,0;3040,1440 1824,1440;1824,1440 1824,864;1824,864 3040,864;3040,864 3040,288;3040,288 1824,288;2432,1728 2432,0;3648,0 3648,0;";

#[test]
fn printed_terminators(rt: HostRuntime) -> Result<(), Fail> {
    has_answers(&rt, rt.alloc(), Asked::Strokes, TERMINATORS, 4)
}

const UTF_8: &str = "\
PU0,0;LBö\x03
304,0 0,288;0,288 0,864;0,864 304,1152;304,1152 912,1152;912,1152 1216,864;1216,864 1216,288;1216,288 912,0;912,0 304,0;304,1728 304,1728;912,1728 912,1728;

// no character, and one that the font lacks
PU0,0;LB.\u{85}.一\x03
608,0 608,0;2432,0 2432,0;3648,0 3648,1728;3648,1728 4864,1728;4864,1728 4864,0;4864,0 3648,0;

// the plot chooses fonts alone
AD4,23,1,39;PU0,0;LB\x0e|\x03LB|\x03
608,1728 608,0;2432,3456 2432,0;";

#[test]
fn utf_8(rt: HostRuntime) -> Result<(), Fail> {
    has_answers(&rt, rt.alloc(), Asked::Utf8, UTF_8, 3)
}

const NOTES: &str = "\
// sets and fonts that are not known
SD1,9999;SD4;CS5;SD4,0;CA40;
0 skipped SD;9 bad SD;13 skipped CS;17 bad SD;23 skipped CA;

// one note on an item
SD1,14,1,9999;AD1,9999,3,0;SD7,1,5;CA33,1;SS;SA;
0 skipped SD;14 bad AD;27 bad SD;

// in polygon mode, too
PM;CS5;SD3,2000;SS;PM2;
3 skipped CS;7 bad SD;";

#[test]
fn notes_on_sets_and_fonts(rt: HostRuntime) -> Result<(), Fail> {
    has_answers(&rt, rt.alloc(), Asked::Notes, NOTES, 3)
}

const POSTURES_AND_WEIGHTS: &str = "\
// italic, with SL, and by SI
SD5,2;PU0,0;LBL\x03
346,1728 0,0 224;0,0 1216,0 224;

SD5,1;SL-.2;SI.2,.2;PU0,0;LBL\x03
0,1280 0,0 224;0,0 1280,0 224;

// bold, of SI's size
SD6,3;SI.2,.2;PU0,0;LBL\x03
0,1280 0,0 448;0,0 1280,0 448;

// by the usual size, and italic as well
SD6,3;PU0,0;LBL\x03
0,1728 0,0 448;0,0 1216,0 448;

SD6,3;SD5,1;SI.2,.2;PU0,0;LBL\x03
256,1280 0,0 448;0,0 1280,0 448;

// no wider than a pen may be
PW15;SD6,7;SI.2,.2;PU0,0;LBL\x03
0,1280 0,0 12800;0,0 1280,0 12800;

// a text has the font of its begin
AD6,5;SI.2,.2;PU0,0;LB.\x0e.\x03LB.\x03
640,0 640,0 224;2560,0 2560,0 224;4480,0 4480,0 448;

// symbols are bold, lines and ticks are not
SD6,3;SI.2,.2;IP0,0,300,400;SM.;PD50,0;SM;XT;
0,0 800,0 224;800,-640 800,-640 448;800,-32 800,32 224;

// pen 0 draws no letter, and none is out of range
SD6,3;SI.2,.2;SP0;PU0,0;LBL\x03SP1;PD0,0;
1920,0 0,0 224;

// not italic and not bold any more
SD5,1,6,3;SD;SI.2,.2;PU0,0;LBL\x03
0,1280 0,0 224;0,0 1280,0 224;

SD5,1,6,3;DF;SI.2,.2;PU0,0;LBL\x03
0,1280 0,0 224;0,0 1280,0 224;";

#[test]
fn postures_and_weights(rt: HostRuntime) -> Result<(), Fail> {
    has_answers(&rt, rt.alloc(), Asked::Fills, POSTURES_AND_WEIGHTS, 11)
}
