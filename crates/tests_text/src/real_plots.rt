// Plots that gnuplot and plotutils wrote: what is noted in them. The notes that are wanted come from
// a reader of plots that was written apart from this one.
use crate::texts::has_text;
use hpgl_text::{Body, Item, Part, Polyline, lex};
use std::alloc::Global;
use std::process::Abort;
use std::test::Fail;

// The notes of a plot: each item that is not known, bad, stray or without its end.
fn notes_of(alloc: Global, plot: &[u8]) -> Result<String, Fail> {
    let program = lex(alloc, plot)?;
    let mut notes = String::new(alloc);
    for item in program.items() {
        let at = item.at;
        let first = char::from(item.code[0]);
        let second = char::from(item.code[1]);
        let note = match why(item) {
            Some("stray") => format!(in alloc; "{at} stray, ")?,
            Some(why) => format!(in alloc; "{at} {first}{second} {why}, ")?,
            None => continue,
        };
        notes.push_str(note.as_str())?;
    }
    Ok(notes)
}

// Fails unless these are the notes of a plot.
fn has_notes_at(rt: &impl Abort, alloc: Global, plot: &[u8], wanted: &str) -> Result<(), Fail> {
    let notes = notes_of(alloc, plot)?;
    has_text(rt, notes.as_str(), wanted);
    Ok(())
}

// Why an item is noted, if it is.
fn why(item: &Item<'_>) -> Option<&'static str> {
    match &item.body {
        Body::Skipped => Some("skipped"),
        Body::Bad | Body::DamagedMoves(_, _) | Body::DamagedCurves(_, _) => Some("bad"),
        Body::Stray(_) => Some("stray"),
        Body::Coded(polyline) if has_notes(polyline) => Some("noted"),
        Body::Further(_, _) | Body::Kept(_) | Body::Symbol(_) | Body::Known => Some("further"),
        Body::Escape(_) | Body::FormFeed => Some("further"),
        Body::Params(_, _) | Body::Label(_) | Body::Coded(_) | Body::Terminator(_) => {
            if item.unended { Some("unended") } else { None }
        }
    }
}

// Whether something in a PE is noted.
fn has_notes(polyline: &Polyline<'_>) -> bool {
    for entry in polyline.entries() {
        if matches!(&entry.what, Part::Bad | Part::Stray(_)) {
            return true;
        }
    }
    false
}

// `plot [-5:5] sin(x) with linespoints` of gnuplot 5.4 by its terminal `hpgl 6 eject`, with 4 samples.
const GNUPLOT_PEN_PLOTTER: &[u8] = b"\
    \x1b.Y\n\x1b.I81;;17:\x1b.N;19:\x1b.M500:\nIN;\nSC0,10000,0,7500;\nSR0.200000,0.400000;\nDI0,1;\n\
    DI1,0;\nPU;\nSP1;\nPU;PA75,120;\nPD;PA75,227;\nPU;PA75,7439;\nPD;PA75,7332;\n\
    PU;PA45,45;\nLB-5\x03\nPU;PA4992,120;\nPD;PA4992,227;\nPU;PA4992,7439;\nPD;PA4992,7332;\n\
    PU;PA4962,45;\nLB 0\x03\nPU;PA9909,120;\nPD;PA9909,227;\nPU;PA9909,7439;\n\
    PD;PA9909,7332;\nPU;PA9879,45;\nLB 5\x03\nDI1,0;\nPU;PA75,7439;\nPD;PA75,120;\n\
    PA9909,120;\nPU;PA9909,7439;\nPU;PA75,7439;\nPU;PA4992,5603;\nLBa;b\x03\nPU;\nSP3;\n\
    PU;PA75,7305;\nPD;PA75,7305;\nPA3353,120;\nPA6631,7439;\nPA9909,254;\nPU;PA22,7305;\n\
    PD;PA22,7305;\nPA128,7305;\nPU;PA75,7252;\nPD;PA75,7252;\nPA75,7358;\nPU;PA3300,120;\n\
    PD;PA3300,120;\nPA3406,120;\nPU;PA3353,67;\nPD;PA3353,67;\nPA3353,173;\n\
    PU;PA6578,7439;\nPD;PA6578,7439;\nPA6684,7439;\nPU;PA6631,7386;\nPD;PA6631,7386;\n\
    PA6631,7492;\nPU;PA9856,254;\nPD;PA9856,254;\nPA9962,254;\nPU;PA9909,201;\n\
    PD;PA9909,201;\nPA9909,307;\nPU;\nSP1;\nPU;PA75,7439;\nPD;PA75,120;\nPA9909,120;\n\
    PU;PA9909,7439;\nPU;PA75,7439;\nPUSP0;PG;\x1b.Z\n";

#[test]
fn gnuplot_pen_plotter(rt: HostRuntime) -> Result<(), Fail> {
    has_notes_at(
        &rt,
        rt.alloc(),
        GNUPLOT_PEN_PLOTTER,
        "\
51 SR skipped, 923 PG skipped, ",
    )
}

// `plot [-5:5] cos(x) with filledcurves y1=0` of gnuplot 5.4 by its terminal `pcl5`, with 3 samples.
const GNUPLOT_PCL5: &[u8] = b"\
    \x1bE\x1b&l1X\x1b&l1O\n\
    \x1b%0B\x1b%0BINNP8SP1SD1,277,2,1,4,12.0,5,0,6,0,7,4148;SS;\n\
    UL2,8,8,9,8,8,9,8,8,9,8,8,9;\n\
    UL3,6,6,6,7,6,6,6,7,6,6,6,7,6,6,6,7;\n\
    UL4,5,5,5,10,5,5,5,10,5,5,5,10;\n\
    UL5,5,5,5,5,5,8,5,5,5,5,5,8,5,5,5,5,5,9;\n\
    UL6,8,8,0,9,8,8,0,9,8,8,0,9;\n\
    UL7,4,4,4,4,0,4,4,4,4,4,0,4,4,4,4,4,0,4;\nDI0,1DI1,0PU;\n\
    SP1;PC1;\nPW0.25;\nLTLT;PU;\nSP1;PC1;\nPU;\nSP1;PC1;\n\
    SD1,277,2,1,4,20.0,5,0,6,0,7,4148;SS;\nLO2PE<=WZ\xc1_H\xc0\n;\n\
    LBLabel\x03\nSD1,277,2,1,4,12.0,5,0,6,0,7,4148;SS;\nPU;\nSP1;PC1;\n\
    PW0.25;\nLTLT;PU;\nSP1;PC1;\nPU;\nSP1;PC1;\nPW0.25;\n\
    LTLT;PC1,148,0,211;\nPE<=o\xc7?\xc6\n;\nPD;PM0;PE\xbf\xbf\ngQ\xc1K[\xc2\neQ\xc1L[\xc2\n\xbf\xbf\n\
    Nd\xc3\xbf\n;\nPM2;FT1;FP;FT;\nPU;\nSP1;PC1;\nPW0.50;\nLTLT;PU;\n\
    SP1;PC1;\nPU;\nSP1;PC1;\nPW0.25;\nLTLT;PU;\nSP1;PC1;\n\x1b%1A\x1b&l0H\n\
    \x1b%0A\x1bE\n";

#[test]
fn gnuplot_pcl5(rt: HostRuntime) -> Result<(), Fail> {
    has_notes_at(
        &rt,
        rt.alloc(),
        GNUPLOT_PCL5,
        "\
2 stray, 3 stray, 4 stray, 5 stray, 6 stray, 7 stray, 8 stray, 9 stray, 10 stray, \
11 stray, 23 NP skipped, 29 SD skipped, 63 SS skipped, 67 UL skipped, 96 UL skipped, \
133 UL skipped, 165 UL skipped, 206 UL skipped, 235 UL skipped, 307 LT skipped, \
309 LT skipped, 338 SD skipped, 372 SS skipped, 376 LO skipped, 401 SD skipped, \
435 SS skipped, 460 LT skipped, 462 LT skipped, 499 LT skipped, 501 LT skipped, \
533 PM skipped, 566 PM skipped, 570 FT skipped, 574 FP skipped, 577 FT skipped, \
602 LT skipped, 604 LT skipped, 641 LT skipped, 643 LT skipped, 663 stray, 664 stray, \
665 stray, 666 stray, 667 stray, ",
    )
}

// A shaded box, an arrow, a circle, a dashed line and a text by `pic2plot -T hpgl -F Univers` of
// plotutils 2.6, in HP-GL/2.
const PIC2PLOT: &[u8] = b"\
    BP;IN;PS10668;IP0,0,8128,8128;SC0,10000,0,10000;WU1;SP1;TR0;LT;LA1,1,2,2;LA3,10;\
    PW0.0832;PA3813,4688;FT10,49.8;RA4438,5313;EA4438,5313;PA4438,5000;PM0;PD;\
    PA5063,5000;PU;PM2;EP;PA4938,5031;PM0;PD;PA5063,5000,4938,4969,4938,5031;PM2;PU;FT2;\
    FP;EP;PA5313,5000;CI250;UL8,50.000,50.000;LT8,0.8839;PA5563,5000;PM0;PD;PA6188,5000;\
    PU;PM2;EP;DR1.736,0.000;SD1,277,2,1,3,8.000,4,18.000,5,0,6,0,7,4148;\
    AD1,14,2,1,3,8.000,4,18.000,5,0,6,0,7,4148;SR0.868,1.215;PA6033,4936;LBtext\x03;PA0,0;\
    SP0;PG0;\n";

#[test]
fn pic2plot(rt: HostRuntime) -> Result<(), Fail> {
    has_notes_at(
        &rt,
        rt.alloc(),
        PIC2PLOT,
        "\
0 BP skipped, 6 PS skipped, 48 WU skipped, 56 TR skipped, 60 LT skipped, 63 LA skipped, \
73 LA skipped, 101 FT skipped, 111 RA skipped, 147 PM skipped, 169 PM skipped, \
173 EP skipped, 188 PM skipped, 227 PM skipped, 234 FT skipped, 238 FP skipped, \
241 EP skipped, 262 UL skipped, 280 LT skipped, 303 PM skipped, 325 PM skipped, \
329 EP skipped, 332 DR skipped, 346 SD skipped, 390 AD skipped, 433 SR skipped, \
477 PG skipped, ",
    )
}
