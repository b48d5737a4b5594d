// What is noted on plots in the profile full, and how many sheets they have.
use crate::full_cases::{Asked, has_answers};
use full_notes::FullNotes;
use full_plot::draw_full;
use hpgl_plot::{NoteKind, Page};
use std::alloc::{AllocError, Global};
use std::test::Fail;

// The notes on a plot, or "none". Drawing it counts as many.
pub fn notes_on(alloc: Global, text: &[u8]) -> Result<String, Fail> {
    let drawn = draw_full(alloc, text, &Page::new(1000, 1000, 0, 0)?)?;
    let mut list = String::new(alloc);
    let mut count: u64 = 0;
    for note in FullNotes::new(text, drawn.escape_notes.as_slice()) {
        let (at, [first, second]) = (note.at, note.code);
        let letters = letters_of(alloc, first, second)?;
        let line = match note.kind {
            NoteKind::Skipped => format!(in alloc; "{at} skipped {letters};")?,
            NoteKind::Bad => format!(in alloc; "{at} bad {letters};")?,
            NoteKind::Stray(byte) => format!(in alloc; "{at} stray {byte};")?,
            NoteKind::Axis => format!(in alloc; "{at} axis {letters};")?,
            NoteKind::Open => format!(in alloc; "{at} open {letters};")?,
        };
        list.push_str(line.as_str())?;
        count = count.wrapping_add(1);
    }
    if drawn.notes as u64 != count {
        return Err("another count of notes".into());
    }
    if list.is_empty() {
        list.push_str("none")?;
    }
    Ok(list)
}

// The letters of an instruction, or of an escape.
fn letters_of(alloc: Global, first: u8, second: u8) -> Result<String, AllocError> {
    if first == 0x1b && second == 0 {
        return format!(in alloc; "ESC");
    }
    let (first, second) = (first as char, second as char);
    format!(in alloc; "{first}{second}")
}

const NOTES_ON_FURTHER_INSTRUCTIONS: &str = "\
LT9;LT2,0;LT2,1,2;UL0,1;UL1,0,0;UL1,1,-1;
0 bad LT;4 bad LT;10 bad LT;18 bad UL;24 bad UL;32 bad UL;

LT2,10,5;UL9;LT;LT99;UL;UL1,5;LT2,1,1;
0 bad LT;9 bad UL;

LT!;LTx;
0 bad LT;6 stray 120;

PG;AF;NR1;BP5,6;PS1;NP8;COa x;LA1,4;
none

PM;FT3;EW1,2,3;SM*;BLx\x03PB;ZZ1;
7 bad EW;23 bad PB;26 skipped ZZ;

PM2;PM0;EA1,1;LBA\x03FP;PM1;PM2;EP;PM1;PM3;FP2;
0 bad PM;8 bad EA;14 bad LB;18 bad FP;32 bad PM;36 bad PM;40 bad FP;

FT21;FT3,-1;FT10,101;FT5;FT4,0,370;AC1;RA1;WG1,2;WG1,2,3,0;CT2;
0 skipped FT;5 bad FT;12 bad FT;21 bad FT;35 bad AC;39 bad RA;43 bad WG;49 bad WG;59 bad CT;

CI1,0;CT1;CI1,0;AA1,2,3,0;AT1,2,3,4,0;EW1,2,3,0;DF;AR1,2,3,0;
0 bad CI;51 bad AR;

AT1,2,3;AT1,2,3,4,0.4;AT1,2,3,4,200;AT1,2,3,4,5,6;RT1,2,3,4,180;
0 bad AT;8 bad AT;22 bad AT;

BZ;BZ1,2,3,4,5;BR1,2,3,4,5,6;BR1,2,3,4,5,6,7;BZ1,2,3,4,5,6,1,2,3,4,5,6;
0 bad BZ;3 bad BZ;29 bad BR;";

#[test]
fn notes_on_further_instructions(rt: HostRuntime) -> Result<(), Fail> {
    has_answers(
        &rt,
        rt.alloc(),
        Asked::Notes,
        NOTES_ON_FURTHER_INSTRUCTIONS,
        10,
    )
}

const NOTES_ON_WIDTHS: &str = "\
// PW in millimetres, and in percent after WU1
WU1;PW50;PW100,255;PW;PW0,1,2;
none

PW50;PW20,1;
0 bad PW;

WU1;PW101;PW1,256;PW-1;
4 bad PW;10 bad PW;18 bad PW;

// WU0, IN and BP restore millimetres, and nothing else does
WU1;WU0;PW50;WU1;WU;PW50;
8 bad PW;20 bad PW;

WU1;IN;PW50;WU1;IN5;PW50;
7 bad PW;20 bad PW;

WU1;BP;PW50;WU1;BP5,1;PW50;
7 bad PW;22 bad PW;

WU1;DF;PW50;IP;SP2;PT1;PW2,3;PG;PW50;
none

// wrong numbers set nothing
WU2;WU-1;PW50;
0 bad WU;4 bad WU;9 bad PW;

WU1;WU2;PW50;WU!;PW50;
4 bad WU;13 bad WU;

WU;WU0,5;WU1,2;PW50;
none

PT;PT.5;PT20;PT21;PT-1;PT!;
13 bad PT;18 bad PT;23 bad PT;";

#[test]
fn notes_on_widths(rt: HostRuntime) -> Result<(), Fail> {
    has_answers(&rt, rt.alloc(), Asked::Notes, NOTES_ON_WIDTHS, 11)
}

const NOTES_ON_ITEMS_OF_CORE: &str = "\
ZZ1;PA1;PE\x00!;DI5,3;DT\n;#
0 skipped ZZ;4 bad PA;10 stray 0;11 stray 33;19 bad DT;23 stray 35;

// notes of several items, and the last one after a PE
UF;LT9;PE<
0 skipped UF;3 bad LT;7 open PE;

SP256;LBx
0 bad SP;6 open LB;

// colours in the ranges of CR, and without
PC1,300,0,0;CR0,9,0,9,0,9;PC1,300,0,0;PC256,0,0,0;IN;PC1,300,0,0;
0 bad PC;38 bad PC;53 bad PC;

DI0,0;DR0,0;SL1001;LO10;CP1;TL1001;XT1;YT;PB;SM.;
0 bad DI;6 bad DR;12 bad SL;19 bad LO;24 bad CP;28 bad TL;";

#[test]
fn notes_on_items_of_core(rt: HostRuntime) -> Result<(), Fail> {
    has_answers(&rt, rt.alloc(), Asked::Notes, NOTES_ON_ITEMS_OF_CORE, 5)
}

const SHEETS_WITH_STROKES: &str = "\n0

PG;PG;
0

PU0,0;PD10,0;
1

PU0,0;PD10,0;PG;PG;
1

PG;PU0,0;PD10,0;PG;PG;PD20,0;
2

SP0;PD10,0;PG;SP1;PD20,0;
1

PD10,0;PG;PD20,0;PG;PD30,0;PG;BP;
3";

#[test]
fn sheets_with_strokes(rt: HostRuntime) -> Result<(), Fail> {
    has_answers(&rt, rt.alloc(), Asked::Sheets, SHEETS_WITH_STROKES, 7)
}
