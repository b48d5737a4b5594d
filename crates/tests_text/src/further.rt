// The items of plots in the two profiles: each mnemonic that they read in different ways.
use crate::item_cases::{Asked, has_answer, has_answers};
use hpgl_text::Profile;
use std::test::Fail;

const NUMBERED: &str = "\
LT1;UL1;WU1;PT1;SR1;SL1;DR1;DV1;LO1;CP1;ES1;TL1;XT1;YT1;PM1;EP1;FP1;FT1;AC1;RA1;RR1;EW1;WG1;AT1;RT1;\
BZ1;BR1;CT1;IR1;CR1;CS1;CA1;SD1;AD1;TR1;SV1;UC1;
Further(LineType, [Number { millionths: 1000000 }])
Further(UserLineType, [Number { millionths: 1000000 }])
Further(WidthUnit, [Number { millionths: 1000000 }])
Further(PenThickness, [Number { millionths: 1000000 }])
Further(RelativeSize, [Number { millionths: 1000000 }])
Further(Slant, [Number { millionths: 1000000 }])
Further(RelativeDirection, [Number { millionths: 1000000 }])
Further(TextPath, [Number { millionths: 1000000 }])
Further(LabelOrigin, [Number { millionths: 1000000 }])
Further(CharacterPlot, [Number { millionths: 1000000 }])
Further(ExtraSpace, [Number { millionths: 1000000 }])
Further(TickLength, [Number { millionths: 1000000 }])
Further(XTick, [Number { millionths: 1000000 }])
Further(YTick, [Number { millionths: 1000000 }])
Further(PolygonMode, [Number { millionths: 1000000 }])
Further(EdgePolygon, [Number { millionths: 1000000 }])
Further(FillPolygon, [Number { millionths: 1000000 }])
Further(FillType, [Number { millionths: 1000000 }])
Further(AnchorCorner, [Number { millionths: 1000000 }])
Further(FillAbsolute, [Number { millionths: 1000000 }])
Further(FillRelative, [Number { millionths: 1000000 }])
Further(EdgeWedge, [Number { millionths: 1000000 }])
Further(FillWedge, [Number { millionths: 1000000 }])
Further(ArcAbsoluteThreePoint, [Number { millionths: 1000000 }])
Further(ArcRelativeThreePoint, [Number { millionths: 1000000 }])
Further(BezierAbsolute, [Number { millionths: 1000000 }])
Further(BezierRelative, [Number { millionths: 1000000 }])
Further(ChordTolerance, [Number { millionths: 1000000 }])
Further(RelativePoints, [Number { millionths: 1000000 }])
Further(ColourRange, [Number { millionths: 1000000 }])
Further(StandardSet, [Number { millionths: 1000000 }])
Further(AlternateSet, [Number { millionths: 1000000 }])
Further(StandardFont, [Number { millionths: 1000000 }])
Further(AlternateFont, [Number { millionths: 1000000 }])
Further(Transparency, [Number { millionths: 1000000 }])
Further(ScreenedVectors, [Number { millionths: 1000000 }])
Further(UserCharacter, [Number { millionths: 1000000 }])

";

#[test]
fn numbered(rt: HostRuntime) -> Result<(), Fail> {
    has_answers(&rt, rt.alloc(), Asked::Bodies(Profile::Full), NUMBERED, 1)
}

// What the core reads is the same in both profiles.
const CORE_INSTRUCTIONS: &str = "\
INDFIPSCROIWSPPWPCPUPDPAPREAERCIAAARSIDIPE;LBa\x03DT;SP:!
Params(Initialize, [])
Params(DefaultValues, [])
Params(InputPoints, [])
Params(Scale, [])
Params(Rotate, [])
Params(InputWindow, [])
Params(SelectPen, [])
Params(PenWidth, [])
Params(PenColour, [])
Params(PenUp, [])
Params(PenDown, [])
Params(PlotAbsolute, [])
Params(PlotRelative, [])
Params(EdgeAbsolute, [])
Params(EdgeRelative, [])
Params(Circle, [])
Params(ArcAbsolute, [])
Params(ArcRelative, [])
Params(CharacterSize, [])
Params(Direction, [])
Coded([])
Label([97])
Terminator(Terminator { byte: 3, is_printed: false })
Bad

";

#[test]
fn core_instructions(rt: HostRuntime) -> Result<(), Fail> {
    let (core, full) = (Asked::Bodies(Profile::Core), Asked::Bodies(Profile::Full));
    has_answers(&rt, rt.alloc(), core, CORE_INSTRUCTIONS, 1)?;
    has_answers(&rt, rt.alloc(), full, CORE_INSTRUCTIONS, 1)
}

const TEXTS_AND_SYMBOLS: &str = "\
PG1:\";\"2;AF;AH;NR;FR;BP;PB;SS:1;SA
Further(EndSheet, [])
Further(EndSheet, [])
Further(EndSheet, [])
Further(EndSheet, [])
Further(EndSheet, [])
Further(BeginPlot, [])
Further(PrintBuffer, [])
Further(SelectStandard, [])
Further(SelectAlternate, [])

// A number of a further instruction that is wrong makes it bad.
LT2:1;FT9999999;PU
Bad
Bad
Params(PenUp, [])

// BL and WD go to the label terminator; BP makes it ETX.
DT$;BLa;$WDb;$PUBP;BLc$\x03LBd\x03BLe;
Terminator(Terminator { byte: 36, is_printed: false })
Kept([97, 59])
Known
Params(PenUp, [])
Further(BeginPlot, [])
Kept([99, 36])
Label([100])
Kept([101, 59])

SM!;SM~SM\"SM;SM SM\x7fSMA1;SM
Symbol(Some(33))
Symbol(Some(126))
Symbol(Some(34))
Symbol(None)
Symbol(None)
Symbol(None)
Symbol(Some(65))
Symbol(None)

";

const TEXTS_IN_THE_CORE: &str = "\
BLa;\x03PU
Skipped
Params(PenUp, [])

COa x;PU0,0;
Skipped
Stray(97)
Stray(120)
Params(PenUp, [Number { millionths: 0 }, Number { millionths: 0 }])

";

// The comments have a line feed in them.
const COMMENTS: &[u8] = b"COa \"PD9,9\" x;PU0,0;CO \n\"a;b\" c;PD20,0;CO;PDCO\"a\";PU;CO\"b;PD";

const BODIES_AROUND_COMMENTS: &str = "\
Known
Params(PenUp, [Number { millionths: 0 }, Number { millionths: 0 }])
Known
Params(PenDown, [Number { millionths: 20000000 }, Number { millionths: 0 }])
Known
Params(PenDown, [])
Known
Params(PenUp, [])
Known
";

// Mode 0 prints the terminator: a comma right after the byte, any blanks, and a number that rounds to 0.
const PRINTED_TERMINATORS: &str = "\
DT$,0;LBa$BLb$WDc$LBd
Terminator(Terminator { byte: 36, is_printed: true })
Label([97, 36])
Kept([98, 36])
Known
Label([100])

// DT, IN, DF and BP have mode 1.
DT$,0DT$LBa$DT$,0IN;LBb\x03DT$,0DF;LBb\x03DT$,0BP;LBb\x03
Terminator(Terminator { byte: 36, is_printed: true })
Terminator(Terminator { byte: 36, is_printed: false })
Label([97])
Terminator(Terminator { byte: 36, is_printed: true })
Params(Initialize, [])
Label([98])
Terminator(Terminator { byte: 36, is_printed: true })
Params(DefaultValues, [])
Label([98])
Terminator(Terminator { byte: 36, is_printed: true })
Further(BeginPlot, [])
Label([98])

DT,,0;DT!, 0.4:\";\";DT!,-0.5x
Terminator(Terminator { byte: 44, is_printed: true })
Terminator(Terminator { byte: 33, is_printed: true })
Terminator(Terminator { byte: 33, is_printed: true })
Stray(120)

DT!,1;DT!,2;DT!,.5;DT!,-.6;DT!,,0;DT! ,0;DT!0;DT!,;DT!,a
Terminator(Terminator { byte: 33, is_printed: false })
Terminator(Terminator { byte: 33, is_printed: false })
Terminator(Terminator { byte: 33, is_printed: false })
Terminator(Terminator { byte: 33, is_printed: false })
Terminator(Terminator { byte: 33, is_printed: false })
Terminator(Terminator { byte: 33, is_printed: false })
Terminator(Terminator { byte: 33, is_printed: false })
Terminator(Terminator { byte: 33, is_printed: false })
Terminator(Terminator { byte: 33, is_printed: false })
Stray(97)

// A bad DT changes nothing.
DT$,0;DT\x1b,0;LBa$DT;,0
Terminator(Terminator { byte: 36, is_printed: true })
Bad
Label([97, 36])
Terminator(Terminator { byte: 3, is_printed: false })
Stray(44)
Stray(48)

";

// The core passes over the mode.
const MODES_IN_THE_CORE: &str = "\
DT$,0;LBa$BLb$PU
Terminator(Terminator { byte: 36, is_printed: false })
Label([97])
Skipped
Params(PenUp, [])

";

// Moves and curves have the numbers before a wrong byte, and no other instruction.
const DAMAGED: &str = "\
PU1?;PD.5,:PAPA2,-;PR3,8388608;BZ4a BR?
DamagedMoves(Up, [Number { millionths: 1000000 }])
DamagedMoves(Down, [Number { millionths: 500000 }])
Params(PlotAbsolute, [])
DamagedMoves(Absolute, [Number { millionths: 2000000 }])
DamagedMoves(Relative, [Number { millionths: 3000000 }])
Further(BezierAbsolute, [Number { millionths: 4000000 }])
Stray(97)
DamagedCurves(true, [])

BZ5?EA1?;PW?
DamagedCurves(false, [Number { millionths: 5000000 }])
Bad
Bad

";

const BAD_IN_THE_CORE: &str = "\
PU1?;PD.5,:PA2,-;PR3,8388608;
Bad
Bad
Bad
Bad

";

#[test]
fn damaged(rt: HostRuntime) -> Result<(), Fail> {
    let (core, full) = (Asked::Bodies(Profile::Core), Asked::Bodies(Profile::Full));
    has_answers(&rt, rt.alloc(), full, DAMAGED, 2)?;
    has_answers(&rt, rt.alloc(), core, BAD_IN_THE_CORE, 1)
}

#[test]
fn printed_terminators(rt: HostRuntime) -> Result<(), Fail> {
    let (core, full) = (Asked::Bodies(Profile::Core), Asked::Bodies(Profile::Full));
    has_answers(&rt, rt.alloc(), full, PRINTED_TERMINATORS, 5)?;
    has_answers(&rt, rt.alloc(), core, MODES_IN_THE_CORE, 1)
}

#[test]
fn texts_and_symbols(rt: HostRuntime) -> Result<(), Fail> {
    let (core, full) = (Asked::Bodies(Profile::Core), Asked::Bodies(Profile::Full));
    has_answers(&rt, rt.alloc(), full, TEXTS_AND_SYMBOLS, 4)?;
    has_answers(&rt, rt.alloc(), core, TEXTS_IN_THE_CORE, 2)?;
    has_answer(&rt, rt.alloc(), full, COMMENTS, BODIES_AROUND_COMMENTS)
}

const WITHOUT_EFFECT: &str = "\
PSNPLAMCPPMTQLSTVSFSASAPECGCGMFNFISBDSIVCMCFCCLMTDRFMGIMKY\
DCDPOAOCODOEOFOGOHOIOKOLOOOPOSOTOW
0 skipped, 46 without effect

DLUFRPZZ
4 skipped, 0 without effect

";

const SKIPPED_IN_THE_CORE: &str = "\
PSNPLATRMCPPMTQLSTVSFSASAPECGCGMSDADSSSACSCAFNFISBDSIVCMCFCCLMTDRFMGIMKY\
DCDPOAOCODOEOFOGOHOIOKOLOOOPOSOTOW
53 skipped, 0 without effect

LT1;UL1;WU1;PT1;SR1;SL1;DR1;DV1;LO1;CP1;ES1;TL1;XT1;YT1;PM1;EP1;FP1;FT1;AC1;RA1;RR1;EW1;WG1;AT1;RT1;\
BZ1;BR1;CT1;IR1;CR1;UC1;
31 skipped, 0 without effect

PG1:\";\"2;AF;AH;NR;FR;BP;PB
7 skipped, 0 without effect

SM!;SM;SM
3 skipped, 0 without effect

";

#[test]
fn without_effect(rt: HostRuntime) -> Result<(), Fail> {
    let (core, full) = (
        Asked::PassedOver(Profile::Core),
        Asked::PassedOver(Profile::Full),
    );
    has_answers(&rt, rt.alloc(), full, WITHOUT_EFFECT, 2)?;
    has_answers(&rt, rt.alloc(), core, SKIPPED_IN_THE_CORE, 4)
}
