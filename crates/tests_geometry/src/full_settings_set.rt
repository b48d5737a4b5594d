// What numbers of the further instructions ask for, by their text.
ghost use Rattle.full_settings.specs.ColourRanges.{IsColourRanges};

use crate::cases::{Asked, has_answers};
use crate::letters_set::setting_of;
use full_settings::{
    ColourRanges, character_move, colour_in, colour_ranges, points_of, relative_points,
    tick_setting,
};
use hpgl_text::{Body, Further, Items, Profile};
use std::alloc::{AllocError, Global};
use std::test::Fail;

// What each instruction of a text asks for, a line each.
pub fn further_settings_of(alloc: Global, text: &[u8]) -> Result<String, Fail> {
    let mut lines = String::new(alloc);
    for item in Items::by_profile(Profile::Full, text) {
        lines.push_str(line(alloc, &item.body)?.as_str())?;
    }
    Ok(lines)
}

fn line(alloc: Global, body: &Body<'_>) -> Result<String, AllocError> {
    match body {
        Body::Further(Further::TickLength, numbers) => {
            let (list, count) = numbers.leading();
            let ticks = tick_setting(&list[..count]);
            format!(in alloc; "{ticks:?}\n")
        }
        Body::Further(Further::CharacterPlot, numbers) => {
            let (list, count) = numbers.leading();
            let asked = character_move(&list[..count]);
            format!(in alloc; "{asked:?}\n")
        }
        Body::Further(Further::RelativePoints, numbers) => {
            let (list, count) = numbers.leading();
            let points = relative_points(&list[..count]);
            format!(in alloc; "{points:?}\n")
        }
        Body::Further(Further::ColourRange, numbers) => {
            let (list, count) = numbers.leading();
            let ranges = colour_ranges(&list[..count]);
            format!(in alloc; "{ranges:?}\n")
        }
        body => {
            let setting = setting_of(body);
            format!(in alloc; "{setting:?}\n")
        }
    }
}

const LETTER_SETTINGS: &str = "\
SR;SR0.5,-1000;SR1000,.000001,7
Some(RelativeSize(Pair { x: 750000, y: 1500000 }))
Some(RelativeSize(Pair { x: 500000, y: -1000000000 }))
Some(RelativeSize(Pair { x: 1000000000, y: 1 }))

SR1;SR0,1;SR1,0;SR1000.000001,1;SR1,-1000.000001
None
None
None
None
None

SL;SL1000;SL-1000,2;SL1000.000001;SL-1000.000001
Some(Slant(0))
Some(Slant(1000000000))
Some(Slant(-1000000000))
None
None

DI;DI3,4;DI0,-.000001;DI-1,0,5;DI1;DI0,0
Some(Direction(Pair { x: 1000000, y: 0 }))
Some(Direction(Pair { x: 3000000, y: 4000000 }))
Some(Direction(Pair { x: 0, y: -1 }))
Some(Direction(Pair { x: -1000000, y: 0 }))
None
None

DR;DR3,4;DR0,-.000001;DR-1,0,5;DR1;DR0,0
Some(RelativeDirection(Pair { x: 1000000, y: 0 }))
Some(RelativeDirection(Pair { x: 3000000, y: 4000000 }))
Some(RelativeDirection(Pair { x: 0, y: -1 }))
Some(RelativeDirection(Pair { x: -1000000, y: 0 }))
None
None

ES;ES100;ES-100,.5,3;ES0,100;ES100.000001;ES0,-100.000001
Some(Step(Pair { x: 1000000, y: 1000000 }))
Some(Step(Pair { x: 101000000, y: 1000000 }))
Some(Step(Pair { x: -99000000, y: 1500000 }))
Some(Step(Pair { x: 1000000, y: 101000000 }))
None
None

LO;LO.5;LO9;LO10.5;LO19,4;LO21
Some(Origin(1))
Some(Origin(1))
Some(Origin(9))
Some(Origin(11))
Some(Origin(19))
Some(Origin(1))

LO.49;LO10;LO20;LO22;LO-1
None
None
None
None
None

DV;DV1;DV2,0;DV3,1,9;DV0,.5
Some(Path(Right, Normal))
Some(Path(Down, Normal))
Some(Path(Left, Normal))
Some(Path(Up, Reverse))
Some(Path(Right, Reverse))

DV4;DV-1;DV0,2;DV0,-1
None
None
None
None

";

#[test]
fn letter_settings(rt: HostRuntime) -> Result<(), Fail> {
    has_answers(&rt, rt.alloc(), Asked::FurtherSettings, LETTER_SETTINGS, 10)
}

const OTHER_SETTINGS: &str = "\
// Moves and ticks.
CP;CP2,-1;CP.5,8388607.999999,3;CP1
Some(ToMargin)
Some(By(Pair { x: 2000000, y: -1000000 }))
Some(By(Pair { x: 500000, y: 8388607999999 }))
None

TL;TL10,5;TL10;TL-1000,1000,2;TL1000.000001;TL0,-1000.000001
Some(TickLength { up: 500000, down: 500000 })
Some(TickLength { up: 10000000, down: 5000000 })
Some(TickLength { up: 10000000, down: 0 })
Some(TickLength { up: -1000000000, down: 1000000000 })
None
None

IR;IR25,75;IR-1000,0,1000,.5,9
Some(Page)
Some(First(Pair { x: 25000000, y: 75000000 }))
Some(Both(Pair { x: -1000000000, y: 0 }, Pair { x: 1000000000, y: 500000 }))

IR1;IR1,2,3;IR1000.000001,0;IR0,-1000.000001;IR0,0,1000.000001,0;IR0,0,0,1000.000001
None
None
None
None
None
None

// Ranges of colours.
CR;CR0,1,2.5,-3,100,200,5
Some(ColourRanges { red: ColourRange { black: 0, white: 255 }, \
green: ColourRange { black: 0, white: 255 }, blue: ColourRange { black: 0, white: 255 } })
Some(ColourRanges { red: ColourRange { black: 0, white: 1 }, \
green: ColourRange { black: 3, white: -3 }, blue: ColourRange { black: 100, white: 200 } })

CR1;CR0,1,0,1;CR0,1,0,1,0;CR1,1,0,1,0,1;CR0,1,1,1.4,0,1;CR0,1,0,1,-.5,0
None
None
None
None
None
None

";

#[test]
fn other_settings(rt: HostRuntime) -> Result<(), Fail> {
    has_answers(&rt, rt.alloc(), Asked::FurtherSettings, OTHER_SETTINGS, 6)
}

// What an IR sets on a page of 1000 by 2000, with the corner (-100, -50).
pub fn points_on_page(alloc: Global, text: &[u8]) -> Result<String, Fail> {
    let mut lines = String::new(alloc);
    for item in Items::by_profile(Profile::Full, text) {
        let Body::Further(_, numbers) = &item.body else {
            continue;
        };
        let (list, count) = numbers.leading();
        let Some(points) = relative_points(&list[..count]) else {
            continue;
        };
        let setting = points_of(points, 1000, 2000, 100, 50);
        let line = format!(in alloc; "{setting:?}\n")?;
        lines.push_str(line.as_str())?;
    }
    Ok(lines)
}

const POINTS_ON_A_PAGE: &str = "\
// half a plotter unit is rounded up, and P2 on P1 gets one more
IR;IR25,75;IR0,.025,100,100;IR25,-.025,25,75;IR1,25,75,25
PageCorners
FirstPoint(150, 1450)
BothPoints(Pair { x: Ends { first: -100, last: 900 }, y: Ends { first: -49, last: 1950 } })
BothPoints(Pair { x: Ends { first: 150, last: 151 }, y: Ends { first: -50, last: 1450 } })
BothPoints(Pair { x: Ends { first: -90, last: 650 }, y: Ends { first: 450, last: 451 } })

";

#[test]
fn points_on_a_page(rt: HostRuntime) -> Result<(), Fail> {
    has_answers(&rt, rt.alloc(), Asked::Points, POINTS_ON_A_PAGE, 1)
}

// The ranges that the first CR of a text sets.
fn ranges_by(text: &[u8]) -> ColourRanges
    ensures { IsColourRanges result }
{
    for item in Items::by_profile(Profile::Full, text) {
        if let Body::Further(_, numbers) = &item.body {
            let (list, count) = numbers.leading();
            if let Some(ranges) = colour_ranges(&list[..count]) {
                return ranges;
            }
        }
    }
    ColourRanges::usual()
}

// What each PC of a text sets in these ranges, a line each.
pub fn colours_of(alloc: Global, text: &[u8]) -> Result<String, Fail> {
    let ranges = ranges_by(text);
    let mut lines = String::new(alloc);
    for item in Items::by_profile(Profile::Full, text) {
        if let Body::Params(_, numbers) = &item.body {
            let setting = colour_in(&ranges, numbers);
            let line = format!(in alloc; "{setting:?}\n")?;
            lines.push_str(line.as_str())?;
        }
    }
    Ok(lines)
}

const COLOURS_IN_RANGES: &str = "\
// Of 0 to 100, a half is rounded up.
CR0,100,0,100,0,100;PC1,100,50,0;PC2,0.196078,0.196079,100.1
Some(PenColour(1, Colour { red: 255, green: 128, blue: 0 }))
Some(PenColour(2, Colour { red: 0, green: 1, blue: 255 }))

// What is past black or white is cut.
CR0,1,0,1,0,1;PC255.4,0.5,2,-1,9
Some(PenColour(255, Colour { red: 128, green: 255, blue: 0 }))

// White below black, and white below 0.
CR100,0,0,-2,-1,-3;PC3,75,-1,-2.5
Some(PenColour(3, Colour { red: 64, green: 128, blue: 191 }))

// Only blue has another range.
CR0,255,0,255,0,2;PC3,256,254.5,1
Some(PenColour(3, Colour { red: 255, green: 255, blue: 128 }))

// A pen out of range, and what is core's.
CR0,1,0,1,0,1;PC256,0,0,0;PC-.6,0,0,0;PC;PC2;PC1,2;PC1,2,3
None
None
Some(DefaultColours)
Some(PenColour(2, Colour { red: 255, green: 0, blue: 0 }))
None
None

// The usual ranges.
CR;PC1,1.5,2,255;PC1,2,3,256;PC1,-1,0,0
Some(PenColour(1, Colour { red: 2, green: 2, blue: 255 }))
None
None

";

#[test]
fn colours_in_ranges(rt: HostRuntime) -> Result<(), Fail> {
    assert!(rt; ColourRanges::usual().is_usual());
    has_answers(&rt, rt.alloc(), Asked::Colours, COLOURS_IN_RANGES, 6)
}
