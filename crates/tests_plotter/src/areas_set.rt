// The areas that plots draw, by their text.
use crate::full_cases::{Asked, areas_told, has_answers};
use areas::Area;
use full_plot::{areas_on, draw_full, keep_areas_of};
use hpgl_plot::Page;
use polygons::Rule;
use std::alloc::{AllocError, Global};
use std::process::Abort;
use std::test::Fail;

const AREAS: &str = "\
PU0,0;RA4,3;
0-4 odd counts;

// a hole, by both rules
PU0,0;PM0;PD8,0,8,8,0,8;PM1;PU2,2;PD6,2,6,6,2,6;PM2;FP;
0-8 odd counts;

PU0,0;PM0;PD8,0,8,8,0,8;PM1;PU2,2;PD6,2,6,6,2,6;PM2;FP1;
0-8 winding;

// other strokes before and between, and edges that EP draws
PU0,0;PD5,5;RR1,1;PU;PA2,2;RR-1,1;EP;PD9,9;WG1,0,90,90;
1-5 odd counts;5-9 odd counts;14-17 odd counts;

// a rectangle without a height, and one that is a point
PU0,0;RR4,0;RR0,0;
0-4 odd counts;4-8 odd counts;

// edges that are not drawn are edges of the area, and so is the one that closes it
PU1,1;PM0;PU3,1,3,3,1,3;PM2;FP;
0-4 odd counts;

PU0,0;PM0;PD64,0;PU0,64;PM2;FP1;EP;FP;
0-3 winding;4-7 odd counts;

// RA, RR and WG are by odd counts, whatever rule FP had before
PU0,0;RA4,3;FP1;RA4,3;RR1,1;WG4,0,90,45;
0-4 odd counts;4-8 winding;8-12 odd counts;12-16 odd counts;16-20 odd counts;

// a sheet that has an area alone
PU0,0;RA4,3;PG;PD;
0-4 odd counts; sheet to 4

// a place of its own is no polygon, and an empty buffer fills nothing
FP;PM0;PM2;FP;
none

// pen 0 draws none, and the buffer is filled by another pen
SP0;PU0,0;RA4,3;SP1;FP;
0-4 odd counts;

// hatching and shading are lines, and shading of 100 percent is solid
FT3,10;PU0,0;RA40,25;FT4;RA40,25;FT10,50;RA40,25;FT10,0;RA40,25;
none

FT10,100;PU0,0;RA2,1;FT11;RA2,1;FT2;RA2,1;FT22;RA2,1;FT;RA2,1;
0-4 odd counts;4-8 odd counts;8-12 odd counts;12-16 odd counts;16-20 odd counts;

// they stay after IN, BP and DF
PU0,0;RA1,1;IN;RA1,1;BP;RA1,1;DF;RA1,1;
0-4 odd counts;4-8 odd counts;8-12 odd counts;12-16 odd counts;

// sheets are counted together
PU0,0;RA1,1;PG;PD1,1;RA2,2;PG;RA3,3;
0-4 odd counts;5-9 odd counts;9-13 odd counts; sheet to 4 sheet to 9";

#[test]
fn areas_of_fills(rt: HostRuntime) -> Result<(), Fail> {
    has_answers(&rt, rt.alloc(), Asked::Areas, AREAS, 15)
}

// An area on the first sheet, and two after a line on the second one.
const TWO_SHEETS: &[u8] = b"PU0,0;RA1,1;PG;PD1,1;PU0,0;RA1,1;PM0;PD9,0,9,9,0,0;PM2;FP1;PG;PD0,9;";

#[test]
fn areas_of_a_sheet(rt: HostRuntime) -> Result<(), Fail> {
    let page = Page::new(1000, 1000, 0, 0)?;
    let drawn = draw_full(rt.alloc(), TWO_SHEETS, &page)?;
    let (areas, ends) = (drawn.areas.as_slice(), drawn.ends.as_slice());
    let count = drawn.strokes.len();
    let second = areas_on(areas, ends, count, 2);
    let rectangle = Area {
        first: 1,
        end: 5,
        rule: Rule::OddCounts,
    };
    assert_eq!(rt; second.count(), 2);
    assert_eq!(rt; second.beginning_at(1), Some(rectangle));
    let mut near = 0;
    assert_eq!(rt; second.ending_at(5, &mut near), Some(rectangle));
    assert_eq!(rt; second.beginning_at(0), None);
    assert_eq!(rt; areas_on(areas, ends, count, 0).count(), 3);
    assert_eq!(rt; areas_on(areas, ends, count, 1).count(), 1);
    assert_eq!(rt; areas_on(areas, ends, count, 3).count(), 0);
    Ok(())
}

// Fails unless these are the areas of a sheet, by its strokes.
fn has_areas(rt: &impl Abort, alloc: Global, sheet: u32, wanted: &str) -> Result<(), Fail> {
    let page = Page::new(1000, 1000, 0, 0)?;
    let drawn = draw_full(alloc, TWO_SHEETS, &page)?;
    let count = drawn.strokes.len();
    let mut areas = drawn.areas;
    keep_areas_of(&mut areas, drawn.ends.as_slice(), count, sheet);
    let told = areas_told(alloc, areas.as_slice())?;
    assert_eq!(rt; told.as_str(), wanted);
    Ok(())
}

#[test]
fn keeps_the_areas_of_a_sheet(rt: HostRuntime) -> Result<(), Fail> {
    let alloc = rt.alloc();
    has_areas(&rt, alloc, 0, "0-4 odd counts;5-9 odd counts;9-12 winding;")?;
    has_areas(&rt, alloc, 1, "0-4 odd counts;")?;
    has_areas(&rt, alloc, 2, "1-5 odd counts;5-8 winding;")?;
    has_areas(&rt, alloc, 3, "")?;
    has_areas(&rt, alloc, 4, "")
}

// A polygon of 2,002 places and 2,001 edges is filled 1,047 times, and a rectangle of 5 places and 4 edges 351 times: with the
// places 4 strokes fewer than a plot may have. This text follows, which begins at byte 13,261.
fn most_fills_and(alloc: Global, last: &str) -> Result<String, AllocError> {
    let mut text = String::new(alloc);
    text.push_str("PM0;PD")?;
    for _ in 0..1_000 {
        text.push_str("1,2,2,1,")?;
    }
    text.push_str("0,0;PM2;")?;
    for _ in 0..1_047 {
        text.push_str("FP;")?;
    }
    for _ in 0..351 {
        text.push_str("RA9,9;")?;
    }
    text.push_str(last)?;
    Ok(text)
}

// Fails unless this is how many strokes and areas there are, or the fault, with this text after the fills.
fn has_answer(rt: &impl Abort, alloc: Global, last: &str, wanted: &str) -> Result<(), Fail> {
    let text = most_fills_and(alloc, last)?;
    let page = Page::new(1000, 1000, 0, 0)?;
    let told = match draw_full(alloc, text.as_bytes(), &page) {
        Ok(drawn) => {
            let (strokes, areas) = (drawn.strokes.len(), drawn.areas.len());
            format!(in alloc; "{strokes} strokes, {areas} areas")?
        }
        Err(fault) => format!(in alloc; "{fault:?}")?,
    };
    assert_eq!(rt; told.as_str(), wanted);
    Ok(())
}

#[test]
fn as_many_areas_as_there_may_be(rt: HostRuntime) -> Result<(), Fail> {
    has_answer(
        &rt,
        rt.alloc(),
        "PD1,1,2,2,3,3,4,4;SP0;PD5,5;",
        "2096455 strokes, 1398 areas",
    )
}

// The wedge has 4 places and 3 edges.
#[test]
fn an_area_too_many(rt: HostRuntime) -> Result<(), Fail> {
    let alloc = rt.alloc();
    has_answer(&rt, alloc, "WG1,0,0;", "TooManyStrokes { at: 13261 }")?;
    has_answer(
        &rt,
        alloc,
        "PD1,1,2,2,3,3,4,4,5,5;",
        "TooManyStrokes { at: 13261 }",
    )
}
