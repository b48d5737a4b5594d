// A plot may have 4,194,304 strokes.
use crate::core_texts::has_text;
use crate::core_told::{drawn, square};
use std::alloc::{AllocError, Global};
use std::process::Abort;
use std::test::Fail;

// An 8 has 15 strokes, and a # has 4.
const EIGHTS: usize = 279_620;

// A label with as many strokes as a plot may have, all in the place of its first character, and this text after it,
// which begins at byte 559,244.
fn longest_and(alloc: Global, last: &str) -> Result<String, AllocError> {
    let mut text = String::new(alloc);
    text.push_str("LB")?;
    for _ in 0..EIGHTS {
        text.push_str("8\r")?;
    }
    text.push_str("#\x03")?;
    text.push_str(last)?;
    Ok(text)
}

// Fails unless this is how many strokes there are, or the fault, with this text after the label.
fn has_answer(rt: &impl Abort, alloc: Global, last: &str, wanted: &str) -> Result<(), Fail> {
    let text = longest_and(alloc, last)?;
    let told = match drawn(alloc, text.as_bytes(), &square()?) {
        Ok(drawn) => format!(in alloc; "{} strokes", drawn.strokes.len())?,
        Err(fault) => format!(in alloc; "{fault:?}")?,
    };
    has_text(rt, told.as_str(), wanted);
    Ok(())
}

#[test]
fn as_many_strokes_as_there_may_be(rt: HostRuntime) -> Result<(), Fail> {
    has_answer(&rt, rt.alloc(), "", "4194304 strokes")
}

#[test]
fn a_stroke_too_many(rt: HostRuntime) -> Result<(), Fail> {
    let too_many = "TooManyStrokes { at: 559244 }";
    has_answer(&rt, rt.alloc(), "PD;", too_many)
}

// In one instruction a place out of range comes before a stroke too many.
#[test]
fn a_stroke_too_many_and_a_place_out_of_range(rt: HostRuntime) -> Result<(), Fail> {
    let off_range = "OffRange { at: 559244 }";
    has_answer(&rt, rt.alloc(), "PD0,0,70000,0;", off_range)
}
