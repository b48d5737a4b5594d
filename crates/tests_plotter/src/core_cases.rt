// Cases of plots as one text. A helper writes the cases again with the answers instead of those that are wanted, and
// fails unless both texts are equal.
use crate::core_texts::has_text;
use crate::core_told::{coloured_drawing, drawing_of, notes_one_by_one, refusal_of, square, wide};
use crate::pens::penned_drawing;
use std::alloc::Global;
use std::process::Abort;
use std::test::Fail;

// What is asked of plots.
#[derive(Clone, Copy, Drop)]
pub enum Asked {
    // Strokes and notes on a page of 64 by 64.
    Drawing,
    // Strokes and notes on a page of 128 by 64.
    WideDrawing,
    // Strokes with colours, and how many notes there are.
    Colours,
    // Strokes with the pens of a carousel.
    Pens,
    // The fault.
    Refusal,
    // Notes, also one item at a time.
    Notes,
}

// Fails unless there are so many cases, and each has the answer that it says. A case is a comment, if it has one, a
// plot in a line, the lines of the answer, and an empty line.
pub fn has_answers(
    rt: &impl Abort,
    alloc: Global,
    asked: Asked,
    cases: &str,
    count: usize,
) -> Result<(), Fail> {
    let (answered, found) = answered(alloc, asked, cases)?;
    has_text(rt, answered.as_str(), cases);
    if found != count {
        return Err("not so many cases".into());
    }
    Ok(())
}

// Fails unless a plot, which may have bytes that no text of cases can have, draws this on a page of 64 by 64.
pub fn has_drawing(rt: &impl Abort, alloc: Global, plot: &[u8], wanted: &str) -> Result<(), Fail> {
    let drawing = drawing_of(alloc, &square()?, plot)?;
    has_text(rt, drawing.as_str(), wanted);
    Ok(())
}

// The cases with the answers, and how many they are.
fn answered(alloc: Global, asked: Asked, cases: &str) -> Result<(String, usize), Fail> {
    let mut lines = String::new(alloc);
    let mut count: usize = 0;
    let mut first = true;
    for line in cases.lines() {
        if line.is_empty() {
            lines.push_str("\n")?;
            first = true;
        } else if first {
            lines.push_str(line)?;
            lines.push_str("\n")?;
            if !line.starts_with("// ") {
                lines.push_str(answer_of(alloc, asked, line.as_bytes())?.as_str())?;
                count = count.saturating_add(1);
                first = false;
            }
        }
    }
    Ok((lines, count))
}

fn answer_of(alloc: Global, asked: Asked, plot: &[u8]) -> Result<String, Fail> {
    match asked {
        Asked::Drawing => drawing_of(alloc, &square()?, plot),
        Asked::WideDrawing => drawing_of(alloc, &wide()?, plot),
        Asked::Colours => coloured_drawing(alloc, plot),
        Asked::Pens => penned_drawing(alloc, plot),
        Asked::Refusal => refusal_of(alloc, plot),
        Asked::Notes => notes_one_by_one(alloc, plot),
    }
}
