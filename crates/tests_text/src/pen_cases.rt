// Cases as one text: an answer in a line, the lists that have it, and an empty line before the next answer.
use carousel::{Carousel, Colour};
use pen_list::{read_colours, read_widths};
use std::alloc::{AllocError, Global};
use std::process::Abort;
use std::test::Fail;

// What the lists are of.
#[derive(Clone, Copy, Drop)]
pub enum Asked {
    Colours,
    Widths,
}

// Fails unless there are so many lists, and each has the answer that its case says.
pub fn has_answers(
    rt: &impl Abort,
    alloc: Global,
    asked: Asked,
    cases: &str,
    count: usize,
) -> Result<(), Fail> {
    let mut found: usize = 0;
    for case in cases.split("\n\n") {
        let (wanted, lists) = case.split_once("\n").ok_or("a case with no list")?;
        for list in lists.lines() {
            let answer = match asked {
                Asked::Colours => colours_told(alloc, list)?,
                Asked::Widths => widths_told(alloc, list)?,
            };
            assert_eq!(rt; answer.as_str(), wanted, "{list}");
            found = found.saturating_add(1);
        }
    }
    assert_eq!(rt; found, count);
    Ok(())
}

// Fails unless pen 1 can have none of these.
pub fn has_none(rt: &impl Abort, alloc: Global, asked: Asked, values: &[&str]) -> Result<(), Fail> {
    for value in values {
        let case = format!(in alloc; "bad 1={value}\n1={value}")?;
        has_answers(rt, alloc, asked, case.as_str(), 1)?;
    }
    Ok(())
}

// Each pen, in order, that gets another colour than the one before it. Before pen 0 is none.
fn colours_told(alloc: Global, list: &str) -> Result<String, AllocError> {
    let read = match read_colours(list, Carousel::empty()) {
        Ok(read) => read,
        Err(bad) => return format!(in alloc; "bad {bad}"),
    };
    let mut text = String::new(alloc);
    let mut last = None;
    for pen in 0..=255u8 {
        let colour = read.colour_of(pen);
        if colour != last {
            separate(&mut text)?;
            match colour {
                Some(Colour { red, green, blue }) => {
                    write!(text, "{pen}={red:02x}{green:02x}{blue:02x}")?
                }
                None => write!(text, "{pen}=none")?,
            }
        }
        last = colour;
    }
    Ok(text)
}

// The same of widths, in grains.
fn widths_told(alloc: Global, list: &str) -> Result<String, AllocError> {
    let read = match read_widths(list, Carousel::empty()) {
        Ok(read) => read,
        Err(bad) => return format!(in alloc; "bad {bad}"),
    };
    let mut text = String::new(alloc);
    let mut last = None;
    for pen in 0..=255u8 {
        let width = read.width_of(pen);
        if width != last {
            separate(&mut text)?;
            match width {
                Some(grains) => write!(text, "{pen}={grains}")?,
                None => write!(text, "{pen}=none")?,
            }
        }
        last = width;
    }
    Ok(text)
}

fn separate(text: &mut String) -> Result<(), AllocError> {
    if !text.is_empty() {
        text.push_str(" ")?;
    }
    Ok(())
}
