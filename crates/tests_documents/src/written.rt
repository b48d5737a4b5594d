//! What the tests write: labels.
use labels::{Label, Line, Place};
use std::alloc::Global;
use std::test::Fail;

/// A label with the strokes after the first ones up to and including number `after`, and with the lines of a text.
pub fn label_of(alloc: Global, first: usize, after: usize, text: &str) -> Result<Label, Fail> {
    let mut lines = Vec::new(alloc);
    for line in text.lines() {
        let mut letters = Vec::new(alloc);
        for letter in line.chars() {
            letters.push(u32::from(letter))?;
        }
        lines.push(line_of(alloc, &letters)?)?;
    }
    Ok(Label {
        first,
        after,
        lines,
    })
}

/// A label of one line, with any code points.
pub fn label_with(alloc: Global, first: usize, after: usize, text: &[u32]) -> Result<Label, Fail> {
    let mut lines = Vec::new(alloc);
    lines.push(line_of(alloc, text)?)?;
    Ok(Label {
        first,
        after,
        lines,
    })
}

fn line_of(alloc: Global, text: &[u32]) -> Result<Line, Fail> {
    let corner = Place { x: 0, y: 0 };
    let mut line = Line::new(alloc, corner, corner);
    for code_point in text {
        line.push(*code_point, corner)?;
    }
    Ok(line)
}
