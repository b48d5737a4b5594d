//! What the tests draw. No contract here promises anything, so that no proof of a test reads what is proved of the
//! document.
use plot_page::{Colour, Page, PenSet, Stroke, Window};
use std::alloc::Global;
use std::test::Fail;

/// The page of 64 by 66 plotter units.
pub fn page() -> Result<Page, Fail> {
    Ok(Page::new(64, 66, 0, 0)?)
}

/// The whole page, its corner, its right half, a window of one place, one without width that is empty, and one that is
/// empty in y; and three with the left edge of the corner: a wider one, one that is less high, and one whose upper edge is lower.
const WINDOWS: [[i32; 4]; 9] = [
    [0, 0, 1024, 1056],
    [0, 0, 160, 320],
    [512, 0, 1024, 1056],
    [5, 6, 5, 6],
    [9, 0, 8, 1056],
    [0, 9, 1024, 8],
    [0, 0, 320, 320],
    [0, 160, 160, 320],
    [0, 0, 160, 160],
];

// Black, a colour whose digits all differ, and three that differ from black in one part.
const COLOURS: [[u8; 3]; 5] = [[0, 0, 0], [1, 171, 254], [16, 0, 0], [0, 16, 0], [0, 0, 16]];

/// The strokes of some lines of eight numbers: the pen, the number of the colour, the width, the number of the window,
/// and both ends.
pub fn strokes_of(alloc: Global, lines: &str) -> Result<Vec<Stroke>, Fail> {
    let mut strokes = Vec::new(alloc);
    for line in lines.lines() {
        strokes.push(stroke_of(line)?)?;
    }
    Ok(strokes)
}

fn stroke_of(line: &str) -> Result<Stroke, Fail> {
    let mut words = line.split_whitespace();
    let pen = number_of(words.next())?;
    let colour = colour_of(number_of(words.next())?)?;
    let width = number_of(words.next())?;
    let window = window_of(number_of(words.next())?)?;
    let (ax, ay) = (number_of(words.next())?, number_of(words.next())?);
    let (bx, by) = (number_of(words.next())?, number_of(words.next())?);
    if pen < 0 || 255 < pen || width < 0 {
        return Err("no pen or no width".into());
    }
    Ok(Stroke::new(pen as u8, colour, width as u32, window, ax, ay, bx, by).ok_or("no stroke")?)
}

fn number_of(word: Option<&str>) -> Result<i32, Fail> {
    match word.unwrap_or_default().parse::<i32>() {
        Ok(number) => Ok(number),
        Err(_) => Err("no number".into()),
    }
}

fn colour_of(number: i32) -> Result<Colour, Fail> {
    if number < 0 || 4 < number {
        return Err("no colour".into());
    }
    let [red, green, blue] = COLOURS[number as usize];
    Ok(Colour { red, green, blue })
}

fn window_of(number: i32) -> Result<Window, Fail> {
    if number < 0 || 8 < number {
        return Err("no window".into());
    }
    let [x0, y0, x1, y1] = WINDOWS[number as usize];
    Ok(Window { x0, y0, x1, y1 })
}

/// The pens 1, 2 and 255.
pub fn three_pens() -> PenSet {
    PenSet::none().with(1).with(2).with(255)
}
