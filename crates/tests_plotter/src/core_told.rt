// What plots draw, what is noted on them and how they are refused, as lines of text. The library's calls are made by
// functions that promise nothing: a test looks at the answers, so no proof here reads what the calls are proved to do.
use hpgl_plot::{Drawn, Note, Notes, Page, Plot, PlotFault, Stroke, draw, draw_plot};
use hpgl_text::{Program, lex};
use std::alloc::{AllocError, Global};
use std::test::Fail;

// The usual pen, width and window on a page of 64 by 64, which the lines leave out.
const USUAL: &str = "1 224 in 0 0 1024 1024: ";

pub fn square() -> Result<Page, Fail> {
    Ok(Page::new(64, 64, 0, 0)?)
}

pub fn wide() -> Result<Page, Fail> {
    Ok(Page::new(128, 64, 0, 0)?)
}

// What `draw` answers.
fn plot_of(alloc: Global, program: &Program<'_>, page: &Page) -> Result<Plot, PlotFault> {
    draw(alloc, program, page)
}

// What `draw_plot` answers.
pub fn drawn(alloc: Global, text: &[u8], page: &Page) -> Result<Drawn, PlotFault> {
    draw_plot(alloc, text, page)
}

// The strokes of a plot, a line each: pen, width, window and ends; and then its notes.
pub fn drawing_of(alloc: Global, page: &Page, text: &[u8]) -> Result<String, Fail> {
    let program = lex(alloc, text)?;
    let plot = plot_of(alloc, &program, page)?;
    let mut lines = String::new(alloc);
    for stroke in plot.strokes() {
        lines.push_str(stroke_told(alloc, stroke)?.as_str())?;
    }
    lines.push_str(notes_told(alloc, plot.notes())?.as_str())?;
    Ok(lines)
}

fn stroke_told(alloc: Global, stroke: &Stroke) -> Result<String, AllocError> {
    let (pen, width, w) = (stroke.pen, stroke.width, stroke.window);
    let (x0, y0, x1, y1) = (w.x0, w.y0, w.x1, w.y1);
    let mut line = format!(in alloc; "{pen} {width} in {x0} {y0} {x1} {y1}: ")?;
    if line.as_str() == USUAL {
        line.clear();
    }
    line.push_str(ends_told(alloc, stroke)?.as_str())?;
    Ok(line)
}

fn ends_told(alloc: Global, stroke: &Stroke) -> Result<String, AllocError> {
    let (ax, ay, bx, by) = (stroke.ax, stroke.ay, stroke.bx, stroke.by);
    format!(in alloc; "{ax},{ay} to {bx},{by}\n")
}

fn notes_told(alloc: Global, notes: &[Note]) -> Result<String, AllocError> {
    let mut lines = String::new(alloc);
    for note in notes {
        lines.push_str(note_told(alloc, note)?.as_str())?;
    }
    Ok(lines)
}

fn note_told(alloc: Global, note: &Note) -> Result<String, AllocError> {
    let (at, kind) = (note.at, note.kind);
    let (first, second) = (letter(note.code[0]), letter(note.code[1]));
    format!(in alloc; "note {at} {first}{second} {kind:?}\n")
}

// A letter of a note's code, where it has one.
fn letter(byte: u8) -> char {
    if byte == 0 { '-' } else { char::from(byte) }
}

// The strokes with their colours and how many notes there are, which are the same by both ways to draw.
pub fn coloured_drawing(alloc: Global, text: &[u8]) -> Result<String, Fail> {
    let program = lex(alloc, text)?;
    let plot = plot_of(alloc, &program, &square()?)?;
    let drawn = drawn(alloc, text, &square()?)?;
    let drawing = coloured(alloc, plot.strokes(), plot.notes().len())?;
    if coloured(alloc, drawn.strokes.as_slice(), drawn.notes)?.as_str() != drawing.as_str() {
        return Err("both ways to draw differ".into());
    }
    Ok(drawing)
}

// The strokes with their colours, a line each: pen, red, green and blue, and ends; and then how many notes there are.
fn coloured(alloc: Global, strokes: &[Stroke], notes: usize) -> Result<String, AllocError> {
    let mut lines = String::new(alloc);
    for stroke in strokes {
        let (pen, colour) = (stroke.pen, stroke.colour);
        let (red, green, blue) = (colour.red, colour.green, colour.blue);
        write!(lines, "{pen} {red} {green} {blue}: ")?;
        lines.push_str(ends_told(alloc, stroke)?.as_str())?;
    }
    write!(lines, "{notes} notes\n")?;
    Ok(lines)
}

// How a plot is refused, which is the same by both ways to draw.
pub fn refusal_of(alloc: Global, text: &[u8]) -> Result<String, Fail> {
    let program = lex(alloc, text)?;
    let fault = plot_of(alloc, &program, &square()?).err();
    let other = drawn(alloc, text, &square()?).err();
    let told = format!(in alloc; "{fault:?}\n")?;
    let other = format!(in alloc; "{other:?}\n")?;
    if other.as_str() != told.as_str() {
        return Err("both ways to draw differ".into());
    }
    Ok(told)
}

// The notes of a plot one item at a time, which are those of the whole program.
pub fn notes_one_by_one(alloc: Global, text: &[u8]) -> Result<String, Fail> {
    let program = lex(alloc, text)?;
    let plot = plot_of(alloc, &program, &square()?)?;
    let mut lines = String::new(alloc);
    for note in Notes::new(text) {
        lines.push_str(note_told(alloc, &note)?.as_str())?;
    }
    if notes_told(alloc, plot.notes())?.as_str() != lines.as_str() {
        return Err("the notes of the program differ".into());
    }
    Ok(lines)
}
