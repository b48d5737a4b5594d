// Cases of plots as one text. A helper writes the cases again with the answers to the plots instead of those that are
// wanted, and fails unless both texts are equal.
use crate::notes_and_sheets::notes_on;
use crate::pens_set::carousel;
use areas::Area;
use character_sets::Encoding;
use full_plot::{Carousel, FullDrawn, draw_full, draw_full_with};
use hpgl_plot::{Page, PlotFault, Stroke};
use labels::{Label, Line, Place};
use polygons::Rule;
use std::alloc::{AllocError, Global};
use std::process::Abort;
use std::test::Fail;

// What a text asks of its plots.
#[derive(Clone, Copy, Drop)]
pub enum Asked {
    // The ends of the strokes, and their count at each sheet's end.
    Strokes,
    // The ends of the strokes and their widths.
    Fills,
    // The colours and the last ends of the strokes, on a page whose corner is left of (0,0) and below it.
    Colours,
    // The pens of the strokes, their widths and their last ends in x.
    Widths,
    // The pens of the strokes, with the pens of a carousel: their widths, their colours and their last ends.
    Pens,
    // The ends of the strokes, with texts in UTF-8.
    Utf8,
    // The labels.
    Labels,
    // The areas: how many strokes there were before the edges and after them, and the rule; and each sheet's end.
    Areas,
    // The images: their first corners, how many dots and rows they have, and how many strokes come before them; and how many
    // strokes and images there are at each sheet's end.
    Images,
    // The greatest number of a sheet with a stroke or an image.
    Sheets,
    // What is noted.
    Notes,
}

// Fails unless there are so many cases, and each has the answer that it says. A case is a comment, if it has one, a
// plot, which may have line feeds, and the answer in a line; an empty line separates cases.
pub fn has_answers(
    rt: &impl Abort,
    alloc: Global,
    asked: Asked,
    cases: &str,
    count: usize,
) -> Result<(), Fail> {
    let (answered, found) = answered(alloc, asked, cases)?;
    assert_eq!(rt; answered.as_str(), cases);
    assert_eq!(rt; found, count);
    Ok(())
}

// The cases with the answers, and how many they are.
fn answered(alloc: Global, asked: Asked, cases: &str) -> Result<(String, usize), Fail> {
    let mut text = String::new(alloc);
    let mut count: usize = 0;
    for case in cases.split("\n\n") {
        let (asking, _) = case.rsplit_once("\n").ok_or("a case with no answer")?;
        if count > 0 {
            text.push_str("\n\n")?;
        }
        text.push_str(asking)?;
        text.push_str("\n")?;
        let plot = plot_of(asking).as_bytes();
        text.push_str(answer_of(alloc, asked, plot)?.as_str())?;
        count = count.saturating_add(1);
    }
    Ok((text, count))
}

// The plot after the comment.
fn plot_of(asking: &str) -> &str {
    match asking.split_once("\n") {
        Some((comment, plot)) if comment.starts_with("// ") => plot,
        _ => asking,
    }
}

fn answer_of(alloc: Global, asked: Asked, plot: &[u8]) -> Result<String, Fail> {
    match asked {
        Asked::Notes => notes_on(alloc, plot),
        _ => drawing_told(alloc, asked, plot),
    }
}

// What a plot draws, or why it is refused.
fn drawing_told(alloc: Global, asked: Asked, plot: &[u8]) -> Result<String, Fail> {
    match drawn(alloc, asked, plot)? {
        Ok(drawn) => Ok(drawn_told(alloc, asked, &drawn)?),
        Err(fault) => Ok(format!(in alloc; "{fault:?}")?),
    }
}

fn drawn(alloc: Global, asked: Asked, plot: &[u8]) -> Result<Result<FullDrawn, PlotFault>, Fail> {
    let page = match asked {
        Asked::Colours => Page::new(1000, 500, 100, 50)?,
        _ => Page::new(1000, 1000, 0, 0)?,
    };
    match asked {
        Asked::Pens => {
            Ok(draw_full_with(alloc, Encoding::ByPlot, plot, &page, &carousel(), false))
        }
        Asked::Utf8 => {
            Ok(draw_full_with(
                alloc,
                Encoding::Utf8,
                plot,
                &page,
                &Carousel::empty(),
                false,
            ))
        }
        Asked::Labels => {
            Ok(draw_full_with(
                alloc,
                Encoding::ByPlot,
                plot,
                &page,
                &Carousel::empty(),
                true,
            ))
        }
        _ => Ok(draw_full(alloc, plot, &page)),
    }
}

fn drawn_told(alloc: Global, asked: Asked, drawn: &FullDrawn) -> Result<String, AllocError> {
    if let Asked::Sheets = asked {
        let sheets = drawn.sheets();
        return format!(in alloc; "{sheets}");
    }
    if let Asked::Labels = asked {
        return labels_told(alloc, drawn.labels.as_slice());
    }
    if let Asked::Images = asked {
        return images_told(alloc, drawn);
    }
    let mut list = String::new(alloc);
    if let Asked::Areas = asked {
        list.push_str(areas_told(alloc, drawn.areas.as_slice())?.as_str())?;
    } else {
        for stroke in drawn.strokes.as_slice() {
            list.push_str(stroke_told(alloc, asked, stroke)?.as_str())?;
        }
    }
    for end in drawn.ends.as_slice() {
        write!(list, " sheet to {end}")?;
    }
    if list.is_empty() {
        list.push_str("none")?;
    }
    Ok(list)
}

// The areas of a plot.
pub fn areas_told(alloc: Global, areas: &[Area]) -> Result<String, AllocError> {
    let mut list = String::new(alloc);
    for area in areas {
        let (first, end) = (area.first, area.end);
        let rule = match area.rule {
            Rule::OddCounts => "odd counts",
            Rule::Winding => "winding",
        };
        write!(list, "{first}-{end} {rule};")?;
    }
    Ok(list)
}

// The images of a plot, and the ends of its sheets.
fn images_told(alloc: Global, drawn: &FullDrawn) -> Result<String, AllocError> {
    let mut list = String::new(alloc);
    for image in drawn.images.as_slice() {
        let (corner, width, rows) = (image.image.corner, image.image.width, image.rows());
        let (x, y, before) = (corner.x, corner.y, image.before);
        write!(list, "{x},{y} {width} by {rows} after {before};")?;
    }
    for (strokes, images) in drawn
        .ends
        .as_slice()
        .iter()
        .zip(drawn.image_ends.as_slice())
    {
        write!(list, " sheet to {strokes} and {images}")?;
    }
    if list.is_empty() {
        list.push_str("none")?;
    }
    Ok(list)
}

// The labels of a plot, or "none".
pub fn labels_told(alloc: Global, labels: &[Label]) -> Result<String, AllocError> {
    let mut list = String::new(alloc);
    for label in labels {
        let (first, after) = (label.first, label.after);
        write!(list, "{first}-{after}")?;
        for line in label.lines.as_slice() {
            list.push_str(line_told(alloc, line)?.as_str())?;
        }
        list.push_str(";")?;
    }
    if list.is_empty() {
        list.push_str("none")?;
    }
    Ok(list)
}

fn line_told(alloc: Global, line: &Line) -> Result<String, AllocError> {
    let mut text = String::new(alloc);
    for code in line.text.as_slice() {
        text.push(char::from_u32(*code).unwrap_or('?'))?;
    }
    let (start, end, top) = (line.start, line.end, line.top);
    let Place { x, y } = start;
    let (end_x, end_y, top_x, top_y) = (end.x, end.y, top.x, top.y);
    format!(in alloc; " {text} {x},{y} {end_x},{end_y} {top_x},{top_y}")
}

fn stroke_told(alloc: Global, asked: Asked, s: &Stroke) -> Result<String, AllocError> {
    let (ax, ay, bx, by) = (s.ax, s.ay, s.bx, s.by);
    let (pen, width, colour) = (s.pen, s.width, s.colour);
    let (red, green, blue) = (colour.red, colour.green, colour.blue);
    match asked {
        Asked::Fills => format!(in alloc; "{ax},{ay} {bx},{by} {width};"),
        Asked::Colours => format!(in alloc; "{red} {green} {blue} {bx},{by};"),
        Asked::Pens => { format!(in alloc; "{pen} {width} {red} {green} {blue} {bx},{by};") }
        Asked::Widths => format!(in alloc; "{pen} {width} {bx};"),
        _ => format!(in alloc; "{ax},{ay} {bx},{by};"),
    }
}
