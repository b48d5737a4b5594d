// Cases as one text: an answer in a line, the lines that have it, and an empty line before the next answer.
use carousel::Carousel;
use clap::ArgMatches;
use command_line::{Destination, Line, Task, command, parse, parse_status, settle};
use pen_list::read_pens;
use picture_job::{Job, Picture, PngJob, RowChoice, VectorFormat, VectorJob};
use picture_out::Form;
use plot_page::{Page, PenSet};
use std::alloc::{AllocError, Global};
use std::process::Abort;
use std::test::Fail;

// What is asked of a line.
#[derive(Clone, Copy, Drop)]
pub enum Asked {
    // What a command line asks for, or why it is refused. Its words have `|` between them.
    Line,
    // Only how a command line has the plot read, or why it is refused.
    Reading,
    // Only which page a command line chooses, and whether more is to be said, or why it is refused.
    Page,
    // The same, with the page that is given.
    Size,
    // Only how a command line has the page turned, or why it is refused.
    Turn,
    // Only which messages a command line asks for, or why it is refused.
    Messages,
    // Only what a command line has written and the files that it has read, or why it is refused.
    Files,
    // Only the colours and the widths of pens on a command line, or why it is refused.
    Carousel,
    // The pens of a list.
    Pens,
}

// Fails unless there are so many lines, and each has the answer that its case says. `@` stands for the name.
pub fn has_answers(
    rt: &impl Abort,
    alloc: Global,
    asked: Asked,
    name: &str,
    cases: &str,
    count: usize,
) -> Result<(), Fail> {
    let text = cases.replace(alloc, "@", name)?;
    let mut found: usize = 0;
    for case in text.as_str().split("\n\n") {
        let (wanted, lines) = case.split_once("\n").ok_or("a case with no line")?;
        for line in lines.lines() {
            let answer = answer_of(alloc, asked, line)?;
            assert_eq!(rt; answer.as_str(), wanted, "{line}");
            found = found.saturating_add(1);
        }
    }
    assert_eq!(rt; found, count);
    Ok(())
}

// The same for each of these names.
pub fn has_answers_for_each(
    rt: &impl Abort,
    alloc: Global,
    asked: Asked,
    names: &[&str],
    cases: &str,
    count: usize,
) -> Result<(), Fail> {
    for name in names {
        has_answers(rt, alloc, asked, name, cases, count)?;
    }
    Ok(())
}

fn answer_of(alloc: Global, asked: Asked, line: &str) -> Result<String, Fail> {
    match asked {
        Asked::Pens => Ok(list_told(alloc, line)?),
        _ => told(alloc, asked, line),
    }
}

/// What a command line comes to whose output goes into a folder.
pub fn told_of_folder(alloc: Global, line: &str) -> Result<String, Fail> {
    told_into(alloc, Asked::Line, line, Destination::Folder)
}

// What a command line comes to whose output goes into a file.
fn told(alloc: Global, asked: Asked, line: &str) -> Result<String, Fail> {
    told_into(alloc, asked, line, Destination::File)
}

// What a command line comes to: if it has no matches, the kind of error and the exit status.
fn told_into(
    alloc: Global,
    asked: Asked,
    line: &str,
    destination: Destination,
) -> Result<String, Fail> {
    let mut words = Vec::new(alloc);
    for word in line.split("|") {
        words.push(word)?;
    }
    match parse(command(alloc)?, words.as_slice()) {
        Ok(matches) => Ok(matches_told(alloc, asked, &matches, destination)?),
        Err(error) => {
            let (kind, status) = (error.kind(), parse_status(&error));
            Ok(format!(in alloc; "{kind:?} {status}")?)
        }
    }
}

fn matches_told(
    alloc: Global,
    asked: Asked,
    matches: &ArgMatches<'_>,
    destination: Destination,
) -> Result<String, AllocError> {
    match settle(matches, destination) {
        Ok(line) => line_told(alloc, asked, &line),
        Err(fault) => format!(in alloc; "{fault:?}"),
    }
}

fn line_told(alloc: Global, asked: Asked, line: &Line<'_, '_>) -> Result<String, AllocError> {
    let file = line.files.first().copied();
    match (asked, &line.task) {
        (Asked::Reading, _) => reading_told(alloc, line),
        (Asked::Carousel, _) => carousel_told(alloc, &line.carousel),
        (Asked::Page, _) => choice_told(alloc, line),
        (Asked::Size, _) => {
            let (page, choice) = (page_of(&line.task), choice_told(alloc, line)?);
            let (width, height, left, below) = (page.width, page.height, page.left, page.below);
            format!(in alloc; "{width} {height} {left} {below} {choice}")
        }
        (Asked::Turn, _) => format!(in alloc; "{:?}", line.turn),
        (Asked::Messages, _) => messages_told(alloc, line),
        (Asked::Files, _) => files_told(alloc, line.output, line.files),
        (_, Task::Picture(Picture::Rows { job, rows })) => { job_told(alloc, job, *rows, file) }
        (_, Task::Picture(Picture::Png(job))) => png_told(alloc, job, file),
        (_, Task::Picture(Picture::Vector(job))) => vector_told(alloc, job, file),
        (_, Task::Report(page)) => {
            let (width, height, left, below) = (page.width, page.height, page.left, page.below);
            format!(in alloc; "report {width} {height} {left} {below} of {file:?}")
        }
    }
}

// The profile and the sheet, and whether each sheet is by itself.
fn reading_told(alloc: Global, line: &Line<'_, '_>) -> Result<String, AllocError> {
    let (reading, each) = (line.reading, line.each_sheet);
    if each {
        return format!(in alloc; "{reading:?} each");
    }
    format!(in alloc; "{reading:?}")
}

// Each pen whose colour or width is not that of the pen before it, with its own.
fn carousel_told(alloc: Global, carousel: &Carousel) -> Result<String, AllocError> {
    let mut text = String::new(alloc);
    text.push_str("pens")?;
    let mut was = format!(in alloc; " as set")?;
    let mut more = "";
    for pen in 0..=255u8 {
        let is = pen_told(alloc, carousel, pen)?;
        if is.as_str() != was.as_str() {
            write!(text, "{more} {pen}{is}")?;
            more = ",";
        }
        was = is;
    }
    Ok(text)
}

// The colour and the width of a pen.
fn pen_told(alloc: Global, carousel: &Carousel, pen: u8) -> Result<String, AllocError> {
    let mut text = String::new(alloc);
    if let Some(colour) = carousel.colour_of(pen) {
        let (red, green, blue) = (colour.red, colour.green, colour.blue);
        write!(text, " rgb {red} {green} {blue}")?;
    }
    if let Some(width) = carousel.width_of(pen) {
        write!(text, " wide {width}")?;
    }
    if text.is_empty() {
        text.push_str(" as set")?;
    }
    Ok(text)
}

// The page that is drawn on, the margin if it is fitted, the pixels if they are chosen, and whether more is to be said.
fn choice_told(alloc: Global, line: &Line<'_, '_>) -> Result<String, AllocError> {
    let mut text = String::new(alloc);
    text.push_str(if line.choice.asked { "asked" } else { "given" })?;
    if let Some(margin) = line.choice.margin {
        write!(text, " fitted {margin}")?;
    }
    if let Some(pixels) = line.choice.pixels {
        write!(text, " in {pixels}")?;
    }
    if line.verbose {
        text.push_str(" verbose")?;
    }
    Ok(text)
}

fn page_of(task: &Task) -> Page {
    match task {
        Task::Picture(Picture::Rows { job, .. }) => job.page,
        Task::Picture(Picture::Png(job)) => job.page,
        Task::Picture(Picture::Vector(job)) => job.page,
        Task::Report(page) => *page,
    }
}

// What is said, and to whom.
fn messages_told(alloc: Global, line: &Line<'_, '_>) -> Result<String, AllocError> {
    let mut text = String::new(alloc);
    text.push_str("says")?;
    for (is, name) in [
        (line.verbose, "verbose"),
        (line.progress, "progress"),
        (line.remarks, "remarks"),
        (line.quiet, "quiet"),
        (line.interactive, "interactive"),
    ] {
        if is {
            write!(text, " {name}")?;
        }
    }
    Ok(text)
}

// Where the output goes, and the files.
fn files_told(alloc: Global, output: Option<&str>, files: &[&str]) -> Result<String, AllocError> {
    let mut text = format!(in alloc; "{output:?} of")?;
    for file in files {
        write!(text, " {file:?}")?;
    }
    Ok(text)
}

// The page, the resolution, the smoothing, the pens and the file.
fn png_told(alloc: Global, job: &PngJob, file: Option<&str>) -> Result<String, AllocError> {
    let page = job.page;
    let (width, height, left, below) = (page.width, page.height, page.left, page.below);
    let (dots, times) = (job.dots.per_inch(), job.smoothing.times());
    let pens = pens_told(alloc, &job.pens)?;
    format!(in alloc; "png {width} {height} {left} {below} {dots} {times} {pens} of {file:?}")
}

// The format, the page, the pens, how labels are written, and the file.
fn vector_told(alloc: Global, job: &VectorJob, file: Option<&str>) -> Result<String, AllocError> {
    let format = match job.format {
        VectorFormat::Pdf => "pdf",
        VectorFormat::Svg => "svg",
        VectorFormat::Dxf => "dxf",
    };
    let page = job.page;
    let (width, height, left, below) = (page.width, page.height, page.left, page.below);
    let pens = pens_told(alloc, &job.pens)?;
    let labels = job.labels;
    format!(in alloc; "{format} {width} {height} {left} {below} {pens} {labels:?} of {file:?}")
}

// The form, with its smoothing if there is one, or the numbers in the order of the manual page, the most rows, if they are
// said, the pens and the file.
fn job_told(
    alloc: Global,
    job: &Job,
    rows: RowChoice,
    file: Option<&str>,
) -> Result<String, AllocError> {
    let page = job.page;
    let (width, height, left, below) = (page.width, page.height, page.left, page.below);
    let (form, dots, band, first) = (
        name_of(job.form),
        job.dots.per_inch(),
        job.band,
        job.first_row,
    );
    let pens = pens_told(alloc, &job.pens)?;
    let times = rows.smoothing.times();
    if times > 1 {
        return format!(in alloc; "{form} smoothed {times} {dots} {pens}");
    }
    let most = most_told(alloc, rows.most_rows)?;
    format!(in alloc;
        "{form} {width} {height} {left} {below} {dots} {band} {first} {most}{pens} of {file:?}"
    )
}

fn most_told(alloc: Global, most_rows: Option<u32>) -> Result<String, AllocError> {
    match most_rows {
        Some(most) => format!(in alloc; "most {most} "),
        None => Ok(String::new(alloc)),
    }
}

fn name_of(form: Form) -> &'static str {
    match form {
        Form::Marks => "marks",
        Form::Pbm => "pbm",
        Form::Ppm => "ppm",
        Form::Pcl => "pcl",
    }
}

fn list_told(alloc: Global, list: &str) -> Result<String, AllocError> {
    match read_pens(list) {
        Some(pens) => pens_told(alloc, &pens),
        None => format!(in alloc; "no list"),
    }
}

// Each run of pens from 0 to 255, by its first and its last pen.
fn pens_told(alloc: Global, pens: &PenSet) -> Result<String, AllocError> {
    let mut text = String::new(alloc);
    text.push_str("pens")?;
    let mut was = false;
    for pen in 0..=255u8 {
        let is = pens.has(pen);
        if is && !was {
            write!(text, " {pen}")?;
        }
        if was && !is {
            let last = pen.saturating_sub(1);
            write!(text, "-{last}")?;
        }
        was = is;
    }
    if was {
        text.push_str("-255")?;
    }
    Ok(text)
}
