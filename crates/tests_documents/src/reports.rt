// Reports over a `Vec`, and over sinks that take little or fail.
ghost use Rattle.std.specs.Prelude.{◌≡◌, ◌-◌, ◌^◌, ◌<◌, Some};

use areas::{Area, Areas, Shapes};
use devices::{OverWrite, Sink, SinkFault};
use full_notes::FullNotes;
use hpgl_plot::{NoteKind, Notes};
use plot_page::{Colour, Page, Stroke, Window};
use plot_report::{ReportPage, write_full_report, write_report};
use polygons::Rule;
use std::alloc::Global;
use std::process::Abort;
use std::test::Fail;

// A sink that takes at most `step` bytes a call, and fails after `limit` bytes.
#[derive(Drop)]
struct Narrow {
    bytes: Vec<u8>,
    limit: usize,
    step: usize,
    failures: u64,
    puts: u64,
}

impl Sink for Narrow {
    ghost state = { λ s. record { held = Some s.bytes.items; faults = s.failures } };

    fn put(&mut self, piece: &[u8]) -> Result<usize, SinkFault> {
        self.puts = self.puts.wrapping_add(1);
        let left = self.limit.saturating_sub(self.bytes.len());
        let taken = piece.len().min(self.step).min(left);
        if taken == 0 && !piece.is_empty() {
            self.failures += 1;
            return Err(SinkFault);
        }
        match self.bytes.extend_from_slice(&piece[..taken]) {
            Ok(()) => Ok(taken),
            Err(_) => {
                self.failures += 1;
                Err(SinkFault)
            }
        }
    }

    fn failures(&self) -> u64 {
        self.failures
    }
}

impl Narrow {
    // One that takes at most `step` bytes a call, and does not fail.
    fn new(alloc: Global, step: usize) -> Narrow
        ensures { result.failures ≡ 0 }
    {
        Narrow {
            bytes: Vec::new(alloc),
            limit: usize::MAX,
            step,
            failures: 0,
            puts: 0,
        }
    }
}

const BLACK: Colour = Colour {
    red: 0,
    green: 0,
    blue: 0,
};

// The strokes of some lines: the pen, the width, and both ends.
fn strokes_of(alloc: Global, lines: &str) -> Result<Vec<Stroke>, Fail> {
    let mut strokes = Vec::new(alloc);
    for line in lines.lines() {
        strokes.push(stroke_of(line)?)?;
    }
    Ok(strokes)
}

// The stroke of a line, in a window that is far smaller.
fn stroke_of(line: &str) -> Result<Stroke, Fail> {
    let window = Window {
        x0: 0,
        y0: 0,
        x1: 16,
        y1: 16,
    };
    let mut words = line.split_whitespace();
    let pen = number_of(words.next())?;
    let width = number_of(words.next())?;
    let (ax, ay) = (number_of(words.next())?, number_of(words.next())?);
    let (bx, by) = (number_of(words.next())?, number_of(words.next())?);
    if pen < 0 || 255 < pen || width < 0 {
        return Err("no pen or no width".into());
    }
    Ok(Stroke::new(pen as u8, BLACK, width as u32, window, ax, ay, bx, by).ok_or("no stroke")?)
}

fn number_of(word: Option<&str>) -> Result<i32, Fail> {
    match word.unwrap_or_default().parse::<i32>() {
        Ok(number) => Ok(number),
        Err(_) => Err("no number".into()),
    }
}

// Writes the report on these strokes, and on what is noted in a plot.
fn write<K: Sink>(page: &Page, strokes: &[Stroke], plot: &[u8], sink: &mut K) -> Result<u64, Fail>
    requires { (K.state sink.old).faults < 2 ^ 64 - 1 }
{
    if strokes.len() > 255 || plot.len() > 10_000 {
        return Err("too much for a report".into());
    }
    Ok(write_report(ReportPage::of(page), strokes, Notes::new(plot), sink)?)
}

// Writes the report in the profile full on these strokes and areas, and on what is noted in a plot.
fn write_full<K: Sink>(
    page: &Page,
    sheets: usize,
    shapes: Shapes<'_>,
    plot: &[u8],
    sink: &mut K,
) -> Result<u64, Fail>
    requires { (K.state sink.old).faults < 2 ^ 64 - 1 }
{
    if shapes.strokes.len() > 255 || plot.len() > 10_000 {
        return Err("too much for a report".into());
    }
    Ok(write_full_report(
        ReportPage::of(page),
        sheets,
        shapes,
        &[],
        Notes::new(plot),
        sink,
    )?)
}

// Writes the report without strokes on what is noted in a plot in the profile full, on whose escapes this is noted.
fn write_noted<K: Sink>(
    page: &Page,
    plot: &[u8],
    told: &[Option<NoteKind>],
    sink: &mut K,
) -> Result<u64, Fail>
    requires { (K.state sink.old).faults < 2 ^ 64 - 1 }
{
    if plot.len() > 10_000 {
        return Err("too much for a report".into());
    }
    Ok(write_report(ReportPage::of(page), &[], FullNotes::new(plot, told), sink)?)
}

// Fails unless this is the report with these strokes, and with the notes on a plot.
fn reports(
    rt: &impl Abort,
    alloc: Global,
    page: Page,
    strokes: &str,
    plot: &[u8],
    want: &str,
) -> Result<(), Fail> {
    let strokes = strokes_of(alloc, strokes)?;
    let mut sink = OverWrite::new(Vec::new(alloc));
    let bytes = write(&page, &strokes, plot, &mut sink)?;
    let failures = sink.failures();
    assert_eq!(rt; sink.into_inner().as_slice(), want.as_bytes());
    assert_eq!(rt; (bytes, failures), (want.len() as u64, 0));
    Ok(())
}

// The page of most reports.
fn page() -> Result<Page, Fail> {
    Ok(Page::new(64, 64, 0, 0)?)
}

// The plot SP1;PU0,28;PD64,28;
#[test]
fn one_horizontal_line(rt: HostRuntime) -> Result<(), Fail> {
    let strokes = "1 224 0 448 1024 448";
    let want = "page 64 64 0 0\nstrokes 1\npen 1 strokes 1 widest 224 box 0 448 1024 448\n";
    reports(&rt, rt.alloc(), page()?, strokes, b"", want)
}

// Of the plot PU48,32;PD;AA32,32,37.5; a dot and eight chords.
const ARC: &str = "\
1 224 768 512 768 512
1 224 768 512 767 534
1 224 767 534 764 556
1 224 764 556 759 578
1 224 759 578 753 600
1 224 753 600 744 620
1 224 744 620 734 640
1 224 734 640 722 659
1 224 722 659 715 668
";

#[test]
fn an_arc(rt: HostRuntime) -> Result<(), Fail> {
    let want = "page 64 64 0 0\nstrokes 9\npen 1 strokes 9 widest 224 box 715 512 768 668\n";
    reports(&rt, rt.alloc(), page()?, ARC, b"", want)
}

// A label of one character with two strokes.
#[test]
fn a_letter(rt: HostRuntime) -> Result<(), Fail> {
    let strokes = "1 224 405 1600 405 448\n1 224 0 448 811 448\n";
    let want = "page 64 64 0 0\nstrokes 2\npen 1 strokes 2 widest 224 box 0 448 811 1600\n";
    reports(&rt, rt.alloc(), page()?, strokes, b"", want)
}

// The plot SC0,3,0,8;PU0,3.5;PR;PD1,0,1,0,1,0;
#[test]
fn relative_moves(rt: HostRuntime) -> Result<(), Fail> {
    let strokes = "1 224 0 448 341 448\n1 224 341 448 683 448\n1 224 683 448 1024 448\n";
    let want = "page 64 64 0 0\nstrokes 3\npen 1 strokes 3 widest 224 box 0 448 1024 448\n";
    reports(&rt, rt.alloc(), page()?, strokes, b"", want)
}

#[test]
fn skipped_and_bad(rt: HostRuntime) -> Result<(), Fail> {
    let plot = b"ZZ1,2;CO\"a;b\";PA1";
    let want = "page 64 64 0 0\nstrokes 0\nnote 0 skipped ZZ\nnote 6 skipped CO\nnote 14 bad PA\n";
    reports(&rt, rt.alloc(), page()?, "", plot, want)
}

#[test]
fn each_kind_of_note(rt: HostRuntime) -> Result<(), Fail> {
    let page = Page::new(65_536, 11_880, 65_536, 10)?;
    let plot = b"ZZ;PA1;\xff;PE\x00;DI1,1;LBx";
    let want = "page 65536 11880 65536 10\nstrokes 0\nnote 0 skipped ZZ\nnote 3 bad PA\n\
        note 7 stray 255\nnote 11 stray 0\nnote 13 axis DI\nnote 19 open LB\n";
    reports(&rt, rt.alloc(), page, "", plot, want)
}

// An instruction at the end of a plot that is blank but for it.
#[test]
fn a_note_at_the_last_place(rt: HostRuntime) -> Result<(), Fail> {
    let mut plot = [b' '; 10_000];
    plot[9_998] = b'Z';
    plot[9_999] = b'Z';
    let want = "page 64 64 0 0\nstrokes 0\nnote 9998 skipped ZZ\n";
    reports(&rt, rt.alloc(), page()?, "", &plot, want)
}

// Two pens by turns: the last stroke of each is neither its widest nor at an edge of its box.
const TWO_PENS: &str = "\
255 7 -16 5 20 30
1 10 400 100 300 200
255 12800 -1 1048576 -1048576 -20
1 300 500 -250 600 150
255 0 0 0 0 0
1 224 450 120 350 110
";

const TWO_PENS_REPORT: &str = "\
page 64 64 0 0
strokes 6
pen 1 strokes 3 widest 300 box 300 -250 600 200
pen 255 strokes 3 widest 12800 box -1048576 -20 20 1048576
";

#[test]
fn boxes_and_widths_of_two_pens(rt: HostRuntime) -> Result<(), Fail> {
    reports(&rt, rt.alloc(), page()?, TWO_PENS, b"", TWO_PENS_REPORT)
}

// No box reaches to 0 unless an end does.
#[test]
fn boxes_away_from_zero(rt: HostRuntime) -> Result<(), Fail> {
    let strokes = "3 1 -9 -8 -5 -7\n3 2 -8 -6 -6 -4\n2 3 5 40 6 8\n";
    let want = "page 64 64 0 0\nstrokes 3\npen 2 strokes 1 widest 3 box 5 8 6 40\n\
        pen 3 strokes 2 widest 2 box -9 -8 -5 -4\n";
    reports(&rt, rt.alloc(), page()?, strokes, b"", want)
}

// Each pen has the longest line that it can have with one stroke.
#[test]
fn all_pens(rt: HostRuntime) -> Result<(), Fail> {
    let mut strokes = String::new(rt.alloc());
    let mut want = String::new(rt.alloc());
    want.push_str("page 64 64 0 0\nstrokes 255\n")?;
    for pen in 1..256u32 {
        let last = 256u32.saturating_sub(pen);
        write!(
            strokes,
            "{last} 12800 -1048576 -1048576 -1048575 -1048575\n"
        )?;
        write!(
            want,
            "pen {pen} strokes 1 widest 12800 box -1048576 -1048576 -1048575 -1048575\n"
        )?;
    }
    reports(
        &rt,
        rt.alloc(),
        page()?,
        strokes.as_str(),
        b"",
        want.as_str(),
    )
}

// Fails unless this is the report in the profile full with these strokes and areas, and with the notes on a plot.
fn reports_full(
    rt: &impl Abort,
    alloc: Global,
    sheets: usize,
    strokes: &str,
    areas: Areas<'_>,
    plot: &[u8],
    want: &str,
) -> Result<(), Fail> {
    let strokes = strokes_of(alloc, strokes)?;
    let shapes = Shapes {
        strokes: &strokes,
        areas,
    };
    let mut sink = OverWrite::new(Vec::new(alloc));
    let bytes = write_full(&page()?, sheets, shapes, plot, &mut sink)?;
    let failures = sink.failures();
    assert_eq!(rt; str::from_utf8(sink.into_inner().as_slice())?, want);
    assert_eq!(rt; (bytes, failures), (want.len() as u64, 0));
    Ok(())
}

// In the profile full the sheets follow the page.
#[test]
fn the_line_of_the_sheets(rt: HostRuntime) -> Result<(), Fail> {
    let strokes = "1 224 0 448 1024 448";
    let want = "page 64 64 0 0\nsheets 4194304\nstrokes 1\n\
        pen 1 strokes 1 widest 224 box 0 448 1024 448\nnote 0 skipped ZZ\n";
    reports_full(
        &rt,
        rt.alloc(),
        4_194_304,
        strokes,
        Areas::none(),
        b"ZZ",
        want,
    )
}

// An area with these edges.
fn area(first: usize, end: usize) -> Area
    ensures first { result.first ≡ first }
    ensures end { result.end ≡ end }
{
    Area {
        first,
        end,
        rule: Rule::OddCounts,
    }
}

// The edges of a square from 16 to 48 plotter units.
const SQUARE: &str = "\
1 0 256 256 768 256
1 0 768 256 768 768
1 0 768 768 256 768
1 0 256 768 256 256
";

#[test]
fn a_square(rt: HostRuntime) -> Result<(), Fail> {
    let areas = [area(0, 4)];
    let want = "page 64 64 0 0\nsheets 1\nstrokes 0\nareas 1\n\
        pen 1 areas 1 edges 4 box 256 256 768 768\n";
    reports_full(&rt, rt.alloc(), 1, SQUARE, Areas::all(&areas), b"", want)
}

// A dot in a corner of a square, which the pen of the square drew.
const DOT_AND_SQUARE: &str = "\
1 224 256 256 256 256
1 0 256 256 768 256
1 0 768 256 768 768
1 0 768 768 256 768
1 0 256 768 256 256
";

#[test]
fn a_dot_and_a_square_of_one_pen(rt: HostRuntime) -> Result<(), Fail> {
    let areas = [area(1, 5)];
    let want = "page 64 64 0 0\nsheets 1\nstrokes 1\nareas 1\n\
        pen 1 strokes 1 widest 224 box 256 256 256 256\n\
        pen 1 areas 1 edges 4 box 256 256 768 768\nnote 0 skipped ZZ\n";
    reports_full(
        &rt,
        rt.alloc(),
        1,
        DOT_AND_SQUARE,
        Areas::all(&areas),
        b"ZZ",
        want,
    )
}

// Areas of two pens, one right after another, and strokes before, between and after them.
const MANY: &str = "\
3 5 -7 -6 -5 -4
2 0 10 20 11 19
2 0 11 19 -30 40
2 0 -30 40 10 20
255 0 100 100 110 110
255 0 110 110 90 105
2 0 12 22 13 21
2 0 13 21 50 -60
3 9 0 0 1 1
2 6 1000 1000 2000 -2000
";

const MANY_REPORT: &str = "\
page 64 64 0 0
sheets 2
strokes 3
areas 3
pen 2 strokes 1 widest 6 box 1000 -2000 2000 1000
pen 2 areas 2 edges 5 box -30 -60 50 40
pen 3 strokes 2 widest 9 box -7 -6 1 1
pen 255 areas 1 edges 2 box 90 100 110 110
";

#[test]
fn areas_of_two_pens(rt: HostRuntime) -> Result<(), Fail> {
    let areas = [area(1, 4), area(4, 6), area(6, 8)];
    let areas = Areas::all(&areas);
    reports_full(&rt, rt.alloc(), 2, MANY, areas, b"", MANY_REPORT)
}

// On a sheet that begins after the first three strokes there are the last two areas, counted by its strokes.
#[test]
fn areas_of_a_sheet(rt: HostRuntime) -> Result<(), Fail> {
    let areas = [area(1, 3), area(3, 7), area(8, 9)];
    let strokes = "\
1 0 256 256 768 256
1 0 768 256 768 768
1 0 768 768 256 768
1 0 256 768 256 256
1 3 1 2 3 4
7 0 5 6 7 8
";
    let want = "page 64 64 0 0\nsheets 5\nstrokes 1\nareas 2\n\
        pen 1 strokes 1 widest 3 box 1 2 3 4\n\
        pen 1 areas 1 edges 4 box 256 256 768 768\n\
        pen 7 areas 1 edges 1 box 5 6 7 8\n";
    reports_full(
        &rt,
        rt.alloc(),
        5,
        strokes,
        Areas::between(&areas, 3, 9),
        b"",
        want,
    )
}

// The pen of an area is that of its last edge.
#[test]
fn the_pen_of_the_last_edge(rt: HostRuntime) -> Result<(), Fail> {
    let areas = [area(0, 2)];
    let strokes = "7 0 1 2 3 4\n8 0 3 4 1 2\n";
    let want = "page 64 64 0 0\nsheets 1\nstrokes 0\nareas 1\n\
        pen 8 areas 1 edges 2 box 1 2 3 4\n";
    reports_full(&rt, rt.alloc(), 1, strokes, Areas::all(&areas), b"", want)
}

// An area of which the last edges are missing has those that are there.
#[test]
fn an_area_past_the_last_stroke(rt: HostRuntime) -> Result<(), Fail> {
    let areas = [area(0, 5), area(6, 7)];
    let want = "page 64 64 0 0\nsheets 1\nstrokes 0\nareas 2\n\
        pen 1 areas 1 edges 4 box 256 256 768 768\n";
    reports_full(&rt, rt.alloc(), 1, SQUARE, Areas::all(&areas), b"", want)
}

// Fails unless the report on strokes and a plot, at most `step` bytes a call, is this, and takes so many calls.
fn is_put(
    rt: &impl Abort,
    strokes: &[Stroke],
    plot: &[u8],
    want: &[u8],
    mut sink: Narrow,
    puts: u64,
) -> Result<(), Fail>
    requires { sink.failures ≡ 0 }
{
    let bytes = write(&page()?, strokes, plot, &mut sink)?;
    assert!(rt; sink.bytes.as_slice() == want);
    assert_eq!(rt; (bytes, sink.puts), (want.len() as u64, puts));
    Ok(())
}

// A small report is put whole, or byte by byte.
#[test]
fn small_puts(rt: HostRuntime) -> Result<(), Fail> {
    let strokes = strokes_of(rt.alloc(), TWO_PENS)?;
    let want = TWO_PENS_REPORT.as_bytes();
    is_put(
        &rt,
        &strokes,
        b"",
        want,
        Narrow::new(rt.alloc(), usize::MAX),
        1,
    )?;
    let calls = want.len() as u64;
    is_put(&rt, &strokes, b"", want, Narrow::new(rt.alloc(), 1), calls)
}

// Writes a report into a sink that fails after `limit` bytes, which are the first ones of `whole`.
fn breaks_off(
    rt: &impl Abort,
    alloc: Global,
    strokes: &[Stroke],
    plot: &[u8],
    whole: &[u8],
    limit: usize,
) -> Result<(), Fail> {
    let mut sink = Narrow {
        limit,
        ..Narrow::new(alloc, 1000)
    };
    let bytes = bytes_written(strokes, plot, &mut sink)?;
    assert_eq!(rt; (bytes, sink.failures), (limit as u64, 1));
    assert!(rt; Some(sink.bytes.as_slice()) == whole.get(..limit));
    Ok(())
}

// How many bytes a report wrote until the sink failed.
fn bytes_written(strokes: &[Stroke], plot: &[u8], sink: &mut Narrow) -> Result<u64, Fail>
    requires { sink.old.failures ≡ 0 }
{
    if strokes.len() > 255 || plot.len() > 10_000 {
        return Err("too much for a report".into());
    }
    match write_report(ReportPage::of(&page()?), strokes, Notes::new(plot), sink) {
        Ok(_) => Err("a whole report".into()),
        Err(fault) => Ok(fault.bytes()),
    }
}

// A sink that fails after each number of bytes.
#[test]
fn failing_sinks(rt: HostRuntime) -> Result<(), Fail> {
    let strokes = strokes_of(rt.alloc(), TWO_PENS)?;
    let whole = TWO_PENS_REPORT.as_bytes();
    for limit in 0..whole.len() {
        breaks_off(&rt, rt.alloc(), &strokes, b"", whole, limit)?;
    }
    Ok(())
}

// A plot whose report has more than one piece.
const LONG: [u8; 10_000] = [b'Z'; 10_000];

// Its report.
fn long_report(alloc: Global) -> Result<String, Fail> {
    let mut text = String::new(alloc);
    text.push_str("page 64 64 0 0\nstrokes 0\n")?;
    for half in 0..5_000u32 {
        let at = 2 * half;
        write!(text, "note {at} skipped ZZ\n")?;
    }
    Ok(text)
}

// No line is lost where pieces meet.
#[test]
fn more_than_a_piece(rt: HostRuntime) -> Result<(), Fail> {
    let text = long_report(rt.alloc())?;
    let sink = Narrow::new(rt.alloc(), usize::MAX);
    is_put(&rt, &[], &LONG, text.as_bytes(), sink, 4)
}

#[test]
fn failing_within_later_pieces(rt: HostRuntime) -> Result<(), Fail> {
    let text = long_report(rt.alloc())?;
    for limit in [32_000, 32_768, 33_000, 65_535, 70_000] {
        breaks_off(&rt, rt.alloc(), &[], &LONG, text.as_bytes(), limit)?;
    }
    Ok(())
}

#[test]
fn notes_on_escapes(rt: HostRuntime) -> Result<(), Fail> {
    let mut sink = OverWrite::new(Vec::new(rt.alloc()));
    let told = [Some(NoteKind::Bad), Some(NoteKind::Skipped), None];
    let plot = b"\x1b*t5R\x1b*c5P\x1b*b\x1b9ZZ;";
    write_noted(&page()?, plot, &told, &mut sink)?;
    let want = "page 64 64 0 0\nstrokes 0\nnote 0 bad ESC\nnote 5 skipped ESC\nnote 10 stray 27\n\
                note 11 stray 42\nnote 12 stray 98\nnote 15 skipped ZZ\n";
    assert_eq!(&rt; sink.into_inner().as_slice(), want.as_bytes());
    Ok(())
}
