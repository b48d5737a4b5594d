//! The texts of labels in vector documents, by the calls that the program makes.
use crate::streams::{Reader, Writer};
use crate::vectors::{ALL, count_of, job_of, run};
use plotraster::{
    Carousel, Encoding, LabelChoice, OverRead, OverWrite, PageChoice, PenSet, Picture, Reading,
    Request, Setup, Turn, Unwatched, VectorFormat, VectorJob, draw_sheets, naming_of, write_sheet,
};
use std::alloc::Global;
use std::test::Fail;

// Labels of two pens on the first sheet, the second one of two lines, and one on the second sheet.
const LABELLED: &[u8] = b"DT*;SP1;PU0,0;LBA&B*;SP2;LBI\r\nL*;PG;SP1;PU0,0;LBI*;PD9,9;";

const SECOND: Reading = Reading::Full {
    sheet: 2,
    encoding: Encoding::ByPlot,
};

const TITLES: [&str; 3] = [
    "<g><title>A&amp;B</title>\n<path class=\"pen1\"",
    "<g><title>I\nL</title>\n<path class=\"pen2\"",
    "<g><title>I</title>\n<path class=\"pen1\"",
];

#[test]
fn titles_of_groups(rt: HostRuntime) -> Result<(), Fail> {
    let alloc = rt.alloc();
    for (reading, pens, counts) in [
        (ALL, PenSet::all(), [1, 1, 1]),
        (SECOND, PenSet::all(), [0, 0, 1]),
        (ALL, PenSet::none().with(2), [0, 1, 0]),
        (Reading::Core, PenSet::all(), [0, 0, 0]),
    ] {
        let job = job_of(VectorFormat::Svg, pens)?;
        let run = run(
            alloc,
            reading,
            job,
            naming_of(""),
            LABELLED,
            Writer::new(alloc),
        );
        run.answer?;
        for (title, count) in TITLES.into_iter().zip(counts) {
            let found = count_of(run.writer.bytes.as_slice(), title.as_bytes());
            assert_eq!(rt; found, count, "{title}");
        }
    }
    Ok(())
}

// A document of a sheet of a drawing has the labels of the sheet.
#[test]
fn labels_of_one_sheet(rt: HostRuntime) -> Result<(), Fail> {
    let alloc = rt.alloc();
    let picture = Picture::Vector(job_of(VectorFormat::Svg, PenSet::all())?);
    let setup = Setup {
        reading: ALL,
        carousel: &Carousel::empty(),
        choice: PageChoice::GIVEN,
        turn: Turn::None,
        counts: false,
    };
    let request = Request::new(setup, &picture, naming_of(""))?;
    let drawing = draw_sheets(alloc, &request, &mut OverRead::new(Reader::new(LABELLED)))?;
    for (sheet, counts) in [(1, [1, 1, 0]), (2, [0, 0, 1]), (3, [0, 0, 0])] {
        let (sink, outcome) = write_sheet(
            alloc,
            &request,
            &drawing,
            sheet,
            OverWrite::new(Writer::new(alloc)),
            &mut Unwatched,
        );
        outcome?;
        let written = sink.into_inner();
        for (title, count) in TITLES.into_iter().zip(counts) {
            let found = count_of(written.bytes.as_slice(), title.as_bytes());
            assert_eq!(rt; found, count, "{sheet} {title}");
        }
    }
    Ok(())
}

// A PDF has a font for its texts, if a label is shown.
#[test]
fn fonts_of_texts(rt: HostRuntime) -> Result<(), Fail> {
    let alloc = rt.alloc();
    for (reading, pens, count) in [
        (ALL, PenSet::all(), 1),
        (ALL, PenSet::none().with(3), 0),
        (Reading::Core, PenSet::all(), 0),
    ] {
        let job = job_of(VectorFormat::Pdf, pens)?;
        let run = run(
            alloc,
            reading,
            job,
            naming_of(""),
            LABELLED,
            Writer::new(alloc),
        );
        run.answer?;
        let found = count_of(run.writer.bytes.as_slice(), b"/BaseFont/Courier");
        assert_eq!(rt; found, count);
    }
    Ok(())
}

// The document of all that is drawn for one job, written for another.
fn drawn_and_written(alloc: Global, drawn: VectorJob, written: VectorJob) -> Result<Writer, Fail> {
    let setup = Setup {
        reading: ALL,
        carousel: &Carousel::empty(),
        choice: PageChoice::GIVEN,
        turn: Turn::None,
        counts: false,
    };
    let drawn = Picture::Vector(drawn);
    let request = Request::new(setup, &drawn, naming_of(""))?;
    let drawing = draw_sheets(alloc, &request, &mut OverRead::new(Reader::new(LABELLED)))?;
    let written = Picture::Vector(written);
    let request = Request::new(setup, &written, naming_of(""))?;
    let (sink, outcome) = write_sheet(
        alloc,
        &request,
        &drawing,
        0,
        OverWrite::new(Writer::new(alloc)),
        &mut Unwatched,
    );
    outcome?;
    Ok(sink.into_inner())
}

// With labels as strokes a DXF, and any other document, is that of the same strokes without labels, whether the labels were
// kept or not.
#[test]
fn labels_as_strokes(rt: HostRuntime) -> Result<(), Fail> {
    let alloc = rt.alloc();
    for (format, text) in [
        (VectorFormat::Dxf, "\nTEXT\n"),
        (VectorFormat::Svg, "<title>"),
        (VectorFormat::Pdf, "/BaseFont/Courier"),
    ] {
        let as_texts = job_of(format, PenSet::all())?;
        let as_strokes = VectorJob {
            labels: LabelChoice::Strokes,
            ..as_texts
        };
        let texts = drawn_and_written(alloc, as_texts, as_texts)?;
        assert!(rt; count_of(texts.bytes.as_slice(), text.as_bytes()) > 0);
        let plain = drawn_and_written(alloc, as_strokes, as_texts)?;
        for drawn in [as_texts, as_strokes] {
            let strokes = drawn_and_written(alloc, drawn, as_strokes)?;
            assert_eq!(rt; strokes.bytes.as_slice(), plain.bytes.as_slice());
            let found = count_of(strokes.bytes.as_slice(), text.as_bytes());
            assert_eq!(rt; found, 0);
        }
    }
    Ok(())
}
