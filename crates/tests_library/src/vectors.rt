//! Vector documents, by the call that the program makes.
use crate::streams::{Reader, Writer};
use plotraster::{
    Carousel, Encoding, Fault, LabelChoice, Naming, Outcome, OverRead, OverWrite, Page, PageChoice,
    PenSet, Picture, Reading, Request, Setup, Task, Turn, Unwatched, VectorFormat, VectorJob,
    draw_sheets, naming_of, number, run_task, status, write_sheet,
};
use std::alloc::Global;
use std::test::Fail;

// Three sheets: lines of two pens on the first one, of which the second pen's is off the page in part, one line on the second,
// and a sheet without lines before the last one.
const SHEETS: &[u8] =
    b"SP1;PU0,20;PD64,20,64,30;SP2;PU60,0;PD70,0;PG;SP1;PU32,0;PD32,64;PG;PG;PU1,2;PD3,4;";

// All sheets.
pub const ALL: Reading = Reading::Full {
    sheet: 0,
    encoding: Encoding::ByPlot,
};

pub const HEAD: &str = "<?xml version=\"1.0\" encoding=\"UTF-8\"?>\n\
<svg xmlns=\"http://www.w3.org/2000/svg\" width=\"1.6mm\" height=\"1.6mm\" viewBox=\"0 0 1024 1024\">\n\
<g fill=\"none\" stroke-linecap=\"round\" stroke-linejoin=\"round\">\n";

const FIRST: &str =
    "<path class=\"pen1\" stroke=\"#000000\" stroke-width=\"224\" d=\"M0 704l1024 0l0 -160\"/>\n";

const OF_PEN_2: &str =
    "<path class=\"pen2\" stroke=\"#ff0000\" stroke-width=\"224\" d=\"M960 1024l160 0\"/>\n";

const SECOND: &str =
    "<path class=\"pen1\" stroke=\"#000000\" stroke-width=\"224\" d=\"M512 1024L512 0\"/>\n";

pub const FOOT: &str = "</g></svg>\n";

// A job on a small page, with labels as texts.
pub fn job_of(format: VectorFormat, pens: PenSet) -> Result<VectorJob, Fail> {
    Ok(VectorJob {
        format,
        page: Page::new(64, 64, 0, 0)?,
        pens,
        labels: LabelChoice::Text,
    })
}

// What a run answers, and what its writer took.
#[derive(Drop)]
pub struct Answered {
    pub answer: Result<Outcome, Fault>,
    pub writer: Writer,
}

// A run of a job on a plot.
pub fn run(
    alloc: Global,
    reading: Reading,
    job: VectorJob,
    naming: Naming<'_>,
    plot: &[u8],
    writer: Writer,
) -> Answered {
    let (sink, answer) = run_task(
        alloc,
        Setup {
            reading,
            carousel: &Carousel::empty(),
            choice: PageChoice::GIVEN,
            turn: Turn::None,
            counts: false,
        },
        &Task::Picture(Picture::Vector(job)),
        naming,
        &mut OverRead::new(Reader::new(plot)),
        OverWrite::new(writer),
        &mut Unwatched,
    );
    Answered {
        answer,
        writer: sink.into_inner(),
    }
}

// The text of these parts, one after another.
pub fn joined(alloc: Global, parts: &[&str]) -> Result<String, Fail> {
    let mut text = String::new(alloc);
    for part in parts {
        text.push_str(part)?;
    }
    Ok(text)
}

#[test]
fn groups_of_sheets(rt: HostRuntime) -> Result<(), Fail> {
    let alloc = rt.alloc();
    let job = job_of(VectorFormat::Svg, PenSet::all())?;
    let run = run(
        alloc,
        ALL,
        job,
        naming_of("plan.plt"),
        SHEETS,
        Writer::new(alloc),
    );
    let [one, two, three] = [
        "<g id=\"sheet-1\">\n",
        "</g>\n<g id=\"sheet-2\">\n",
        "</g>\n<g id=\"sheet-3\">\n",
    ];
    let third =
        "<path class=\"pen1\" stroke=\"#000000\" stroke-width=\"224\" d=\"M16 992L48 960\"/>\n</g>\n";
    let want = joined(
        alloc,
        &[HEAD, one, FIRST, OF_PEN_2, two, SECOND, three, third, FOOT],
    )?;
    assert_eq!(rt; str::from_utf8(run.writer.bytes.as_slice())?, want.as_str());
    let outcome = run.answer?;
    assert_eq!(rt;
        (outcome.done.rows, outcome.done.strokes, outcome.sheets),
        (0, 5, 3)
    );
    Ok(())
}

#[test]
fn one_sheet_has_no_group(rt: HostRuntime) -> Result<(), Fail> {
    let alloc = rt.alloc();
    let job = job_of(VectorFormat::Svg, PenSet::none().with(1))?;
    let want = joined(alloc, &[HEAD, FIRST, FOOT])?;
    let reading = Reading::Full {
        sheet: 1,
        encoding: Encoding::ByPlot,
    };
    let first = run(
        alloc,
        reading,
        job,
        naming_of(""),
        SHEETS,
        Writer::new(alloc),
    );
    assert_eq!(rt;
        str::from_utf8(first.writer.bytes.as_slice())?,
        want.as_str()
    );
    // A sheet of a drawing of all sheets is the same.
    let picture = Picture::Vector(job);
    let setup = Setup {
        reading: ALL,
        carousel: &Carousel::empty(),
        choice: PageChoice::GIVEN,
        turn: Turn::None,
        counts: false,
    };
    let request = Request::new(setup, &picture, naming_of(""))?;
    let drawing = draw_sheets(alloc, &request, &mut OverRead::new(Reader::new(SHEETS)))?;
    let (sink, outcome) = write_sheet(
        alloc,
        &request,
        &drawing,
        1,
        OverWrite::new(Writer::new(alloc)),
        &mut Unwatched,
    );
    assert_eq!(rt; outcome?.done.strokes, 3);
    let written = sink.into_inner();
    assert_eq!(rt; str::from_utf8(written.bytes.as_slice())?, want.as_str());
    Ok(())
}

// How often a text stands in a document.
pub fn count_of(document: &[u8], text: &[u8]) -> usize {
    let mut count: usize = 0;
    for at in 0..document.len() {
        let starts = match document.get(at..) {
            Some(rest) => rest.starts_with(text),
            None => false,
        };
        if starts {
            count = count.saturating_add(1);
        }
    }
    count
}

// A page for each sheet with lines, the layers of the pens that draw them, and the title.
#[test]
fn pages_of_sheets(rt: HostRuntime) -> Result<(), Fail> {
    let alloc = rt.alloc();
    let job = job_of(VectorFormat::Pdf, PenSet::all())?;
    for (reading, plot, pages, layers) in [
        (ALL, SHEETS, 3, 2),
        (Reading::Core, SHEETS, 1, 2),
        (ALL, b"PG;SP1;PG;".as_slice(), 1, 0),
        (ALL, b"SP3;PU1,1;PD2,2;PG;".as_slice(), 1, 1),
        (Reading::Core, b"".as_slice(), 1, 0),
    ] {
        let run = run(
            alloc,
            reading,
            job,
            naming_of("a.plt"),
            plot,
            Writer::new(alloc),
        );
        run.answer?;
        let document = run.writer.bytes.as_slice();
        assert_eq!(rt; count_of(document, b"/Type/Page/"), pages);
        assert_eq!(rt; count_of(document, b"/Type/OCG/"), layers);
        assert_eq!(rt; count_of(document, b"/Title<FEFF0061002e0070006c0074>"), 1);
    }
    Ok(())
}

// The layers of each sheet, and the lines in them.
#[test]
fn layers_of_sheets(rt: HostRuntime) -> Result<(), Fail> {
    let alloc = rt.alloc();
    let job = job_of(VectorFormat::Dxf, PenSet::all())?;
    let run = run(alloc, ALL, job, naming_of("a"), SHEETS, Writer::new(alloc));
    run.answer?;
    let document = run.writer.bytes.as_slice();
    for text in [
        b"LAYER\n2\nS1_PEN_1\n".as_slice(),
        b"LAYER\n2\nS1_PEN_2\n",
        b"LAYER\n2\nS2_PEN_1\n",
        b"LAYER\n2\nS3_PEN_1\n",
        b"LINE\n8\nS2_PEN_1\n10\n0.8\n20\n0\n11\n0.8\n21\n1.6\n",
    ] {
        assert_eq!(rt; count_of(document, text), 1);
    }
    assert_eq!(rt; count_of(document, b"\nLAYER\n"), 6);
    Ok(())
}

// The page around a line, whose corner is at (23,23).
#[test]
fn fitted_documents(rt: HostRuntime) -> Result<(), Fail> {
    let alloc = rt.alloc();
    let choice = PageChoice {
        margin: Some(0),
        ..PageChoice::GIVEN
    };
    let svg = "width=\"2.85mm\" height=\"1.6mm\" viewBox=\"0 0 1824 1024\"";
    let line = "d=\"M112 912l1600 0\"";
    for (format, texts) in [
        (VectorFormat::Svg, [svg, line]),
        (
            VectorFormat::Pdf,
            ["/MediaBox[0 0 8.079 4.535]", "/Producer(plotraster "],
        ),
        (
            VectorFormat::Dxf,
            [
                "$EXTMAX\n10\n2.85\n20\n1.6\n",
                "LINE\n8\nPEN_1\n10\n0.175\n20\n0.175\n11\n2.675\n21\n0.175\n",
            ],
        ),
    ] {
        let mut source = OverRead::new(Reader::new(b"SP1;PU30,30;PD130,30;"));
        let (sink, answer) = run_task(
            alloc,
            Setup {
                reading: Reading::Core,
                carousel: &Carousel::empty(),
                choice,
                turn: Turn::None,
                counts: false,
            },
            &Task::Picture(Picture::Vector(job_of(format, PenSet::all())?)),
            naming_of(""),
            &mut source,
            OverWrite::new(Writer::new(alloc)),
            &mut Unwatched,
        );
        assert_eq!(rt; answer?.done.bytes, 0);
        let written = sink.into_inner();
        for text in texts {
            assert_eq!(rt;
                count_of(written.bytes.as_slice(), text.as_bytes()),
                1,
                "{text}"
            );
        }
        assert_eq!(rt; count_of(written.bytes.as_slice(), b"(plotraster )"), 0);
    }
    Ok(())
}

// A title that is too long is left out, and so is an empty one.
#[test]
fn titles(rt: HostRuntime) -> Result<(), Fail> {
    let alloc = rt.alloc();
    let job = job_of(VectorFormat::Pdf, PenSet::all())?;
    let mut long = String::new(alloc);
    for _ in 0..900 {
        long.push_str("x")?;
    }
    let longest = run(
        alloc,
        ALL,
        job,
        naming_of(long.as_str()),
        b"",
        Writer::new(alloc),
    );
    assert_eq!(rt; count_of(longest.writer.bytes.as_slice(), b"/Title"), 1);
    long.push_str("x")?;
    for title in ["", long.as_str()] {
        let run = run(alloc, ALL, job, naming_of(title), b"", Writer::new(alloc));
        assert_eq!(rt; count_of(run.writer.bytes.as_slice(), b"/Title"), 0);
    }
    Ok(())
}

#[test]
fn a_document_broken_off_anywhere(rt: HostRuntime) -> Result<(), Fail> {
    let alloc = rt.alloc();
    for format in [VectorFormat::Svg, VectorFormat::Pdf] {
        let job = job_of(format, PenSet::all())?;
        let whole = run(alloc, ALL, job, naming_of("a"), SHEETS, Writer::new(alloc));
        whole.answer?;
        for room in 0..whole.writer.bytes.len() {
            let mut writer = Writer::new(alloc);
            writer.room = room;
            let run = run(alloc, ALL, job, naming_of("a"), SHEETS, writer);
            let Err(fault) = run.answer else {
                return Err("it is not broken off".into());
            };
            assert_eq!(rt;
                (fault, status(&fault), number(&fault)),
                (Fault::Unfinished, 3, 7)
            );
            assert!(rt;
                Some(run.writer.bytes.as_slice()) == whole.writer.bytes.as_slice().get(..room),
                "{room}"
            );
        }
    }
    Ok(())
}

// Nothing is written of a plot that is refused, and no pixels are needed.
#[test]
fn refused_plots(rt: HostRuntime) -> Result<(), Fail> {
    let alloc = rt.alloc();
    let choice = PageChoice {
        pixels: Some(100),
        ..PageChoice::GIVEN
    };
    for format in [VectorFormat::Svg, VectorFormat::Pdf, VectorFormat::Dxf] {
        let job = job_of(format, PenSet::all())?;
        let mut source = OverRead::new(Reader::new(b"SP1;PD8388607,8388607;"));
        let (sink, answer) = run_task(
            alloc,
            Setup {
                reading: Reading::Core,
                carousel: &Carousel::empty(),
                choice,
                turn: Turn::None,
                counts: false,
            },
            &Task::Picture(Picture::Vector(job)),
            naming_of(""),
            &mut source,
            OverWrite::new(Writer::new(alloc)),
            &mut Unwatched,
        );
        assert!(rt; matches!(answer, Err(Fault::Plot(_))));
        assert!(rt; sink.into_inner().bytes.is_empty());
    }
    Ok(())
}
