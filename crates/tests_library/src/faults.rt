//! Faults with their numbers, statuses and texts.
use hpgl_plot::PlotFault;
use hpgl_text::TextFault;
use plotraster::{
    Done, Fault, Outcome, PageFault, Placement, SinkFault, exit_status, number, status,
};
use std::test::Fail;
use stroke_raster::PaintFault;

const FAULTS: [Fault; 12] = [
    Fault::TooLong,
    Fault::Memory,
    Fault::Plot(PlotFault::OffRange { at: 7 }),
    Fault::Plot(PlotFault::TooManyStrokes { at: 40775 }),
    Fault::Paint(PaintFault::Band),
    Fault::Paint(PaintFault::Row),
    Fault::Write {
        row: 5,
        whole: 131,
        bytes: 141,
    },
    Fault::Read,
    Fault::Resolution,
    Fault::Letters,
    Fault::Unturned,
    Fault::Pixels,
];

// The number of each fault, its status, that of a run that stops for it, and its text.
const NUMBERS_AND_TEXTS: &str = "\
1 1 1 plot is longer than 67108864 bytes
2 4 4 out of memory
3 1 1 place off range at byte 7
4 1 1 too many strokes at byte 40775
5 2 2 band height must be 1 to 4096
6 2 2 first row is past the last row
7 3 3 write failed: go on from row 5 after byte 131
8 3 3 read failed
9 2 2 resolution is not one of PCL's
10 2 2 labels have more than 67108864 letters, too many for a PDF
11 2 2 a line leads too far from the page to be turned
12 2 2 the picture has too many pixels
";

#[test]
fn numbers_and_texts(rt: HostRuntime) -> Result<(), Fail> {
    let mut text = String::new(rt.alloc());
    for fault in FAULTS {
        let (its_number, its_status) = (number(&fault), status(&fault));
        let exit = exit_status(&Err(fault));
        write!(text, "{its_number} {its_status} {exit} {fault}\n")?;
    }
    assert_eq!(rt; text.as_str(), NUMBERS_AND_TEXTS);
    let done = Done {
        rows: 8,
        bytes: 15,
        strokes: 2,
        areas: 0,
        images: 0,
        notes: 0,
    };
    let outcome = Outcome {
        done,
        placement: Placement::Given,
        sheets: 0,
        is_off_page: false,
        census: None,
    };
    assert_eq!(rt; exit_status(&Ok(outcome)), 0);
    Ok(())
}

const TEXTS: &str = "\
page width and height must be 64 to 65536
page corner must be 0 to 65536 left and below
the sink takes no bytes
plot is longer than 67108864 bytes
out of memory
out of memory
place off range at byte 7
too many strokes at byte 40775
band height must be 1 to 4096
first row is past the last row
out of memory
";

#[test]
fn texts_of_the_faults_of_each_step(rt: HostRuntime) -> Result<(), Fail> {
    let (size, corner, sink) = (PageFault::Size, PageFault::Corner, SinkFault);
    let (long, no_text) = (TextFault::TooLong, TextFault::Memory);
    let no_drawing = PlotFault::Memory;
    let off_range = PlotFault::OffRange { at: 7 };
    let too_many = PlotFault::TooManyStrokes { at: 40775 };
    let (band, row, no_band) = (PaintFault::Band, PaintFault::Row, PaintFault::Memory);
    let text = format!(in rt.alloc();
        "{size}\n{corner}\n{sink}\n{long}\n{no_text}\n{no_drawing}\n{off_range}\n{too_many}\n{band}\n{row}\n{no_band}\n"
    )?;
    assert_eq!(rt; text.as_str(), TEXTS);
    Ok(())
}
