//! Vector documents.
use crate::line_cases::{Asked, has_answers};
use std::test::Fail;

const DOCUMENTS: &str = "\
pdf 11880 8400 0 0 pens 1-255 Text of None
plotraster|pdf
plotraster|pdf|--page=a4|--fit|--margin=3
plotraster|draw|--form=pdf
plotraster|draw|-o|plan.pdf
plotraster|draw|-o|out.svg/plan.Pdf
plotraster|draw|-o|plan.svg|--form|PDF

svg 11880 8400 0 0 pens 1-255 Text of None
plotraster|svg
plotraster|svg|-o|plan.pdf
plotraster|draw|--form=svg|-o|plan
plotraster|draw|-o|plan.SVG|--progress

pdf 64 65536 3 4 pens 2-4 9-9 Text of Some(\"a.plt\")
plotraster|pdf|--width=64|--height|65536|--left=3|--below=4|--pens|2-4,9|a.plt
plotraster|draw|--form=pdf|--width=64|--height=65536|--left=3|--below=4|--pens=2-4,9|a.plt

svg 8636 11176 0 0 pens 1-255 Text of None
plotraster|svg|--page=letter-portrait

dxf 11880 8400 0 0 pens 1-255 Text of None
plotraster|dxf
plotraster|draw|-o|plan.DXF
plotraster|draw|-o|plan.svg|--form=dxf
";

#[test]
fn documents(rt: HostRuntime) -> Result<(), Fail> {
    has_answers(&rt, rt.alloc(), Asked::Line, "", DOCUMENTS, 16)
}

// They have no pixels: only draw, which may write pictures of pixels, knows of these options.
const NO_PIXELS: &str = "\
NoPixels
plotraster|draw|--form=pdf|--dots=150
plotraster|draw|--form=svg|--size=800
plotraster|draw|-o|plan.pdf|--smooth=1
plotraster|draw|-o|plan.svg|--dots=300|--smooth=8|--page=none
plotraster|draw|-o|plan.svg|--size=800|--dots=300
plotraster|draw|-o|plan.dxf|--smooth=2

Pens
plotraster|pdf|--pens=0
plotraster|draw|-o|plan.svg|--pens=0|--dots=300

Paper
plotraster|svg|--page=none|--sheet=1
plotraster|draw|-o|plan.pdf|--page=none|--profile=none

UnknownArgument 2
plotraster|pdf|--dots=300
plotraster|svg|--smooth=2
plotraster|pdf|--size=800
plotraster|svg|--progress
plotraster|pdf|--band=64
plotraster|svg|--from=0
plotraster|pdf|--form=svg
plotraster|dxf|--dots=300
";

#[test]
fn no_pixels(rt: HostRuntime) -> Result<(), Fail> {
    has_answers(&rt, rt.alloc(), Asked::Line, "", NO_PIXELS, 18)
}

// In a PDF the sheets are pages, and need no folder.
const SHEETS: &str = "\
Full { sheet: 0, encoding: ByPlot }
plotraster|pdf|--profile=full|--sheet=each
plotraster|draw|--form=pdf|--sheet=each
plotraster|draw|-o|plan.pdf|--sheet=each
plotraster|svg|--profile=full|--sheet=0
plotraster|dxf|--profile=full|--sheet=0

Full { sheet: 0, encoding: ByPlot } each
plotraster|svg|--profile=full|--sheet=each|-o|out
plotraster|draw|--form=svg|-o|out|--sheet=each
plotraster|dxf|--profile=full|--sheet=each|-o|out

Full { sheet: 1, encoding: ByPlot }
plotraster|pdf|--profile=full
plotraster|draw|--form=pdf

NoFolder
plotraster|svg|--profile=full|--sheet=each
plotraster|draw|--form=svg|--sheet=each
plotraster|draw|--form=dxf|--sheet=each

Sheet
plotraster|pdf|--sheet=each
";

#[test]
fn sheets(rt: HostRuntime) -> Result<(), Fail> {
    has_answers(&rt, rt.alloc(), Asked::Reading, "", SHEETS, 14)
}
