//! How a DXF is to have labels.
use crate::line_cases::{Asked, has_answers};
use std::test::Fail;

const CHOICES: &str = "\
dxf 11880 8400 0 0 pens 1-255 Strokes of None
plotraster|dxf|--profile=full|--labels=strokes
plotraster|dxf|--labels|strokes|--profile=full|--sheet=0
plotraster|draw|--form=dxf|--labels=strokes
plotraster|draw|-o|plan.dxf|--labels|strokes|--fit
plotraster|draw|-o|plan.svg|--form=DXF|--profile=full|--labels=strokes

dxf 11880 8400 0 0 pens 1-255 Text of None
plotraster|dxf|--profile=full|--labels=text
plotraster|dxf|--profile=full
plotraster|draw|-o|plan.dxf|--labels=text
plotraster|draw|-o|plan.dxf

svg 11880 8400 0 0 pens 1-255 Text of None
plotraster|svg|--profile=full
";

#[test]
fn choices(rt: HostRuntime) -> Result<(), Fail> {
    has_answers(&rt, rt.alloc(), Asked::Line, "", CHOICES, 10)
}

const REFUSED: &str = "\
BadLabels
plotraster|dxf|--profile=full|--labels=
plotraster|dxf|--profile=full|--labels=Text
plotraster|dxf|--profile=full|--labels=stroke
plotraster|dxf|--profile=full|--labels=texts
plotraster|dxf|--labels=both
plotraster|draw|--labels=both
plotraster|draw|--form=dxf|--labels=both|--dots=150|--profile=core

NoTexts
plotraster|draw|--labels=text
plotraster|draw|--form=pdf|--labels=strokes
plotraster|draw|-o|plan.svg|--labels=strokes|--size=800
plotraster|draw|-o|plan.ppm|--labels=text|--profile=core
plotraster|draw|-o|plan.dxf|--form=png|--labels=strokes|--page=none

Labels
plotraster|dxf|--labels=strokes
plotraster|dxf|--labels=text|--profile=core|--page=none
plotraster|draw|-o|plan.dxf|--labels=text|--profile=core|--dots=150

Widths(\"3=fat\")
plotraster|dxf|--labels=both|--widths=3=fat

Pens
plotraster|dxf|--labels=both|--pens=0

Profile
plotraster|dxf|--labels=strokes|--profile=none

NoPixels
plotraster|draw|-o|plan.dxf|--labels=strokes|--dots=150

UnknownArgument 2
plotraster|png|--labels=text
plotraster|pdf|--profile=full|--labels=text
plotraster|svg|--profile=full|--labels=strokes
plotraster|report|--labels=strokes

ArgumentConflict 2
plotraster|dxf|--profile=full|--labels=text|--labels=text

InvalidValue 2
plotraster|dxf|--profile=full|--labels
";

#[test]
fn refused(rt: HostRuntime) -> Result<(), Fail> {
    has_answers(&rt, rt.alloc(), Asked::Line, "", REFUSED, 25)
}
