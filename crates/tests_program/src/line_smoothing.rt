use crate::line_cases::{Asked, has_answers};
use std::test::Fail;

const PNG_PICTURES: &str = "\
png 11880 8400 0 0 100 1 pens 1-255 of None
plotraster|png
plotraster|png|--smooth=1|--dots=100

png 64 65536 3 4 300 4 pens 2-4 9-9 of Some(\"a.plt\")
plotraster|png|--width|64|--height=65536|--left|3|--below|4|--dots|300|--smooth=4|--pens=2-4,9|a.plt

png 8636 11176 0 0 1200 1 pens 1-255 of None
plotraster|png|--dots=1200|--page=letter-portrait
";

#[test]
fn png_pictures(rt: HostRuntime) -> Result<(), Fail> {
    has_answers(&rt, rt.alloc(), Asked::Line, "", PNG_PICTURES, 4)
}

const SMOOTHED_PICTURES: &str = "\
png 11880 8400 0 0 150 8 pens 1-255 of None
plotraster|png|--dots=150|--smooth=8

png 11880 8400 0 0 600 2 pens 1-255 of None
plotraster|png|--smooth|+2|--dots=600

ppm smoothed 8 10 pens 1-255
plotraster|ppm|--dots=10|--smooth=8

ppm smoothed 3 400 pens 2-2
plotraster|ppm|--smooth=3|--dots=400|--pens=2|--from=7|--band=1
";

#[test]
fn smoothed_pictures(rt: HostRuntime) -> Result<(), Fail> {
    has_answers(&rt, rt.alloc(), Asked::Line, "", SMOOTHED_PICTURES, 4)
}

const REFUSED: &str = "\
Smooth
plotraster|png|--dots=1200|--smooth=2
plotraster|png|--dots=151|--smooth=8
plotraster|ppm|--smooth=3|--dots=401
plotraster|ppm|--smooth=2|--dots=601|--page=a6
plotraster|png|--smooth=2|--dots=601|--sheet=2

Pens
plotraster|png|--dots=1200|--smooth=2|--pens=0
plotraster|png|--page=a6|--pens=0

Paper
plotraster|png|--dots=600|--smooth=2|--page=a6

ValueValidation 2
plotraster|png|--smooth=0
plotraster|png|--smooth=9
plotraster|ppm|--smooth=-1
plotraster|ppm|--smooth=1.5
plotraster|ppm|--smooth=

ArgumentConflict 2
plotraster|png|--smooth=2|--smooth=2

UnknownArgument 2
plotraster|png|--from=0
plotraster|png|--band=64
plotraster|marks|--smooth=1
plotraster|pbm|--smooth=1
plotraster|pcl|--smooth=1
plotraster|report|--smooth=1
";

#[test]
fn refused_smoothing(rt: HostRuntime) -> Result<(), Fail> {
    has_answers(&rt, rt.alloc(), Asked::Line, "", REFUSED, 20)
}
