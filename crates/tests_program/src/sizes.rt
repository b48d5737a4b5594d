use crate::line_cases::{Asked, has_answers, has_answers_for_each};
use std::test::Fail;

const SIZES: &str = "\
11880 8400 0 0 asked fitted 5 in 800
plotraster|draw|--size=800
plotraster|draw|--size|+800|a.plt

11880 8400 0 0 asked fitted 5 in 16
plotraster|draw|--size=16

16800 11880 0 0 given in 20000
plotraster|draw|--size=20000|--page=a3

11880 8400 0 0 given fitted 7 in 640
plotraster|draw|--page=a4|--fit|--margin=7|--size=640

Pixels
plotraster|draw|--size=800|--dots=150
plotraster|draw|--dots=1200|--size=20000|--smooth=8
plotraster|draw|--size=800|--dots=150|-o|plan.pcl
plotraster|draw|--size=800|--dots=150|--page=a4|--margin=1

PrinterPixels
plotraster|draw|--size=800|--form=pcl
plotraster|draw|--size=800|-o|plan.pcl
plotraster|draw|--size=800|--form=pcl|--page=a4|--margin=1

Shades
plotraster|draw|--size=800|--dots=150|--form=pbm|--smooth=2

Sheet
plotraster|draw|--size=800|--dots=150|--profile=core|--sheet=1

NoFolder
plotraster|draw|--size=800|--dots=150|--sheet=each

Margin
plotraster|draw|--size=800|--page=a4|--margin=1

Several
plotraster|draw|--size=800|a.plt|b.plt

ValueValidation 2
plotraster|draw|--size=15
plotraster|draw|--size=20001
plotraster|draw|--size=
plotraster|draw|--size=800x600

ArgumentConflict 2
plotraster|draw|--size=800|--size=800
";

#[test]
fn sizes(rt: HostRuntime) -> Result<(), Fail> {
    has_answers(&rt, rt.alloc(), Asked::Size, "", SIZES, 22)
}

const SMOOTHED: &str = "\
png 11880 8400 0 0 150 8 pens 1-255 of None
plotraster|draw|--size=800
plotraster|draw|--size=20000|--smooth=8

png 11880 8400 0 0 150 1 pens 1-255 of None
plotraster|draw|--size=800|--smooth=1

png 11880 8400 0 0 150 3 pens 2-2 of None
plotraster|draw|--size=800|--smooth=3|--pens=2

ppm smoothed 8 150 pens 1-255
plotraster|draw|--size=800|--form=ppm

pbm 11880 8400 0 0 150 64 0 pens 1-255 of None
plotraster|draw|--size=800|-o|plan.pbm

marks 11880 8400 0 0 150 64 0 pens 1-255 of None
plotraster|draw|--size=800|--form=marks
";

#[test]
fn smoothed_by_default(rt: HostRuntime) -> Result<(), Fail> {
    has_answers(&rt, rt.alloc(), Asked::Line, "", SMOOTHED, 7)
}

const ONLY_DRAW: &str = "\
UnknownArgument 2
plotraster|@|--size=800
";

#[test]
fn only_draw_takes_a_size(rt: HostRuntime) -> Result<(), Fail> {
    let names = ["png", "marks", "pbm", "ppm", "pcl", "report"];
    has_answers_for_each(&rt, rt.alloc(), Asked::Line, &names, ONLY_DRAW, 1)
}
