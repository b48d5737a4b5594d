use crate::line_cases::{Asked, has_answers, told_of_folder};
use std::test::Fail;

const PICTURES: &str = "\
png 11880 8400 0 0 150 4 pens 1-255 of None
plotraster|draw
plotraster|draw|--form=png|--smooth=4|--dots=150
plotraster|draw|--progress|--quiet|--verbose

png 11880 8400 0 0 150 4 pens 1-255 of Some(\"plan.plt\")
plotraster|draw|plan.plt|-o|plan.png

png 64 65536 3 4 300 2 pens 2-4 9-9 of Some(\"a.plt\")
plotraster|draw|--width|64|--height=65536|--left|3|--below|4|--dots|300|--smooth=2|--pens=2-4,9|a.plt

png 8636 11176 0 0 150 4 pens 1-255 of None
plotraster|draw|--page=letter-portrait
";

#[test]
fn pictures(rt: HostRuntime) -> Result<(), Fail> {
    has_answers(&rt, rt.alloc(), Asked::Line, "", PICTURES, 6)
}

const FORMS: &str = "\
png 11880 8400 0 0 150 4 pens 1-255 of None
plotraster|draw|--form|png
plotraster|draw|-o|plan.png
plotraster|draw|-o|plan.PNG
plotraster|draw|-o|plan
plotraster|draw|-o|-
plotraster|draw|-o|
plotraster|draw|-o|out/
plotraster|draw|-o|out.d/
plotraster|draw|-o|plan.pbm/
plotraster|draw|-o|out.d/plan
plotraster|draw|-o|.
plotraster|draw|-o|..
plotraster|draw|-o|../out
plotraster|draw|-o|.pbm
plotraster|draw|-o|out.pbm/.pcl
plotraster|draw|-o|plan.pbm|--form=png
plotraster|draw|-o|plan.svg|--form=PNG

ppm smoothed 4 150 pens 1-255
plotraster|draw|--form=ppm
plotraster|draw|-o|plan.ppm
plotraster|draw|-o|/tmp/plan.v2.Ppm
plotraster|draw|-o|plan.png|--form|ppm

pbm 11880 8400 0 0 150 64 0 pens 1-255 of None
plotraster|draw|--form=pbm
plotraster|draw|--output=plan.pbm
plotraster|draw|-o|out.d/a.pcl.pbm

pcl 11880 8400 0 0 150 64 0 pens 1-255 of None
plotraster|draw|--form=pcl
plotraster|draw|-o|plan.pcl

marks 11880 8400 0 0 150 64 0 pens 1-255 of None
plotraster|draw|--form=Marks
plotraster|draw|-o|plan.marks
plotraster|draw|-o|plan.png|--form=marks
";

#[test]
fn forms(rt: HostRuntime) -> Result<(), Fail> {
    has_answers(&rt, rt.alloc(), Asked::Line, "", FORMS, 29)
}

const NO_FORMS: &str = "\
Form
plotraster|draw|--form=|-o|plan.png
plotraster|draw|--form=gif
plotraster|draw|--form=.png
plotraster|draw|--form|png |-o|plan.png
plotraster|draw|--form=report
plotraster|draw|--form=draw
plotraster|draw|-o|plan.eps
plotraster|draw|-o|plan.txt
plotraster|draw|-o|plan.
plotraster|draw|-o|plan.png.gz
plotraster|draw|-o|plan.jpng
plotraster|draw|-o|plan.pn
plotraster|draw|-o|out.d
plotraster|draw|-o|out.png/a.d
plotraster|draw|-o|plan.eps|--pens=0
plotraster|draw|-o|plan.eps|--page=none|--sheet=1|--profile=core|a.plt|b.plt

Pens
plotraster|draw|-o|plan.pbm|--pens=0|--smooth=2
plotraster|draw|--pens=0|--dots=1200|--smooth=2

ArgumentConflict 2
plotraster|draw|--form=png|--form=png

InvalidValue 2
plotraster|draw|--form
";

#[test]
fn no_forms(rt: HostRuntime) -> Result<(), Fail> {
    has_answers(&rt, rt.alloc(), Asked::Line, "", NO_FORMS, 20)
}

const READINGS: &str = "\
Full { sheet: 1, encoding: ByPlot }
plotraster|draw
plotraster|draw|--sheet=1
plotraster|draw|--profile=full

Full { sheet: 0, encoding: ByPlot }
plotraster|draw|--sheet=0

Full { sheet: 3, encoding: ByPlot }
plotraster|draw|--profile|full|--sheet|3

Core
plotraster|draw|--profile=core

Sheet
plotraster|draw|--profile=core|--sheet=1

Profile
plotraster|draw|--profile=none

ArgumentConflict 2
plotraster|draw|--profile=full|--profile=full
";

#[test]
fn readings(rt: HostRuntime) -> Result<(), Fail> {
    has_answers(&rt, rt.alloc(), Asked::Reading, "", READINGS, 9)
}

const PAGES: &str = "\
11880 8400 0 0 asked fitted 5
plotraster|draw
plotraster|draw|--fit
plotraster|draw|--margin=5|plan.plt

11880 8400 3 4 asked fitted 5
plotraster|draw|--left=3|--below=4

11880 8400 0 0 asked fitted 0 verbose
plotraster|draw|--margin=0|--verbose

11880 8400 0 0 asked fitted 7
plotraster|draw|--fit|--margin=7

11880 8400 0 0 asked
plotraster|draw|--page=plot

11880 8400 0 0 asked fitted 5
plotraster|draw|--page=plot|--fit

11880 8400 0 0 given
plotraster|draw|--page=a4
plotraster|draw|--width=11880
plotraster|draw|--height=8400

16800 11880 0 0 given fitted 5
plotraster|draw|--page=a3|--fit

64 8400 0 0 given fitted 2
plotraster|draw|--width=64|--fit|--margin=2

Margin
plotraster|draw|--page=a4|--margin=5
plotraster|draw|--width=64|--margin=5
plotraster|draw|--height=64|--margin=5
plotraster|draw|--page=plot|--margin=5

Size
plotraster|draw|--page=a4|--width=64|--margin=5
plotraster|draw|--page=plot|--height=64

Paper
plotraster|draw|--page=a6|--margin=5
";

#[test]
fn pages(rt: HostRuntime) -> Result<(), Fail> {
    has_answers(&rt, rt.alloc(), Asked::Size, "", PAGES, 20)
}

const SMOOTHINGS: &str = "\
png 11880 8400 0 0 10 4 pens 1-255 of None
plotraster|draw|--dots=10

png 11880 8400 0 0 300 4 pens 1-255 of None
plotraster|draw|--dots=300

png 11880 8400 0 0 301 3 pens 1-255 of None
plotraster|draw|--dots=301

png 11880 8400 0 0 400 3 pens 1-255 of None
plotraster|draw|--dots=400

png 11880 8400 0 0 401 2 pens 1-255 of None
plotraster|draw|--dots=401

png 11880 8400 0 0 600 2 pens 1-255 of None
plotraster|draw|--dots=600

png 11880 8400 0 0 601 1 pens 1-255 of None
plotraster|draw|--dots=601

png 11880 8400 0 0 1200 1 pens 1-255 of None
plotraster|draw|--dots=1200

png 11880 8400 0 0 150 8 pens 1-255 of None
plotraster|draw|--smooth=8

png 11880 8400 0 0 150 1 pens 1-255 of None
plotraster|draw|--smooth=1

ppm smoothed 3 350 pens 1-255
plotraster|draw|--form=ppm|--dots=350

pcl 11880 8400 0 0 600 64 0 pens 1-255 of None
plotraster|draw|-o|plan.pcl|--dots=600

Smooth
plotraster|draw|--dots=151|--smooth=8
plotraster|draw|--dots=601|--smooth=2|--page=none

Shades
plotraster|draw|-o|plan.pbm|--smooth=1
plotraster|draw|--form=pcl|--smooth=4|--page=none
plotraster|draw|--form=marks|--smooth=8|--dots=1200

ValueValidation 2
plotraster|draw|--smooth=0
plotraster|draw|--smooth=9
plotraster|draw|--dots=9
";

#[test]
fn smoothings(rt: HostRuntime) -> Result<(), Fail> {
    has_answers(&rt, rt.alloc(), Asked::Line, "", SMOOTHINGS, 20)
}

const MESSAGES: &str = "\
says progress remarks interactive
plotraster|draw
plotraster|draw|--progress|plan.plt

says verbose progress remarks interactive
plotraster|draw|--verbose

says quiet interactive
plotraster|draw|--quiet
plotraster|draw|--quiet|--progress

says verbose quiet interactive
plotraster|draw|plan.plt|--quiet|--verbose

ArgumentConflict 2
plotraster|draw|--quiet|--quiet

TooManyValues 2
plotraster|draw|--quiet=1
";

#[test]
fn messages(rt: HostRuntime) -> Result<(), Fail> {
    has_answers(&rt, rt.alloc(), Asked::Messages, "", MESSAGES, 8)
}

const FILES: &str = "\
None of \"a.plt\"
plotraster|draw|a.plt

Some(\"out\") of \"a.plt\" \"b.plt\"
plotraster|draw|a.plt|b.plt|-o|out

Some(\"out.d/\") of \"a.plt\" \"b.plt\"
plotraster|draw|a.plt|-o|out.d/|b.plt

Some(\"out.pbm\") of \"a.plt\" \"b.plt\"
plotraster|draw|a.plt|-o|out.pbm|b.plt

Several
plotraster|draw|a.plt|b.plt
plotraster|draw|a.plt|b.plt|--margin=1

Form
plotraster|draw|a.plt|b.plt|-o|out.d
";

#[test]
fn files(rt: HostRuntime) -> Result<(), Fail> {
    has_answers(&rt, rt.alloc(), Asked::Files, "", FILES, 7)
}

// A folder says no form, whatever its name.
#[test]
fn forms_of_folders(rt: HostRuntime) -> Result<(), Fail> {
    let into_folder = "png 11880 8400 0 0 150 4 pens 1-255 of None";
    for line in [
        "plotraster|draw|-o|pictures.2026",
        "plotraster|draw|-o|out.pdf",
    ] {
        let told = told_of_folder(rt.alloc(), line)?;
        assert_eq!(rt; told.as_str(), into_folder, "{line}");
    }
    let named = told_of_folder(rt.alloc(), "plotraster|draw|-o|out.pdf|--form=png")?;
    assert_eq!(rt; named.as_str(), into_folder);
    Ok(())
}
