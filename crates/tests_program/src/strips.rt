// How a command line asks for a strip of a picture's rows.
use crate::line_cases::{Asked, has_answers, has_answers_for_each};
use std::test::Fail;

// The subcommands that write a picture in rows.
const FORMS: [&str; 4] = ["marks", "pbm", "ppm", "pcl"];

const OTHERS: [&str; 6] = ["draw", "png", "pdf", "svg", "dxf", "report"];

const STRIPS: &str = "\
pbm 64 8400 0 0 100 64 0 pens 1-255 of None
plotraster|pbm|--width=64

pbm 64 8400 0 0 100 64 0 most 1 pens 1-255 of None
plotraster|pbm|--width=64|--rows=1
plotraster|pbm|--rows|1|--width|64
plotraster|pbm|--width=64|--rows=+01

pbm 64 8400 0 0 100 64 7 most 400000 pens 1-255 of Some(\"a.plt\")
plotraster|pbm|--width=64|--from=7|--rows=400000|a.plt
";

#[test]
fn strips(rt: HostRuntime) -> Result<(), Fail> {
    has_answers(&rt, rt.alloc(), Asked::Line, "", STRIPS, 5)
}

const RANGE: &str = "\
ValueValidation 2
plotraster|@|--rows=0
plotraster|@|--rows=400001
plotraster|@|--rows=-1
plotraster|@|--rows=1.5
plotraster|@|--rows=all

ArgumentConflict 2
plotraster|@|--rows=1|--rows=1
";

#[test]
fn range(rt: HostRuntime) -> Result<(), Fail> {
    has_answers_for_each(&rt, rt.alloc(), Asked::Line, &FORMS, RANGE, 6)
}

const NONE: &str = "\
UnknownArgument 2
plotraster|@|--rows=1
";

#[test]
fn commands_without_strips(rt: HostRuntime) -> Result<(), Fail> {
    has_answers_for_each(&rt, rt.alloc(), Asked::Line, &OTHERS, NONE, 1)
}
