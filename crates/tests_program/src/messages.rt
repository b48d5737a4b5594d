use crate::line_cases::{Asked, has_answers, has_answers_for_each};
use std::test::Fail;

const PICTURES: [&str; 5] = ["png", "marks", "pbm", "ppm", "pcl"];

const ASKED_FOR: &str = "\
says
plotraster|@
plotraster|@|--fit|a.plt

says verbose
plotraster|@|--verbose|a.plt

says progress
plotraster|@|--progress
plotraster|@|a.plt|--progress|--fit

says verbose progress
plotraster|@|--progress|--verbose
plotraster|@|--verbose|a.plt|--progress

ArgumentConflict 2
plotraster|@|--progress|--progress
plotraster|@|--progress|--verbose|--progress

TooManyValues 2
plotraster|@|--progress=1

UnknownArgument 2
plotraster|@|--quiet
";

#[test]
fn messages_that_are_asked_for(rt: HostRuntime) -> Result<(), Fail> {
    has_answers_for_each(&rt, rt.alloc(), Asked::Messages, &PICTURES, ASKED_FOR, 11)
}

const OF_A_REPORT: &str = "\
says
plotraster|report

says verbose
plotraster|report|--verbose
plotraster|report|a.plt|--verbose|--fit

ArgumentConflict 2
plotraster|report|--verbose|--verbose

UnknownArgument 2
plotraster|report|--progress
plotraster|report|--quiet
";

#[test]
fn messages_of_a_report(rt: HostRuntime) -> Result<(), Fail> {
    has_answers(&rt, rt.alloc(), Asked::Messages, "", OF_A_REPORT, 6)
}
