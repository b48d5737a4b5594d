// How a command line has the page turned.
use crate::line_cases::{Asked, has_answers, has_answers_for_each};
use std::test::Fail;

// All subcommands, each of which has the option.
const COMMANDS: [&str; 10] = [
    "draw", "png", "pdf", "svg", "dxf", "marks", "pbm", "ppm", "pcl", "report",
];

const TURNS: &str = "\
None
plotraster|@
plotraster|@|--rotate=0

Quarter
plotraster|@|--rotate=90
plotraster|@|a.plt|--rotate|90

Half
plotraster|@|--fit|--rotate=180

ThreeQuarters
plotraster|@|--rotate=270|--page=a3

BadTurn
plotraster|@|--rotate=
plotraster|@|--rotate=360
plotraster|@|--rotate=-90
plotraster|@|--rotate=090
plotraster|@|--rotate=left

ArgumentConflict 2
plotraster|@|--rotate=90|--rotate=90
";

#[test]
fn turns(rt: HostRuntime) -> Result<(), Fail> {
    has_answers_for_each(&rt, rt.alloc(), Asked::Turn, &COMMANDS, TURNS, 12)
}

const ORDER_OF_FAULTS: &str = "\
Pens
plotraster|pbm|--rotate=1|--pens=0

Paper
plotraster|pbm|--rotate=1|--page=none

Profile
plotraster|ppm|--rotate=1|--profile=none

Pixels
plotraster|draw|--rotate=1|--size=100|--dots=100

Margin
plotraster|report|--rotate=1|--margin=1

BadTurn
plotraster|png|--rotate=1|a.plt|b.plt
";

#[test]
fn order_of_faults(rt: HostRuntime) -> Result<(), Fail> {
    has_answers(&rt, rt.alloc(), Asked::Turn, "", ORDER_OF_FAULTS, 6)
}
