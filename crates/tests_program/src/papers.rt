use crate::line_cases::{Asked, has_answers, has_answers_for_each};
use std::test::Fail;

// All subcommands: each has the option.
const COMMANDS: [&str; 7] = ["draw", "png", "marks", "pbm", "ppm", "pcl", "report"];

const PAPERS_IN_LANDSCAPE: &str = "\
report 47560 33640 0 0 of None
plotraster|report|--page|a0

report 33640 23760 0 0 of None
plotraster|report|--page|a1

report 23760 16800 0 0 of None
plotraster|report|--page|a2

report 16800 11880 0 0 of None
plotraster|report|--page|a3

report 11880 8400 0 0 of None
plotraster|report|--page|a4

report 8400 5920 0 0 of None
plotraster|report|--page|a5

report 14120 10000 0 0 of None
plotraster|report|--page|b4

report 11176 8636 0 0 of None
plotraster|report|--page|letter
plotraster|report|--page|ansi-a

report 14224 8636 0 0 of None
plotraster|report|--page|legal

report 17272 11176 0 0 of None
plotraster|report|--page|tabloid
plotraster|report|--page|ansi-b

report 22352 17272 0 0 of None
plotraster|report|--page|ansi-c

report 34544 22352 0 0 of None
plotraster|report|--page|ansi-d

report 44704 34544 0 0 of None
plotraster|report|--page|ansi-e

report 36576 24384 0 0 of None
plotraster|report|--page|arch-d

report 48768 36576 0 0 of None
plotraster|report|--page|arch-e
";

#[test]
fn papers_in_landscape(rt: HostRuntime) -> Result<(), Fail> {
    has_answers(&rt, rt.alloc(), Asked::Line, "", PAPERS_IN_LANDSCAPE, 17)
}

const PAPERS_IN_PORTRAIT: &str = "\
report 33640 47560 0 0 of None
plotraster|report|--page=a0-portrait

report 23760 33640 0 0 of None
plotraster|report|--page=a1-portrait

report 16800 23760 0 0 of None
plotraster|report|--page=a2-portrait

report 11880 16800 0 0 of None
plotraster|report|--page=a3-portrait

report 8400 11880 0 0 of None
plotraster|report|--page=a4-portrait

report 5920 8400 0 0 of None
plotraster|report|--page=a5-portrait

report 10000 14120 0 0 of None
plotraster|report|--page=b4-portrait

report 8636 11176 0 0 of None
plotraster|report|--page=letter-portrait
plotraster|report|--page=ansi-a-portrait

report 8636 14224 0 0 of None
plotraster|report|--page=legal-portrait

report 11176 17272 0 0 of None
plotraster|report|--page=tabloid-portrait
plotraster|report|--page=ansi-b-portrait

report 17272 22352 0 0 of None
plotraster|report|--page=ansi-c-portrait

report 22352 34544 0 0 of None
plotraster|report|--page=ansi-d-portrait

report 34544 44704 0 0 of None
plotraster|report|--page=ansi-e-portrait

report 24384 36576 0 0 of None
plotraster|report|--page=arch-d-portrait

report 36576 48768 0 0 of None
plotraster|report|--page=arch-e-portrait
";

#[test]
fn papers_in_portrait(rt: HostRuntime) -> Result<(), Fail> {
    has_answers(&rt, rt.alloc(), Asked::Line, "", PAPERS_IN_PORTRAIT, 17)
}

const PAPERS_OF_PICTURES: &str = "\
pbm 11880 8400 0 0 100 64 0 pens 1-255 of None
plotraster|pbm|--page|a4
plotraster|pbm|--width|11880|--height|8400

ppm 8636 11176 3 4 100 64 0 pens 1-255 of Some(\"plan.plt\")
plotraster|ppm|--left=3|--page=letter-portrait|plan.plt|--below=4

marks 48768 36576 0 0 10 64 0 pens 2-2 of None
plotraster|marks|--dots=10|--page=arch-e|--pens=2

pcl 8400 5920 0 0 100 64 0 pens 1-255 of Some(\"a4\")
plotraster|pcl|a4|--page|a5
";

#[test]
fn papers_of_pictures(rt: HostRuntime) -> Result<(), Fail> {
    has_answers(&rt, rt.alloc(), Asked::Line, "", PAPERS_OF_PICTURES, 5)
}

const NO_PAPERS: &str = "\
Paper
plotraster|@|--page||--left=1
plotraster|@|--page=-portrait
plotraster|@|--page|a4-|--left=1
plotraster|@|--page|a4-landscape|--left=1
plotraster|@|--page|a4-portrait-portrait|--left=1
plotraster|@|--page|A4|--left=1
plotraster|@|--page|a6|--left=1
plotraster|@|--page|a|--left=1
plotraster|@|--page|4|--left=1
plotraster|@|--page| a4|--left=1
plotraster|@|--page|a4 |--left=1
plotraster|@|--page|a4portrait|--left=1
plotraster|@|--page|portrait|--left=1
plotraster|@|--page|letter-Portrait|--left=1
plotraster|@|--page|ansi|--left=1
plotraster|@|--page|ansi-f|--left=1
plotraster|@|--page|arch-a|--left=1
plotraster|@|--page|a4,a5|--left=1
plotraster|@|--page|297x210|--left=1
plotraster|@|--page|\u{e9}|--left=1
";

#[test]
fn no_papers(rt: HostRuntime) -> Result<(), Fail> {
    has_answers_for_each(&rt, rt.alloc(), Asked::Line, &COMMANDS, NO_PAPERS, 20)
}

const PAPERS_WITH_A_SIDE: &str = "\
Size
plotraster|@|--page=a4|--width=11880
plotraster|@|--height|8400|--page|a4
plotraster|@|--width=8400|--page=a4-portrait|--height=11880

Paper
plotraster|@|--page=a6|--width=11880
plotraster|@|--height=64|--page=
";

#[test]
fn papers_with_a_side(rt: HostRuntime) -> Result<(), Fail> {
    let cases = PAPERS_WITH_A_SIDE;
    has_answers_for_each(&rt, rt.alloc(), Asked::Line, &COMMANDS, cases, 5)
}

const ORDER_OF_FAULTS: &str = "\
Pens
plotraster|pbm|--page=a6|--pens=0
plotraster|ppm|--page=a4|--width=64|--pens=0

Paper
plotraster|report|--page=a6|--profile=none
plotraster|marks|--page=a6|--sheet=1

Size
plotraster|pcl|--page=a4|--width=64|--profile=none
plotraster|report|--page=a4|--height=64|--sheet=1

Profile
plotraster|report|--page=a4|--profile=none

Sheet
plotraster|pbm|--page=a4|--sheet=1
";

#[test]
fn order_of_faults(rt: HostRuntime) -> Result<(), Fail> {
    has_answers(&rt, rt.alloc(), Asked::Line, "", ORDER_OF_FAULTS, 8)
}

const REFUSED_BY_THE_PARSE: &str = "\
ArgumentConflict 2
plotraster|@|--page=a4|--page=a4
plotraster|@|--page|a4|--page|a5
plotraster|@|--width=64|--width=64

InvalidValue 2
plotraster|@|--left=1|--page

ValueValidation 2
plotraster|@|--page=a6|--width=63

UnknownArgument 2
plotraster|@|--paper=a4
";

#[test]
fn refused_by_the_parse(rt: HostRuntime) -> Result<(), Fail> {
    let cases = REFUSED_BY_THE_PARSE;
    has_answers_for_each(&rt, rt.alloc(), Asked::Line, &COMMANDS, cases, 6)
}
