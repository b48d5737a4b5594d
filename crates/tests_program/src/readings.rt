use crate::line_cases::{Asked, has_answers, has_answers_for_each};
use std::test::Fail;

// All subcommands: each has both options.
const COMMANDS: [&str; 6] = ["png", "marks", "pbm", "ppm", "pcl", "report"];

const PROFILES_AND_SHEETS: &str = "\
Core
plotraster|@
plotraster|@|--profile|core

Full { sheet: 1, encoding: ByPlot }
plotraster|@|--profile=full
plotraster|@|--profile=full|--sheet=1

Full { sheet: 0, encoding: ByPlot }
plotraster|@|--profile|full|--sheet|0
plotraster|@|--profile=full|--sheet=-0

Full { sheet: 2, encoding: ByPlot }
plotraster|@|--sheet=2|--profile=full

Full { sheet: 3, encoding: ByPlot }
plotraster|@|--sheet|+03|a.plt|--profile|full

Full { sheet: 4194304, encoding: ByPlot }
plotraster|@|--profile=full|--sheet=4194304
";

#[test]
fn profiles_and_sheets(rt: HostRuntime) -> Result<(), Fail> {
    let cases = PROFILES_AND_SHEETS;
    has_answers_for_each(&rt, rt.alloc(), Asked::Reading, &COMMANDS, cases, 9)
}

const EACH_SHEET: &str = "\
Full { sheet: 0, encoding: ByPlot } each
plotraster|@|--sheet=each|--profile=full|-o|out
plotraster|@|--profile=full|a.plt|--output|out/|--sheet|each|b.plt

NoFolder
plotraster|@|--sheet=each|--profile=full
plotraster|@|--sheet=each|--profile=full|a.plt|b.plt
plotraster|@|--sheet=each|--profile=full|--margin=1

Sheet
plotraster|@|--sheet=each|-o|out
plotraster|@|--sheet=each|--profile=core

Profile
plotraster|@|--sheet=each|--profile=none

Margin
plotraster|@|--sheet=each|--profile=full|-o|out|--margin=1
";

#[test]
fn each_sheet(rt: HostRuntime) -> Result<(), Fail> {
    let names = ["png", "marks", "pbm", "ppm", "pcl"];
    has_answers_for_each(&rt, rt.alloc(), Asked::Reading, &names, EACH_SHEET, 9)
}

const NO_PICTURE: &str = "\
NoPicture
plotraster|report|--sheet=each|--profile=full
plotraster|report|--sheet=each|--profile=full|-o|out|--margin=1

Sheet
plotraster|report|--sheet=each|-o|out

Full { sheet: 0, encoding: ByPlot } each
plotraster|draw|--sheet=each|-o|out

Full { sheet: 0, encoding: ByPlot }
plotraster|report|--sheet=0|--profile=full
plotraster|draw|--sheet=0
";

#[test]
fn each_sheet_of_a_picture(rt: HostRuntime) -> Result<(), Fail> {
    has_answers(&rt, rt.alloc(), Asked::Reading, "", NO_PICTURE, 6)
}

const NO_SHEETS: &str = "\
BadSheet
plotraster|@|--sheet=4194305|--profile=full
plotraster|@|--sheet=-1|--profile=full
plotraster|@|--sheet=|--profile=full
plotraster|@|--sheet=all|--profile=full
plotraster|@|--sheet=4294967297|--profile=full
plotraster|@|--sheet=18446744073709551617|--profile=full
plotraster|@|--sheet=1.0|--profile=full
plotraster|@|--sheet= 1|--profile=full
plotraster|@|--sheet=Each|--profile=full|-o|out
plotraster|@|--sheet=each |--profile=full|-o|out
plotraster|@|--sheet=+each|--profile=full
plotraster|@|--sheet=x
plotraster|@|--sheet=x|--profile=none
";

#[test]
fn no_sheets(rt: HostRuntime) -> Result<(), Fail> {
    has_answers_for_each(&rt, rt.alloc(), Asked::Reading, &COMMANDS, NO_SHEETS, 13)
}

const SHEETS_WITHOUT_FULL: &str = "\
Sheet
plotraster|@|--sheet|2
plotraster|@|--sheet=0
plotraster|@|--profile|core|--sheet|1
plotraster|@|--sheet=1|--profile=core
";

#[test]
fn sheets_without_full(rt: HostRuntime) -> Result<(), Fail> {
    let cases = SHEETS_WITHOUT_FULL;
    has_answers_for_each(&rt, rt.alloc(), Asked::Reading, &COMMANDS, cases, 4)
}

const NO_PROFILES: &str = "\
Profile
plotraster|@|--profile||--left=1
plotraster|@|--profile||--sheet=1
plotraster|@|--profile|Core|--left=1
plotraster|@|--profile|Core|--sheet=1
plotraster|@|--profile|FULL|--left=1
plotraster|@|--profile|FULL|--sheet=1
plotraster|@|--profile|cor|--left=1
plotraster|@|--profile|cor|--sheet=1
plotraster|@|--profile|fuller|--left=1
plotraster|@|--profile|fuller|--sheet=1
plotraster|@|--profile|core |--left=1
plotraster|@|--profile|core |--sheet=1
plotraster|@|--profile| full|--left=1
plotraster|@|--profile| full|--sheet=1
plotraster|@|--profile|0|--left=1
plotraster|@|--profile|0|--sheet=1
plotraster|@|--profile|all|--left=1
plotraster|@|--profile|all|--sheet=1
";

#[test]
fn no_profiles(rt: HostRuntime) -> Result<(), Fail> {
    has_answers_for_each(&rt, rt.alloc(), Asked::Reading, &COMMANDS, NO_PROFILES, 18)
}

const THE_LIST_OF_PENS_COMES_FIRST: &str = "\
Pens
plotraster|pbm|--profile=none|--pens=0
plotraster|pbm|--sheet=2|--pens=0

Sheet
plotraster|pbm|--sheet=2|--pens=1
";

#[test]
fn the_list_of_pens_comes_first(rt: HostRuntime) -> Result<(), Fail> {
    let cases = THE_LIST_OF_PENS_COMES_FIRST;
    has_answers(&rt, rt.alloc(), Asked::Reading, "", cases, 3)
}

const REFUSED_BY_THE_PARSE: &str = "\
ArgumentConflict 2
plotraster|@|--sheet=1|--sheet=1
plotraster|@|--sheet=1|--sheet=2
plotraster|@|--profile=full|--profile=full
plotraster|@|--profile=core|--profile=full

InvalidValue 2
plotraster|@|--profile=full|--sheet
plotraster|@|--sheet=1|--profile

UnknownArgument 2
plotraster|@|--profile=full|--sheets=1
";

#[test]
fn refused_by_the_parse(rt: HostRuntime) -> Result<(), Fail> {
    let cases = REFUSED_BY_THE_PARSE;
    has_answers_for_each(&rt, rt.alloc(), Asked::Reading, &COMMANDS, cases, 7)
}
