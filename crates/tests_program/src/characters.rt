use crate::line_cases::{Asked, has_answers, has_answers_for_each};
use std::test::Fail;

// All subcommands: each has the option.
const COMMANDS: [&str; 6] = ["png", "marks", "pbm", "ppm", "pcl", "report"];

const NAMES: &str = "\
Full { sheet: 1, encoding: Always(Roman8) }
plotraster|@|--characters=roman-8|--profile=full

Full { sheet: 1, encoding: Always(Latin1) }
plotraster|@|--characters|latin-1|a.plt|--profile|full

Full { sheet: 1, encoding: Always(Windows1252) }
plotraster|@|--profile=full|--characters=windows-1252

Full { sheet: 1, encoding: Always(Pc8) }
plotraster|@|--profile=full|--characters|pc-8

Full { sheet: 2, encoding: Always(Ascii) }
plotraster|@|--profile=full|--sheet=2|--characters=ascii

Full { sheet: 0, encoding: Utf8 }
plotraster|@|--characters=utf-8|--sheet=0|--profile=full
";

#[test]
fn names(rt: HostRuntime) -> Result<(), Fail> {
    has_answers_for_each(&rt, rt.alloc(), Asked::Reading, &COMMANDS, NAMES, 6)
}

const NO_NAMES: &str = "\
BadCharacters
plotraster|@|--characters=|--profile=full
plotraster|@|--characters=utf8|--profile=full
plotraster|@|--characters=UTF-8|--profile=full
plotraster|@|--characters=ascii |--profile=full
plotraster|@|--characters=-ascii|--profile=full
plotraster|@|--characters=latin-|--profile=full
plotraster|@|--characters=latin-11|--profile=full
plotraster|@|--characters=277|--profile=full
plotraster|@|--characters=german
";

#[test]
fn no_names(rt: HostRuntime) -> Result<(), Fail> {
    has_answers_for_each(&rt, rt.alloc(), Asked::Reading, &COMMANDS, NO_NAMES, 9)
}

const WITHOUT_FULL: &str = "\
Characters
plotraster|@|--characters=ascii
plotraster|@|--characters=utf-8|--profile=core
plotraster|@|--characters=ascii|--margin=1

Sheet
plotraster|@|--characters=ascii|--sheet=1

BadSheet
plotraster|@|--characters=x|--sheet=x|--profile=full

BadCharacters
plotraster|@|--characters=x|--sheet=1
plotraster|@|--characters=x|--profile=none

Profile
plotraster|@|--characters=ascii|--profile=none

ArgumentConflict 2
plotraster|@|--characters=ascii|--characters=ascii
plotraster|@|--characters=ascii|--profile=full|--characters=utf-8

InvalidValue 2
plotraster|@|--profile=full|--characters

UnknownArgument 2
plotraster|@|--profile=full|--character=ascii
";

#[test]
fn without_full(rt: HostRuntime) -> Result<(), Fail> {
    has_answers_for_each(&rt, rt.alloc(), Asked::Reading, &COMMANDS, WITHOUT_FULL, 12)
}

const OF_DRAW: &str = "\
Full { sheet: 1, encoding: Utf8 }
plotraster|draw|--characters=utf-8

Full { sheet: 0, encoding: Always(Latin1) } each
plotraster|draw|--characters=latin-1|--sheet=each|-o|out

BadCharacters
plotraster|draw|--characters=latin1

Characters
plotraster|draw|--characters=latin-1|--profile=core

NoFolder
plotraster|draw|--characters=latin-1|--sheet=each
";

#[test]
fn of_draw(rt: HostRuntime) -> Result<(), Fail> {
    has_answers(&rt, rt.alloc(), Asked::Reading, "", OF_DRAW, 5)
}
