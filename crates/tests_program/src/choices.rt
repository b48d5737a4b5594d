use crate::line_cases::{Asked, has_answers, has_answers_for_each};
use std::test::Fail;

const COMMANDS: [&str; 6] = ["png", "marks", "pbm", "ppm", "pcl", "report"];

const FITTED_PAGES: &str = "\
given
plotraster|@
plotraster|@|--page=a0|a.plt

given fitted 1
plotraster|@|--fit
plotraster|@|a.plt|--fit|--page|a0
plotraster|@|--fit|--width=64|--margin=+1

given fitted 0
plotraster|@|--margin=0|--fit
plotraster|@|--fit|--margin=-0

given fitted 100
plotraster|@|--fit|--margin|100

Margin
plotraster|@|--margin=1
plotraster|@|--margin|0|a.plt

ArgumentConflict 2
plotraster|@|--fit|--fit
plotraster|@|--margin=1|--fit|--margin=1

TooManyValues 2
plotraster|@|--fit=1

ValueValidation 2
plotraster|@|--fit|--margin=101
plotraster|@|--fit|--margin=1.5
";

#[test]
fn fitted_pages(rt: HostRuntime) -> Result<(), Fail> {
    has_answers_for_each(&rt, rt.alloc(), Asked::Page, &COMMANDS, FITTED_PAGES, 15)
}

const SAYING_MORE: &str = "\
given verbose
plotraster|@|--verbose
plotraster|@|a.plt|--verbose

given fitted 2 verbose
plotraster|@|--fit|--verbose|--margin=2

ArgumentConflict 2
plotraster|@|--verbose|--verbose
";

#[test]
fn saying_more(rt: HostRuntime) -> Result<(), Fail> {
    has_answers_for_each(&rt, rt.alloc(), Asked::Page, &COMMANDS, SAYING_MORE, 4)
}

const ORDER_OF_FAULTS: &str = "\
Pens
plotraster|pbm|--margin=1|--pens=0

Paper
plotraster|pbm|--margin=1|--page=none

Size
plotraster|report|--margin=1|--page=a4|--width=64

Profile
plotraster|ppm|--margin=1|--profile=none

Sheet
plotraster|pcl|--margin=1|--sheet=2

Margin
plotraster|marks|--margin=1|--profile=full|--sheet=2

UnknownArgument 2
plotraster|report|--progress
";

#[test]
fn order_of_faults(rt: HostRuntime) -> Result<(), Fail> {
    has_answers(&rt, rt.alloc(), Asked::Page, "", ORDER_OF_FAULTS, 7)
}

const PAGES_ASKED_FOR: &str = "\
asked
plotraster|@|--page=plot
plotraster|@|a.plt|--page|plot|--left=5|--below=6

Size
plotraster|@|--page=plot|--width=11880
plotraster|@|--fit|--height|64|--page=plot

Paper
plotraster|@|--page=plot-portrait
plotraster|@|--page=Plot
plotraster|@|--page|plots|--fit

asked fitted 1
plotraster|@|--fit|--page=plot
plotraster|@|--page|plot|--margin=1|a.plt|--fit

asked fitted 7
plotraster|@|--page=plot|--fit|--margin=7|--below=5

Profile
plotraster|@|--page=plot|--fit|--profile=none

Margin
plotraster|@|--page=plot|--margin=1
";

#[test]
fn pages_asked_for(rt: HostRuntime) -> Result<(), Fail> {
    has_answers_for_each(&rt, rt.alloc(), Asked::Page, &COMMANDS, PAGES_ASKED_FOR, 12)
}

const DEFAULT_PAGE: &str = "\
report 11880 8400 5 6 of None
plotraster|report|--page=plot|--left=5|--below=6
";

#[test]
fn the_page_without_a_size(rt: HostRuntime) -> Result<(), Fail> {
    has_answers(&rt, rt.alloc(), Asked::Line, "", DEFAULT_PAGE, 1)
}
