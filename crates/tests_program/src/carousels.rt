use crate::line_cases::{Asked, has_answers, has_answers_for_each};
use std::test::Fail;

// Each place where the colour or the width of a pen is not that of the pen before it.
const COMMANDS: [&str; 7] = ["draw", "png", "marks", "pbm", "ppm", "pcl", "report"];

const COLOURS_AND_WIDTHS: &str = "\
pens
plotraster|@

pens 2 rgb 255 0 0, 3 as set
plotraster|@|--colours|2=red
plotraster|@|--colors=2=#F00
plotraster|@|a.plt|--colours=2=ff0000

pens 1 rgb 0 0 0, 2 rgb 255 136 0, 3 rgb 0 0 0
plotraster|@|--colours=all=black,2=#f80

pens 1 rgb 0 0 0
plotraster|@|--colors|2=#f80,all=black

pens 3 wide 224, 8 as set
plotraster|@|--widths=3-7=0.35

pens 1 wide 448, 2 wide 0, 3 wide 448
plotraster|@|--widths|1-255=.7,2=0

pens 254 wide 12800, 255 rgb 192 192 192 wide 12800
plotraster|@|--widths=254-255=20|--colours=255=Silver

pens 1 rgb 0 128 0, 2 rgb 0 128 0 wide 640, 3 rgb 0 128 0
plotraster|@|--widths=2=1|--colors=all=green
";

#[test]
fn colours_and_widths(rt: HostRuntime) -> Result<(), Fail> {
    let cases = COLOURS_AND_WIDTHS;
    has_answers_for_each(&rt, rt.alloc(), Asked::Carousel, &COMMANDS, cases, 10)
}

const BAD_LISTS: &str = "\
Colours(\"2=bleu\")
plotraster|@|--colours|2=bleu
plotraster|@|--colors=1=red,2=bleu,3=gray,4=x
plotraster|@|--widths=3=fat|--colours=2=bleu

Colours(\"\")
plotraster|@|--colours=
plotraster|@|--colours=1=red,

Colours(\"0=red\")
plotraster|@|--colours=0=red

Colours(\"0.35\")
plotraster|@|--colours=0.35

Widths(\"3=fat\")
plotraster|@|--widths=3=fat
plotraster|@|--colours=2=blue|--widths=1=1,3=fat

Widths(\"all=20.1\")
plotraster|@|--widths|all=20.1

Widths(\"2=red\")
plotraster|@|--widths=2=red

ArgumentConflict 2
plotraster|@|--colours=1=red|--colours=2=red
plotraster|@|--colours=1=red|--colors=1=red
plotraster|@|--widths=1=1|--widths=1=1

InvalidValue 2
plotraster|@|--colours
plotraster|@|--widths

UnknownArgument 2
plotraster|@|--color=1=red
plotraster|@|--width=64|--pen-colours=1=red
";

#[test]
fn bad_lists(rt: HostRuntime) -> Result<(), Fail> {
    has_answers_for_each(&rt, rt.alloc(), Asked::Carousel, &COMMANDS, BAD_LISTS, 18)
}

const ORDER_OF_FAULTS: &str = "\
Form
plotraster|draw|--form=gif|--pens=0|--colours=x

Pens
plotraster|pcl|--colours=x|--pens=0|--widths=x

Colours(\"x\")
plotraster|draw|--widths=y|--colours=x|--form=pbm|--smooth=2
plotraster|ppm|--colours=x|--dots=1200|--smooth=2
plotraster|report|--colours=x|--page=none

Widths(\"y\")
plotraster|draw|--widths=y|--form=pbm|--smooth=2
plotraster|png|--widths=y|--dots=1200|--smooth=2
plotraster|report|--widths=y|--page=none|--sheet=x
plotraster|pbm|--widths=y|a.plt|b.plt

Shades
plotraster|draw|--widths=1=1|--colours=1=red|--form=pbm|--smooth=2
";

#[test]
fn order_of_faults(rt: HostRuntime) -> Result<(), Fail> {
    has_answers(&rt, rt.alloc(), Asked::Carousel, "", ORDER_OF_FAULTS, 10)
}
