use crate::line_cases::{Asked, has_answers, has_answers_for_each};
use command_line::{BuildFault, Destination, LineFault, parse_status, settle};
use std::alloc::{AllocError, Global};
use std::test::Fail;

// The subcommands that write a picture in a form.
const PICTURES: [&str; 4] = ["marks", "pbm", "ppm", "pcl"];

const DEFAULTS_OF_A_PICTURE: &str = "\
@ 11880 8400 0 0 100 64 0 pens 1-255 of None
plotraster|@
";

#[test]
fn defaults_of_a_picture(rt: HostRuntime) -> Result<(), Fail> {
    let cases = DEFAULTS_OF_A_PICTURE;
    has_answers_for_each(&rt, rt.alloc(), Asked::Line, &PICTURES, cases, 1)
}

const DEFAULTS_OF_A_REPORT: &str = "\
report 11880 8400 0 0 of None
plotraster|report
";

#[test]
fn defaults_of_a_report(rt: HostRuntime) -> Result<(), Fail> {
    has_answers(&rt, rt.alloc(), Asked::Line, "", DEFAULTS_OF_A_REPORT, 1)
}

const ONE_NUMBER: &str = "\
@ 64 8400 0 0 100 64 0 pens 1-255 of None
plotraster|@|--width|64

@ 11880 65536 0 0 100 64 0 pens 1-255 of None
plotraster|@|--height|65536

@ 11880 8400 3 0 100 64 0 pens 1-255 of None
plotraster|@|--left|3

@ 11880 8400 0 4 100 64 0 pens 1-255 of None
plotraster|@|--below|+4

@ 11880 8400 0 0 1200 64 0 pens 1-255 of None
plotraster|@|--dots|1200

@ 11880 8400 0 0 100 8 0 pens 1-255 of None
plotraster|@|--band|8

@ 11880 8400 0 0 100 64 99999 pens 1-255 of None
plotraster|@|--from|99999
";

#[test]
fn an_option_sets_only_its_number(rt: HostRuntime) -> Result<(), Fail> {
    has_answers_for_each(&rt, rt.alloc(), Asked::Line, &PICTURES, ONE_NUMBER, 7)
}

const ALL_OPTIONS_OF_A_PICTURE: &str = "\
ppm 64 65536 3 4 1200 8 99999 pens 2-4 9-9 of None
plotraster|ppm|--width|64|--height=65536|--left|3|--below|4|--dots|1200|--pens=2-4,9|--band|8|--from|99999
";

#[test]
fn all_options_of_a_picture(rt: HostRuntime) -> Result<(), Fail> {
    let cases = ALL_OPTIONS_OF_A_PICTURE;
    has_answers(&rt, rt.alloc(), Asked::Line, "", cases, 1)
}

const ALL_OPTIONS_OF_A_REPORT: &str = "\
report 65536 64 3 65536 of None
plotraster|report|--below=65536|--left|3|--height|64|--width|65536
";

#[test]
fn all_options_of_a_report(rt: HostRuntime) -> Result<(), Fail> {
    let cases = ALL_OPTIONS_OF_A_REPORT;
    has_answers(&rt, rt.alloc(), Asked::Line, "", cases, 1)
}

const LISTS_OF_PENS: &str = "\
@ 11880 8400 0 0 100 64 0 pens 1-1 of None
plotraster|@|--pens|1

@ 11880 8400 0 0 100 64 0 pens 255-255 of None
plotraster|@|--pens|255

@ 11880 8400 0 0 100 64 0 pens 1-1 3-3 5-7 of None
plotraster|@|--pens|1,3,5-7

@ 11880 8400 0 0 100 64 0 pens 1-2 of None
plotraster|@|--pens|2,2,1-2
";

#[test]
fn lists_of_pens(rt: HostRuntime) -> Result<(), Fail> {
    has_answers_for_each(&rt, rt.alloc(), Asked::Line, &PICTURES, LISTS_OF_PENS, 4)
}

const NO_LISTS_OF_PENS: &str = "\
Pens
plotraster|@|--pens||--dots|10
plotraster|@|--pens|0|--dots|10
plotraster|@|--pens|7-5|--dots|10
plotraster|@|--pens|256|--dots|10
plotraster|@|--pens|1,|--dots|10
plotraster|@|--pens| 1|--dots|10
plotraster|@|--pens|ALL|--dots|10
plotraster|@|--pens|all,1|--dots|10
";

#[test]
fn no_lists_of_pens(rt: HostRuntime) -> Result<(), Fail> {
    let cases = NO_LISTS_OF_PENS;
    has_answers_for_each(&rt, rt.alloc(), Asked::Line, &PICTURES, cases, 8)
}

const NAMES_OF_FILES: &str = "\
pbm 11880 8400 0 0 100 64 0 pens 1-255 of Some(\"plan.plt\")
plotraster|pbm|plan.plt

ppm 11880 8400 0 0 100 64 0 pens 1-255 of Some(\"-\")
plotraster|ppm|-

report 11880 8400 0 0 of Some(\"report\")
plotraster|report|report

report 11880 8400 0 0 of Some(\"--left\")
plotraster|report|--|--left

marks 11880 8400 0 0 100 64 0 pens 1-255 of None
plotraster|marks

pbm 11880 8400 0 0 10 64 0 pens 1-255 of Some(\"\")
plotraster|pbm||--dots|10
";

#[test]
fn names_of_files(rt: HostRuntime) -> Result<(), Fail> {
    has_answers(&rt, rt.alloc(), Asked::Line, "", NAMES_OF_FILES, 6)
}

const REFUSED: &str = "\
MissingSubcommand 2
plotraster

InvalidSubcommand 2
plotraster|mark
plotraster|help
plotraster|version

UnknownArgument 2
plotraster|pbm|-V
plotraster|--dots|100|pbm
plotraster|pbm|--dot|100
plotraster|report|--dots|100
plotraster|report|--pens|1
plotraster|png|--form|png
plotraster|draw|--band|64
plotraster|draw|--from|0

ArgumentConflict 2
plotraster|pbm|--dots|100|--dots|100
plotraster|pbm|--pens|1|--pens|1
plotraster|report|--left|1|--left|1

InvalidValue 2
plotraster|ppm|--pens
";

#[test]
fn refuses_words(rt: HostRuntime) -> Result<(), Fail> {
    has_answers(&rt, rt.alloc(), Asked::Line, "", REFUSED, 16)
}

// The options with a number.
const NUMBERS: [&str; 7] = [
    "--width", "--height", "--left", "--below", "--dots", "--band", "--from",
];

const NO_NUMBERS: &str = "\
ValueValidation 2
plotraster|pbm|@=
plotraster|pbm|@=ten
plotraster|pbm|@=10.5
plotraster|pbm|@=99999999999999999999
";

const OUT_OF_RANGE: &str = "\
ValueValidation 2
plotraster|pbm|--width=63
plotraster|pbm|--width=524289
plotraster|pbm|--height=63
plotraster|pbm|--height=524289
plotraster|pbm|--left=-1
plotraster|pbm|--left=65537
plotraster|pbm|--below=-1
plotraster|pbm|--below=65537
plotraster|pbm|--dots=9
plotraster|pbm|--dots=1201
plotraster|pbm|--band=0
plotraster|pbm|--band=4097
plotraster|pbm|--from=-1
plotraster|pbm|--from=400000
";

#[test]
fn refuses_numbers_out_of_range(rt: HostRuntime) -> Result<(), Fail> {
    has_answers_for_each(&rt, rt.alloc(), Asked::Line, &NUMBERS, NO_NUMBERS, 4)?;
    has_answers(&rt, rt.alloc(), Asked::Line, "", OUT_OF_RANGE, 14)
}

const HELP: &str = "\
DisplayHelp 0
plotraster|--help
plotraster|-h|ppm
plotraster|marks|--help
plotraster|pbm|-h
plotraster|ppm|plan.plt|--help
plotraster|pcl|--help
plotraster|draw|--help
plotraster|draw|-h|-o|plan.svg
plotraster|png|--help
plotraster|report|--help
plotraster|report|--left|1|-h
";

#[test]
fn asks_for_help(rt: HostRuntime) -> Result<(), Fail> {
    has_answers(&rt, rt.alloc(), Asked::Line, "", HELP, 11)
}

const VERSION: &str = "\
DisplayVersion 0
plotraster|--version
plotraster|-V
plotraster|-V|pbm
";

#[test]
fn asks_for_the_version(rt: HostRuntime) -> Result<(), Fail> {
    has_answers(&rt, rt.alloc(), Asked::Line, "", VERSION, 3)
}

#[test]
fn want_of_memory(rt: HostRuntime) {
    assert_eq!(rt; parse_status(&clap::Error::from(AllocError)), 4);
}

// The fault of the matches of another command, whose subcommand has this name.
fn fault_of_another(alloc: Global, name: &str) -> Result<String, Fail> {
    let below = clap::Command::new(alloc, name);
    let other = clap::Command::new(alloc, "other").subcommand(below)?;
    let words = ["other", name];
    let matches = other.try_get_matches_from(&words)?;
    let fault = settle(&matches, Destination::File).err();
    Ok(format!(in alloc; "{fault:?}")?)
}

#[test]
fn refuses_other_matches(rt: HostRuntime) -> Result<(), Fail> {
    let bare = clap::Command::new(rt.alloc(), "bare");
    let matches = bare.try_get_matches_from(&["bare"])?;
    assert_eq!(rt;
        settle(&matches, Destination::File).err(),
        Some(LineFault::Words)
    );
    for name in ["draw", "pbm", "report", "clip"] {
        let fault = fault_of_another(rt.alloc(), name)?;
        assert_eq!(rt; fault.as_str(), "Some(Words)", "{name}");
    }
    Ok(())
}

#[test]
fn prints_faults(rt: HostRuntime) -> Result<(), Fail> {
    let (words, pens, size) = (LineFault::Words, LineFault::Pens, LineFault::Size);
    let (profile, sheet) = (LineFault::Profile, LineFault::Sheet);
    let (margin, several, memory) = (LineFault::Margin, LineFault::Several, BuildFault::Memory);
    let texts = format!(in rt.alloc();
        "{words}, {pens}, {size}, {profile}, {sheet}, {margin}, {several}, {memory}"
    )?;
    assert_eq!(rt;
        texts.as_str(),
        "words not understood, bad pen list, --page may not be given with --width or --height, bad profile, \
         --sheet needs --profile full, --margin needs --fit, several plots need --output FOLDER, out of memory"
    );
    let text = format!(in rt.alloc(); "{}", LineFault::Shades)?;
    assert_eq!(rt; text.as_str(), "--smooth needs the form png or ppm");
    let text = format!(in rt.alloc(); "{}", LineFault::Form)?;
    assert_eq!(rt;
        text.as_str(),
        "no such form of picture: use png, pdf, svg, dxf, ppm, pbm, pcl or marks, after --form or as the extension of the output file"
    );
    let text = format!(in rt.alloc(); "{}", LineFault::Smooth)?;
    assert_eq!(rt; text.as_str(), "--dots times --smooth is over 1200");
    let texts = format!(in rt.alloc();
        "{}, {}, {}, {}, {}, {}, {}",
        LineFault::Colours("2=bleu"),
        LineFault::Widths("3=fat"),
        LineFault::BadSheet,
        LineFault::NoPicture,
        LineFault::NoFolder,
        LineFault::Pixels,
        LineFault::PrinterPixels
    )?;
    assert_eq!(rt;
        texts.as_str(),
        "bad colours: 2=bleu, bad widths: 3=fat, bad sheet: use a number from 0 to 4194304, or each, \
         --sheet each needs a picture, --sheet each needs --output FOLDER, --size may not be given with --dots, \
         --size may not be given with the form pcl"
    );
    let text = format!(in rt.alloc(); "{}", LineFault::Paper)?;
    assert_eq!(rt;
        text.as_str(),
        "bad page: use a0 to a5, b4, letter, legal, tabloid, ansi-a to ansi-e, arch-d or arch-e, one of these with -portrait, or plot"
    );
    Ok(())
}
