use crate::line_cases::{Asked, has_answers_for_each};
use std::test::Fail;

// All subcommands: each has the option.
const COMMANDS: [&str; 7] = ["draw", "png", "marks", "pbm", "ppm", "pcl", "report"];

const OUTPUTS: &str = "\
None of
plotraster|@

None of \"plan.plt\"
plotraster|@|plan.plt

Some(\"plan.pbm\") of
plotraster|@|--output|plan.pbm
plotraster|@|--output=plan.pbm
plotraster|@|-o|plan.pbm
plotraster|@|-oplan.pbm
plotraster|@|-o=plan.pbm

Some(\"plan.pbm\") of \"plan.plt\"
plotraster|@|plan.plt|-o|plan.pbm
plotraster|@|--output=plan.pbm|plan.plt
plotraster|@|-o|plan.pbm|--|plan.plt

Some(\"-\") of \"-o\"
plotraster|@|-o|-|--|-o

Some(\"\") of
plotraster|@|--output=

ArgumentConflict 2
plotraster|@|-o|a|--output|a
plotraster|@|-oa|-ob
plotraster|@|-oa|b|c|-oa

InvalidValue 2
plotraster|@|plan.plt|-o
plotraster|@|--output
plotraster|@|-o|--left=1

UnknownArgument 2
plotraster|-o|a|@
plotraster|@|-O|a
";

#[test]
fn outputs(rt: HostRuntime) -> Result<(), Fail> {
    has_answers_for_each(&rt, rt.alloc(), Asked::Files, &COMMANDS, OUTPUTS, 20)
}

const SEVERAL_FILES: &str = "\
Some(\"out\") of \"a.plt\" \"b.plt\"
plotraster|@|-o|out|a.plt|b.plt
plotraster|@|a.plt|-oout|b.plt
plotraster|@|a.plt|--left=1|b.plt|--output=out
plotraster|@|a.plt|--output=out|--fit|--|b.plt

Some(\"out\") of \"b.plt\" \"a.plt\" \"b.plt\"
plotraster|@|b.plt|a.plt|--output|out|b.plt

Some(\"\") of \"\" \"--left\" \"-\"
plotraster|@|--output=||--|--left|-

Several
plotraster|@|a.plt|b.plt
plotraster|@|a.plt|a.plt|--fit|--margin=1
plotraster|@|--|a.plt|b.plt|-o|out
plotraster|@|||

Size
plotraster|@|a.plt|b.plt|--page=a4|--width=64

Profile
plotraster|@|a.plt|b.plt|--profile=none

Margin
plotraster|@|a.plt|b.plt|--margin=1|--page=a4

UnknownArgument 2
plotraster|@|a.plt|b.plt|--out
";

#[test]
fn several_files(rt: HostRuntime) -> Result<(), Fail> {
    has_answers_for_each(&rt, rt.alloc(), Asked::Files, &COMMANDS, SEVERAL_FILES, 14)
}
