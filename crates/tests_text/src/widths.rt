use crate::pen_cases::{Asked, has_answers, has_none};
use std::test::Fail;

const WIDTHS: &str = "\
2=224 3=none
2=0.35
2=.35
2=00.350
2=0.3500000

255=640
255=1
255=1.
255=1.0
255=01

2=0 3=none
2=0
2=0.
2=.0
2=000.000

2=12800 3=none
2=20
2=20.
2=20.000000
2=20.0000009
2=000000000000000000020

2=448 3=none
2=0.7
";

#[test]
fn widths(rt: HostRuntime) -> Result<(), Fail> {
    has_answers(&rt, rt.alloc(), Asked::Widths, WIDTHS, 18)
}

const ROUNDED: &str = "\
2=0 3=none
2=0.000781
2=0.0007819

2=1 3=none
2=0.000782

2=225 3=none
2=0.3515625

2=12799 3=none
2=19.999218

2=12800 3=none
2=19.999219
";

#[test]
fn rounded_widths(rt: HostRuntime) -> Result<(), Fail> {
    has_answers(&rt, rt.alloc(), Asked::Widths, ROUNDED, 6)
}

const PENS_OF_WIDTHS: &str = "\
3=320 8=none
3-7=0.5
7=.5,3-6=.5
3-7=1,3-7=0.5

1=640
all=1
1-255=1

1=640 2=320 3=640
all=1,2=0.5
all=3,2=3,all=1,002=.5

2=640 3=1280 5=none
2=1,3-4=2
2-4=2,2=1
";

#[test]
fn pens_of_widths(rt: HostRuntime) -> Result<(), Fail> {
    has_answers(&rt, rt.alloc(), Asked::Widths, PENS_OF_WIDTHS, 9)
}

const BAD_WIDTHS: &str = "\
bad 2=20.0001
2=20.0001
1=1,2=20.0001
2=20.0001,3=21
2=20.0001,1=1

bad 2=
2=
2=,1=1

bad 2
2
2,1=1
1=1,2,3

bad 1=1=1
1=1=1

bad 5
1=1,5

bad  2=1
1=1, 2=1

bad 0=1
0=1
1=1,0=1,
";

const WRONG_WIDTHS: [&str; 24] = [
    ".",
    "..",
    "-1",
    "-0",
    "+1",
    "+.5",
    "20.000001",
    "20.1",
    "21",
    "200",
    "8388608",
    "99999999999999999999",
    "1..2",
    "1.2.3",
    "1e1",
    "0x1",
    "1mm",
    "1.5mm",
    " 1",
    "1 ",
    "1;",
    "a",
    "/",
    ":",
];

#[test]
fn bad_widths(rt: HostRuntime) -> Result<(), Fail> {
    has_answers(&rt, rt.alloc(), Asked::Widths, BAD_WIDTHS, 14)?;
    has_none(&rt, rt.alloc(), Asked::Widths, &WRONG_WIDTHS)
}
