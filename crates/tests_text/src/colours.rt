use crate::pen_cases::{Asked, has_answers, has_none};
use std::test::Fail;

const DIGITS: &str = "\
2=ff8000 3=none
2=ff8000
2=#ff8000
2=FF8000
2=#Ff8000

2=ff8800 3=none
2=#f80
2=#F80

255=012345
255=#012345

255=6789ab
255=6789AB

255=cdef01
255=CdEf01
";

#[test]
fn digits(rt: HostRuntime) -> Result<(), Fail> {
    has_answers(&rt, rt.alloc(), Asked::Colours, DIGITS, 9)
}

const NAMES: &str = "\
1=000000 2=none
1=black

1=c0c0c0 2=none
1=silver

1=808080 2=none
1=gray
1=grey

1=ffffff 2=none
1=white
1=WHITE
1=White
1=wHITE

1=800000 2=none
1=maroon

1=ff0000 2=none
1=red

1=800080 2=none
1=purple

1=ff00ff 2=none
1=fuchsia

1=008000 2=none
1=green

1=00ff00 2=none
1=lime

1=808000 2=none
1=olive

1=ffff00 2=none
1=yellow

1=000080 2=none
1=navy

1=0000ff 2=none
1=blue

1=008080 2=none
1=teal

1=00ffff 2=none
1=aqua
";

#[test]
fn names(rt: HostRuntime) -> Result<(), Fail> {
    has_answers(&rt, rt.alloc(), Asked::Colours, NAMES, 20)
}

const PENS_OF_COLOURS: &str = "\
3=00ff00 8=none
3-7=lime
7=lime,3-6=lime
3-7=red,3-7=lime

1=000000
all=black
1-255=#000

1=000000 2=ff0000 3=000000
all=black,2=red
all=blue,2=blue,all=black,002=red

2=ff0000 3=0000ff 5=none
2=red,3-4=blue
3-4=blue,2=red
2-4=blue,2=red
";

#[test]
fn pens_of_colours(rt: HostRuntime) -> Result<(), Fail> {
    has_answers(&rt, rt.alloc(), Asked::Colours, PENS_OF_COLOURS, 10)
}

const BAD_COLOURS: &str = "\
bad 2=bleu
2=bleu
1=red,2=bleu
2=bleu,3=vert
2=bleu,1=red

bad 2=
2=
2=,1=red

bad 2
2
2,1=red
1=red,2,3

bad =red
=red

bad red
red

bad 0=red
0=red
1=red,0=red,

bad 256=red
256=red

bad 7-3=red
7-3=red

bad 1-=red
1-=red

bad ALL=red
ALL=red

bad all
all
all,1=red
";

const WRONG_COLOURS: [&str; 25] = [
    "#",
    "#f",
    "#f8",
    "#ff80",
    "#ff800",
    "#ff80000",
    "#ff800000",
    "f80",
    "ff80",
    "ff800",
    "ff80000",
    "##ff800",
    "ff8000#",
    "#ggg",
    "#ff800g",
    "ff800g",
    "#/00",
    "#:00",
    "#@00",
    "#`00",
    "0xff80",
    "#red",
    " red",
    "red ",
    "rood",
];

#[test]
fn bad_colours(rt: HostRuntime) -> Result<(), Fail> {
    has_answers(&rt, rt.alloc(), Asked::Colours, BAD_COLOURS, 19)?;
    has_none(&rt, rt.alloc(), Asked::Colours, &WRONG_COLOURS)
}
