use crate::line_cases::{Asked, has_answers};
use pen_list::read_pens;
use std::test::Fail;

const RANGES: &str = "\
pens 1-1 3-3 5-7
1,3,5-7

pens 7-7
7

pens 1-1 12-12
12,1

pens 9-10 120-122
9-10,120-122

pens 4-4
4-4

pens 254-255
254-255
";

#[test]
fn ranges(rt: HostRuntime) -> Result<(), Fail> {
    has_answers(&rt, rt.alloc(), Asked::Pens, "", RANGES, 6)
}

const PENS_LISTED_AGAIN: &str = "\
pens 1-1
1,1

pens 1-4
2-4,3,1-2
";

#[test]
fn pens_listed_again(rt: HostRuntime) -> Result<(), Fail> {
    has_answers(&rt, rt.alloc(), Asked::Pens, "", PENS_LISTED_AGAIN, 2)
}

const LEADING_ZEROS: &str = "\
pens 1-1
001

pens 1-3
01-003
";

#[test]
fn leading_zeros(rt: HostRuntime) -> Result<(), Fail> {
    has_answers(&rt, rt.alloc(), Asked::Pens, "", LEADING_ZEROS, 2)
}

const ALL_PENS: &str = "\
pens 1-255
all
1-255
";

#[test]
fn all_pens(rt: HostRuntime) -> Result<(), Fail> {
    has_answers(&rt, rt.alloc(), Asked::Pens, "", ALL_PENS, 2)
}

const NO_LISTS: &str = "\
no list
0
000
256
999
0001
1000
7-5
0-5
1-256
1-
-1
-
1--2
1-2-3
1,
,1
,
1,,2
1,0
0,1
 1
1 \n\
1, 2
+1
1.5
a
ALL
all,1
1,all
al
alll
1;2
1:
1/
\u{661}
";

#[test]
fn no_lists(rt: HostRuntime) -> Result<(), Fail> {
    assert!(rt; read_pens("").is_none());
    has_answers(&rt, rt.alloc(), Asked::Pens, "", NO_LISTS, 35)
}
