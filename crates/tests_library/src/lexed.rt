//! Plots as they are found: small letters, decimals, escapes, what is not known.
use crate::cases::has_answers;
use crate::runs::Asked;
use std::test::Fail;

const ONE_LINE_IN_MANY_SPELLINGS: &str = "\
pu0,28pd64,28
= Ok(Done { rows: 8, bytes: 104, strokes: 1, areas: 0, images: 0, notes: 0 }), 104 bytes

SP1;PU0,28;PD64,28
= Ok(Done { rows: 8, bytes: 104, strokes: 1, areas: 0, images: 0, notes: 0 }), 104 bytes

\x1b%-1B\x1b.(;SP1;PU0,28;PD64,28;SP0;\x1bE
= Ok(Done { rows: 8, bytes: 104, strokes: 1, areas: 0, images: 0, notes: 0 }), 104 bytes

SP 1 ;\r\nPU 0.0,+28. ;\tPD64 28.00000049;
= Ok(Done { rows: 8, bytes: 104, strokes: 1, areas: 0, images: 0, notes: 0 }), 104 bytes

SP0.5;PU0,28;PD64,28;
= Ok(Done { rows: 8, bytes: 104, strokes: 1, areas: 0, images: 0, notes: 0 }), 104 bytes";

#[test]
fn one_line_in_many_spellings(rt: HostRuntime) -> Result<(), Fail> {
    let cases = ONE_LINE_IN_MANY_SPELLINGS;
    has_answers(&rt, rt.alloc(), Asked::Picture, cases, 5)
}

const NOTED: &str = "\
ZZ1,2;CO\"a;b\";PA1
= Ok(Done { rows: 8, bytes: 0, strokes: 0, areas: 0, images: 0, notes: 3 }), 0 bytes

!PD;
= Ok(Done { rows: 8, bytes: 13, strokes: 1, areas: 0, images: 0, notes: 1 }), 13 bytes

SP255.5;SP256;SP-0.5;PD;
= Ok(Done { rows: 8, bytes: 0, strokes: 0, areas: 0, images: 0, notes: 2 }), 0 bytes

PD5;
= Ok(Done { rows: 8, bytes: 13, strokes: 1, areas: 0, images: 0, notes: 1 }), 13 bytes

PA1e3;
= Ok(Done { rows: 8, bytes: 0, strokes: 0, areas: 0, images: 0, notes: 3 }), 0 bytes

PA8388608,0;PA1,,2,;PA1..5;
= Ok(Done { rows: 8, bytes: 0, strokes: 0, areas: 0, images: 0, notes: 1 }), 0 bytes";

#[test]
fn what_is_noted(rt: HostRuntime) -> Result<(), Fail> {
    has_answers(&rt, rt.alloc(), Asked::Picture, NOTED, 6)
}
