// Escapes cut into their commands. The cases follow HP's PCL 5 and HP RTL manuals and the drivers that write them.
use crate::texts::has_text;
use escapes::{Command, GREATEST_INTEGER, Sign, escape_length, first_step};
use std::alloc::{AllocError, Global};
use std::process::Abort;
use std::test::Fail;

// What follows an ESC; its commands, with their values in millionths and their data in brackets; how many bytes it takes.
const GROUPS: &str = "\
*c5P = *c5000000P 4
*c5P1A = *c5000000P 4
(s3BX = (s3000000B 4
(8U = (8000000U 3
*rB = *r0B 3
*r9a1G = *r9000000A *r1000000G 6
*rbC = *r0B *r0C 4
&l0o1E; = &l0O &l1000000E 6
*t300R*r = *t300000000R 6
*`1`2^ = *`1000000@ *`2000000^ 6
*~1~2@ = *~1000000^ *~2000000@ 6
!1A = !1000000A 3
/a1A = /a1000000A 4
";

const ALONE: &str = "\
EPU = 0E 1
9 = 09 1
=A = 0= 1
Z = 0Z 1
W12 = 0W 1
a1 = 0a 1
~ = 0~ 1
";

const VALUES: &str = "\
*p12x-6.5Y = *p12000000X *p-6500000Y 10
*p+.1234567X = *p+123456X 12
*p-X = *p-0X 4
*p+x3Y = *p+0X *p3000000Y 6
*p.X = *p0X 4
*p.5X = *p500000X 5
*p7.X = *p7000000X 5
*p007.50X = *p7500000X 9
*p2147483647X = *p2147483647000000X 13
*p2147483648X = *p2147483647000000X 13
*p99999999999999999999999.5X = *p2147483647500000X 28
*p1.000001X = *p1000001X 11
";

const WITH_DATA: &str = "\
&p5XPD9,9; = &p5000000X(PD9,9) 9
)s5WPD8,8PD = )s5000000W(PD8,8) 9
*b3Wabcd = *b3000000W(abc) 7
*b1v!1V? = *b1000000V(!) *b1000000V(?) 8
*b3m1y0W = *b3000000M *b1000000Y *b0W 8
*b2w*b1W! = *b2000000W(*b) *b1000000W(!) 9
*b-3WAB = *b-3000000W 5
*b+2WABC = *b+2000000W(AB) 7
*b9WAB = *b9000000W(AB) 6
*b1.5WABC = *b1500000W(AB) 8
*b.4WABC = *b400000W 5
*b1.499999WABC = *b1499999W(A) 12
*bWABC = *b0W 3
*b1X! = *b1000000X 4
*v1V! = *v1000000V 4
)b1V! = )b1000000V 4
&q1X! = &q1000000X 4
*p1X! = *p1000000X 4
*t3XAB = *t3000000X 4
(3WABCD = (3000000W(ABC) 6
*v6W012345*v = *v6000000W(012345) 10
*b1WA1W = *b1000000W(A) 5
*b1wA1 = *b1000000W(A) 5
";

const LANGUAGES: &str = "\
%0APD = %0A 3
%-12345X@PJL = %-12345000000X 8
%0bPU = %0B 3
%@ = %0@ 2
%A = %0A 2
%-A = %-0A 3
%-1BIN = %-1000000B 4
%1a1A = %1000000A 3
%99999999999A = %2147483647000000A 13
%2WABC = %2000000W(AB) 5
";

const STRAYS: &str = "\
*b = stray
* = stray
*b12 = stray
*b; = stray
*1_ = stray
*b1_1A = stray
*b!A = stray
.( = stray
.Y = stray
%8 = stray
% = stray
%1.5A = stray
%+1A = stray
%--1A = stray
%1` = stray
%1[ = stray
\x20A = stray
\x1b*b1A = stray
";

const BROKEN_OFF: &str = "\
*r9a1; = *r9000000A 4
*r9a = *r9000000A 4
*r9a\x1b*b = *r9000000A 4
*r1a2b.3.C = *r1000000A *r2000000B 6
*b3m- = *b3000000M 4
&a1h2v3 = &a1000000H &a2000000V 6
";

// Writes a byte, as it is.
fn push_byte(line: &mut String, byte: u8) -> Result<(), AllocError> {
    line.push(char::from(byte))
}

fn push_bytes(line: &mut String, bytes: &[u8]) -> Result<(), AllocError> {
    for byte in bytes {
        push_byte(line, *byte)?;
    }
    Ok(())
}

// Writes a byte, if it is there.
fn push_some(line: &mut String, byte: Option<u8>) -> Result<(), AllocError> {
    match byte {
        Some(byte) => push_byte(line, byte),
        None => Ok(()),
    }
}

fn sign_of(sign: Sign) -> &'static str {
    match sign {
        Sign::Unsigned => "",
        Sign::Plus => "+",
        Sign::Minus => "-",
    }
}

// Writes a command, and a space.
fn push_command(line: &mut String, command: &Command<'_>) -> Result<(), Fail> {
    push_some(line, command.group)?;
    push_some(line, command.parameter)?;
    write!(line, "{}{}", sign_of(command.sign), command.millionths)?;
    push_byte(line, command.letter)?;
    if !command.input.is_empty() {
        line.push_str("(")?;
        push_bytes(line, command.input)?;
        line.push_str(")")?;
    }
    line.push_str(" ")?;
    Ok(())
}

// Writes the commands of what follows an ESC. Answers how many bytes are left after them.
fn push_commands(line: &mut String, text: &[u8]) -> Result<usize, Fail> {
    let mut step = first_step(text);
    let mut left = text.len();
    for _ in 0..=text.len() {
        let Some(found) = step else {
            break;
        };
        push_command(line, &found.command)?;
        left = found.rest.len();
        step = found.following();
    }
    Ok(left)
}

// Writes what follows an ESC as the cases do.
fn push_case(line: &mut String, text: &[u8]) -> Result<(), Fail> {
    let left = push_commands(line, text)?;
    match escape_length(text) {
        Some(length) => {
            write!(line, "{length}")?;
            if length.checked_add(left) != Some(text.len()) {
                write!(line, " but {left} are left")?;
            }
        }
        None => line.push_str("stray")?,
    }
    Ok(())
}

// Fails unless what follows an ESC is as each case says.
fn has_escapes(rt: &impl Abort, alloc: Global, cases: &str) -> Result<(), Fail> {
    let mut found = String::new(alloc);
    for case in cases.lines() {
        let (text, _) = case.split_once(" = ").ok_or("a case with no answer")?;
        found.push_str(text)?;
        found.push_str(" = ")?;
        push_case(&mut found, text.as_bytes())?;
        found.push_str("\n")?;
    }
    has_text(rt, found.as_str(), cases);
    Ok(())
}

#[test]
fn groups(rt: HostRuntime) -> Result<(), Fail> {
    has_escapes(&rt, rt.alloc(), GROUPS)
}

#[test]
fn alone(rt: HostRuntime) -> Result<(), Fail> {
    has_escapes(&rt, rt.alloc(), ALONE)
}

#[test]
fn values(rt: HostRuntime) -> Result<(), Fail> {
    has_escapes(&rt, rt.alloc(), VALUES)
}

#[test]
fn with_data(rt: HostRuntime) -> Result<(), Fail> {
    has_escapes(&rt, rt.alloc(), WITH_DATA)
}

#[test]
fn languages(rt: HostRuntime) -> Result<(), Fail> {
    has_escapes(&rt, rt.alloc(), LANGUAGES)
}

#[test]
fn strays(rt: HostRuntime) -> Result<(), Fail> {
    has_escapes(&rt, rt.alloc(), STRAYS)
}

#[test]
fn broken_off(rt: HostRuntime) -> Result<(), Fail> {
    has_escapes(&rt, rt.alloc(), BROKEN_OFF)
}

// For each byte, 32 in a line: how many bytes the escape takes that has the byte in it, or - for a stray.
// The byte is the first, before `A1B`.
const FIRST_BYTES: &str = "\
--------------------------------
-2222222222222-21111111111111111
11111111111111111111111111111111
1111111111111111111111111111111-
--------------------------------
--------------------------------
--------------------------------
--------------------------------
";

// It is between `*` and `A1B`.
const PARAMETERS: &str = "\
--------------------------------
-----------3-33-3333333333------
2222222222222222222222222222222-
3333333333333333333333333333333-
--------------------------------
--------------------------------
--------------------------------
--------------------------------
";

// It is between `*c1` and `2A`. W takes the 2.
const LETTERS: &str = "\
--------------------------------
--------------6-6666666666------
4444444444444444444444454444444-
6666666666666666666666666666666-
--------------------------------
--------------------------------
--------------------------------
--------------------------------
";

// It is between `%1` and `A`, which W takes.
const LANGUAGE_LETTERS: &str = "\
--------------------------------
----------------4444444444------
333333333333333333333334333-----
-33333333333333333333334333-----
--------------------------------
--------------------------------
--------------------------------
--------------------------------
";

// Fails unless the escapes of a byte between these texts are as long as wanted.
fn has_lengths(
    rt: &impl Abort,
    alloc: Global,
    before: &str,
    after: &str,
    wanted: &str,
) -> Result<(), Fail> {
    let mut lengths = String::new(alloc);
    for byte in 0..=255u8 {
        let mut text = Vec::new(alloc);
        text.extend_from_slice(before.as_bytes())?;
        text.push(byte)?;
        text.extend_from_slice(after.as_bytes())?;
        match escape_length(text.as_slice()) {
            Some(length) => write!(lengths, "{length}")?,
            None => lengths.push_str("-")?,
        }
        if byte % 32 == 31 {
            lengths.push_str("\n")?;
        }
    }
    has_text(rt, lengths.as_str(), wanted);
    Ok(())
}

#[test]
fn first_bytes(rt: HostRuntime) -> Result<(), Fail> {
    has_lengths(&rt, rt.alloc(), "", "A1B", FIRST_BYTES)
}

#[test]
fn parameters(rt: HostRuntime) -> Result<(), Fail> {
    has_lengths(&rt, rt.alloc(), "*", "A1B", PARAMETERS)
}

#[test]
fn letters(rt: HostRuntime) -> Result<(), Fail> {
    has_lengths(&rt, rt.alloc(), "*c1", "2A", LETTERS)
}

#[test]
fn language_letters(rt: HostRuntime) -> Result<(), Fail> {
    has_lengths(&rt, rt.alloc(), "%1", "A", LANGUAGE_LETTERS)
}

// The greatest integer part is the greatest that 32 bits with a sign have.
#[test]
fn greatest_integer(rt: HostRuntime) {
    assert_eq!(rt; GREATEST_INTEGER, 2_147_483_647);
}
