// Plots of the profile full with escapes, cut into items. The cases follow HP's manuals of HP RTL and PCL 5.
use crate::texts::has_text;
use full_text::{FullItems, PlotItems};
use hpgl_text::{Body, Item, Profile};
use std::alloc::{AllocError, Global};
use std::process::Abort;
use std::test::Fail;

// A plot; the place and the letters of each item, ESC with the bytes of an escape, FF, or a stray as it is.
const LANGUAGES: &str = "\
\x1b%0APD64,64;\x1b%0BPU8,8; = 0(%0A) 12(%0B) 16PU
\x1b%1aPD64,64;\x1b%1bPU8,8; = 0(%1a) 12(%1b) 16PU
\x1bEPU8,8;PD16,8; = 0(E) 2PU 8PD
\x1bEPU8,8;\x1b%0BPD; = 0(E) 8(%0B) 12PD
\x1bEPU;\x1b%0A\x1b%0BPD; = 0(E) 2PU 5(%0A) 9(%0B) 13PD
\x1bEPU;\x1bE\x1b%0BPD; = 0(E) 2PU 5(E) 7(%0B) 11PD
\x1b%-12345X@PJL PU;\x1b%-1BPU; = 0(%-12345X) 17(%-1B) 22PU
\x1b%-12344XPU;\x1b%0BPD; = 0(%-12344X) 9PU 12(%0B) 16PD
\x1bEPU;\x1b%-12345XPD;\x1b%0BPU; = 0(E) 2PU 5(%-12345X) 17(%0B) 21PU
\x1bEPU;\x1b%0@\x1b9\x1b*r1A\x1b%0BPD; = 0(E) 5(%0@) 9(9) 11(*r1A) 16(%0B) 20PD
\x1bEPU;\x1b*b4W\x1b%0APD;\x1b%0BPD; = 0(E) 2PU 5(*b4W\x1b%0A) 14PD 17(%0B) 21PD
\x1b%0APU;\x1bEPD;\x1b%0APU; = 0(%0A) 7(E) 12(%0A)
\x1b*r1APU;\x1b*rC PU;\x1b%1BPU; = 0(*r1A) 8(*rC) 16(%1B) 20PU
\x1b*r9APU;\x1b%1BPU; = 0(*r9A) 8(%1B) 12PU
\x1b*rb3APU;\x1b%0BPD; = 0(*rb3A) 9(%0B) 13PD
\x1b*r1BPU; = 0(*r1B) 5PU
\x1b*r1aBPU;\x1b%0BPD; = 0(*r1aB) 9(%0B) 13PD
";

const DATA: &str = "\
\x1b&p5XPD9,9\x1b)s5WPD8,8PD; = 0(&p5XPD9,9) 10()s5WPD8,8) 20PD
\x1b*b2m3WPU;;PU; = 0(*b2m3WPU;) 11PU
\x1b*b1v\x1b1WAPU; = 0(*b1v\x1b1WA) 9PU
\x1b*b9WPU; = 0(*b9WPU;)
\x1b*b-3WPU; = 0(*b-3W) 6PU
";

const STRAYS: &str = "\
\x1b*c5P\x1b*b\x1b\x1b(s3B\x1b9 = 0(*c5P) 5STRAY 6STRAY 7STRAY 8STRAY 9((s3B) 14(9)
\x1b.(;PD;\x1b.YPU;\x1b%0A\x1b.RPU = 4PD 10PU 13(%0A)
\x0c\x1b%0A\x0c \x0cPU\x1b%0B\x0cPU; = 0STRAY 1(%0A) 5FF 7FF 10(%0B) 14STRAY 15PU
LBa\x1bE\x03PU; = 0LB 6PU
CO\"\x1bE\";PU8\x1bE; = 0CO 7PU 10(E)
DT#;\x1b%0A;IN;\x1b%0BLBa\x03#PU; = 0DT 4(%0A) 12(%0B) 16LB 21PU
PU;\x1b = 0PU 3STRAY
PU;@PJL\x1bEPU; = 0PU
";

fn push_bytes(line: &mut String, bytes: &[u8]) -> Result<(), AllocError> {
    for byte in bytes {
        let byte = *byte;
        line.push(char::from(byte))?;
    }
    Ok(())
}

fn push_item(line: &mut String, item: &Item<'_>) -> Result<(), Fail> {
    write!(line, " {}", item.at)?;
    match &item.body {
        Body::Escape(taken) => {
            line.push_str("(")?;
            push_bytes(line, taken)?;
            line.push_str(")")?;
        }
        Body::FormFeed => line.push_str("FF")?,
        Body::Stray(_) => line.push_str("STRAY")?,
        _ => push_bytes(line, &item.code)?,
    }
    Ok(())
}

// Fails unless the items are as each case says.
fn has_items(rt: &impl Abort, alloc: Global, cases: &str) -> Result<(), Fail> {
    let mut found = String::new(alloc);
    for case in cases.lines() {
        let (plot, _) = case.split_once(" = ").ok_or("a case with no answer")?;
        push_bytes(&mut found, plot.as_bytes())?;
        found.push_str(" =")?;
        for item in FullItems::new(plot.as_bytes()) {
            push_item(&mut found, &item)?;
        }
        found.push_str("\n")?;
    }
    has_text(rt, found.as_str(), cases);
    Ok(())
}

#[test]
fn languages(rt: HostRuntime) -> Result<(), Fail> {
    has_items(&rt, rt.alloc(), LANGUAGES)
}

#[test]
fn data(rt: HostRuntime) -> Result<(), Fail> {
    has_items(&rt, rt.alloc(), DATA)
}

#[test]
fn strays(rt: HostRuntime) -> Result<(), Fail> {
    has_items(&rt, rt.alloc(), STRAYS)
}

// How many items a plot has in a profile.
fn item_count(profile: Profile, plot: &str) -> usize {
    let mut count: usize = 0;
    for _ in PlotItems::new(profile, plot.as_bytes()) {
        count = count.saturating_add(1);
    }
    count
}

// Data are instructions in the profile core.
#[test]
fn profiles(rt: HostRuntime) -> Result<(), Fail> {
    let plot = "\x1b%0A\x1b&p5XPD9,9;\x1b%0BPU;";
    let counts = format!(in rt.alloc();
        "{} {}",
        item_count(Profile::Core, plot),
        item_count(Profile::Full, plot)
    )?;
    has_text(&rt, counts.as_str(), "10 4");
    Ok(())
}
