// What escapes ask, by the printed forms of requests. The numbers and ranges are those of HP's RTL and PCL 5 manuals, or our choice.
use crate::texts::has_text;
use escapes::first_step;
use raster_requests::{GREATEST_WIDTH, Request};
use std::alloc::{AllocError, Global};
use std::process::Abort;
use std::test::Fail;

// What follows an ESC, and what its commands ask.
const SETTINGS: &str = "\
*t300R = Set(Resolution(300))
*t10R = Set(Resolution(10))
*t9.5R = Set(Resolution(10))
*t9.499999R = Set(OutOfRange)
*t2400.4R = Set(Resolution(2400))
*t2400.5R = Set(OutOfRange)
*tR = Set(OutOfRange)
*t-300R = Set(OutOfRange)
*r8S = Set(Width(Some(8)))
*r.5S = Set(Width(Some(1)))
*r.4S = Set(Width(None))
*r0S = Set(Width(None))
*r-8S = Set(Width(None))
*r1048576S = Set(Width(Some(1048576)))
*r1048577S = Set(Width(Some(1048576)))
*r9999999999S = Set(Width(Some(1048576)))
*r2T = Set(Height(Some(2)))
*r0T = Set(Height(None))
*r-1T = Set(Height(None))
*r9999999999.9T = Set(Height(Some(2147483648)))
*v6W012345 = Set(Configuration)
*v0N = Set(Transparency(Transparent))
*v1N = Set(Transparency(Opaque))
*v2N = Set(OutOfRange)
*v-1N = Set(OutOfRange)
";

const PLANES: &str = "\
*r1U = Set(Coding(Black))
*r-1U = Set(Coding(Black))
*r3U = Set(Coding(RedGreenBlue))
*r+3U = Set(Coding(RedGreenBlue))
*r-3U = Set(Coding(CyanMagentaYellow))
*r-4U = Set(Coding(BlackCyanMagentaYellow))
*r-4.5U = Set(Coding(BlackCyanMagentaYellow))
*r-3.5U = Set(Coding(CyanMagentaYellow))
*r4U = Set(OutOfRange)
*r-2U = Set(OutOfRange)
*r-5U = Set(OutOfRange)
*rU = Set(OutOfRange)
*r2U = Set(OutOfRange)
";

const IMAGES: &str = "\
*r0A = Start(Some(AtMargin))
*rA = Start(Some(AtMargin))
*r1A = Start(Some(AtPlace))
*r2A = Start(Some(AtMargin))
*r3A = Start(Some(AtPlace))
*r4A = Start(None)
*r-1A = Start(None)
*r-.5A = Start(Some(AtMargin))
*rB = End
*r1B = End
*rC = EndAndReset
*r1F = Nothing
*r1L = Nothing
*r1Q = Nothing
*r1D = Skipped
*r3W123 = Skipped
*r3u8s1A = Set(Coding(RedGreenBlue)); Set(Width(Some(8))); Start(Some(AtPlace))
*r9a1G = Start(None); Skipped
";

const ROWS: &str = "\
*b0M = Compress(Some(Unencoded))
*b1M = Compress(Some(RunLength))
*b2M = Compress(Some(PackBits))
*b3M = Compress(Some(DeltaRow))
*b9M = Compress(Some(CompressedDelta))
*b5M = Compress(None)
*b-1M = Compress(None)
*b-3M = Compress(None)
*b2.5M = Compress(Some(DeltaRow))
*b2Y = MoveRows(2)
*b+2Y = MoveRows(2)
*bY = MoveRows(0)
*b-2Y = MoveRows(0)
*b9999999999.9Y = MoveRows(2147483648)
*b2V12 = Plane
*b2W12 = LastPlane
*b0W = LastPlane
*b1v!1V? = Plane; Plane
*b2m1v!0W = Compress(Some(PackBits)); Plane; LastPlane
*b3X = Skipped
*b3L = Skipped
";

const PLACES: &str = "\
*p12X = Place(PlaceChange { axis: AlongRow, unit: Unit, is_relative: false, millionths: 12000000 })
*p-6.5Y = Place(PlaceChange { axis: AcrossRows, unit: Unit, is_relative: true, millionths: -6500000 })
*p+0Y = Place(PlaceChange { axis: AcrossRows, unit: Unit, is_relative: true, millionths: 0 })
*p-X = Place(PlaceChange { axis: AlongRow, unit: Unit, is_relative: true, millionths: 0 })
*pX = Place(PlaceChange { axis: AlongRow, unit: Unit, is_relative: false, millionths: 0 })
*p9999999999.9X = Place(PlaceChange { axis: AlongRow, unit: Unit, is_relative: false, millionths: 2147483647900000 })
*p1R = Skipped
&a72H = Place(PlaceChange { axis: AlongRow, unit: Decipoint, is_relative: false, millionths: 72000000 })
&a+.5V = Place(PlaceChange { axis: AcrossRows, unit: Decipoint, is_relative: true, millionths: 500000 })
&a1R = Nothing
&u600D = Unit(600)
&u9.5D = Unit(10)
&u9600D = Unit(9600)
&u9601D = Bad
&u9D = Bad
&uD = Bad
&u1B = Nothing
";

const LANGUAGES: &str = "\
%0A = Enter(Rtl, Kept)
%1A = Enter(Rtl, Carried)
%-1A = Enter(Rtl, Kept)
%2A = Enter(Rtl, Kept)
%0B = Enter(Hpgl2, Kept)
%1b = Enter(Hpgl2, Carried)
%-1B = Enter(Hpgl2, Kept)
%-12345X = Reset
%12345X = Nothing
%-12346X = Nothing
%0@ = Nothing
E = Reset
e = Nothing
9 = Nothing
= = Nothing
&l0H = EndPage
&lH = EndPage
&l.4H = EndPage
&l1H = Nothing
&l-1H = Nothing
&l1o0h1E = Nothing; EndPage; Nothing
";

const COLOURS: &str = "\
*v255a128b9I = PalettePart(First, 255); PalettePart(Second, 128); PaletteEntry(9)
*v-1.5C = PalettePart(Third, -1)
*v9999999999.9A = PalettePart(First, 2147483648)
*v-9999999999.9B = PalettePart(Second, -2147483648)
*v-2I = PaletteEntry(-2)
*vI = PaletteEntry(0)
*v0S = Skipped
*v1O = Skipped
";

const OTHERS: &str = "\
(s3B = Nothing
(8U = Nothing
)s5W12345 = Nothing
&k2G = Nothing
&p5X12345 = Nothing
&3H = Nothing
*l252O = Nothing
*o1W! = Nothing
*t1J = Nothing
*t3W123 = Nothing
*c5P = Skipped
*1A = Skipped
*`1A = Skipped
!a1H = Skipped
+b1W! = Skipped
/r1A = Skipped
";

// Writes what a command asks.
fn push_request(line: &mut String, request: Request) -> Result<(), AllocError> {
    write!(line, "{request:?}")
}

// Writes what the commands of an escape ask.
fn push_requests(line: &mut String, text: &[u8]) -> Result<(), Fail> {
    let mut step = first_step(text);
    for at in 0..=text.len() {
        let Some(found) = step else {
            break;
        };
        if at > 0 {
            line.push_str("; ")?;
        }
        push_request(line, Request::of(&found.command))?;
        step = found.following();
    }
    Ok(())
}

// Fails unless escapes ask what each case says.
fn has_requests(rt: &impl Abort, alloc: Global, cases: &str) -> Result<(), Fail> {
    let mut found = String::new(alloc);
    for case in cases.lines() {
        let (text, _) = case.split_once(" = ").ok_or("a case with no answer")?;
        found.push_str(text)?;
        found.push_str(" = ")?;
        push_requests(&mut found, text.as_bytes())?;
        found.push_str("\n")?;
    }
    has_text(rt, found.as_str(), cases);
    Ok(())
}

#[test]
fn settings(rt: HostRuntime) -> Result<(), Fail> {
    has_requests(&rt, rt.alloc(), SETTINGS)
}

#[test]
fn planes(rt: HostRuntime) -> Result<(), Fail> {
    has_requests(&rt, rt.alloc(), PLANES)
}

#[test]
fn images(rt: HostRuntime) -> Result<(), Fail> {
    has_requests(&rt, rt.alloc(), IMAGES)
}

#[test]
fn rows(rt: HostRuntime) -> Result<(), Fail> {
    has_requests(&rt, rt.alloc(), ROWS)
}

#[test]
fn places(rt: HostRuntime) -> Result<(), Fail> {
    has_requests(&rt, rt.alloc(), PLACES)
}

#[test]
fn languages(rt: HostRuntime) -> Result<(), Fail> {
    has_requests(&rt, rt.alloc(), LANGUAGES)
}

#[test]
fn colours(rt: HostRuntime) -> Result<(), Fail> {
    has_requests(&rt, rt.alloc(), COLOURS)
}

#[test]
fn others(rt: HostRuntime) -> Result<(), Fail> {
    has_requests(&rt, rt.alloc(), OTHERS)
}

#[test]
fn greatest_width(rt: HostRuntime) {
    assert_eq!(rt; GREATEST_WIDTH, 1_048_576);
}
