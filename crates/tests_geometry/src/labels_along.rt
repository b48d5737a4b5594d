// Labels in styles of their own, by their strokes and by where they leave the pen.
ghost use Rattle.std.specs.Prelude.{◌≤◌, ◌^◌, length};

use crate::texts::has_text;
use character_sets::{CharacterSet, Encoding, Selection, Sets, Signs};
use directions::{Direction, Turn};
use exact::Spot;
use lettering::{Lettering, LineFeed, Path, Strokes, Style, is_core_text};
use std::alloc::{AllocError, Global};
use std::process::Abort;
use stick_font::CharacterSize;

// A style, which is in range.
fn checked(rt: &impl Abort, style: Style) -> Lettering {
    match Lettering::new(style) {
        Some(lettering) => lettering,
        None => panic!(rt; "a style out of range"),
    }
}

fn with_origin(rt: &impl Abort, origin: u8) -> Lettering {
    let mut style = Style::usual();
    style.origin = origin;
    checked(rt, style)
}

fn on_path(rt: &impl Abort, path: Path, line_feed: LineFeed) -> Lettering {
    let mut style = Style::usual();
    style.path = path;
    style.line_feed = line_feed;
    style.origin = 9;
    checked(rt, style)
}

// The next stroke, with no promise: a test looks at it.
fn next_of(strokes: &mut Strokes<'_>) -> Option<(Spot, Spot)> {
    strokes.next()
}

// The strokes of a label, by their ends, and where it leaves the pen.
fn told(alloc: Global, lettering: &Lettering, signs: Signs<'_>) -> Result<String, AllocError>
    requires { length signs ≤ 2 ^ 26 }
{
    let mut told = String::new(alloc);
    let end = lettering.ends(signs.again()).pen;
    let mut strokes = lettering.strokes(signs);
    for _ in 0..20 {
        told.push_str(stroke_told(alloc, next_of(&mut strokes))?.as_str())?;
    }
    write!(told, "end {},{}", end.x, end.y)?;
    Ok(told)
}

fn stroke_told(alloc: Global, stroke: Option<(Spot, Spot)>) -> Result<String, AllocError> {
    match stroke {
        Some((from, to)) => format!(in alloc; "{},{} to {},{}; ", from.x, from.y, to.x, to.y),
        None => Ok(String::new(alloc)),
    }
}

// Fails unless a label of a text in ISO 8859-1 has these strokes, and leaves the pen there.
fn has_strokes(
    rt: &impl Abort,
    alloc: Global,
    lettering: &Lettering,
    text: &[u8],
    wanted: &str,
) -> Result<(), AllocError>
    requires { length text.now ≤ 2 ^ 26 }
{
    let signs = Encoding::Always(CharacterSet::Latin1).signs(Sets::START, text);
    let told = told(alloc, lettering, signs)?;
    has_text(rt, told.as_str(), wanted);
    Ok(())
}

// The same in the usual style.
fn has_usual_strokes(
    rt: &(impl Abort + AllocGlobal),
    text: &[u8],
    wanted: &str,
) -> Result<(), AllocError>
    requires { length text.now ≤ 2 ^ 26 }
{
    has_strokes(rt, rt.alloc(), &with_origin(rt, 1), text, wanted)
}

// A mirrored style with a slant.
fn mirrored(slant: i64) -> Style {
    let mut style = Style::usual();
    style.width = -480;
    style.height = 640;
    style.slant = slant;
    style
}

#[test]
fn sizes_and_slants(rt: HostRuntime) -> Result<(), AllocError> {
    let upright = checked(&rt, mirrored(0));
    let wanted = "0,640 to 0,0; 0,0 to -480,0; end -720,0";
    has_strokes(&rt, rt.alloc(), &upright, b"L", wanted)?;
    let slanted = checked(&rt, mirrored(500_000));
    let wanted = "320,640 to 0,0; 0,0 to -480,0; end -720,0";
    has_strokes(&rt, rt.alloc(), &slanted, b"L", wanted)
}

// Letters that are as wide as they are high.
fn square(size: i64) -> Style {
    let mut style = Style::usual();
    style.width = size;
    style.height = size;
    style
}

fn turned(rt: &impl Abort, turn: Turn) -> Lettering {
    let mut style = Style::usual();
    style.direction = Direction::RIGHT.turned(turn);
    checked(rt, style)
}

#[test]
fn large_sizes(rt: HostRuntime) -> Result<(), AllocError> {
    let large = checked(&rt, square(16_777_215));
    let wanted = "0,16777215 to 0,0; 0,0 to 16777215,0; end 25165823,0";
    has_strokes(&rt, rt.alloc(), &large, b"L", wanted)?;
    let wanted = "8388608,0 to 8388608,0; end 25165823,0";
    has_strokes(&rt, rt.alloc(), &large, b".", wanted)?;
    let larger = checked(&rt, square(16_777_217));
    let wanted = "0,16777217 to 0,0; 0,0 to 16777217,0; end 25165826,0";
    has_strokes(&rt, rt.alloc(), &larger, b"L", wanted)?;
    let below_the_line =
        "8388609,11184811 to 12582913,11184811; 12582913,11184811 to 12582913,-2796203; \
        12582913,-2796203 to 8388609,-5592406; 8388609,-5592406 to 0,-5592406; \
        12582913,16777217 to 12582913,16777217; end 25165826,0";
    has_strokes(&rt, rt.alloc(), &larger, b"j", below_the_line)
}

// A large letter that is far from its label's start.
#[test]
fn far_letters(rt: HostRuntime) -> Result<(), AllocError> {
    let mut style = square(16_777_215);
    style.step_x = 101_000_000;
    let wanted = "508358003108,0 to 508358003108,0; end 510891362573,0";
    has_strokes(
        &rt,
        rt.alloc(),
        &checked(&rt, style),
        b"\t\t\t\t\t\t\t\t\t\t\t\t\t\t\t\t\t\t\t\t\t\t\t\t\t.",
        wanted,
    )
}

// The letter l, turned by quarters.
#[test]
fn along_the_axes(rt: HostRuntime) -> Result<(), AllocError> {
    let upward = "-1728,304 to -1728,608; -1728,608 to -288,608; -288,608 to 0,912; end 0,1824";
    has_strokes(&rt, rt.alloc(), &turned(&rt, Turn::Quarter), b"l", upward)?;
    let back =
        "-304,-1728 to -608,-1728; -608,-1728 to -608,-288; -608,-288 to -912,0; end -1824,0";
    has_strokes(&rt, rt.alloc(), &turned(&rt, Turn::Half), b"l", back)?;
    let downward = "1728,-304 to 1728,-608; 1728,-608 to 288,-608; 288,-608 to 0,-912; end 0,-1824";
    has_strokes(
        &rt,
        rt.alloc(),
        &turned(&rt, Turn::ThreeQuarters),
        b"l",
        downward,
    )?;
    Ok(())
}

#[test]
fn between_the_axes(rt: HostRuntime) -> Result<(), AllocError> {
    let mut style = Style::usual();
    style.direction = Direction::unit(3, 4);
    let wanted = "-1382,1037 to 0,0; 0,0 to 730,973; end 1094,1459";
    has_strokes(&rt, rt.alloc(), &checked(&rt, style), b"L", wanted)
}

#[test]
fn steps(rt: HostRuntime) -> Result<(), AllocError> {
    let mut style = Style::usual();
    style.step_x = -500_000;
    style.step_y = 1_500_000;
    style.origin = 7;
    let lettering = checked(&rt, style);
    let wanted = "304,0 to 304,0; -608,0 to -608,0; -608,-5184 to -608,-5184; end 0,-5184";
    has_strokes(&rt, rt.alloc(), &lettering, b"..\r\n.", wanted)?;
    let latin = Encoding::Always(CharacterSet::Latin1);
    let signs = latin.signs(Sets::START, b"..\r\n.");
    let ends = lettering.ends(signs.again());
    let lines = lettering.margin_move(signs);
    assert_eq!(rt; [ends.margin.x, ends.margin.y], [lines.x, lines.y]);
    let line = lettering.margin_move(latin.signs(Sets::START, b".."));
    assert_eq!(rt; [lines.x, lines.y, line.x, line.y], [0, -5184, 0, 0]);
    Ok(())
}

#[test]
fn origins(rt: HostRuntime) -> Result<(), AllocError> {
    let above = "1216,864 to 1216,864; end 1824,0";
    has_strokes(&rt, rt.alloc(), &with_origin(&rt, 11), b".", above)?;
    let left = "1216,-864 to 1216,-864; 3040,-864 to 3040,-864; end 3648,0";
    has_strokes(&rt, rt.alloc(), &with_origin(&rt, 12), b"..", left)?;
    let middle = "-912,-1728 to -912,-1728; 912,-1728 to 912,-1728; end 1824,0";
    has_strokes(&rt, rt.alloc(), &with_origin(&rt, 6), b"..", middle)?;
    let right = "-3040,864 to -3040,864; -1216,864 to -1216,864; end 0,0";
    has_strokes(&rt, rt.alloc(), &with_origin(&rt, 17), b"..", right)?;
    let parts = "-912,0 to -912,0; 912,0 to 912,0; 0,-3456 to 0,-3456; end 912,-3456";
    has_strokes(&rt, rt.alloc(), &with_origin(&rt, 4), b"..\r\n.", parts)
}

// Fails unless a full stop, a line feed and a full stop have these strokes on a path.
fn has_dots(
    rt: &(impl Abort + AllocGlobal),
    path: Path,
    line_feed: LineFeed,
    wanted: &str,
) -> Result<(), AllocError> {
    let lettering = on_path(rt, path, line_feed);
    has_strokes(rt, rt.alloc(), &lettering, b".\n.", wanted)
}

// LO counts only for the path to the right.
#[test]
fn paths(rt: HostRuntime) -> Result<(), AllocError> {
    let down = "608,0 to 608,0; -1216,-3456 to -1216,-3456; end -1824,-6912";
    has_dots(&rt, Path::Down, LineFeed::Normal, down)?;
    let back = "608,0 to 608,0; 2432,-3456 to 2432,-3456; end 1824,-6912";
    has_dots(&rt, Path::Down, LineFeed::Reverse, back)?;
    let left = "608,0 to 608,0; -1216,3456 to -1216,3456; end -3648,3456";
    has_dots(&rt, Path::Left, LineFeed::Normal, left)?;
    let up = "608,0 to 608,0; 2432,3456 to 2432,3456; end 1824,6912";
    has_dots(&rt, Path::Up, LineFeed::Normal, up)
}

#[test]
fn symbols(rt: HostRuntime) -> Result<(), AllocError> {
    let symbol = on_path(&rt, Path::Down, LineFeed::Reverse).centred();
    let wanted = "0,-864 to 0,-864; end 912,0";
    has_strokes(&rt, rt.alloc(), &symbol, b".", wanted)?;
    let (right, left) = (
        symbol.offset(2_000_000, 1_000_000),
        symbol.offset(500_000, -250_000),
    );
    assert_eq!(rt; [right.x, right.y, left.x, left.y], [3648, -3456, 912, 864]);
    Ok(())
}

#[test]
fn letters(rt: HostRuntime) -> Result<(), AllocError> {
    let small = "304,1728 to 608,1728; 608,1728 to 608,288; 608,288 to 912,0; end 1824,0";
    has_usual_strokes(&rt, b"l", small)?;
    let capital = "0,1728 to 0,0; 0,0 to 1216,0; end 1824,0";
    has_usual_strokes(&rt, b"L", capital)?;
    let below_the_line = "608,1152 to 912,1152; 912,1152 to 912,-288; 912,-288 to 608,-576; \
        608,-576 to 0,-576; 912,1728 to 912,1728; end 1824,0";
    has_usual_strokes(&rt, b"j", below_the_line)?;
    let umlaut = "304,0 to 0,288; 0,288 to 0,864; 0,864 to 304,1152; 304,1152 to 912,1152; \
        912,1152 to 1216,864; 1216,864 to 1216,288; 1216,288 to 912,0; 912,0 to 304,0; \
        304,1728 to 304,1728; 912,1728 to 912,1728; end 1824,0";
    has_usual_strokes(&rt, &[0xF6], umlaut)?;
    has_usual_strokes(&rt, &[32, 160, 0, 127], "end 3648,0")
}

// A character that is not in the font is a box.
#[test]
fn boxes(rt: HostRuntime) -> Result<(), AllocError> {
    let signs = Encoding::Utf8.signs(Sets::START, &[228, 184, 128]);
    let told = told(rt.alloc(), &with_origin(&rt, 1), signs)?;
    let wanted =
        "0,0 to 0,1728; 0,1728 to 1216,1728; 1216,1728 to 1216,0; 1216,0 to 0,0; end 1824,0";
    has_text(&rt, told.as_str(), wanted);
    Ok(())
}

// BS goes back a column, also below 0, and HT on to the next of the columns 0, 8, 16 and so on.
#[test]
fn columns(rt: HostRuntime) -> Result<(), AllocError> {
    let tab = "608,0 to 608,0; 15200,0 to 15200,0; end 16416,0";
    has_usual_strokes(&rt, b".\t.", tab)?;
    let stops = "14592,0 to 15808,0; end 32832,0";
    has_usual_strokes(&rt, b"        _\t\x08\t\t\x08\x08\x08\x08\x08\x08", stops)?;
    let back = "608,0 to 608,0; 608,0 to 608,0; end 1824,0";
    has_usual_strokes(&rt, b".\x08.", back)?;
    let below = "-3040,0 to -3040,0; 608,0 to 608,0; end 1824,0";
    has_usual_strokes(&rt, b"\x08\x08.\t.", below)?;
    let far_below = "-13984,0 to -13984,0; end 0,0";
    has_usual_strokes(&rt, b"\x08\x08\x08\x08\x08\x08\x08\x08\x08\t.\t", far_below)
}

// A section is as long as the greatest column in it, and at least one letter.
#[test]
fn sections(rt: HostRuntime) -> Result<(), AllocError> {
    let (beside, around) = (with_origin(&rt, 4), with_origin(&rt, 5));
    let overprinted = "0,0 to 0,0; 0,0 to 0,0; end 912,0";
    has_strokes(&rt, rt.alloc(), &beside, b".\x08.", overprinted)?;
    let below = "-1824,-864 to -1824,-864; end 0,0";
    has_strokes(&rt, rt.alloc(), &around, b"\x08.", below)?;
    let tab = "-6384,0 to -6384,0; 0,-3456 to 0,-3456; end 912,-3456";
    has_strokes(&rt, rt.alloc(), &beside, b".\t\x08\x08\n\r.", tab)
}

// Whether each origin from 0 to 21 is one.
#[test]
fn ranges(rt: HostRuntime) {
    let mut origins: [bool; 22] = [false; 22];
    for origin in 0..22u8 {
        let mut style = Style::usual();
        style.origin = origin;
        origins[origin as usize] = Lettering::new(style).is_some();
    }
    let mut wanted: [bool; 22] = [true; 22];
    wanted[0] = false;
    wanted[10] = false;
    wanted[20] = false;
    wanted[21] = false;
    assert_eq!(rt; origins, wanted);
    let slants = [mirrored(-1_000_200_000), mirrored(-1_000_200_001)];
    assert!(rt; Lettering::new(slants[0]).is_some() && Lettering::new(slants[1]).is_none());
}

// Whether a style is the usual one for letters of the usual size to the right.
fn is_usual(style: Style) -> bool {
    style.is_usual(CharacterSize::DEFAULT, Direction::RIGHT)
}

#[test]
fn usual_styles(rt: HostRuntime) {
    assert!(rt; is_usual(Style::usual()));
    assert!(rt; !is_usual(square(1216)) && !is_usual(square(1728)));
    let mut slanted = Style::usual();
    slanted.slant = 1;
    assert!(rt; !is_usual(slanted));
    let mut closer = Style::usual();
    closer.step_x = 0;
    assert!(rt; !is_usual(closer));
    let mut lower = Style::usual();
    lower.step_y = 0;
    assert!(rt; !is_usual(lower));
    let mut downward = Style::usual();
    downward.path = Path::Down;
    assert!(rt; !is_usual(downward));
    let mut reverse = Style::usual();
    reverse.line_feed = LineFeed::Reverse;
    assert!(rt; !is_usual(reverse));
    assert!(rt; !is_usual(with_origin(&rt, 4).style));
    let around = turned(&rt, Turn::Half).style;
    assert!(rt; !is_usual(around));
    assert!(rt; around.is_usual(CharacterSize::DEFAULT, around.direction));
}

// Whether core's labels have the strokes of a text, read as the plot says, if these sets are selected.
fn is_core_after(selection: Selection, text: &[u8]) -> bool {
    let sets = Sets {
        standard: CharacterSet::Latin1,
        alternate: CharacterSet::German,
        selection,
    };
    is_core_text(Encoding::ByPlot, sets, text)
}

#[test]
fn texts_of_core(rt: HostRuntime) {
    let standard = Selection::Standard;
    let found = [
        is_core_after(standard, b"A~ `{9\r\n\x00\x7f"),
        is_core_after(standard, b""),
        is_core_after(standard, b"Aa"),
        is_core_after(standard, b"z"),
        is_core_after(standard, b"\x08"),
        is_core_after(standard, b"\t"),
        is_core_after(standard, b"A\x0e"),
        is_core_after(standard, b"\x0fA"),
        is_core_after(standard, &[128]),
        is_core_after(Selection::Alternate, b"A"),
        is_core_text(Encoding::Utf8, Sets::START, b"A"),
        is_core_text(Encoding::Always(CharacterSet::German), Sets::START, b"A"),
    ];
    let wanted = [
        true, true, false, false, false, false, false, false, false, false, true, false,
    ];
    assert_eq!(rt; found, wanted);
}
