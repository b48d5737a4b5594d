// The styles of letters, by the text of the instructions that set them.
ghost use Rattle.std.specs.Prelude.{IfSome};
ghost use Rattle.full_settings.specs.LetterParameters.{IsLetterSetting};

use crate::cases::{Asked, has_answers};
use crate::texts::has_text;
use directions::Turn;
use full_settings::{
    Font, FurtherRequest, LetterSetting, Letters, direction_setting, further_request,
};
use hpgl_text::{Body, Further, Instruction, Items, Numbers, Profile};
use lettering::Style;
use plot_frame::{Ends, Pair};
use std::alloc::{AllocError, Global};
use std::test::Fail;
use stick_font::CharacterSize;

// What an item asks for; SI asks for its own size, or without numbers for that of the font.
pub fn setting_of(body: &Body<'_>) -> Option<LetterSetting>
    ensures { IfSome result IsLetterSetting }
{
    match body {
        Body::Params(Instruction::CharacterSize, numbers) if numbers.len() == 0 => {
            Some(LetterSetting::FontSize)
        }
        Body::Params(Instruction::CharacterSize, _) => Some(LetterSetting::AbsoluteSize),
        Body::Params(_, numbers) => {
            let (list, count) = numbers.leading();
            direction_setting(&list[..count])
        }
        Body::Further(further, numbers) => further_setting(*further, numbers),
        _ => None,
    }
}

fn further_setting(further: Further, numbers: &Numbers<'_>) -> Option<LetterSetting>
    ensures { IfSome result IsLetterSetting }
{
    match further_request(further, numbers) {
        FurtherRequest::Letter(setting) => Some(setting),
        _ => None,
    }
}

// The style after a text, with a font of 23 points and 18 characters an inch, letters of 100 by 200 grains by SI, P1
// (10, 20) and P2 (310, -380).
fn style_after(text: &[u8], turn: Turn) -> Style {
    style_in_font(text, turn, false)
}

// The same, if the font may be italic.
fn style_in_font(text: &[u8], turn: Turn, is_italic: bool) -> Style {
    let mut letters = Letters::usual();
    for item in Items::by_profile(Profile::Full, text) {
        if let Some(setting) = setting_of(&item.body) {
            letters.set(setting);
        }
    }
    let size = CharacterSize {
        width: 100,
        height: 200,
    };
    let points = Pair {
        x: Ends {
            first: 10,
            last: 310,
        },
        y: Ends {
            first: 20,
            last: -380,
        },
    };
    let font = Font {
        is_proportional: false,
        pitch: 18_000_000,
        height: 23_000_000,
        is_italic,
        is_bold: false,
    };
    letters.lettering(font, size, &points, turn).style
}

// The size of letters after a text.
pub fn size_after(alloc: Global, text: &[u8]) -> Result<String, Fail> {
    let style = style_after(text, Turn::None);
    let (width, height) = (style.width, style.height);
    Ok(format!(in alloc; "{width} {height}\n")?)
}

// The direction of letters after a text, also where all is turned by a quarter.
pub fn headings_after(alloc: Global, text: &[u8]) -> Result<String, Fail> {
    let direction = style_after(text, Turn::None).direction;
    let turned = style_after(text, Turn::Quarter).direction;
    let (x, y, turned_x, turned_y) = (direction.x(), direction.y(), turned.x(), turned.y());
    Ok(format!(in alloc; "{x} {y}, turned {turned_x} {turned_y}\n")?)
}

// The style of letters after a text, where all is turned by three quarters.
pub fn style_after_told(alloc: Global, text: &[u8]) -> Result<String, Fail> {
    Ok(style_told(alloc, &style_after(text, Turn::ThreeQuarters))?)
}

// A style but for its size.
fn style_told(alloc: Global, style: &Style) -> Result<String, AllocError> {
    let (slant, step_x, step_y, origin) = (style.slant, style.step_x, style.step_y, style.origin);
    let mut told = format!(in alloc; "slant {slant}, steps {step_x} {step_y}, LO{origin}, ")?;
    let (path, feed) = (style.path, style.line_feed);
    let (x, y) = (style.direction.x(), style.direction.y());
    write!(told, "{path:?} {feed:?}, {x} {y}\n")?;
    Ok(told)
}

#[test]
fn at_the_start(rt: HostRuntime) -> Result<(), Fail> {
    let style = style_after(b"", Turn::None);
    assert_eq!(rt; [style.width, style.height], [608, 3456]);
    let told = style_told(rt.alloc(), &style)?;
    let usual = style_told(rt.alloc(), &Style::usual())?;
    let wanted = "slant 0, steps 1000000 1000000, LO1, Right Normal, 1073741824 0\n";
    has_text(&rt, told.as_str(), wanted);
    has_text(&rt, usual.as_str(), wanted);
    Ok(())
}

const SIZES: &str = "\
// 10 percent of 300 by -400 plotter units of 16 grains
SR10,10;
480 -640

SR-10,5;
-480 -320

// half a grain is rounded up
SR;SR.010416,.007813;
0 -1

SR.010417,.007812;
1 0

SR;
36 -96

// SI's size
SR10,10;SI1,1;
100 200

SR10,10;SI1,1;SR20,10;SL1;
960 -640

// the font's size again
SR10,10;SI;
608 3456

SI1,1;SI;
608 3456

";

#[test]
fn sizes(rt: HostRuntime) -> Result<(), Fail> {
    has_answers(&rt, rt.alloc(), Asked::Sizes, SIZES, 9)
}

const HEADINGS: &str = "\
DI3,4;
644245094 858993459, turned -858993459 644245094

DI3,4;DI;
1073741824 0, turned 0 1073741824

// 3 percent of 300 and 4 percent of -400
DR3,4;
526413998 -935847107, turned 935847107 526413998

DR1,0;
1073741824 0, turned 0 1073741824

DR0,-5;
0 1073741824, turned -1073741824 0

DI3,4;DR-4,3;SR1,1;
-759250125 -759250125, turned 759250125 -759250125

DR3,4;DI1,1;
759250125 759250125, turned -759250125 759250125

";

#[test]
fn headings(rt: HostRuntime) -> Result<(), Fail> {
    has_answers(&rt, rt.alloc(), Asked::Headings, HEADINGS, 7)
}

const OTHER_SETTINGS: &str = "\
SL-2;ES1,-.5;LO14;DV2,1;DI1,1;SI;SL5000;
slant -2000000, steps 2000000 500000, LO14, Left Reverse, 759250125 -759250125

LO21;DV3;ES;
slant 0, steps 1000000 1000000, LO1, Up Normal, 0 -1073741824

";

#[test]
fn other_settings(rt: HostRuntime) -> Result<(), Fail> {
    has_answers(&rt, rt.alloc(), Asked::Styles, OTHER_SETTINGS, 2)
}

fn italic_slant(text: &[u8]) -> i64 {
    style_in_font(text, Turn::None, true).slant
}

#[test]
fn slants_of_italic_fonts(rt: HostRuntime) -> Result<(), Fail> {
    assert_eq!(rt; italic_slant(b""), 200_000);
    assert_eq!(rt; italic_slant(b"SI1,1;SL.5;"), 700_000);
    assert_eq!(rt; italic_slant(b"SL-1000;"), -999_800_000);
    assert_eq!(rt; italic_slant(b"SL1000;SR;"), 1_000_200_000);
    Ok(())
}
