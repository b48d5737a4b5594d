// Sets of characters and fonts, by the text of the instructions that choose them.
use crate::cases::{Asked, has_answers};
use full_settings::{Characters, FurtherRequest, further_request};
use hpgl_text::{Body, Items, Profile};
use std::alloc::{AllocError, Global};
use std::test::Fail;

// What each further instruction of a text asks for, a line each.
pub fn choices_of(alloc: Global, text: &[u8]) -> Result<String, Fail> {
    let mut lines = String::new(alloc);
    for item in Items::by_profile(Profile::Full, text) {
        if let Body::Further(further, numbers) = &item.body {
            match further_request(*further, numbers) {
                FurtherRequest::Characters(setting) => {
                    let unknown = if setting.names_unknown_set() {
                        ", unknown"
                    } else {
                        ""
                    };
                    write!(lines, "{setting:?}{unknown}\n")?;
                }
                _ => lines.push_str("wrong\n")?,
            }
        }
    }
    Ok(lines)
}

// What is chosen after the instructions and labels of a text: the selection, the set that is selected, its
// font, and the size of its letters.
pub fn chosen_after(alloc: Global, text: &[u8]) -> Result<String, Fail> {
    let mut characters = Characters::usual();
    for item in Items::by_profile(Profile::Full, text) {
        match &item.body {
            Body::Further(further, numbers) => {
                if let FurtherRequest::Characters(setting) = further_request(*further, numbers) {
                    characters.set(setting);
                }
            }
            Body::Label(bytes) => characters.pass_text(bytes),
            _ => {}
        }
    }
    Ok(chosen_told(alloc, &characters)?)
}

fn chosen_told(alloc: Global, characters: &Characters) -> Result<String, AllocError> {
    let (sets, font) = (characters.sets(), characters.font());
    let (selection, set, size) = (sets.selection, sets.selected(), font.size());
    let (pitch, height) = (font.pitch, font.height);
    let spacing = if font.is_proportional {
        "proportional"
    } else {
        "fixed"
    };
    let (width, high) = (size.x, size.y);
    format!(in alloc; "{selection:?}, {set:?}, {spacing} {pitch} {height}, {width} by {high}\n")
}

const CHOICES: &str = "\
// CS and CA, by numbers of HP-GL.
CS;CS33.4,7;CA-.5;CA7;
Set(Standard, Some(Ascii))
Set(Standard, Some(German))
Set(Alternate, Some(Ascii))
Set(Alternate, Some(RomanExtensions))

CS5;CA8;CA-1;CS277;CS10000;
Set(Standard, None), unknown
Set(Alternate, None), unknown
Set(Alternate, None), unknown
Set(Standard, None), unknown
Set(Standard, None), unknown

SS;SA1:;
Select(Standard)
Select(Alternate)

// SD and AD, by numbers of HP-GL/2.
SD;AD1,14;SD2,1;AD3,12.5;SD4,23;
Font(Standard, FontSetting { set: Some(Roman8), is_proportional: Some(false), pitch: Some(9000000), \
    height: Some(11500000), is_italic: Some(false), is_bold: Some(false), has_unknown_set: false })
Font(Alternate, FontSetting { set: Some(Latin1), is_proportional: None, pitch: None, height: None, \
    is_italic: None, is_bold: None, has_unknown_set: false })
Font(Standard, FontSetting { set: None, is_proportional: Some(true), pitch: None, height: None, \
    is_italic: None, is_bold: None, has_unknown_set: false })
Font(Alternate, FontSetting { set: None, is_proportional: None, pitch: Some(12500000), height: None, \
    is_italic: None, is_bold: None, has_unknown_set: false })
Font(Standard, FontSetting { set: None, is_proportional: None, pitch: None, height: Some(23000000), \
    is_italic: None, is_bold: None, has_unknown_set: false })

// All pairs are read, in their order.
SD1,39,2,0,3,9,4,12,5,1,6,3,7,48,3,10;SD1,14,1,33;AD1,9999,1,14;
Font(Standard, FontSetting { set: Some(German), is_proportional: Some(false), pitch: Some(10000000), \
    height: Some(12000000), is_italic: Some(true), is_bold: Some(true), has_unknown_set: false })
Font(Standard, FontSetting { set: Some(Latin1), is_proportional: None, pitch: None, height: None, \
    is_italic: None, is_bold: None, has_unknown_set: true }), unknown
Font(Alternate, FontSetting { set: Some(Latin1), is_proportional: None, pitch: None, height: None, \
    is_italic: None, is_bold: None, has_unknown_set: true }), unknown

// Kinds, sets and spacings are rounded, and pitches and heights are not.
SD.9,14.4,2.2,-.5;SD4,.1,3,1500;SD4,1500,3,.1;
Font(Standard, FontSetting { set: Some(Latin1), is_proportional: Some(false), pitch: None, height: None, \
    is_italic: None, is_bold: None, has_unknown_set: false })
Font(Standard, FontSetting { set: None, is_proportional: None, pitch: Some(1500000000), height: Some(100000), \
    is_italic: None, is_bold: None, has_unknown_set: false })
Font(Standard, FontSetting { set: None, is_proportional: None, pitch: Some(100000), height: Some(1500000000), \
    is_italic: None, is_bold: None, has_unknown_set: false })

// Postures are italic if they are 1 or 2, and weights bold if they are 3 to 7.
SD5,1;SD5,2.4;AD5,3;SD5,0;AD6,3;SD6,7.4;SD6,2;SD6,8;SD6,-3;
Font(Standard, FontSetting { set: None, is_proportional: None, pitch: None, height: None, \
    is_italic: Some(true), is_bold: None, has_unknown_set: false })
Font(Standard, FontSetting { set: None, is_proportional: None, pitch: None, height: None, \
    is_italic: Some(true), is_bold: None, has_unknown_set: false })
Font(Alternate, FontSetting { set: None, is_proportional: None, pitch: None, height: None, \
    is_italic: Some(false), is_bold: None, has_unknown_set: false })
Font(Standard, FontSetting { set: None, is_proportional: None, pitch: None, height: None, \
    is_italic: Some(false), is_bold: None, has_unknown_set: false })
Font(Alternate, FontSetting { set: None, is_proportional: None, pitch: None, height: None, \
    is_italic: None, is_bold: Some(true), has_unknown_set: false })
Font(Standard, FontSetting { set: None, is_proportional: None, pitch: None, height: None, \
    is_italic: None, is_bold: Some(true), has_unknown_set: false })
Font(Standard, FontSetting { set: None, is_proportional: None, pitch: None, height: None, \
    is_italic: None, is_bold: Some(false), has_unknown_set: false })
Font(Standard, FontSetting { set: None, is_proportional: None, pitch: None, height: None, \
    is_italic: None, is_bold: Some(false), has_unknown_set: false })
Font(Standard, FontSetting { set: None, is_proportional: None, pitch: None, height: None, \
    is_italic: None, is_bold: Some(false), has_unknown_set: false })

// An odd count, and values out of range, also after others.
SD4;SD1,14,2;AD2,2;AD2,-1;AD3,.099999;AD3,1500.000001;SD4,0;SD4,1500.000001;SD1,9999,4,0;SD4,0,4,12;
wrong
wrong
wrong
wrong
wrong
wrong
wrong
wrong
wrong
wrong

";

#[test]
fn choices(rt: HostRuntime) -> Result<(), Fail> {
    has_answers(&rt, rt.alloc(), Asked::Choices, CHOICES, 8)
}

const CHOSEN: &str = "\
PU
Standard, Roman8, fixed 9000000 11500000, 1216 by 1728

CS33;CA7;
Standard, German, fixed 9000000 11500000, 1216 by 1728

CS33;CA7;SA;
Alternate, RomanExtensions, fixed 9000000 11500000, 1216 by 1728

// An unknown set changes nothing.
CS33;CS5;SD1,9999;
Standard, German, fixed 9000000 11500000, 1216 by 1728

SD4,23;SD3,18;AD4,10;
Standard, Roman8, fixed 18000000 23000000, 608 by 3456

AD1,14,2,1,3,18,4,23;SA;
Alternate, Latin1, proportional 18000000 23000000, 1980 by 3456

AD1,14,2,1,3,18,4,23;SA;AD;
Alternate, Roman8, fixed 9000000 11500000, 1216 by 1728

AD4,23;SA;SS;
Standard, Roman8, fixed 9000000 11500000, 1216 by 1728

// The bytes 14 and 15 of a text select a set.
CA33;LBa\x0eb\x03
Alternate, German, fixed 9000000 11500000, 1216 by 1728

CA33;SA;LB\x0eb\x0f\x03
Standard, Roman8, fixed 9000000 11500000, 1216 by 1728

SD3,.1,4,1500;
Standard, Roman8, fixed 100000 1500000000, 109440 by 225391

SD3,1500,4,.1;
Standard, Roman8, fixed 1500000000 100000, 7 by 15

";

#[test]
fn chosen(rt: HostRuntime) -> Result<(), Fail> {
    has_answers(&rt, rt.alloc(), Asked::Chosen, CHOSEN, 12)
}
