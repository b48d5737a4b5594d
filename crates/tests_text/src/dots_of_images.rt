// How dots of images are coded, palettes, and the colour of each dot. An independent decoder made the colours.
use image_colours::{Bits, Coding, Colour, Palette, Parts, colour_of, configured, simple};
use std::alloc::Global;
use std::process::Abort;
use std::test::Fail;

// u and a number of Simple Color, or c and the bytes of Configure Image Data; entries that are set; the planes of a row; and the
// colours of its first dots.
const DOTS: &str = "\
u1 - 160 = 000000 ffffff 000000 ffffff
u-1 - - = ffffff
u3 - 254,253,251 = ffffff ffffff ffffff ffffff ffffff ffff00 ff00ff 00ffff
u3 - 192,160,144 = ffffff ff0000 00ff00 0000ff 000000
u-3 - 192,160,128 = 000000 00ffff ff00ff
u-4 - 128,64,32,16 = 000000 00ffff ff00ff ffff00 ffffff
u-4 - 240,204,170,1 = 000000 000000 000000 000000 0000ff 00ffff ff00ff ffff00
c0.2.0.1.1.1 - 192,160,144 = ffffff ff0000 00ff00 0000ff
c1.2.9.1.1.1 - 0,128,0,255 = ff00ff ffffff
c0.0.1.8.8.8 - 64,255 = ffffff 000000
c1.0.1.8.8.8 1:255.0.255 64 = ffffff 00ff00
c0.0.2.8.8.8 - 160,192 = ffffff 00ff00 ff0000 000000
c1.0.2.8.8.8 - 160,192 = 000000 ff00ff 00ffff ffffff
c0.0.4.8.8.8 8:1.2.3 170,204,240,3 = ffffff 00ffff ff00ff 0000ff ffff00 00ff00 000000 010203
c1.0.3.8.8.8 - 170,204,240 = 000000 ff0000 00ff00 ffff00 0000ff ff00ff 00ffff ffffff
c0.1.1.8.8.8 0:0.0.128 64 = 000080 000000 000080
c0.1.2.8.8.8 - 27.192 = 000000 ff0000 00ff00 ffffff ffffff 000000
c0.1.4.8.8.8 9:255.128.0 145 = ff8000 ff0000 000000
c1.1.4.4.4.4 9:15.8.0 154.48 = 0077ff 000000 0000ff ffffff
c0.1.8.1.2.3 200:1.1.4,7:0.3.7 200.7.6.255 = ff5592 00ffff 00ffff 000000 000000
c0.3.0.8.8.8 - 1.2.3.255.255.255 = 010203 ffffff
c1.3.0.8.8.8 - 255.0.9.1.2 = 00fff6 fefdff ffffff
u3 1:9.9.9 128 = ff0000
c0.1.4.8.8.8 9:255.128.0,9:300.4294967295.256 144 = ffffff 000000";

// A coding, the planes of a row, the bits of a dot, the bytes of 9 dots, the dots of 5 bytes, the entries.
const COUNTS: &str = "\
u1 1 1 2 40 2
u3 3 1 2 40 8
u-4 4 1 2 40 16
c0.0.8.8.8.8 8 1 2 40 256
c0.0.5.8.8.8 5 1 2 40 32
c0.0.3.8.8.8 3 1 2 40 8
c0.0.6.8.8.8 6 1 2 40 64
c0.0.7.8.8.8 7 1 2 40 128
c0.1.1.8.8.8 1 1 2 40 2
c0.1.2.8.8.8 1 2 3 20 4
c0.1.4.8.8.8 1 4 5 10 16
c0.1.8.8.8.8 1 8 9 5 256
c0.2.0.1.1.1 3 1 2 40 8
c0.3.0.8.8.8 1 24 27 1 0";

// What is no coding: a byte too few, and each byte out of its range.
const NONE: &str = "\
u0
u2
u4
u-2
u-5
c0.0.3.8.8
c2.0.3.8.8.8
c0.4.3.8.8.8
c0.0.0.8.8.8
c0.0.9.8.8.8
c0.1.3.8.8.8
c0.1.16.8.8.8
c0.1.1.8.9.8
c0.0.1.0.8.8
c0.0.1.8.8.0
c0.2.0.1.2.1
c0.2.0.8.1.1
c0.3.0.8.8.7
c0.3.0.1.8.8";

// A coding, and the first number that is no entry of it.
const ENDS: &str = "\
u1 2
u3 8
u-4 16
c0.0.1.8.8.8 2
c0.1.8.8.8.8 256
c0.0.3.8.8.8 8
c0.2.0.1.1.1 8
c0.3.0.8.8.8 0";

// The bytes of a text; none for a dash.
fn bytes_of(alloc: Global, text: &str) -> Result<Vec<u8>, Fail> {
    let mut bytes = Vec::new(alloc);
    if text == "-" {
        return Ok(bytes);
    }
    for word in text.split(".") {
        bytes.push(word.parse::<u8>()?)?;
    }
    Ok(bytes)
}

// The coding of a text.
fn coding_of(alloc: Global, text: &str) -> Result<Option<Coding>, Fail> {
    match text.strip_prefix("u") {
        Some(number) => Ok(simple(number.parse::<i64>()?)),
        None => {
            let bytes = bytes_of(alloc, text.strip_prefix("c").ok_or("no coding")?)?;
            Ok(configured(bytes.as_slice()))
        }
    }
}

// A palette with the entries of a text.
fn palette_of(coding: Coding, text: &str) -> Result<Palette, Fail> {
    let mut palette = Palette::new(coding);
    if text == "-" {
        return Ok(palette);
    }
    for entry in text.split(",") {
        let (number, parts) = entry.split_once(":").ok_or("no parts")?;
        let (first, parts) = parts.split_once(".").ok_or("no second part")?;
        let (second, third) = parts.split_once(".").ok_or("no third part")?;
        let parts = Parts {
            first: first.parse()?,
            second: second.parse()?,
            third: third.parse()?,
        };
        palette.set(coding, number.parse()?, parts)?;
    }
    Ok(palette)
}

// A colour of a text.
fn colour(text: &str) -> Result<Colour, Fail> {
    let number = u32::from_str_radix(text, 16)?;
    Ok(Colour {
        red: (number >> 16 & 255) as u8,
        green: (number >> 8 & 255) as u8,
        blue: (number & 255) as u8,
    })
}

// The plane of a number in a text.
fn plane_of(alloc: Global, text: &str, number: usize) -> Result<Vec<u8>, Fail> {
    match text.split(",").nth(number) {
        Some(plane) => bytes_of(alloc, plane),
        None => Ok(Vec::new(alloc)),
    }
}

// Fails unless the dots of a case have its colours.
fn has_colours(rt: &impl Abort, alloc: Global, case: &str) -> Result<(), Fail> {
    let (asked, wanted) = case.split_once(" = ").ok_or("a case with no colours")?;
    let (coding, asked) = asked.split_once(" ").ok_or("no entries")?;
    let (entries, planes) = asked.split_once(" ").ok_or("no planes")?;
    let coding = coding_of(alloc, coding)?.ok_or("no such coding")?;
    let palette = palette_of(coding, entries)?;
    let first = plane_of(alloc, planes, 0)?;
    let second = plane_of(alloc, planes, 1)?;
    let third = plane_of(alloc, planes, 2)?;
    let fourth = plane_of(alloc, planes, 3)?;
    let planes = [
        first.as_slice(),
        second.as_slice(),
        third.as_slice(),
        fourth.as_slice(),
    ];
    let mut column: u32 = 0;
    for word in wanted.split(" ") {
        assert!(rt;
            colour_of(coding, &palette, &planes, column) == colour(word)?,
            "{case}, {column}"
        );
        column = column.saturating_add(1);
    }
    Ok(())
}

#[test]
fn dots(rt: HostRuntime) -> Result<(), Fail> {
    let mut found: usize = 0;
    for case in DOTS.lines() {
        has_colours(&rt, rt.alloc(), case)?;
        found = found.saturating_add(1);
    }
    assert_eq!(rt; found, 24);
    Ok(())
}

// The number of a word.
fn number(word: Option<&str>) -> Result<usize, Fail> {
    Ok(word.ok_or("a number is lacking")?.parse::<usize>()?)
}

#[test]
fn counts(rt: HostRuntime) -> Result<(), Fail> {
    let mut found: usize = 0;
    for case in COUNTS.lines() {
        let mut words = case.split(" ");
        let coding = coding_of(rt.alloc(), words.next().ok_or("no coding")?)?.ok_or(
            "no such coding",
        )?;
        assert!(rt;
            coding.plane_count() == number(words.next())?,
            "planes: {case}"
        );
        assert!(rt; coding.dot_bits() == number(words.next())?, "bits: {case}");
        assert!(rt;
            coding.plane_bytes(9) == number(words.next())?,
            "bytes: {case}"
        );
        assert!(rt; coding.dots_in(5) == number(words.next())?, "dots: {case}");
        assert!(rt;
            coding.entry_count() == number(words.next())?,
            "entries: {case}"
        );
        found = found.saturating_add(1);
    }
    assert_eq!(rt; found, 14);
    Ok(())
}

#[test]
fn no_codings(rt: HostRuntime) -> Result<(), Fail> {
    let mut found: usize = 0;
    for case in NONE.lines() {
        assert!(rt; coding_of(rt.alloc(), case)?.is_none(), "{case}");
        found = found.saturating_add(1);
    }
    assert_eq!(rt; found, 19);
    Ok(())
}

#[test]
fn entries_end(rt: HostRuntime) -> Result<(), Fail> {
    let parts = Parts {
        first: 0,
        second: 0,
        third: 0,
    };
    let mut found: usize = 0;
    for case in ENDS.lines() {
        let (coding, end) = case.split_once(" ").ok_or("no end")?;
        let coding = coding_of(rt.alloc(), coding)?.ok_or("no such coding")?;
        let end = end.parse::<u32>()?;
        let mut palette = Palette::new(coding);
        assert!(rt; palette.set(coding, end, parts).is_err(), "{case}");
        assert!(rt;
            end == 0 || palette.set(coding, end - 1, parts).is_ok(),
            "{case}"
        );
        found = found.saturating_add(1);
    }
    assert_eq!(rt; found, 8);
    Ok(())
}

// Eight planes: the last has an index's highest bit.
#[test]
fn eight_planes(rt: HostRuntime) -> Result<(), Fail> {
    let coding = configured(&[0, 0, 8, 8, 8, 8]).ok_or("no such coding")?;
    let mut palette = Palette::new(coding);
    palette.set(
        coding,
        129,
        Parts {
            first: 7,
            second: 8,
            third: 9,
        },
    )?;
    let planes: [&[u8]; 9] = [&[0, 1], &[], &[], &[], &[], &[], &[], &[0, 1, 1], &[255]];
    let set = Colour {
        red: 7,
        green: 8,
        blue: 9,
    };
    assert_eq!(rt; colour_of(coding, &palette, &planes, 15), set);
    assert_eq!(rt; colour_of(coding, &palette, &planes, 7), palette.colour(0));
    assert_eq!(rt;
        colour_of(coding, &palette, &planes, 23),
        palette.colour(128)
    );
    Ok(())
}

// The numbers of bits, which are 1 to 8.
#[test]
fn bits(rt: HostRuntime) {
    let mut sum: usize = 0;
    for number in 0..=255 {
        if let Some(bits) = Bits::from_number(number) {
            assert!(rt; bits.number() == number as usize);
            sum = sum.saturating_add(bits.number());
        }
    }
    assert_eq!(rt; sum, 36);
}
