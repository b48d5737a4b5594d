// Images that escapes of HP RTL make, with the colours of their dots. An independent reader of HP RTL made what is wanted.
ghost use Rattle.std.specs.Prelude.{OnOk};
ghost use Rattle.raster_graphics.specs.Laws.{IsInOrder};

use escapes::{Step, first_step};
use image_colours::Colour;
use page_images::PageImage;
use plot_page::Page;
use raster_graphics::{Answer, Fault, Image, Machine, Request};
use std::alloc::Global;
use std::process::Abort;
use std::test::Fail;

// A text, in which ^ is ESC and a number in brackets a byte; what its commands did (d: done, b: bad, s: skipped); and the place at
// the end. Of each image its corner, dots to the inch and width; its rows, with the colours that they show, - for none.
const IMAGES: &str = "\
^*t127R^*r1A^*b1W<128> = ddd 128 0; 0 0 127 8 0:000000.-*7
^*t127R^*r1A^*b1W<176> = ddd 128 0; 0 0 127 8 0:000000.-.000000*2.-*4
^*p30X^*r3A^*b1W<128> = ddd 54 1626; 0 1626 300 8 0:000000.-*7
^*t127R^&a72h36V^*r1A^*b1W<128> = ddddd 941 1626; 813 1626 127 8 0:000000.-*7
^*t127R^*p12x6Y^*p-6X^*r1A^*b1W<128> = dddddd 453 325; 325 325 127 8 0:000000.-*7
^*t127R^*p12x6Y^*r0A^*b1W<128> = ddddd 453 0; 325 0 127 8 0:000000.-*7
^*t127R^*r3u8s1A^*b1V<254>^*b1V<253>^*b1W<251> = ddddddd 128 0; 0 0 127 8 0:-*5.ffff00.ff00ff.00ffff
^*t127R^*r-3u8s1A^*b1v<192>1v<160>1W<128> = ddddddd 128 0; 0 0 127 8 0:000000.00ffff.ff00ff.-*5
^*t127R^*r1A^*b1m4W<1><255><0><15> = dddd 128 0; 0 0 127 24 0:000000*16.-*4.000000*4
^*t127R^*r8s1A^*b2m3W<128><0><129> = ddddd 128 0; 0 0 127 8 0:000000.-*6.000000
^*t127R^*r32s1A^*b2m4W<254><128><0><64> = ddddd 128 0; 0 0 127 32 0:000000.-*7.000000.-*7.000000.-*8.000000.-*6
^*t127R^*r32s1A^*b9m2w<8><192>2W<160><128> = dddddd 256 0; 0 0 127 32 0:-*8.000000*2.-*22 1:-*8.000000.-*7.000000.-*15
^*t127R^*r-3u8s1A^*b1v<128>1v<128>1W<0>^*b3m0W = ddddddddd 256 0; 0 0 127 8 0:0000ff.-*7 1:0000ff.-*7
^*t127R^*r8s1A^*b1W<128>^*b3m1y0W = ddddddd 384 0; 0 0 127 8 0:000000.-*7 2:-*8
^*t127R^*r-3u8s1A^*b9m2v<0><128>0v0w0W = ddddddddd 256 0; 0 0 127 8 0:00ffff.-*7 1:00ffff.-*7
^*t127R^*r8s1A^*b1W<128>^*b0w1W<64> = dddddd 384 0; 0 0 127 8 0:000000.-*7 1:-*8 2:-.000000.-*6
^*t127R^*v1N^*r1A^*b1W<255>^*b2y1W<15> = dddddd 512 0; 0 0 127 8 0:000000*8 3:ffffff*4.000000*4
^*v6W<0><1><4><8><8><8>^*v255a128b9I^*t127R^*r2s1A^*b1W<145> = dddddddd 128 0; 0 0 127 2 0:ff8000.ff0000
^*v6W<1><1><4><4><4><4>^*v15a8b9I^*t127R^*r4s1A^*b2W<154><48> = dddddddd 128 0; 0 0 127 4 0:0077ff.000000.0000ff.-
^*v6W<0><0><2><8><8><8>^*t127R^*r8s1A^*b1v<160>1W<192> = dddddd 128 0; 0 0 127 8 0:-.00ff00.ff0000.000000*5
^*v6W<1><3><0><8><8><8>^*t127R^*r1A^*b3W<255><0><9> = dddd 128 0; 0 0 127 1 0:00fff6
^*v6W<0><3><0><8><8><8>^*t127R^*r2s1A^*b6W<1><2><3><255><255><255> = ddddd 128 0; 0 0 127 2 0:010203.-
^*v1N^*t127R^*r8s1A^*b3y1W<240> = dddddd 512 0; 0 0 127 8 3:000000*4.ffffff*4
^*t100R^*r4s1A^*b1W<160>^*b1W<64> = ddddd 325 0; 0 0 100 4 0:000000.-.000000.- 1:-.000000.-*2
^*t127R^*r8s1t1A^*b1W<128>^*b1W<128> = dddddd 128 0; 0 0 127 8 0:000000.-*7
^*r1A^*t127R^*r-3u8S^*b1W<128> = ddddd 128 0; 0 0 127 8 0:00ffff.-*7
^*t127R^*r8s1A^*b1W<128>^*t10R^*r3U^*b1W<64> = ddddddd 256 0; 0 0 127 8 0:000000.-*7 1:-.000000.-*6
^*t127R^*r8s1A^*b1W<128>^*b5M^*b1W<255>^*b0m1W<64> = ddddsddd 384 0; 0 0 127 8 0:000000.-*7 2:-.000000.-*6
^*t127R^*r16s1A^*b2m3W<3><128><64> = ddddb 128 0; 0 0 127 16 0:000000.-*8.000000.-*6
^*t127R^E^*r1A^*b1W<128> = dddd 54 0; 0 0 300 8 0:000000.-*7
^*t127R^*r1A^*b1W<128>^&l0H^*r1A^*b1W<128> = dddddd 128 0; 0 0 127 8 0:000000.-*7; 0 0 127 8 0:000000.-*7
^*t5R^*r9a1G^*t9999R^*r2U^*v2N^&u9D^*v5W<0><0><1><8><8> = bbsbbbbb 0 0
^&u9600D^*p16000y6X^*p-20000Y^*r1A^*b1W<128> = dddddd -6720 10; -6774 10 300 8 0:000000.-*7
^*t127R^*p+5x+5Y^*b1W<192>^*rB^*r1A^*b1W<64> = ddddddd 527 0; 271 0 127 8 0:000000*2.-*6; 399 0 127 8 0:-.000000.-*6
^*t127R^*r1A^*b3y-2y1W<128>^*r1A^*b1W<64>^*r1B = dddddddd 640 0; 0 0 127 8 3:000000.-*7 4:-.000000.-*6
^*t127R^*r4t1A^*b2y9y1W<1>^*rB^*r0t1A^*b1W<128> = dddddddddd 640 0; 512 0 127 8 0:000000.-*7
^*t127R^*r-4u4s1A^*b1v<128>1v<64>1v<32>1W<16> = dddddddd 128 0; 0 0 127 4 0:000000.00ffff.ff00ff.ffff00
^*r16s1A^*b2W<255><255>^*b3m2w<0><15>0w2W<1><240> = ddddddd 217 0; 0 0 300 16 0:000000*16 1:-*4.000000*12 2:-*4.000000*12 3:-*4.000000*8.-*4
^*r4s1A^*b2m2W<255><129>^*rB^*r1A^*b2W<255><64> = ddddddd 108 0; 0 0 300 4 0:000000.-*3; 54 0 300 4 0:-.000000.-*2
^*r4s1A^*b2m2W<255><129>^*rC^*r1A^*b2W<32><255> = ddddddd 108 0; 0 0 300 4 0:000000.-*3; 54 0 300 4 0:-*2.000000.-
^*r3u4s1A^*b1v<128>1v<64>1v<32>1v<255>1w<255>1V<15> = ddddddddd 54 0; 0 0 300 4 0:ff0000.00ff00.0000ff.000000
^*r1A^*b0W^*rB^*r1A^*b1V<1> = ddddd 54 0; 0 0 300 0 0:
^*r1A^*b2m1w<5>2w<0><7>1W<3> = ddbdb 163 0; 0 0 300 8 0:-*8 1:-*5.000000*3 2:-*8
^*v6W<0><1><2><8><8><8>^*v9a7b-5c3I^*r1A^*b1W<27> = ddddddd 54 0; 0 0 300 4 0:000000.ff0000.00ff00.090700
^*v6W<0><1><2><8><8><8>^*v9a4i-1i3I^*r1A^*b1W<27> = ddbbddd 54 0; 0 0 300 4 0:000000.ff0000.00ff00.090000
^*r1A^*b1W<128>^*v9a1b2c1I^*v6W<0><1><8><8><8><8>^*rB = dddddddd 54 0; 0 0 300 8 0:000000.-*7
^*r1A^*b4M^*b1v<1>1W<2>^*b9m1W<128> = dsdddb 108 0; 0 0 300 0 1:
^*r4s1A^*b9m2W<0><64>^*rC^*r1A^*b2W<16><255> = ddddddd 108 0; 0 0 300 4 0:-.000000.-*2; 54 0 300 4 0:-*3.000000
^*r1A^*b2W<1><2>^*b1W<255>^*b3m2W<1><7> = ddddd 163 0; 0 0 300 16 0:-*7.000000.-*6.000000.- 1:000000*8.-*8 2:000000*8.-*5.000000*3
^*r4s1A^*b1W<128>^%0A^*b1W<64>^%1B^*b1W<32> = ddddddd 162 0; 0 0 300 4 0:000000.-*3; 54 0 300 4 0:-.000000.-*2; 108 0 300 4 0:-*2.000000.-
^*t127R^*r1A^*b3m3W<31><0><128>^*b9m3W<120><17><64> = dddddd 256 0; 0 0 127 264 0:-*248.000000.-*15 1:-*248.000000.-*8.000000.-*6
^*t127R^*r1A^*b1W<128>^*p+30X^*b1W<64> = ddddd 256 0; 0 0 127 8 0:000000.-*7; 128 0 127 8 0:-.000000.-*6
^*v6W<0><1><2><8><8><8>^*v9a2i3I^*r1A^*b1W<27> = dddddd 54 0; 0 0 300 4 0:000000.ff0000.090000.000000
^*r4s1A^*b1W<128>^*t100R^*t5R^*r3U^*rB^*b1W<64> = dddddddd 108 0; 0 0 300 4 0:000000.-*3; 54 0 300 4 0:-.000000.-*2";

// Texts that are refused, after what their commands did.
const REFUSED: &str = "\
^*p200000000Y = -
^*p8388607000Y^*p1X = -
^*t10R^*r1A^*b82566y1W<128> = dd
^*t10R^*r1A^*b82567Y = dd
^*t2400R^*p2476950X^*r1A^*b1W<128> = ddd
^*t10R^*p2476800X^*r1A^*b1W<128> = ddd";

// The bytes of a text.
pub fn bytes_of(alloc: Global, text: &str) -> Result<Vec<u8>, Fail> {
    let mut bytes = Vec::new(alloc);
    for part in text.split("<") {
        let plain = match part.split_once(">") {
            None => part,
            Some((number, plain)) => {
                bytes.push(number.parse::<u8>()?)?;
                plain
            }
        };
        for byte in plain.bytes() {
            bytes.push(if byte == b'^' { 27 } else { byte })?;
        }
    }
    Ok(bytes)
}

// What a command did, in a letter.
fn letter_of(answer: Answer) -> &'static str {
    match answer {
        Answer::Done => "d",
        Answer::Bad => "b",
        Answer::Skipped => "s",
    }
}

// Has a machine obey the commands of an escape, and answers what follows it.
fn obey_all<'a>(
    alloc: Global,
    machine: &mut Machine,
    text: &'a [u8],
    did: &mut String,
) -> Result<&'a [u8], Fault>
    ensures { IsInOrder machine.old → OnOk result (IsInOrder machine.new) }
{
    let mut rest = text;
    let mut step: Option<Step<'a>> = first_step(text);
    for _ in 0..text.len() {
        let Some(found) = step else {
            return Ok(rest);
        };
        let request = Request::of(&found.command);
        let answer = machine.obey(alloc, request, found.command.input)?;
        did.push_str(letter_of(answer))?;
        rest = found.rest;
        step = found.following();
    }
    Ok(rest)
}

// Has a machine obey all escapes of a text, to its end.
pub fn run(alloc: Global, machine: &mut Machine, text: &[u8], did: &mut String) -> Result<(), Fault>
    ensures { IsInOrder machine.old → OnOk result (IsInOrder machine.new) }
{
    let mut rest = text;
    for _ in 0..text.len() {
        let [first, more @ ..] = rest else {
            break;
        };
        rest = if *first == 27 {
            obey_all(alloc, machine, more, did)?
        } else {
            more
        };
    }
    machine.close()
}

// The images of a machine on a page, in order, each after so many strokes.
pub fn images_of(
    alloc: Global,
    machine: &mut Machine,
    page: &Page,
    before: u32,
) -> Result<Vec<PageImage>, Fail>
    requires { IsInOrder machine.old }
{
    let mut images = Vec::new(alloc);
    'images: while let Some(image) = machine.take_done() {
        images.push(PageImage::new(image, page, before))?;
    }
    Ok(images)
}

// A colour of a text, or none.
fn colour(text: &str) -> Result<Option<Colour>, Fail> {
    if text == "-" {
        return Ok(None);
    }
    let number = u32::from_str_radix(text, 16)?;
    Ok(Some(Colour {
        red: (number >> 16 & 255) as u8,
        green: (number >> 8 & 255) as u8,
        blue: (number & 255) as u8,
    }))
}

// Fails unless a row shows these colours, and no more.
fn shows(rt: &impl Abort, image: &Image, number: u32, runs: &str) -> Result<(), Fail> {
    let mut column: u32 = 0;
    for run in runs.split(".") {
        let (word, count) = run.split_once("*").unwrap_or((run, "1"));
        if word.is_empty() {
            continue;
        }
        for _ in 0..count.parse::<u32>()? {
            assert!(rt;
                image.shown_at(number, column) == colour(word)?,
                "{number}, {column}"
            );
            column = column.saturating_add(1);
        }
    }
    assert!(rt; image.width == column as u64, "{number}");
    assert!(rt; image.shown_at(number, column).is_none(), "{number}");
    Ok(())
}

// A number of a word.
fn integer(word: Option<&str>) -> Result<i32, Fail> {
    Ok(word.ok_or("a number is lacking")?.parse::<i32>()?)
}

// Fails unless an image is as a text says.
fn is_as(rt: &impl Abort, image: &Image, wanted: &str) -> Result<(), Fail> {
    let mut words = wanted.split(" ");
    assert!(rt; image.corner.x == integer(words.next())?, "{wanted}");
    assert!(rt; image.corner.y == integer(words.next())?, "{wanted}");
    assert!(rt;
        image.settings.resolution.number() as i32 == integer(words.next())?,
        "{wanted}"
    );
    let width = words.next().ok_or("a width is lacking")?;
    assert!(rt; image.width == width.parse::<u64>()?, "{wanted}");
    let mut rows: usize = 0;
    let mut next: u32 = 0;
    for word in words {
        let (number, runs) = word.split_once(":").ok_or("no colours")?;
        let number = number.parse::<u32>()?;
        assert!(rt;
            image.numbers.as_slice().get(rows).copied() == Some(number),
            "{wanted}"
        );
        for missing in next..number {
            assert!(rt; image.shown_at(missing, 0).is_none(), "{missing}");
        }
        next = number.saturating_add(1);
        shows(rt, image, number, runs)?;
        rows = rows.saturating_add(1);
    }
    assert!(rt; image.numbers.as_slice().len() == rows, "{wanted}");
    Ok(())
}

// Fails unless a text makes the images of a case.
fn makes(rt: &impl Abort, alloc: Global, case: &str) -> Result<(), Fail> {
    let (text, wanted) = case.split_once(" = ").ok_or("a case with no images")?;
    let mut parts = wanted.split("; ");
    let mut machine = Machine::new(alloc);
    let mut did = String::new(alloc);
    run(
        alloc,
        &mut machine,
        bytes_of(alloc, text)?.as_slice(),
        &mut did,
    )?;
    let mut words = parts.next().ok_or("no answers")?.split(" ");
    assert!(rt; words.next() == Some(did.as_str()), "{case}");
    assert!(rt; machine.place().x == integer(words.next())?, "{case}");
    assert!(rt; machine.place().y == integer(words.next())?, "{case}");
    let mut found: usize = 0;
    for part in parts {
        is_as(
            rt,
            machine.images().get(found).ok_or("an image is lacking")?,
            part,
        )?;
        found = found.saturating_add(1);
    }
    assert!(rt; machine.images().len() == found, "{case}");
    Ok(())
}

#[test]
fn images(rt: HostRuntime) -> Result<(), Fail> {
    let mut found: usize = 0;
    for case in IMAGES.lines() {
        makes(&rt, rt.alloc(), case)?;
        found = found.saturating_add(1);
    }
    assert_eq!(rt; found, 54);
    Ok(())
}

#[test]
fn refused(rt: HostRuntime) -> Result<(), Fail> {
    let alloc = rt.alloc();
    let mut found: usize = 0;
    for case in REFUSED.lines() {
        let (text, wanted) = case.split_once(" = ").ok_or("a case with no answers")?;
        let mut machine = Machine::new(alloc);
        let mut did = String::new(alloc);
        let ended = run(
            alloc,
            &mut machine,
            bytes_of(alloc, text)?.as_slice(),
            &mut did,
        );
        assert!(rt; matches!(ended, Err(Fault::TooFar)), "{case}");
        assert!(rt; did.as_str() == wanted.trim_start_matches("-"), "{case}");
        found = found.saturating_add(1);
    }
    assert_eq!(rt; found, 6);
    Ok(())
}
