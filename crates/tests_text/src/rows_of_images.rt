// Rows of images, by each compression. An independent decoder made the rows.
use image_rows::{Compression, Ending, RowFault, RowLength, decode_row};
use std::alloc::Global;
use std::process::Abort;
use std::test::Fail;

// A compression, the width in bytes or the most bytes, the seed, the data; the row, and how the data end. `7*3` is 7.7.7.
const UNENCODED: &str = "\
0 2 7.7 128 = 128.0 whole
0 2 - 1.2.3 = 1.2 whole
0 2 7.7 - = 0.0 whole
0 up3 7 1.2.3 = 1.2.3 whole
0 up3 7 - = - whole
0 up2 - 1.2.3 = - long
0 0 7 1 = - whole
0 3 - 1.2.3 = 1.2.3 whole";

const RUN_LENGTH: &str = "\
1 up9 - 1.255.0.15 = 255.255.15 whole
1 up9 - 2.5.7 = 5.5.5 broken
1 2 - 0.1.200.2 = 1.2 whole
1 2 - 1.1.7 = 1.1 whole
1 2 - 0.1.7 = 1.0 broken
1 3 9.9.9 0.8 = 8.0.0 whole
1 up3 - 2.5 = 5.5.5 whole
1 up2 - 2.5 = - long
1 0 - 1 = - whole
1 300 - 255.1.0.2 = 1*256.2.0*43 whole";

const PACK_BITS: &str = "\
2 1 - 128.0.129 = 129 whole
2 4 - 254.128.0.64 = 128.128.128.64 whole
2 2 - 255.129 = 129.129 whole
2 3 - 129.255 = 255.255.255 whole
2 2 - 3.128.64 = 128.64 broken
2 4 - 3.128.64 = 128.64.0.0 broken
2 2 - 0.5.200 = 5.0 broken
2 2 - 1.5.6.9 = 5.6 whole
2 3 7.7.7 - = 0.0.0 whole
2 3 7.7.7 0.1 = 1.0.0 whole
2 up9 7 128.128 = - whole
2 up9 - 2.4.5.6.254.9 = 4.5.6.9.9.9 whole
2 up2 - 254.9 = - long
2 up3 - 2.1.2.3 = 1.2.3 whole
2 up9 - 128.0 = - broken
2 2 - 1.1.2.128.7 = 1.2 whole
2 130 - 129.3.128.4 = 3*128.0.0 broken";

const DELTA_ROW: &str = "\
3 2 255.255 0.15 = 15.255 whole
3 2 15.255 - = 15.255 whole
3 2 15.255 1.240 = 15.240 whole
3 2 - 1.240 = 0.240 whole
3 2 1.2 2.3 = 1.2 whole
3 2 1.2 2 = 1.2 whole
3 2 1.2 0.3.0 = 3.2 broken
3 2 1.2 31 = 1.2 broken
3 2 1.2 64.9.8 = 9.8 broken
3 2 1.2 224 = 1.2 broken
3 3 1.2.3.4 1.9 = 1.9.3 whole
3 3 1 - = 1.0.0 whole
3 4 1.2.3.4 0.9.33.7.8 = 9.2.7.8 whole
3 4 1.2.3.4 32.5.6.0.7 = 5.6.7.4 whole
3 33 - 31.0.128 = 0*31.128.0 whole
3 33 - 31.1.128 = 0*32.128 whole
3 300 - 31.255.0.7 = 0*286.7.0*13 whole
3 300 - 31.255.3.7 = 0*289.7.0*10 whole
3 300 - 31.255 = 0*300 broken
3 up9 1.2 3.5 = 1.2.0.5 whole
3 up9 1.2.3.4.5 0.9.33.7.8 = 9.2.7.8.5 whole
3 up9 1.2 5 = 1.2 broken
3 up9 1.2.3 33.7 = 1.7.3 broken
3 up2 1.2 1.5 = 1.5 whole
3 up2 1.2 2.5 = - long
3 up2 1.2.3 - = - long
3 up0 - - = - whole
3 2 1.2 1.9.0.8 = 1.9 whole";

const COMPRESSED_DELTA: &str = "\
9 4 - 8.192 = 0.192.0.0 whole
9 4 0.192.0.0 160.128 = 0.128.128.0 whole
9 4 1.2.3.4 - = 1.2.3.4 whole
9 4 1.2.3.4 128 = 1.2.3.4 broken
9 4 1.2.3.4 39 = 1.2.3.4 whole
9 4 1.2.3.4 31 = 1.2.3.4 broken
9 4 1.2.3.4 9.8.7 = 1.8.7.4 whole
9 4 1.2.3.4 9.8 = 1.8.3.4 broken
9 4 1.2.3.4 192.9 = 1.2.9.9 whole
9 4 1.2.3.4 192 = 1.2.3.4 broken
9 4 1.2.3.4 224.9 = 1.2.3.4 whole
9 4 1.2.3.4 224 = 1.2.3.4 broken
9 4 1.2.3.4 0.9.128.8 = 9.8.8.4 whole
9 33 0*31.128.0 120.17.64 = 0*31.128.64 whole
9 33 0*31.128.64 224.28.15 = 0*31.15.15 whole
9 33 0*31.15.15 7.1.0*8.1 = 0*8.1.0*22.15.15 whole
9 33 0*8.1.0*22.15.15 159.0.255 = 255*33 whole
9 40 - 127.3.1.1.2.3.4.5.6.7.8.9 = 0*18.1.2.3.4.5.6.7.8.9.0*13 whole
9 40 - 255.2.3.7 = 0*5.7*35 whole
9 40 - 159.2.7 = 7*35.0*5 whole
9 300 - 159.255.2.7 = 7*290.0*10 whole
9 300 - 255.255.0.0.7 = 0*258.7*33.0*9 whole
9 300 - 127.255 = 0*300 broken
9 300 - 120 = 0*300 broken
9 300 - 7 = 0*300 broken
9 up9 1 16.5 = 1.0.5 whole
9 up9 1.2.3 128.9 = 9.9.3 whole
9 up4 1.2.3 192.9 = 1.2.9.9 whole
9 up3 1.2.3 192.9 = - long
9 up2 1.2.3 - = - long
9 up9 1.2 64 = 1.2 broken";

// The bytes of a text.
fn bytes_of(alloc: Global, text: &str) -> Result<Vec<u8>, Fail> {
    let mut bytes = Vec::new(alloc);
    if text == "-" {
        return Ok(bytes);
    }
    for word in text.split(".") {
        let (byte, count) = word.split_once("*").unwrap_or((word, "1"));
        let byte = byte.parse::<u8>()?;
        for _ in 0..count.parse::<usize>()? {
            bytes.push(byte)?;
        }
    }
    Ok(bytes)
}

// How many bytes a row has.
fn length_of(text: &str) -> Result<RowLength, Fail> {
    match text.strip_prefix("up") {
        Some(most) => Ok(RowLength::UpTo(most.parse()?)),
        None => Ok(RowLength::Fixed(text.parse()?)),
    }
}

// How a row ended, in a word.
fn told(ended: Result<Ending, RowFault>) -> &'static str {
    match ended {
        Ok(Ending::Whole) => "whole",
        Ok(Ending::Broken) => "broken",
        Err(RowFault::TooLong) => "long",
        Err(RowFault::Memory) => "memory",
    }
}

// Whether a row and its ending are as a case says.
fn is_right(alloc: Global, case: &str) -> Result<bool, Fail> {
    let (asked, wanted) = case.split_once(" = ").ok_or("a case with no row")?;
    let (number, asked) = asked.split_once(" ").ok_or("no length")?;
    let (length, asked) = asked.split_once(" ").ok_or("no seed")?;
    let (seed, input) = asked.split_once(" ").ok_or("no data")?;
    let (row, ending) = wanted.split_once(" ").ok_or("no ending")?;
    let compression = Compression::from_number(number.parse()?).ok_or("no such compression")?;
    let mut plane = bytes_of(alloc, seed)?;
    let input = bytes_of(alloc, input)?;
    let ended = decode_row(
        &mut plane,
        compression,
        length_of(length)?,
        input.as_slice(),
    );
    let row = bytes_of(alloc, row)?;
    Ok(told(ended) == ending && plane.as_slice() == row.as_slice())
}

// Fails unless there are so many cases, and each is right.
fn has_rows(rt: &impl Abort, alloc: Global, cases: &str, count: usize) -> Result<(), Fail> {
    let mut found: usize = 0;
    for case in cases.lines() {
        assert!(rt; is_right(alloc, case)?, "{case}");
        found = found.saturating_add(1);
    }
    assert!(rt; found == count, "{found}");
    Ok(())
}

#[test]
fn unencoded(rt: HostRuntime) -> Result<(), Fail> {
    has_rows(&rt, rt.alloc(), UNENCODED, 8)
}

#[test]
fn run_length(rt: HostRuntime) -> Result<(), Fail> {
    has_rows(&rt, rt.alloc(), RUN_LENGTH, 10)
}

#[test]
fn pack_bits(rt: HostRuntime) -> Result<(), Fail> {
    has_rows(&rt, rt.alloc(), PACK_BITS, 17)
}

#[test]
fn delta_row(rt: HostRuntime) -> Result<(), Fail> {
    has_rows(&rt, rt.alloc(), DELTA_ROW, 28)
}

#[test]
fn compressed_delta(rt: HostRuntime) -> Result<(), Fail> {
    has_rows(&rt, rt.alloc(), COMPRESSED_DELTA, 31)
}

// The numbers of compressions; all others are none.
#[test]
fn numbers(rt: HostRuntime) {
    let mut found: u32 = 0;
    for number in 0..20 {
        found <<= 1;
        if Compression::from_number(number).is_some() {
            found |= 1;
        }
    }
    assert_eq!(rt; found, 0b1111_0000_0100_0000_0000);
}
