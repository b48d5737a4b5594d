// Texts in UTF-8, as std reads them.
use crate::characters_told::has_signs;
use character_sets::{Encoding, Sets, Sign};
use std::test::Fail;

// Bytes on both sides of each bound of a first byte.
const FIRST: [u8; 20] = [
    b'~', 0x7F, 0x80, 0xBF, 0xC1, 0xC2, 0xDF, 0xE0, 0xE1, 0xEC, 0xED, 0xEE, 0xEF, 0xF0, 0xF1, 0xF3,
    0xF4, 0xF5, 0xF8, 0xFF,
];

// Bytes on both sides of each bound of a further byte, and some that begin a sequence.
const FURTHER: [u8; 11] = [
    b'~', 0x7F, 0x80, 0x8F, 0x90, 0x9F, 0xA0, 0xBF, 0xC0, 0xC2, 0xE0,
];

// Text number n of four such bytes.
fn text_of(n: usize) -> [u8; 4] {
    [
        FIRST[n / 1331 % 20],
        FURTHER[n / 121 % 11],
        FURTHER[n / 11 % 11],
        FURTHER[n % 11],
    ]
}

// The first character of a text, as std reads it, and how many bytes it has.
fn first_character(text: &[u8]) -> Option<(char, usize)> {
    for count in 1..=text.len().min(4) {
        if let Ok(front) = std::str::from_utf8(&text[..count]) {
            return Some((front.chars().next()?, count));
        }
    }
    None
}

// The sign of a character that is no control character, or none.
fn printed(character: char) -> Option<Sign> {
    match character {
        ' '..='~' | '\u{a0}'..=char::MAX => Some(Sign::Printed(u32::from(character))),
        _ => None,
    }
}

// Whether a text with no control characters has the signs that std's characters say.
fn is_read_as_by_std(text: &[u8]) -> bool {
    let mut signs = Encoding::Utf8.signs(Sets::START, text);
    let mut rest = text;
    for _ in 0..text.len() {
        if rest.is_empty() {
            break;
        }
        let (sign, count) = match first_character(rest) {
            Some((character, count)) => (printed(character), count),
            None => (None, 1),
        };
        if sign.is_some() && signs.next_sign() != sign {
            return false;
        }
        rest = rest.get(count..).unwrap_or(&[]);
    }
    signs.next_sign().is_none()
}

#[test]
fn as_std_reads(rt: HostRuntime) {
    for n in 0..26_620 {
        assert!(rt; is_read_as_by_std(&text_of(n)), "text {n}");
    }
}

// What std reads as one character, whole.
#[test]
fn sequences(rt: HostRuntime) -> Result<(), Fail> {
    let alloc = rt.alloc();
    let utf8 = Encoding::Utf8;
    has_signs(
        &rt,
        alloc,
        utf8,
        Sets::START,
        b"\xc3\xb6|\xe4\xb8\x80",
        "00F6 007C 4E00",
    )?;
    has_signs(
        &rt,
        alloc,
        utf8,
        Sets::START,
        b"\xf4\x8f\xbf\xbf\x0e\xc2\xa0\x0f",
        "10FFFF 00A0",
    )?;
    has_signs(
        &rt,
        alloc,
        utf8,
        Sets::START,
        b".\xc3.\xe4\xb8",
        "002E 002E",
    )?;
    has_signs(
        &rt,
        alloc,
        utf8,
        Sets::START,
        b".\xc2\x85.\x9f",
        "002E 002E",
    )?;
    has_signs(
        &rt,
        alloc,
        utf8,
        Sets::START,
        b"\xf0\x9f\x98\x80\xe2\x82\xac\x08\x0d\x0a\x09",
        "1F600 20AC BS CR LF HT",
    )
}
