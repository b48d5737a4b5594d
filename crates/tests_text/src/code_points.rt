// The characters of each set, from the bytes on.
use character_sets::CharacterSet;
use std::alloc::{AllocError, Global};
use std::test::Fail;

const ROMAN_8: &str = "\
80: - - - - - - - - - - - - - - - -
90: - - - - - - - - - - - - - - - -
A0: 00A0 00C0 00C2 00C8 00CA 00CB 00CE 00CF 00B4 02CB 02C6 00A8 02DC 00D9 00DB 20A4
B0: 00AF 00DD 00FD 00B0 00C7 00E7 00D1 00F1 00A1 00BF 00A4 00A3 00A5 00A7 0192 00A2
C0: 00E2 00EA 00F4 00FB 00E1 00E9 00F3 00FA 00E0 00E8 00F2 00F9 00E4 00EB 00F6 00FC
D0: 00C5 00EE 00D8 00C6 00E5 00ED 00F8 00E6 00C4 00EC 00D6 00DC 00C9 00EF 00DF 00D4
E0: 00C1 00C3 00E3 00D0 00F0 00CD 00CC 00D3 00D2 00D5 00F5 0160 0161 00DA 0178 00FF
F0: 00DE 00FE 00B7 00B5 00B6 00BE 2014 00BC 00BD 00AA 00BA 00AB 25A0 00BB 00B1 -
";

const LATIN_1: &str = "\
80: - - - - - - - - - - - - - - - -
90: - - - - - - - - - - - - - - - -
A0: 00A0 00A1 00A2 00A3 00A4 00A5 00A6 00A7 00A8 00A9 00AA 00AB 00AC 00AD 00AE 00AF
B0: 00B0 00B1 00B2 00B3 00B4 00B5 00B6 00B7 00B8 00B9 00BA 00BB 00BC 00BD 00BE 00BF
C0: 00C0 00C1 00C2 00C3 00C4 00C5 00C6 00C7 00C8 00C9 00CA 00CB 00CC 00CD 00CE 00CF
D0: 00D0 00D1 00D2 00D3 00D4 00D5 00D6 00D7 00D8 00D9 00DA 00DB 00DC 00DD 00DE 00DF
E0: 00E0 00E1 00E2 00E3 00E4 00E5 00E6 00E7 00E8 00E9 00EA 00EB 00EC 00ED 00EE 00EF
F0: 00F0 00F1 00F2 00F3 00F4 00F5 00F6 00F7 00F8 00F9 00FA 00FB 00FC 00FD 00FE 00FF
";

const WINDOWS_1252: &str = "\
80: 20AC - 201A 0192 201E 2026 2020 2021 02C6 2030 0160 2039 0152 - 017D -
90: - 2018 2019 201C 201D 2022 2013 2014 02DC 2122 0161 203A 0153 - 017E 0178
A0: 00A0 00A1 00A2 00A3 00A4 00A5 00A6 00A7 00A8 00A9 00AA 00AB 00AC 00AD 00AE 00AF
B0: 00B0 00B1 00B2 00B3 00B4 00B5 00B6 00B7 00B8 00B9 00BA 00BB 00BC 00BD 00BE 00BF
C0: 00C0 00C1 00C2 00C3 00C4 00C5 00C6 00C7 00C8 00C9 00CA 00CB 00CC 00CD 00CE 00CF
D0: 00D0 00D1 00D2 00D3 00D4 00D5 00D6 00D7 00D8 00D9 00DA 00DB 00DC 00DD 00DE 00DF
E0: 00E0 00E1 00E2 00E3 00E4 00E5 00E6 00E7 00E8 00E9 00EA 00EB 00EC 00ED 00EE 00EF
F0: 00F0 00F1 00F2 00F3 00F4 00F5 00F6 00F7 00F8 00F9 00FA 00FB 00FC 00FD 00FE 00FF
";

const PC_8: &str = "\
80: 00C7 00FC 00E9 00E2 00E4 00E0 00E5 00E7 00EA 00EB 00E8 00EF 00EE 00EC 00C4 00C5
90: 00C9 00E6 00C6 00F4 00F6 00F2 00FB 00F9 00FF 00D6 00DC 00A2 00A3 00A5 20A7 0192
A0: 00E1 00ED 00F3 00FA 00F1 00D1 00AA 00BA 00BF 2310 00AC 00BD 00BC 00A1 00AB 00BB
B0: - - - - - - - - - - - - - - - -
C0: - - - - - - - - - - - - - - - -
D0: - - - - - - - - - - - - - - - -
E0: 03B1 00DF 0393 03C0 03A3 03C3 00B5 03C4 03A6 0398 03A9 03B4 221E 03C6 03B5 2229
F0: 2261 00B1 2265 2264 2320 2321 00F7 2248 00B0 2219 00B7 221A 207F 00B2 25A0 00A0
";

// The code points of the bytes from 128 on, 16 in a line.
fn upper_half(alloc: Global, set: CharacterSet) -> Result<String, AllocError> {
    let mut text = String::new(alloc);
    for byte in 128..=255u8 {
        if byte % 16 == 0 {
            write!(text, "{byte:02X}:")?;
        }
        match set.code_point(byte) {
            Some(code) => write!(text, " {code:04X}")?,
            None => text.push_str(" -")?,
        }
        if byte % 16 == 15 {
            text.push_str("\n")?;
        }
    }
    Ok(text)
}

#[test]
fn upper_halves(rt: HostRuntime) -> Result<(), Fail> {
    for (set, wanted) in [
        (CharacterSet::Roman8, ROMAN_8),
        (CharacterSet::Latin1, LATIN_1),
        (CharacterSet::Windows1252, WINDOWS_1252),
        (CharacterSet::Pc8, PC_8),
        (CharacterSet::Ascii, ROMAN_8),
        (CharacterSet::German, ROMAN_8),
        (CharacterSet::RomanExtensions, ROMAN_8),
    ] {
        let found = upper_half(rt.alloc(), set)?;
        assert_eq!(rt; found.as_str(), wanted);
    }
    Ok(())
}

// Set 7 has Roman-8's characters 128 bytes earlier, with the space of ASCII.
#[test]
fn roman_extensions(rt: HostRuntime) {
    for byte in 33..=126u8 {
        assert_eq!(rt;
            CharacterSet::RomanExtensions.code_point(byte),
            CharacterSet::Roman8.code_point(byte + 128)
        );
    }
    assert_eq!(rt; CharacterSet::RomanExtensions.code_point(b' '), Some(32));
    assert_eq!(rt; CharacterSet::RomanExtensions.code_point(b'N'), Some(0xF6));
    assert_eq!(rt; CharacterSet::RomanExtensions.code_point(127), None);
}
