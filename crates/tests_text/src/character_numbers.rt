// The numbers of sets, and what each set has in place of characters of ASCII.
use character_sets::CharacterSet;
use std::alloc::{AllocError, Global};
use std::test::Fail;

// What a number is one of.
#[derive(Clone, Copy, Drop)]
enum Asked {
    SymbolSets,
    HpNumbers,
}

// The sets with numbers below `end`, a line each, with the bytes below 128 that differ from ASCII.
fn sets_below(alloc: Global, asked: Asked, end: u32) -> Result<String, AllocError> {
    let mut text = String::new(alloc);
    for number in 0..end {
        let found = match asked {
            Asked::SymbolSets => CharacterSet::by_symbol_set(number),
            Asked::HpNumbers => CharacterSet::by_hp_number(number),
        };
        if let Some(set) = found {
            write!(text, "{number}:")?;
            write_differences(&mut text, set)?;
            text.push_str("\n")?;
        }
    }
    Ok(text)
}

fn write_differences(text: &mut String, set: CharacterSet) -> Result<(), AllocError> {
    for byte in 0..128u8 {
        let own = match byte {
            b' '..=b'~' => Some(u32::from(byte)),
            _ => None,
        };
        let code = set.code_point(byte);
        if code != own {
            match code {
                Some(code) => write!(text, " {byte:02X}={code:04X}")?,
                None => write!(text, " {byte:02X}=-")?,
            }
        }
    }
    Ok(())
}

const SYMBOL_SETS: &str = "\
4: 5B=00C6 5C=00D8 5D=00C5 7B=00E6 7C=00F8 7D=00E5 7E=00AF
6: 23=00A3 40=00E0 5B=00B0 5C=00E7 5D=00A7 7B=00E9 7C=00F9 7D=00E8 7E=00A8
9: 23=00A3 40=00A7 5B=00B0 5C=00E7 5D=00E9 60=00F9 7B=00E0 7C=00F2 7D=00E8 7E=00EC
11: 5C=00A5 7E=00AF
14:
19: 24=00A4 40=00C9 5B=00C4 5C=00D6 5D=00C5 5E=00DC 60=00E9 7B=00E4 7C=00F6 7D=00E5 7E=00FC
21:
36: 23=00A7 5B=00C6 5C=00D8 5D=00C5 7B=00E6 7C=00F8 7D=00E5 7E=007C
37: 23=00A3 7E=00AF
38: 23=00A3 40=00E0 5B=00B0 5C=00E7 5D=00A7 60=00B5 7B=00E9 7C=00F9 7D=00E8 7E=00A8
39: 40=00A7 5B=00C4 5C=00D6 5D=00DC 7B=00E4 7C=00F6 7D=00FC 7E=00DF
83: 23=00A3 40=00A7 5B=00A1 5C=00D1 5D=00BF 7B=00B0 7C=00F1 7D=00E7
85: 24=00A4 7E=00AF
115: 24=00A4 5B=00C4 5C=00D6 5D=00C5 7B=00E4 7C=00F6 7D=00E5 7E=00AF
147: 40=00A7 5B=00C3 5C=00C7 5D=00D5 7B=00E3 7C=00E7 7D=00F5 7E=00B0
277:
341:
629:
";

// The numbers of SD and AD, in order.
#[test]
fn symbol_sets(rt: HostRuntime) -> Result<(), Fail> {
    let found = sets_below(rt.alloc(), Asked::SymbolSets, 1100)?;
    assert_eq!(rt; found.as_str(), SYMBOL_SETS);
    assert_eq!(rt; CharacterSet::by_symbol_set(4_294_967_295), None);
    Ok(())
}

const HP_NUMBERS: &str = "\
0:
1: 5C=221A 5E=2191 7B=03C0 7D=2192
2: 23=00A3 27=00B4 5C=00E7 7B=00A8 7C=00B0 7D=00A8
3: 23=00A3 5B=00D8 5C=00C6 5D=00F8 5E=00E6 7B=00A8 7C=00B0 7D=00B0
4: 23=00BF 27=00B4 5C=00A1 7B=02DC 7C=02DC 7D=02DC 7E=02DC
6: 5C=00A5 7E=00AF
7: 21=00C0 22=00C2 23=00C8 24=00CA 25=00CB 26=00CE 27=00CF 28=00B4 29=02CB 2A=02C6 2B=00A8 \
    2C=02DC 2D=00D9 2E=00DB 2F=20A4 30=00AF 31=00DD 32=00FD 33=00B0 34=00C7 35=00E7 36=00D1 \
    37=00F1 38=00A1 39=00BF 3A=00A4 3B=00A3 3C=00A5 3D=00A7 3E=0192 3F=00A2 40=00E2 41=00EA \
    42=00F4 43=00FB 44=00E1 45=00E9 46=00F3 47=00FA 48=00E0 49=00E8 4A=00F2 4B=00F9 4C=00E4 \
    4D=00EB 4E=00F6 4F=00FC 50=00C5 51=00EE 52=00D8 53=00C6 54=00E5 55=00ED 56=00F8 57=00E6 \
    58=00C4 59=00EC 5A=00D6 5B=00DC 5C=00C9 5D=00EF 5E=00DF 5F=00D4 60=00C1 61=00C3 62=00E3 \
    63=00D0 64=00F0 65=00CD 66=00CC 67=00D3 68=00D2 69=00D5 6A=00F5 6B=0160 6C=0161 6D=00DA \
    6E=0178 6F=00FF 70=00DE 71=00FE 72=00B7 73=00B5 74=00B6 75=00BE 76=2014 77=00BC 78=00BD \
    79=00AA 7A=00BA 7B=00AB 7C=25A0 7D=00BB 7E=00B1
9: 24=00A4 7E=00AF
30: 24=00A4 5B=00C4 5C=00D6 5D=00C5 7B=00E4 7C=00F6 7D=00E5 7E=00AF
31: 24=00A4 40=00C9 5B=00C4 5C=00D6 5D=00C5 5E=00DC 60=00E9 7B=00E4 7C=00F6 7D=00E5 7E=00FC
32: 5B=00C6 5C=00D8 5D=00C5 7B=00E6 7C=00F8 7D=00E5 7E=00AF
33: 40=00A7 5B=00C4 5C=00D6 5D=00DC 7B=00E4 7C=00F6 7D=00FC 7E=00DF
34: 23=00A3 40=00E0 5B=00B0 5C=00E7 5D=00A7 7B=00E9 7C=00F9 7D=00E8 7E=00A8
35: 23=00A3 7E=00AF
36: 23=00A3 40=00A7 5B=00B0 5C=00E7 5D=00E9 60=00F9 7B=00E0 7C=00F2 7D=00E8 7E=00EC
37: 23=00A3 40=00A7 5B=00A1 5C=00D1 5D=00BF 7B=00B0 7C=00F1 7D=00E7
38: 40=00A7 5B=00C3 5C=00C7 5D=00D5 7B=00E3 7C=00E7 7D=00F5 7E=00B0
39: 23=00A7 5B=00C6 5C=00D8 5D=00C5 7B=00E6 7C=00F8 7D=00E5 7E=007C
";

// The numbers of CS and CA, in order.
#[test]
fn hp_numbers(rt: HostRuntime) -> Result<(), Fail> {
    let found = sets_below(rt.alloc(), Asked::HpNumbers, 300)?;
    assert_eq!(rt; found.as_str(), HP_NUMBERS);
    assert_eq!(rt; CharacterSet::by_hp_number(4_294_967_295), None);
    Ok(())
}

// Sets that differ only from 128 on, and sets with two numbers.
#[test]
fn same_sets(rt: HostRuntime) {
    let found = [
        CharacterSet::by_symbol_set(277),
        CharacterSet::by_symbol_set(14),
        CharacterSet::by_symbol_set(629),
        CharacterSet::by_symbol_set(341),
        CharacterSet::by_hp_number(0),
        CharacterSet::by_hp_number(33),
    ];
    let wanted = [
        Some(CharacterSet::Roman8),
        Some(CharacterSet::Latin1),
        Some(CharacterSet::Windows1252),
        Some(CharacterSet::Pc8),
        CharacterSet::by_symbol_set(21),
        CharacterSet::by_symbol_set(39),
    ];
    assert_eq!(rt; found, wanted);
}
