// Single strokes.
use full_font::{GlyphStroke, glyph};

const fn stroke(ax: u8, ay: i8, bx: u8, by: i8) -> GlyphStroke {
    GlyphStroke { ax, ay, bx, by }
}

// A small letter that goes below the line, with a dot above; then nothing.
#[test]
fn small_letter(rt: HostRuntime) {
    let j = u32::from('j');
    let found = [
        glyph(j, 0),
        glyph(j, 2),
        glyph(j, 3),
        glyph(j, 4),
        glyph(j, 5),
        glyph(j, usize::MAX),
    ];
    let wanted = [
        Some(stroke(2, 4, 3, 4)),
        Some(stroke(3, -1, 2, -2)),
        Some(stroke(2, -2, 0, -2)),
        Some(stroke(3, 6, 3, 6)),
        None,
        None,
    ];
    assert_eq!(rt; found, wanted);
}

#[test]
fn spaces(rt: HostRuntime) {
    for code_point in [0x20, 0xa0] {
        assert!(rt; glyph(code_point, 0).is_none(), "{code_point}");
    }
}

// The capitals, digits and signs of ASCII are those of the stick font of ASCII.
#[test]
fn capitals(rt: HostRuntime) {
    for byte in b' '..=b'~' {
        if !byte.is_ascii_lowercase() {
            for k in 0..20 {
                let same = stick_font::glyph(byte, k).map(|s| (
                    s.ax,
                    i32::from(s.ay),
                    s.bx,
                    i32::from(s.by),
                ));
                let found = glyph(u32::from(byte), k).map(|s| (
                    s.ax,
                    i32::from(s.ay),
                    s.bx,
                    i32::from(s.by),
                ));
                assert_eq!(rt; found, same, "{byte}");
            }
        }
    }
}
