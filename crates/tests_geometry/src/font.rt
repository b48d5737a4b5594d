// Characters by public calls.
use stick_font::{GridStroke, column_width, glyph};

const fn stroke(ax: u8, ay: u8, bx: u8, by: u8) -> GridStroke {
    GridStroke { ax, ay, bx, by }
}

// An L has two strokes, and so has a small one. A space has none.
#[test]
fn letters(rt: HostRuntime) {
    let up = Some(stroke(0, 6, 0, 0));
    let found = [
        glyph(b'L', 0),
        glyph(b'L', 1),
        glyph(b'L', 2),
        glyph(b'l', 0),
        glyph(b'l', 2),
        glyph(b' ', 0),
        glyph(b'L', usize::MAX),
    ];
    let foot = Some(stroke(0, 0, 4, 0));
    assert_eq!(rt; found, [up, foot, None, up, None, None, None]);
}

// A polyline of one point is a dot, and a stroke that follows it is found.
#[test]
fn dots(rt: HostRuntime) {
    let found = [
        glyph(b'!', 1),
        glyph(b'!', 2),
        glyph(b'%', 1),
        glyph(b'%', 2),
        glyph(b';', 1),
        glyph(b'~', 2),
    ];
    let wanted = [
        Some(stroke(2, 0, 2, 0)),
        None,
        Some(stroke(0, 5, 0, 5)),
        Some(stroke(4, 1, 4, 1)),
        Some(stroke(2, 1, 1, 0)),
        Some(stroke(3, 2, 4, 3)),
    ];
    assert_eq!(rt; found, wanted);
}

// The bytes on each side of what has strokes, and of the small letters.
#[test]
fn first_and_last_bytes(rt: HostRuntime) {
    for byte in [0, b' ', 127, 255] {
        assert!(rt; glyph(byte, 0).is_none(), "{byte}");
    }
    for byte in [b'!', b'`', b'a', b'z', b'{', b'~'] {
        assert!(rt; glyph(byte, 0).is_some(), "{byte}");
    }
}

#[test]
fn columns(rt: HostRuntime) {
    let found = [
        column_width(b'L'),
        column_width(b'l'),
        column_width(b'`'),
        column_width(b'{'),
    ];
    assert_eq!(rt; found, [3, 2, 3, 3]);
}

fn added(sum: u32, number: u8) -> u32 {
    sum.wrapping_mul(31).wrapping_add(u32::from(number))
}

// All strokes of all bytes, against the count and the checksum that `tools/font_table --sum` prints.
#[test]
fn whole_font(rt: HostRuntime) {
    let mut count = 0u32;
    let mut sum = 0u32;
    for byte in 0..=255u8 {
        for k in 0..20 {
            if let Some(s) = glyph(byte, k) {
                count = count.wrapping_add(1);
                sum = added(added(sum, s.ax), s.ay);
                sum = added(added(sum, s.bx), s.by);
            }
        }
        sum = added(sum, byte);
    }
    assert_eq!(rt; count, 429);
    assert_eq!(rt; sum, 1_702_134_709);
}
