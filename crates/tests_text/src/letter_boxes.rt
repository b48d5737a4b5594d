// Code points without a row, which are drawn as a box.
use full_font::{GlyphStroke, glyph};

const BOX: [GlyphStroke; 4] = [
    GlyphStroke {
        ax: 0,
        ay: 0,
        bx: 0,
        by: 6,
    },
    GlyphStroke {
        ax: 0,
        ay: 6,
        bx: 4,
        by: 6,
    },
    GlyphStroke {
        ax: 4,
        ay: 6,
        bx: 4,
        by: 0,
    },
    GlyphStroke {
        ax: 4,
        ay: 0,
        bx: 0,
        by: 0,
    },
];

fn is_box(code_point: u32) -> bool {
    (0..6).all(|k| glyph(code_point, k) == BOX.get(k).copied())
}

// On each side of the tables and of rows in them, and far beyond.
#[test]
fn boxes(rt: HostRuntime) {
    let outside = [
        0,
        31,
        127,
        128,
        159,
        256,
        0x151,
        0x154,
        0x17f,
        0x394,
        0x2012,
        0x2015,
        0x25a1,
        0xd800,
        0x10_ffff,
        u32::MAX,
    ];
    for code_point in outside {
        assert!(rt; is_box(code_point), "{code_point}");
    }
}

// Below 0x3000 all but 253 code points are drawn as a box.
#[test]
fn all_others(rt: HostRuntime) {
    let mut rows: usize = 0;
    for code_point in 0..0x3000 {
        if !is_box(code_point) {
            rows = rows.saturating_add(1);
        }
    }
    assert_eq!(rt; rows, 253);
}
