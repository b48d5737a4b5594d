// Labels by public calls.
ghost use Rattle.std.specs.Prelude.{◌≡◌};

use exact::Spot;
use stick_font::{Cell, CharacterSize, LabelStroke, label_stroke};

const fn at(x: i128, y: i128) -> Spot
    ensures { result ≡ record { x = x; y = y } }
{
    Spot { x, y }
}

// Where the character after some bytes begins.
fn end_of(bytes: &[u8]) -> Spot {
    let mut cell = Cell::FIRST;
    for byte in bytes {
        if cell.column < 1000 && cell.line < 1000 {
            cell = cell.after(*byte);
        }
    }
    cell.corner()
}

const fn line(ax: i128, ay: i128, bx: i128, by: i128) -> Option<LabelStroke> {
    Some(LabelStroke {
        from: Spot { x: ax, y: ay },
        to: Spot { x: bx, y: by },
    })
}

// An L has two strokes, and a small one is two thirds of it in both directions. A cell is 18 twelfths wide and 36
// eighteenths high.
#[test]
fn strokes(rt: HostRuntime) {
    let cell = Cell { column: 2, line: 1 };
    let found = [
        label_stroke(Cell::FIRST, b'L', 0),
        label_stroke(Cell::FIRST, b'L', 1),
        label_stroke(Cell::FIRST, b'L', 2),
        label_stroke(Cell::FIRST, b'l', 1),
        label_stroke(Cell::FIRST, b' ', 0),
        label_stroke(cell, b'-', 0),
    ];
    let wanted = [
        line(0, 18, 0, 0),
        line(0, 0, 12, 0),
        None,
        line(0, 0, 8, 0),
        None,
        line(36, -27, 48, -27),
    ];
    assert_eq!(rt; found, wanted);
}

// The pen ends at the next cell, whatever the last character's width is.
#[test]
fn ends(rt: HostRuntime) {
    let found = [
        end_of(b""),
        end_of(b"Ll"),
        end_of(b"AB\r\nC\n"),
        end_of(b"AB\n"),
        end_of(&[0, 9, 31, 127, 255]),
        end_of(b" ~"),
    ];
    let wanted = [
        at(0, 0),
        at(36, 0),
        at(18, -72),
        at(36, -36),
        at(0, 0),
        at(36, 0),
    ];
    assert_eq!(rt; found, wanted);
}

#[test]
fn sizes(rt: HostRuntime) {
    let usual = CharacterSize::DEFAULT;
    let turned_about = CharacterSize {
        width: -1216,
        height: -1728,
    };
    let little = CharacterSize {
        width: 6,
        height: -9,
    };
    let found = [
        usual.offset(at(12, 18)),
        usual.offset(at(8, 12)),
        turned_about.offset(at(36, -36)),
        little.offset(at(1, 1)),
    ];
    let wanted = [at(1216, 1728), at(811, 1152), at(-3648, 3456), at(1, 0)];
    assert_eq!(rt; found, wanted);
}
