// Pages and strokes by public calls.
use plot_page::{Colour, Dots, Page, PageFault, Stroke, Window};
use std::test::Fail;

const RED: Colour = Colour {
    red: 255,
    green: 0,
    blue: 0,
};

const WINDOW: Window = Window {
    x0: 0,
    y0: 0,
    x1: 1_048_576,
    y1: 1_048_576,
};

// Why a page cannot be made. This promises nothing: a test looks at the answer.
fn fault_of(width: u32, height: u32, left: u32, below: u32) -> Option<PageFault> {
    Page::new(width, height, left, below).err()
}

// The size is judged before the corner.
#[test]
fn sizes_and_corners(rt: HostRuntime) {
    assert!(rt; fault_of(64, 65_536, 0, 65_536).is_none());
    let sizes = [
        fault_of(63, 64, 0, 0),
        fault_of(64, 65_537, 0, 0),
        fault_of(63, 64, 65_537, 0),
        fault_of(64, 65_537, 65_537, 0),
    ];
    assert_eq!(rt; sizes, [Some(PageFault::Size); 4]);
    let corners = [fault_of(64, 64, 65_537, 0), fault_of(64, 64, 0, 65_537)];
    assert_eq!(rt; corners, [Some(PageFault::Corner); 2]);
}

#[test]
fn resolutions(rt: HostRuntime) {
    let found = [
        Dots::new(9).is_some(),
        Dots::new(10).is_some(),
        Dots::new(1200).is_some(),
        Dots::new(1201).is_some(),
    ];
    assert_eq!(rt; found, [false, true, true, false]);
}

// A plot may have 4,194,304 strokes, so their size counts.
// The width and the height of pages, how many pixels their longer side may have, and the resolution and the size of their
// pictures.
const PREVIEWS: [(u32, u32, u32, u32, u32, u32); 7] = [
    (65_536, 64, 16, 1, 65, 1),
    (65_536, 64, 65, 1, 65, 1),
    (64, 65_536, 129, 2, 1, 129),
    (11_880, 8_400, 256, 21, 246, 174),
    (8_400, 11_880, 257, 22, 182, 257),
    (11_880, 8_400, 20_000, 1_200, 14_031, 9_921),
    (64, 64, 75, 1_198, 75, 75),
];

#[test]
fn resolutions_of_previews(rt: HostRuntime) -> Result<(), Fail> {
    for (width, height, pixels, resolution, columns, rows) in PREVIEWS {
        let page = Page::new(width, height, 0, 0)?;
        let dots = Dots::within(&page, pixels);
        assert_eq!(rt;
            (dots.per_inch(), dots.columns(&page), dots.rows(&page)),
            (resolution, columns, rows)
        );
    }
    Ok(())
}

#[test]
fn strokes_of_40_bytes(rt: HostRuntime) {
    let stroke = Stroke::new(255, RED, 12_800, WINDOW, 0, 0, 1_048_576, -1_048_576);
    assert!(rt; stroke.is_some_and(|it| it.colour == RED));
    assert_eq!(rt; size_of::<Stroke>(), 40);
}

// Whether a red stroke can go from one place to another. This promises nothing: a test looks at the answer.
fn is_stroke(pen: u8, width: u32, window: Window, from: [i32; 2], to: [i32; 2]) -> bool {
    Stroke::new(pen, RED, width, window, from[0], from[1], to[0], to[1]).is_some()
}

#[test]
fn ranges_of_strokes(rt: HostRuntime) {
    let low = Window { x0: -1, ..WINDOW };
    let high = Window {
        y1: 1_048_577,
        ..WINDOW
    };
    let found = [
        is_stroke(0, 224, WINDOW, [0, 0], [1, 1]),
        is_stroke(1, 12_801, WINDOW, [0, 0], [1, 1]),
        is_stroke(1, 224, low, [0, 0], [1, 1]),
        is_stroke(1, 224, high, [0, 0], [1, 1]),
        is_stroke(1, 224, WINDOW, [-1_048_577, 0], [1, 1]),
        is_stroke(1, 224, WINDOW, [0, 0], [1_048_577, 0]),
        is_stroke(1, 224, WINDOW, [0, 0], [1, 1_048_577]),
    ];
    assert_eq!(rt; found, [false; 7]);
    let narrow = Window {
        x0: 0,
        y0: 0,
        x1: 1024,
        y1: 1024,
    };
    assert!(rt; is_stroke(1, 224, narrow, [0, 0], [1024, 1024]));
}

// Whether a red stroke of any plot can go from one place to another. This promises nothing: a test looks at the answer.
fn is_far_stroke(pen: u8, width: u32, window: Window, from: [i32; 2], to: [i32; 2]) -> bool {
    Stroke::far(pen, RED, width, window, from[0], from[1], to[0], to[1]).is_some()
}

#[test]
fn ranges_of_far_strokes(rt: HostRuntime) {
    let far = 134_217_712;
    let long = Window {
        x0: 0,
        y0: 0,
        x1: 8_388_608,
        y1: 8_388_608,
    };
    let low = Window { y0: -1, ..long };
    let high = Window {
        x1: 8_388_609,
        ..long
    };
    let found = [
        is_far_stroke(0, 224, long, [0, 0], [1, 1]),
        is_far_stroke(1, 12_801, long, [0, 0], [1, 1]),
        is_far_stroke(1, 224, low, [0, 0], [1, 1]),
        is_far_stroke(1, 224, high, [0, 0], [1, 1]),
        is_far_stroke(1, 224, long, [-far - 1, 0], [1, 1]),
        is_far_stroke(1, 224, long, [0, 0], [1, far + 1]),
    ];
    assert_eq!(rt; found, [false; 6]);
    assert!(rt; is_far_stroke(255, 12_800, long, [-far, far], [far, -far]));
}

#[test]
fn rolls(rt: HostRuntime) {
    let most = 524_288;
    let found = [
        Page::roll(63, 64, 0, 0).is_some(),
        Page::roll(64, most + 1, 0, 0).is_some(),
        Page::roll(64, 64, 65_537, 0).is_some(),
        Page::roll(64, 64, 0, 65_537).is_some(),
        Page::roll(64, most, 65_536, 65_536).is_some(),
    ];
    assert_eq!(rt; found, [false, false, false, false, true]);
}
