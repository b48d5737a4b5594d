// What numbers set and ask for, by their text.
use crate::cases::{Asked, has_answers};
use hpgl_text::{Body, Items};
use plot_frame::{Ends, Pair};
use plot_settings::{
    FIRST_WIDTH, Request, default_colour, default_colours, is_off_axis, points_moved_to,
    request_of, width_of_all,
};
use std::alloc::{AllocError, Global};
use std::test::Fail;

fn told(alloc: Global, request: Request) -> Result<String, AllocError> {
    format!(in alloc; "{request:?}\n")
}

// What each instruction of a text asks for, a line each, and what is wrong.
pub fn settings_of(alloc: Global, text: &[u8]) -> Result<String, Fail> {
    let mut lines = String::new(alloc);
    for item in Items::new(text) {
        let Body::Params(instruction, numbers) = &item.body else {
            continue;
        };
        let instruction = *instruction;
        let request = request_of(instruction, numbers);
        lines.push_str(told(alloc, request)?.as_str())?;
        if request.is_wrong(numbers) {
            lines.push_str("!\n")?;
        }
        if is_off_axis(instruction, numbers) {
            lines.push_str("off axis\n")?;
        }
    }
    Ok(lines)
}

const SETTINGS: &str = "\
SP;SP254.5;SP255.5
Set(Pen(0))
Set(Pen(255))
Wrong
!

PW;PW20;PW0.4,2;PW20.000001;PW1,256
Set(WidthOfAll(224))
Set(WidthOfAll(12800))
Set(Width(2, 256))
Wrong
!
Wrong
!

PC;PC2;PC9,1,2,255,4;PC1,2;PC1,2,3,256
Set(DefaultColours)
Set(PenColour(2, Colour { red: 255, green: 0, blue: 0 }))
Set(PenColour(9, Colour { red: 1, green: 2, blue: 255 }))
Wrong
!
Wrong
!

RO;RO90;RO180;RO269.5;RO45
Set(Rotate(None))
Set(Rotate(Quarter))
Set(Rotate(Half))
Set(Rotate(ThreeQuarters))
Wrong
!

IP;IP1,2;IP1,2,1,5;IP1
Set(PageCorners)
Set(FirstPoint(1, 2))
Set(BothPoints(Pair { x: Ends { first: 1, last: 2 }, y: Ends { first: 2, last: 5 } }))
Wrong
!

IW;IW1,2,3,4.5;IW1,2
Set(PageWindow)
Set(CornerWindow(Corners { ax: 1000000, ay: 2000000, bx: 3000000, by: 4500000 }))
Wrong
!

SI;SI1,-40;SI1,0;SI1
Set(Size(CharacterSize { width: 1216, height: 1728 }))
Set(Size(CharacterSize { width: 6400, height: -256000 }))
Wrong
!
Wrong
!

DI;DI0,1;DI-2,1;DI-1,-2;DI0,0
Set(Direction(None))
Set(Direction(Quarter))
Set(Direction(Half))
off axis
Set(Direction(ThreeQuarters))
off axis
Wrong
!

SC;SC0,1,0,2;SC0,1,0,2,1,25;SC0,1,0,2,2;SC1,1,0,2;SC0,1,0,0,2;SC0,1,0,2,3;SC0,1,0,2,1,101
Set(Scale(Off))
Set(Scale(Anisotropic(Pair { x: Range { least: 0, most: 1000000 }, y: Range { least: 0, most: 2000000 } })))
Set(Scale(Isotropic(Pair { x: FittedRange { range: Range { least: 0, most: 1000000 }, share: 25000000 }, \
y: FittedRange { range: Range { least: 0, most: 2000000 }, share: 50000000 } })))
Set(Scale(PointFactor(Pair { x: Factor { least: 0, factor: 1000000 }, y: Factor { least: 0, factor: 2000000 } })))
Wrong
!
Wrong
!
Wrong
!
Wrong
!

// Figures.
CI16;CI-1.5,180,3;CI1,0.4994;CI;PU1,2;PD1;EA1,2;ER1
Circle(Circle { radius: 16000000, chord: 5000 })
Circle(Circle { radius: -1500000, chord: 180000 })
Wrong
!
Wrong
!
Move(Up)
Move(Down)
!
Edge(false, Corner { x: 1000000, y: 2000000 })
Wrong
!

AA1,2,-90.0006;AR1,2,360,0.5;AR1,2,360.0005
Arc(false, Arc { x: 1000000, y: 2000000, sweep: -90001, chord: 5000 })
Arc(true, Arc { x: 1000000, y: 2000000, sweep: 360000, chord: 500 })
Wrong
!

";

#[test]
fn settings(rt: HostRuntime) -> Result<(), Fail> {
    has_answers(&rt, rt.alloc(), Asked::Settings, SETTINGS, 11)
}

#[test]
fn moved_points(rt: HostRuntime) {
    let points = Pair {
        x: Ends { first: 1, last: 11 },
        y: Ends { first: 2, last: 7 },
    };
    let moved = points_moved_to(points, 100, -3);
    let found = [moved.x.first, moved.x.last, moved.y.first, moved.y.last];
    assert_eq!(rt; found, [100, 110, -3, 2]);
}

#[test]
fn all_pens(rt: HostRuntime) {
    let widths = width_of_all(FIRST_WIDTH);
    assert_eq!(rt; [widths[0], widths[255]], [224, 224]);
    let colours = default_colours();
    let mut same: usize = 0;
    for pen in 0..=255u8 {
        if colours[pen as usize] == default_colour(pen) {
            same = same.saturating_add(1);
        }
    }
    assert_eq!(rt; same, 256);
    let yellow = default_colour(4);
    assert_eq!(rt; [yellow.red, yellow.green, yellow.blue], [255, 255, 0]);
}
