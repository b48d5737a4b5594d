// Directions and the offsets that follow them, by their numbers.
ghost use Rattle.std.specs.Prelude.{◌+◌, ◌<◌, nat_abs};

use directions::{Direction, Turn};
use exact::Spot;

// The length of each direction.
const ONE: i32 = 1_073_741_824;

fn direction(u: i64, v: i64) -> Direction
    requires { 0 < nat_abs u + nat_abs v }
{
    Direction::unit(i128::from(u), i128::from(v))
}

// The direction of (u, v), as its two coordinates.
fn unit(u: i64, v: i64) -> (i32, i32)
    requires { 0 < nat_abs u + nat_abs v }
{
    let direction = direction(u, v);
    (direction.x(), direction.y())
}

// An offset that follows a direction, as its two coordinates.
fn swung(direction: Direction, x: i64, y: i64) -> (i128, i128) {
    let offset = direction.swung(Spot {
        x: i128::from(x),
        y: i128::from(y),
    });
    (offset.x, offset.y)
}

// Along the axes, to the nearest, and by numbers of more than 31 binary digits, which are shortened by as many digits.
#[test]
fn units(rt: HostRuntime) {
    let axes = [
        unit(1, 0),
        unit(0, 12_345_678_901),
        unit(-7, 0),
        unit(0, i64::MIN),
    ];
    assert_eq!(rt; axes, [(ONE, 0), (0, ONE), (-ONE, 0), (0, -ONE)]);
    let others = [
        unit(3, 4),
        unit(1, 1),
        unit(-1, -2),
        unit(1_000_000_000, 1),
        unit(2_147_483_648, 3),
        unit(3_000_000_000_000_000, -4_000_000_000_000_000),
    ];
    assert_eq!(rt;
        others,
        [
            (644_245_094, 858_993_459),
            (759_250_125, 759_250_125),
            (-480_191_942, -960_383_883),
            (ONE, 1),
            (ONE, 2),
            (644_245_094, -858_993_459),
        ]
    );
}

#[test]
fn turns(rt: HostRuntime) {
    let start = direction(3, 4);
    let quarter = start.turned(Turn::Quarter);
    assert_eq!(rt; (quarter.x(), quarter.y()), (-858_993_459, 644_245_094));
    let turned = [
        quarter.turned(Turn::None),
        start.turned(Turn::Half),
        start.turned(Turn::ThreeQuarters),
    ];
    let wanted = [quarter, quarter.turned(Turn::Quarter), direction(4, -3)];
    assert_eq!(rt; turned, wanted);
}

#[test]
fn offsets(rt: HostRuntime) {
    let offsets = [
        swung(Direction::RIGHT, 1_216, -1_728),
        swung(direction(0, 5), 1_216, 1_728),
        swung(direction(3, 4), 1_216, 0),
        swung(direction(3, 4), 0, 1_728),
    ];
    assert_eq!(rt;
        offsets,
        [
            (1_216, -1_728),
            (-1_728, 1_216),
            (730, 973),
            (-1_382, 1_037)
        ]
    );
}
