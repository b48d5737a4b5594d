// Sines, ends of chords and turns by their numbers.
ghost use Rattle.plot_arc.specs.Bounds.{IsNear};

use crate::numbers::number_of;
use crate::texts::has_text;
use exact::Spot;
use plot_arc::{chord_point, sine, turn, turn_count};
use std::alloc::Global;
use std::process::Abort;
use std::test::Fail;

// The farthest coordinate from 0.
const FAR: i128 = 1_000_000_000_000_000_000_000_000;

fn spot(x: i64, y: i64) -> Spot
    ensures { IsNear result }
{
    Spot {
        x: i128::from(x),
        y: i128::from(y),
    }
}

// A point turned about a centre, as its two coordinates.
fn turned(centre: (i64, i64), from: (i64, i64), thousandths: i64) -> (i128, i128) {
    let point = chord_point(spot(centre.0, centre.1), spot(from.0, from.1), thousandths);
    (point.x, point.y)
}

// What is asked of the numbers of a line.
#[derive(Clone, Copy, Drop)]
enum Asked {
    Sine,
    Turned,
    TurnCount,
    Turn,
}

// Fails unless there are so many lines, and each has the answer that it says: numbers, a colon, and the answer.
fn has_answers(
    rt: &impl Abort,
    alloc: Global,
    asked: Asked,
    lines: &str,
    count: usize,
) -> Result<(), Fail> {
    let mut text = String::new(alloc);
    let mut found: usize = 0;
    for line in lines.lines() {
        let (words, _) = line.split_once(":").ok_or("a line without a colon")?;
        text.push_str(words)?;
        let answer = answer_of(alloc, asked, numbers_of(words))?;
        text.push_str(answer.as_str())?;
        found = found.saturating_add(1);
    }
    has_text(rt, text.as_str(), lines);
    if found != count {
        return Err("not so many lines".into());
    }
    Ok(())
}

// The numbers of some words, and then zeros.
fn numbers_of(words: &str) -> [i64; 5] {
    let mut words = words.split_whitespace();
    [
        number_of(words.next()),
        number_of(words.next()),
        number_of(words.next()),
        number_of(words.next()),
        number_of(words.next()),
    ]
}

fn answer_of(alloc: Global, asked: Asked, numbers: [i64; 5]) -> Result<String, Fail> {
    let [first, second, third, fourth, fifth] = numbers;
    match asked {
        Asked::Sine => {
            let sine = sine(first);
            Ok(format!(in alloc; ": {sine}\n")?)
        }
        Asked::Turned => {
            let (x, y) = turned((first, second), (third, fourth), fifth);
            Ok(format!(in alloc; ": {x} {y}\n")?)
        }
        Asked::TurnCount => {
            let chord = unsigned(first)?;
            if chord == 0 {
                return Err("a chord of 0".into());
            }
            let count = turn_count(chord, signed(second)?);
            Ok(format!(in alloc; ": {count}\n")?)
        }
        Asked::Turn => {
            let turn = turn(unsigned(first)?, signed(second)?, unsigned(third)?);
            Ok(format!(in alloc; ": {turn}\n")?)
        }
    }
}

fn unsigned(number: i64) -> Result<u32, Fail> {
    Ok(u32::try_from(number).ok().ok_or("not 0 to 4294967295")?)
}

fn signed(number: i64) -> Result<i32, Fail> {
    Ok(i32::try_from(number).ok().ok_or("not of 32 bits")?)
}

const SINES: &str = "\
0: 0
1: 175
30000: 5000000
37500: 6087500
45000: 7071000
52500: 7933000
89000: 9998000
89500: 9999000
89999: 9999998
90000: 10000000
127500: 7933000
179999: 175
180000: 0
180001: -175
270000: -10000000
359999: -175
360000: 0
-30000: -5000000
-690000: 5000000
9223372036854775807: 8271086
-9223372036854775808: -8271184
";

#[test]
fn sines(rt: HostRuntime) -> Result<(), Fail> {
    has_answers(&rt, rt.alloc(), Asked::Sine, SINES, 21)
}

// The entries times 1 to 91, added up: a wrong entry, or two exchanged, change the sum. It comes
// from what `tools/sine_table` prints.
#[test]
fn all_entries_of_the_table(rt: HostRuntime) {
    let mut sum: i64 = 0;
    for degree in 0..91_i64 {
        let entry = sine(degree.wrapping_mul(1000));
        sum = sum.wrapping_add(entry.wrapping_mul(degree.wrapping_add(1)));
    }
    assert_eq!(rt; sum, 33_856_627_000);
}

// Quarters of a circle, other angles, and halves: one half and minus one half are both rounded upward.
const TURNED_POINTS: &str = "\
10 20 13 21 0: 13 21
10 20 13 21 90000: 9 23
10 20 13 21 180000: 7 19
10 20 13 21 270000: 11 17
10 20 13 21 360000: 13 21
10 20 13 21 -90000: 11 17
10 20 13 21 -360000: 13 21
1000000 2000000 41000000 2000000 30000: 35640000 22000000
1000000 2000000 41000000 2000000 -30000: 35640000 -18000000
100 200 -7 33 123456: 298 203
5 -7 2 -11 37500: 5 -12
3 4 -1000000 -2000000 210000: -133996 2232009
0 0 1 0 60000: 1 1
0 0 1 0 120000: 0 1
0 0 0 -1 30000: 1 -1
";

#[test]
fn turned_points(rt: HostRuntime) -> Result<(), Fail> {
    has_answers(&rt, rt.alloc(), Asked::Turned, TURNED_POINTS, 15)
}

#[test]
fn farthest_points(rt: HostRuntime) {
    let (high, low) = (Spot { x: FAR, y: FAR }, Spot { x: -FAR, y: -FAR });
    let found = [
        chord_point(high, low, 90_000),
        chord_point(high, low, 45_000),
        chord_point(low, high, 45_000),
        chord_point(high, low, i64::MIN),
    ];
    let wanted = [
        Spot {
            x: 3 * FAR,
            y: -FAR,
        },
        Spot {
            x: FAR,
            y: -1_828_400_000_000_000_000_000_000,
        },
        Spot {
            x: -FAR,
            y: 1_828_400_000_000_000_000_000_000,
        },
        Spot {
            x: -1_778_166_400_000_000_000_000_000,
            y: 1_530_307_200_000_000_000_000_000,
        },
    ];
    assert_eq!(rt; found, wanted);
}

// 100 degrees in chords of 30 degrees end at 30, 60, 90 and 100 degrees.
const COUNTS_OF_CHORDS: &str = "\
30000 100000: 4
30000 -100000: 4
30000 90000: 3
180000 1: 1
500 -360000: 720
5000 0: 1
1 -2147483648: 2147483648
";

const ENDS_OF_CHORDS: &str = "\
30000 100000 1: 30000
30000 100000 3: 90000
30000 100000 4: 100000
30000 -100000 3: -90000
30000 -100000 4: -100000
500 -360000 720: -360000
5000 0 1: 0
4294967295 -2147483648 4294967295: -2147483648
";

#[test]
fn chords_of_an_arc(rt: HostRuntime) -> Result<(), Fail> {
    has_answers(&rt, rt.alloc(), Asked::TurnCount, COUNTS_OF_CHORDS, 7)?;
    has_answers(&rt, rt.alloc(), Asked::Turn, ENDS_OF_CHORDS, 8)
}
