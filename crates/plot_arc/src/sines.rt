//! Sines and cosines. Angles are in thousandths of a degree, sines in ten-millionths.
ghost use Rattle.std.specs.Prelude.{◌≡◌, ◌≤◌, ◌<◌, ◌+◌, ◌-◌, ◌*◌, nat_abs, pos, neg_ℤ};
ghost use Rattle.plot_arc.specs.Arcs.{sine_to_90, sine_of, cosine_of};

/// The sine and the cosine of an angle, in ten-millionths.
#[derive(Clone, Copy)]
pub struct SineCosine {
    pub sine: i64,
    pub cosine: i64,
}

// The sines of 0, 1, .. 90 degrees in ten-thousandths, rounded to the nearest. `tools/sine_table`
// computes and prints them in this form.
const SINES: [u16; 91] = [
    0, 175, 349, 523, 698, 872, 1045, 1219, 1392, 1564, 1736, 1908, 2079, 2250, 2419, 2588, 2756,
    2924, 3090, 3256, 3420, 3584, 3746, 3907, 4067, 4226, 4384, 4540, 4695, 4848, 5000, 5150, 5299,
    5446, 5592, 5736, 5878, 6018, 6157, 6293, 6428, 6561, 6691, 6820, 6947, 7071, 7193, 7314, 7431,
    7547, 7660, 7771, 7880, 7986, 8090, 8192, 8290, 8387, 8480, 8572, 8660, 8746, 8829, 8910, 8988,
    9063, 9135, 9205, 9272, 9336, 9397, 9455, 9511, 9563, 9613, 9659, 9703, 9744, 9781, 9816, 9848,
    9877, 9903, 9925, 9945, 9962, 9976, 9986, 9994, 9998, 10000,
];

// Those of an angle from 0 up to 90 degrees. Between whole degrees both are straight lines.
#[inline]
fn of_quarter(t: u32) -> SineCosine
    requires { t < 90000 }
    ensures sine { result.sine ≡ pos (sine_to_90 t) }
    ensures cosine { result.cosine ≡ pos (sine_to_90 (90000 - t)) }
    ensures sine_in { nat_abs result.sine ≤ 10000000 }
    ensures cosine_in { nat_abs result.cosine ≤ 10000000 }
{
    let degree = (t / 1000) as usize;
    let part = t % 1000;
    SineCosine {
        sine: between(SINES[degree], SINES[degree + 1], part),
        cosine: between(SINES[90 - degree], SINES[89 - degree], part),
    }
}

// The value after this many thousandths of the way from one entry to another.
#[inline]
fn between(from: u16, to: u16, part: u32) -> i64
    requires from_in { from ≤ 10000 }
    requires to_in { to ≤ 10000 }
    requires part_in { part < 1000 }
    ensures value { result ≡ pos (from * (1000 - part) + to * part) }
    ensures most { nat_abs result ≤ 10000000 }
{
    i64::from(u32::from(from) * (1000 - part) + u32::from(to) * part)
}

// Those of the angle 90 degrees further on.
#[inline]
fn quarter_on(of: SineCosine) -> SineCosine
    requires sine_in { nat_abs of.sine ≤ 10000000 }
    requires cosine_in { nat_abs of.cosine ≤ 10000000 }
    ensures sine { result.sine ≡ of.cosine }
    ensures cosine { result.cosine ≡ neg_ℤ of.sine }
    ensures sine_in { nat_abs result.sine ≤ 10000000 }
    ensures cosine_in { nat_abs result.cosine ≤ 10000000 }
{
    SineCosine {
        sine: of.cosine,
        cosine: -of.sine,
    }
}

/// The sine and the cosine of an angle in thousandths of a degree.
#[inline]
pub fn sine_and_cosine(thousandths: i64) -> SineCosine
    ensures sine { result.sine ≡ sine_of thousandths }
    ensures cosine { result.cosine ≡ cosine_of thousandths }
    ensures sine_in { nat_abs result.sine ≤ 10000000 }
    ensures cosine_in { nat_abs result.cosine ≤ 10000000 }
{
    let turn = thousandths.rem_euclid(360_000) as u32;
    if turn < 90_000 {
        return of_quarter(turn);
    }
    if turn < 180_000 {
        return quarter_on(of_quarter(turn - 90_000));
    }
    if turn < 270_000 {
        return quarter_on(quarter_on(of_quarter(turn - 180_000)));
    }
    quarter_on(quarter_on(quarter_on(of_quarter(turn - 270_000))))
}

/// The sine of an angle in thousandths of a degree, in ten-millionths: -10,000,000 to 10,000,000.
///
/// The sines of whole degrees come from a table of ten-thousandths, and those between from straight
/// lines. The table is our choice: the HP-GL/2 guide does not say how arcs are computed.
pub fn sine(thousandths: i64) -> i64
    ensures value { result ≡ sine_of thousandths }
    ensures most { nat_abs result ≤ 10000000 }
{
    sine_and_cosine(thousandths).sine
}
