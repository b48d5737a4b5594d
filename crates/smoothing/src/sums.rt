//! Sums of red, green and blue over the finer pixels of a pixel.
ghost use Rattle.std.specs.Prelude.{◌≡◌, ℕ, [], ◌+◌, ◌*◌, ◌^◌, ◌<◌, ◌≤◌, All, get_or, length, true};
ghost use Rattle.smoothing.specs.Smoothings.{mean};
ghost use Rattle.smoothing.specs.declared.sums.Sums.{Sums};
ghost use Rattle.picture_out.specs.Inks.{cell_colour};
ghost use Rattle.smoothing.specs.Totals.{AreWhite, AtLeast, AtMost, HasCell, HasCells, HaveCells, means};

use picture_out::Inks;

/// The sums of red, green and blue over the finer pixels of a pixel.
#[derive(Clone, Copy)]
pub(crate) struct Sums {
    pub(crate) red: u16,
    pub(crate) green: u16,
    pub(crate) blue: u16,
}

impl Sums {
    // Those of white pixels, `times` by `times` of them.
    pub(crate) fn white(times: u32) -> Sums
        requires { times ≤ 8 }
        ensures { AreWhite times result }
    {
        let sum = (255 * (times * times)) as u16;
        Sums {
            red: sum,
            green: sum,
            blue: sum,
        }
    }

    // The means of `times` by `times` pixels.
    pub(crate) fn means(self, times: u32) -> [u8; 3]
        requires least { 1 ≤ times }
        requires most { times ≤ 8 }
        requires sums { AtMost (255 * (times * times)) self }
        ensures { result ≡ means times self }
    {
        [
            mean(self.red, times),
            mean(self.green, times),
            mean(self.blue, times),
        ]
    }

    // The same with a cell in the place of a white pixel.
    #[inline(always)]
    fn with_cell<I: Inks>(self, cell: u32, inks: &I) -> Sums
        requires ink { cell ≤ length (I.inks inks.now) }
        requires enough { AtLeast 255 self }
        ensures { HasCell (cell_colour (I.inks inks.now) cell) self result }
    {
        if cell == 0 {
            return self;
        }
        let ink = inks.ink(cell);
        Sums {
            red: self.red - (255 - ink.red as u16),
            green: self.green - (255 - ink.green as u16),
            blue: self.blue - (255 - ink.blue as u16),
        }
    }
}

// The mean of `times` by `times` bytes by their sum, rounded to the nearest. Most pixels are white, and take no division.
fn mean(sum: u16, times: u32) -> u8
    requires least { 1 ≤ times }
    requires most { times ≤ 8 }
    requires sum { sum ≤ 255 * (times * times) }
    ensures { result ≡ mean times sum }
{
    let count = times * times;
    if sum as u32 == 255 * count {
        return 255;
    }
    ((2 * sum as u32 + count) / (2 * count)) as u8
}

// Puts the cells of a row in the place of white pixels, as many to each pixel as `times` says. Those before `low` and from
// `end` on are 0.
pub(crate) fn add_row<I: Inks>(
    cells: &[u32],
    low: usize,
    end: usize,
    times: u32,
    inks: &I,
    sums: &mut [Sums],
)
    requires inks { All (λ cell. cell ≤ length (I.inks inks.now)) cells.now }
    requires high { end ≤ length cells.now }
    requires before { (k : ℕ) → k < low → get_or cells.now k 0 ≡ 0 }
    requires after { (k : ℕ) → end ≤ k → get_or cells.now k 0 ≡ 0 }
    requires least { 1 ≤ times }
    requires most { times ≤ 8 }
    requires few { length sums.old < 2 ^ 32 }
    requires enough { (k : ℕ) (d : Sums) → k < length sums.old → AtLeast (255 * times) (get_or sums.old k d) }
    ensures size { length sums.new ≡ length sums.old }
    ensures cells { HaveCells (I.inks inks.now) cells.now times sums.old sums.new }
{
    let side = times as usize;
    let mut marked = next_marked(cells, low, end);
    'marked: while marked < end && marked / side < sums.len() {
        let column = marked / side;
        let first = side * column;
        sums[column] = with_cells(sums[column], cells, first, times, inks);
        marked = next_marked(cells, first + side, end);
    }
}

// The first column from `from` on, and before `end`, whose cell is not 0; if there is none, the greater of the two.
#[inline(always)]
fn next_marked(cells: &[u32], from: usize, end: usize) -> usize
    requires high { end ≤ length cells.now }
    ensures onward { from ≤ result }
    ensures blank { (k : ℕ) → from ≤ k → k < result → get_or cells.now k 0 ≡ 0 }
{
    let mut at = from;
    'eights: while at < end && end - at >= 8 && are_blank(&cells[at..at + 8]) {
        at += 8;
    }
    'cells: while at < end && cells[at] == 0 {
        at += 1;
    }
    at
}

// Whether eight cells are 0, by one test of all.
#[inline(always)]
fn are_blank(cells: &[u32]) -> bool
    requires { length cells.now ≡ 8 }
    ensures { result ≡ true → (k : ℕ) → k < 8 → get_or cells.now k 0 ≡ 0 }
{
    let first = cells[0] | cells[1] | cells[2] | cells[3];
    let last = cells[4] | cells[5] | cells[6] | cells[7];
    first | last == 0
}

// These sums, with the cells from `first` on in the place of white pixels.
#[inline(always)]
fn with_cells<I: Inks>(sums: Sums, cells: &[u32], first: usize, times: u32, inks: &I) -> Sums
    requires inks { All (λ cell. cell ≤ length (I.inks inks.now)) cells.now }
    requires most { times ≤ 8 }
    requires place { first < 2 ^ 40 }
    requires enough { AtLeast (255 * times) sums }
    ensures { HasCells (I.inks inks.now) cells.now first times sums result }
{
    let mut mixed = sums;
    for k in 0..times {
        mixed = mixed.with_cell(cell_at(cells, first + k as usize), inks);
    }
    mixed
}

// The cell in a column, or 0 past the edge.
#[inline(always)]
fn cell_at(cells: &[u32], column: usize) -> u32
    ensures { result ≡ get_or cells.now column 0 }
{
    if column < cells.len() {
        cells[column]
    } else {
        0
    }
}

// Takes the means of each pixel, and leaves the sums of white ones.
pub(crate) fn take_means(times: u32, sums: &mut [Sums], pixels: &mut [[u8; 3]])
    requires least { 1 ≤ times }
    requires most { times ≤ 8 }
    requires same { length sums.old ≡ length pixels.old }
    requires sums { (k : ℕ) (d : Sums) → k < length sums.old → AtMost (255 * (times * times)) (get_or sums.old k d) }
    ensures size { length pixels.new ≡ length pixels.old }
    ensures means { (k : ℕ) (d : Sums) → k < length sums.old → get_or pixels.new k [] ≡ means times (get_or sums.old k d) }
    ensures width { length sums.new ≡ length sums.old }
    ensures white { (k : ℕ) (d : Sums) → k < length sums.old → AreWhite times (get_or sums.new k d) }
{
    let white = Sums::white(times);
    for column in 0..sums.len() {
        pixels[column] = sums[column].means(times);
        sums[column] = white;
    }
}
