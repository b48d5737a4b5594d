//! What a report says of some strokes.
ghost use Rattle.std.specs.Prelude.{◌≡◌, ◌+◌, ◌-◌, ◌^◌, ◌<◌, ◌++◌, ◌∷◌, [], List, length};
ghost use Rattle.plot_page.specs.Segments.{Segment};
ghost use Rattle.plot_report.specs.Report.{summary_of};

use plot_page::Stroke;

// How many strokes there are, the greatest of their widths, and the least box that holds their
// ends. Without strokes each number is 0.
#[derive(Clone, Copy)]
pub(crate) struct StrokeSummary {
    pub(crate) strokes: u32,
    pub(crate) widest: u32,
    pub(crate) least_x: i32,
    pub(crate) least_y: i32,
    pub(crate) greatest_x: i32,
    pub(crate) greatest_y: i32,
}

/// Of no strokes.
pub(crate) const NO_STROKES: StrokeSummary = StrokeSummary {
    strokes: 0,
    widest: 0,
    least_x: 0,
    least_y: 0,
    greatest_x: 0,
    greatest_y: 0,
};

impl StrokeSummary {
    // Of one stroke.
    pub(crate) fn of_one(stroke: &Stroke) -> StrokeSummary
        ensures { result ≡ summary_of (stroke.now ∷ []) }
    {
        StrokeSummary {
            strokes: 1,
            widest: stroke.width,
            least_x: stroke.ax.min(stroke.bx),
            least_y: stroke.ay.min(stroke.by),
            greatest_x: stroke.ax.max(stroke.bx),
            greatest_y: stroke.ay.max(stroke.by),
        }
    }

    // Of the strokes that this one is of, and one more.
    pub(crate) fn with(self, stroke: &Stroke) -> StrokeSummary
        requires room { self.strokes < 2 ^ 32 - 1 }
        ensures sums { (before : List Segment) → self ≡ summary_of before →
            result ≡ summary_of (before ++ (stroke.now ∷ [])) }
        ensures count { result.strokes ≡ self.strokes + 1 }
    {
        let one = StrokeSummary::of_one(stroke);
        if self.strokes == 0 {
            return one;
        }
        StrokeSummary {
            strokes: self.strokes + 1,
            widest: self.widest.max(one.widest),
            least_x: self.least_x.min(one.least_x),
            least_y: self.least_y.min(one.least_y),
            greatest_x: self.greatest_x.max(one.greatest_x),
            greatest_y: self.greatest_y.max(one.greatest_y),
        }
    }

    // Of the strokes that this one is of, and more.
    pub(crate) fn with_all(self, strokes: &[Stroke]) -> StrokeSummary
        requires room { self.strokes + length strokes.now < 2 ^ 32 }
        ensures sums { (before : List Segment) → self ≡ summary_of before →
            result ≡ summary_of (before ++ strokes.now) }
    {
        let mut all = self;
        for stroke in strokes {
            all = all.with(stroke);
        }
        all
    }
}
