//! Sheets: the strokes of a plot, and its labels, cut where sheets end.
ghost use Rattle.std.specs.Prelude.{◌≡◌, ◌≤◌, length, slice_index_or};
ghost use Rattle.labels.specs.Sheets.{all_counted, count_to};
ghost use Rattle.stroke_runs.specs.Sheets.{between};

use labels::Label;
use plot_page::Stroke;

/// The strokes after the first `at`, up to and including number `end`.
pub fn between(strokes: &[Stroke], at: usize, end: usize) -> &[Stroke]
    ensures { result.now ≡ between strokes.now at end }
{
    let kept = &strokes[..end.min(strokes.len())];
    &kept[at.min(kept.len())..]
}

/// How many strokes there were when a sheet ended that has so many before it: all of them, after the last end.
pub fn end_of(strokes: &[Stroke], ends: &[usize], before: usize) -> usize
    ensures { result ≡ slice_index_or ends.now before (length strokes.now) }
{
    match ends.get(before) {
        Some(end) => *end,
        None => strokes.len(),
    }
}

/// How many of the labels are on a sheet that ends after `end` strokes, if so many come before the first sheet.
pub fn count_to(labels: &[Label], before: usize, end: usize) -> usize
    ensures value { result ≡ count_to end (all_counted before labels.now) }
    ensures most { result ≤ length labels.now }
{
    let mut rest = labels;
    let mut count = 0;
    'labels: while let [label, others @ ..] = rest {
        if label.first.saturating_sub(before) >= end {
            break;
        }
        count += 1;
        rest = others;
    }
    count
}
