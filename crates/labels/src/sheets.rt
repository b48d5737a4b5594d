//! The labels of a sheet.
ghost use Rattle.std.specs.Prelude.{◌≡◌, ◌≤◌, length, drop, map};
ghost use Rattle.labels.specs.Sheets.{all_counted, count_to, counted, labels_between, labels_from, labels_to};

use crate::label::Label;

/// The labels whose strokes come after the first `at` strokes, and before stroke number `end`.
pub fn labels_between(labels: &[Label], at: usize, end: usize) -> &[Label]
    ensures { result.now ≡ labels_between at end labels.now }
{
    labels_to(labels_from(labels, at), end)
}

/// Labels from the first one on before which there are so many strokes.
pub fn labels_from(labels: &[Label], at: usize) -> &[Label]
    ensures { result.now ≡ labels_from at labels.now }
{
    &labels[count_to(labels, at)..]
}

/// Labels up to the first one before which there are so many strokes.
pub fn labels_to(labels: &[Label], end: usize) -> &[Label]
    ensures { result.now ≡ labels_to end labels.now }
{
    &labels[..count_to(labels, end)]
}

// How many they are.
fn count_to(labels: &[Label], end: usize) -> usize
    ensures value { result ≡ count_to end labels.now }
    ensures most { result ≤ length labels.now }
{
    let mut rest = labels;
    let mut count = 0;
    'labels: while let [label, others @ ..] = rest {
        if label.first >= end {
            break;
        }
        count += 1;
        rest = others;
    }
    count
}

/// Keeps the labels whose strokes come after the first `at` strokes, and before stroke number `end`, and counts their strokes
/// from `at` on.
pub fn keep_labels(labels: &mut Vec<Label>, at: usize, end: usize)
    ensures { labels.new.items ≡ all_counted at (labels_between at end labels.old.items) }
{
    let before = count_to(labels.as_slice(), at);
    drop_front(labels, before);
    let kept = count_to(labels.as_slice(), end);
    labels.truncate(kept);
    count_all(labels.as_mut_slice(), at);
}

// Removes the first `front` labels.
fn drop_front(labels: &mut Vec<Label>, front: usize)
    requires { front ≤ length labels.old.items }
    ensures { labels.new.items ≡ drop front labels.old.items }
{
    let rest = labels.len() - front;
    labels.rotate_left(front);
    labels.truncate(rest);
}

// Counts the strokes of labels from `before` on.
fn count_all(labels: &mut [Label], before: usize)
    ensures { labels.new ≡ all_counted before labels.old }
{
    for label in labels.iter_mut() {
        count(label, before);
    }
}

fn count(label: &mut Label, before: usize)
    ensures { label.new ≡ counted before label.old }
{
    label.first = label.first.saturating_sub(before);
    label.after = label.after.saturating_sub(before);
}
