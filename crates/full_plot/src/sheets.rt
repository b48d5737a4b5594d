//! The sheets of a plot, which count from 1.
ghost use Rattle.std.specs.Prelude.{◌≡◌, drop, take, slice_index_or};
ghost use Rattle.areas.specs.Shapes.{AreApart};
ghost use Rattle.areas.specs.Views.{areas_in};
ghost use Rattle.labels.specs.Sheets.{all_counted};
ghost use Rattle.full_plot.specs.Drawings.{areas_of_sheet, of_sheet, sheet_end, sheet_images, sheet_start, sheet_strokes};
ghost use Rattle.full_plot.specs.Labels.{labels_of_sheet};

use areas::{Area, Areas, keep_areas};
use labels::{Label, keep_labels, labels_between};
use page_images::PageImage;
use plot_page::Stroke;

/// Keeps the strokes of a sheet alone, in their order; for 0 it keeps those of all sheets. `ends`
/// tells how many strokes there were when each sheet ended.
pub fn keep_sheet(strokes: &mut Vec<Stroke>, ends: &[usize], sheet: u32)
    ensures { strokes.new.items ≡ sheet_strokes strokes.old.items ends.now sheet }
{
    if sheet == 0 {
        return;
    }
    let count = strokes.len();
    let before = sheet as usize - 1;
    strokes.truncate(end_of(ends, before, count));
    if before > 0 {
        drop_front(strokes, end_of(ends, before - 1, count));
    }
}

/// The strokes of a sheet, in their order, as `keep_sheet` keeps them.
pub fn sheet_of<'a>(strokes: &'a [Stroke], ends: &[usize], sheet: u32) -> &'a [Stroke]
    ensures { result.now ≡ sheet_strokes strokes.now ends.now sheet }
{
    of_sheet(strokes, ends, sheet)
}

/// The images of a sheet, in their order; for 0 those of all sheets. `image_ends` tells how many images there were when each
/// sheet ended.
pub fn images_on<'a>(images: &'a [PageImage], image_ends: &[usize], sheet: u32) -> &'a [PageImage]
    ensures { result.now ≡ sheet_images images.now image_ends.now sheet }
{
    of_sheet(images, image_ends, sheet)
}

// What a list has for a sheet, by where sheets end in the list.
fn of_sheet<'a, T>(list: &'a [T], ends: &[usize], sheet: u32) -> &'a [T]
    ensures { result.now ≡ of_sheet list.now ends.now sheet }
{
    if sheet == 0 {
        return list;
    }
    let count = list.len();
    let before = sheet as usize - 1;
    let kept = front(list, end_of(ends, before, count));
    if before == 0 {
        return kept;
    }
    after(kept, end_of(ends, before - 1, count))
}

/// Keeps the labels of a sheet alone, by the strokes of the sheet; for 0 it keeps those of all sheets. `count` is how many
/// strokes there are on all sheets.
pub fn keep_labels_of(labels: &mut Vec<Label>, ends: &[usize], count: usize, sheet: u32)
    ensures { labels.new.items ≡ labels_of_sheet labels.old.items ends.now count sheet }
{
    if sheet != 0 {
        keep_labels(
            labels,
            start_of(ends, count, sheet),
            sheet_end(ends, count, sheet),
        );
    }
}

/// Keeps the areas of a sheet alone, by the strokes of the sheet; for 0 it keeps those of all sheets. `count` is how many
/// strokes there are on all sheets.
pub fn keep_areas_of(areas: &mut Vec<Area>, ends: &[usize], count: usize, sheet: u32)
    ensures { areas.new.items ≡ areas_of_sheet areas.old.items ends.now count sheet }
{
    if sheet != 0 {
        keep_areas(
            areas,
            start_of(ends, count, sheet),
            sheet_end(ends, count, sheet),
        );
    }
}

/// The labels of a sheet, as `keep_labels_of` keeps them, but for how their strokes are counted: so many come before the sheet.
pub fn labels_on<'a>(
    labels: &'a [Label],
    ends: &[usize],
    count: usize,
    sheet: u32,
) -> (&'a [Label], usize)
    ensures { all_counted result.1 result.0.now ≡ labels_of_sheet labels.now ends.now count sheet }
{
    if sheet == 0 {
        return (labels, 0);
    }
    let start = start_of(ends, count, sheet);
    let end = sheet_end(ends, count, sheet);
    (labels_between(labels, start, end), start)
}

/// The areas of a sheet, as `keep_areas_of` keeps them.
pub fn areas_on<'a>(areas: &'a [Area], ends: &[usize], count: usize, sheet: u32) -> Areas<'a>
    requires { AreApart 0 areas.now }
    ensures { areas_in result ≡ areas_of_sheet areas.entry.now ends.now count sheet }
{
    if sheet == 0 {
        return Areas::all(areas);
    }
    let start = start_of(ends, count, sheet);
    Areas::between(areas, start, sheet_end(ends, count, sheet))
}

/// How many strokes there were when a sheet began, which counts from 1; none for 0.
pub fn start_of(ends: &[usize], count: usize, sheet: u32) -> usize
    ensures { result ≡ sheet_start ends.now count sheet }
{
    if sheet <= 1 {
        0
    } else {
        end_of(ends, sheet as usize - 2, count)
    }
}

/// How many there were when it ended; all for 0.
pub fn sheet_end(ends: &[usize], count: usize, sheet: u32) -> usize
    ensures { result ≡ sheet_end ends.now count sheet }
{
    if sheet == 0 {
        count
    } else {
        end_of(ends, sheet as usize - 1, count)
    }
}

// The first `count` of a list, or all if there are fewer.
fn front<T>(list: &[T], count: usize) -> &[T]
    ensures { result.now ≡ take count list.now }
{
    &list[..count.min(list.len())]
}

// Those after the first `count`; none if there are no more.
fn after<T>(list: &[T], count: usize) -> &[T]
    ensures { result.now ≡ drop count list.now }
{
    &list[count.min(list.len())..]
}

// How many strokes there were when the sheet with so many sheets before it ended: all, if it ended with the plot.
fn end_of(ends: &[usize], before: usize, count: usize) -> usize
    ensures { result ≡ slice_index_or ends.now before count }
{
    match ends.get(before) {
        Some(end) => *end,
        None => count,
    }
}

// Removes the first `front` strokes, or all if there are fewer.
fn drop_front(strokes: &mut Vec<Stroke>, front: usize)
    ensures { strokes.new.items ≡ drop front strokes.old.items }
{
    let count = strokes.len();
    let front = front.min(count);
    strokes.copy_within(front..count, 0);
    strokes.truncate(count - front);
}
