//! The page that a plot asks for.
ghost use Rattle.std.specs.Prelude.{◌≡◌, ◌≤◌, codes, option_map};
ghost use Rattle.std.specs.Str.{bytes_eq};
ghost use Rattle.page_fit.specs.Around.{checked, sides_of};
ghost use Rattle.plot_size.specs.Measures.{sides_measured};
ghost use Rattle.plot_size.specs.Sizes.{longest_side, resized, sides_asked, sides_of_item};

use crate::measures::measures_in;
use full_text::PlotItems;
use hpgl_text::{Item, Profile, after};
use page_fit::are_sides;
use plot_page::{LONGEST_ROLL, LONGEST_SIDE, Page};

/// The page of the size that a plot asks for by the first of its `PS` that asks for one, with the corner of
/// the page that is given, and its height if only a length is named. Its sides are at most the longest of the profile. `None` if
/// the plot asks for no such size.
pub fn page_asked(profile: Profile, page: &Page, plot: &[u8]) -> Option<Page>
    ensures { option_map sides_of result ≡ sides_asked profile page.now plot.now }
{
    let longest = longest_side(profile);
    for item in PlotItems::new(profile, plot) {
        if let Some(asked) = page_of_item(longest, page, plot, &item) {
            return Some(asked);
        }
    }
    None
}

/// The longest side of a page in a profile, in plotter units.
pub fn longest_side(profile: Profile) -> u32
    ensures value { result ≡ longest_side profile }
    ensures most { result ≤ 524288 }
{
    match profile {
        Profile::Core => LONGEST_SIDE,
        Profile::Full => LONGEST_ROLL,
    }
}

// The page that an item of the plot asks for.
fn page_of_item(longest: u32, page: &Page, plot: &[u8], item: &Item<'_>) -> Option<Page>
    requires { longest ≤ 524288 }
    ensures { option_map sides_of result ≡ sides_of_item longest page.now plot.now item.now }
{
    if !is_plot_size(item.code) {
        return None;
    }
    let text = after(after(plot, item.at), 2);
    page_measured(longest, page, measures_in(text))
}

// Whether these letters are PS, Plot Size.
fn is_plot_size(code: [u8; 2]) -> bool
    ensures { result ≡ bytes_eq code (codes "PS") }
{
    match &code {
        b"PS" => true,
        _ => false,
    }
}

// The page of this width and this height, or of the height of the page.
fn page_measured(longest: u32, page: &Page, found: Option<(u64, Option<u64>)>) -> Option<Page>
    requires { longest ≤ 524288 }
    ensures { option_map sides_of result ≡ sides_measured longest page.now found }
{
    match found {
        Some((width, Some(height))) => resized(longest, page, width, height),
        Some((width, None)) => resized(longest, page, width, u64::from(page.height)),
        None => None,
    }
}

// The page with another size, if its sides may be so long.
fn resized(longest: u32, page: &Page, width: u64, height: u64) -> Option<Page>
    requires { longest ≤ 524288 }
    ensures { option_map sides_of result ≡ checked longest (resized page.now width height) }
{
    if !are_sides(longest, width, height) {
        return None;
    }
    Page::roll(width as u32, height as u32, page.left, page.below)
}
