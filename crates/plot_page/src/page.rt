//! The page that a plot is drawn on.
ghost use Rattle.std.specs.Prelude.{◌≡◌, ◌≤◌, ◌↔◌, Err, IfOk, is_some, IfSome, true, false};
ghost use Rattle.plot_page.specs.Pages.{is_page_side, has_page_size, has_page_corner, is_roll_side, is_roll};

use thiserror::Error;

/// The shortest side of a page, in plotter units.
pub const SHORTEST_SIDE: u32 = 64;

/// The longest side of a page in the profile core, in plotter units: 1.6 m.
pub const LONGEST_SIDE: u32 = 65_536;

/// How far the lower left corner of a page may be left of (0, 0) and below it, in plotter units.
pub const FARTHEST_CORNER: u32 = 65_536;

/// The longest side of any page, in plotter units: 13.1 m of a roll.
pub const LONGEST_ROLL: u32 = 524_288;

/// Why a page could not be made.
#[derive(Clone, Copy, Debug, PartialEq, Eq, Drop, Error)]
pub enum PageFault {
    /// The width or the height is not 64 to 65,536 plotter units.
    #[error("page width and height must be 64 to 65536")]
    Size,
    /// The corner is over 65,536 plotter units left of (0, 0) or below it.
    #[error("page corner must be 0 to 65536 left and below")]
    Corner,
}

/// A page, in plotter units of 0.025 mm: `width` by `height`, each 64 to 524,288, its lower left
/// corner at plotter coordinates (-`left`, -`below`), each of the two 0 to 65,536.
#[derive(Clone, Copy, Debug)]
pub struct Page {
    pub width: u32,
    pub height: u32,
    pub left: u32,
    pub below: u32,
    pub ghost width_in: { (64 ≤ width) × (width ≤ 524288) },
    pub ghost height_in: { (64 ≤ height) × (height ≤ 524288) },
    pub ghost left_in: { left ≤ 65536 },
    pub ghost below_in: { below ≤ 65536 },
}

impl Page {
    /// A page of the profile core, whose sides are at most 65,536 plotter units and whose corner is at most as far, or its
    /// first fault: its size is judged before its corner.
    pub fn new(width: u32, height: u32, left: u32, below: u32) -> Result<Page, PageFault>
        ensures size { (result ≡ Err PageFault.Size) ↔ (has_page_size width height ≡ false) }
        ensures corner { (result ≡ Err PageFault.Corner)
            ↔ ((has_page_size width height ≡ true) × (has_page_corner left below ≡ false)) }
        ensures width { IfOk result (λ page. page.width ≡ width) }
        ensures height { IfOk result (λ page. page.height ≡ height) }
        ensures left { IfOk result (λ page. page.left ≡ left) }
        ensures below { IfOk result (λ page. page.below ≡ below) }
    {
        if !is_side(width) || !is_side(height) {
            return Err(PageFault::Size);
        }
        if left > FARTHEST_CORNER || below > FARTHEST_CORNER {
            return Err(PageFault::Corner);
        }
        Ok(Page {
            width,
            height,
            left,
            below,
        })
    }

    /// A page of any size, or `None` if a side is not 64 to 524,288 plotter units or the corner is over 65,536 left of
    /// (0, 0) or below it.
    pub fn roll(width: u32, height: u32, left: u32, below: u32) -> Option<Page>
        ensures given { is_some result ≡ is_roll width height left below }
        ensures width { IfSome result (λ page. page.width ≡ width) }
        ensures height { IfSome result (λ page. page.height ≡ height) }
        ensures left { IfSome result (λ page. page.left ≡ left) }
        ensures below { IfSome result (λ page. page.below ≡ below) }
    {
        if !is_roll_side(width) || !is_roll_side(height) {
            return None;
        }
        if left > FARTHEST_CORNER || below > FARTHEST_CORNER {
            return None;
        }
        Some(Page {
            width,
            height,
            left,
            below,
        })
    }
}

// Whether a page of the profile core may have a side of this length.
fn is_side(units: u32) -> bool
    ensures { result ≡ is_page_side units }
{
    SHORTEST_SIDE <= units && units <= LONGEST_SIDE
}

// Whether a page may have a side of this length.
fn is_roll_side(units: u32) -> bool
    ensures { result ≡ is_roll_side units }
{
    SHORTEST_SIDE <= units && units <= LONGEST_ROLL
}
