//! The page that a report names.
ghost use Rattle.std.specs.Prelude.{◌≡◌};
ghost use Rattle.plot_report.specs.Report.{report_page};

use plot_page::Page;

/// The page that a report names, in plotter units: its width, its height, and how far its lower left corner is left of
/// (0, 0) and below it, or, if negative, right of it and above it.
#[derive(Clone, Copy, Debug, PartialEq, Eq)]
pub struct ReportPage {
    pub width: u32,
    pub height: u32,
    pub left: i64,
    pub below: i64,
}

impl ReportPage {
    /// A page as it is given.
    pub fn of(page: &Page) -> ReportPage
        ensures { result ≡ report_page page.now }
    {
        ReportPage {
            width: page.width,
            height: page.height,
            left: i64::from(page.left),
            below: i64::from(page.below),
        }
    }
}
