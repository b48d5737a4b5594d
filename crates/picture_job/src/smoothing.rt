//! How much finer a picture is painted than it is written.
ghost use Rattle.std.specs.Prelude.{◌≡◌, ◌≤◌, is_some, IfSome};

use plot_page::Dots;

/// How much finer a picture is painted than it is written, 1 to 8 times: each pixel is the mean of so many by so many
/// pixels of the finer picture.
#[derive(Clone, Copy, Debug)]
pub struct Smoothing {
    pub times: u32,
    pub ghost at_least: { 1 ≤ times },
    pub ghost at_most: { times ≤ 8 },
}

impl Smoothing {
    ghost use Rattle.picture_job.specs.Smoothings.{is_smoothing};
    ghost use Rattle.picture_job.specs.Sizes.{smoothing_at};

    /// No smoothing: the picture is written as it is painted.
    pub const NONE: Smoothing = Smoothing { times: 1 };

    /// The smoothing, or `None` if it is not 1 to 8 times.
    pub fn new(times: u32) -> Option<Smoothing>
        ensures given { is_some result ≡ is_smoothing times }
        ensures value { IfSome result (λ smoothing. smoothing.times ≡ times) }
    {
        if times < 1 || times > 8 {
            return None;
        }
        Some(Smoothing { times })
    }

    /// The same for a picture of this resolution, but no more than 1200 dots per inch allow.
    pub(crate) fn at(self, dots: Dots) -> Smoothing
        ensures { result ≡ smoothing_at dots self }
    {
        Smoothing {
            times: self.times.min(1200 / dots.per_inch()).max(1),
        }
    }

    /// How many times finer the picture is painted.
    pub fn times(self) -> u32
        ensures { result ≡ self.times }
    {
        self.times
    }
}
