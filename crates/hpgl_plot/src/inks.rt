//! Colours of strokes.
ghost use Rattle.std.specs.Prelude.{◌≡◌, Some};
ghost use Rattle.hpgl_plot.specs.Inks as inks;

use plot_page::Colour;

// A level of 100 percent, and half of it, by which quotients are rounded.
const WHOLE: u64 = 100_000_000;

const HALF: u64 = 50_000_000;

/// A colour of which only a level is left, in millionths of a percent.
pub fn screened(level: u32, colour: Colour) -> Colour
    ensures { result ≡ inks.screened (Some level) colour }
{
    Colour {
        red: screened_part(level, colour.red),
        green: screened_part(level, colour.green),
        blue: screened_part(level, colour.blue),
    }
}

fn screened_part(level: u32, part: u8) -> u8
    ensures { result ≡ inks.screened_part level part }
{
    let left = u64::from(255 - part) * u64::from(level);
    255u64.saturating_sub((left + HALF) / WHOLE) as u8
}
