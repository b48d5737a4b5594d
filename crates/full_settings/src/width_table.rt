//! Widths of pens in percent of the distance from P1 to P2.
ghost use Rattle.std.specs.Prelude.{◌≡◌, ◌≤◌, ◌^◌};
ghost use Rattle.plot_settings.specs.Bounds.{AreWidths};
ghost use Rattle.full_settings.specs.Widths.{all_percents, widths_by, width_by, grains_of_percent};

use exact::rounded;
use plot_page::GREATEST_WIDTH;

/// One percentage for all pens, in millionths, or none.
pub fn percent_of_all(percent: Option<u32>) -> [Option<u32>; 256]
    ensures { result ≡ all_percents percent }
{
    [percent; 256]
}

/// The widths of all pens in grains, with those that are in percent of this diagonal, which is in ticks of
/// 1/256 grain.
pub fn widths_by(percents: &[Option<u32>; 256], diagonal: u64, widths: &[u32; 256]) -> [u32; 256]
    requires diagonal { diagonal ≤ 2 ^ 40 }
    requires sound { AreWidths widths.now }
    ensures value { result ≡ widths_by diagonal percents.now widths.now }
    ensures sound { AreWidths result }
{
    let mut all = *widths;
    for (pen, percent) in percents.iter().enumerate() {
        all[pen] = width_by(diagonal, *percent, all[pen]);
    }
    all
}

// The width of a pen in grains: by its percentage, or else the one that it has.
fn width_by(diagonal: u64, percent: Option<u32>, width: u32) -> u32
    requires diagonal { diagonal ≤ 2 ^ 40 }
    ensures { result ≡ width_by diagonal percent width }
{
    match percent {
        Some(percent) => grains_of_percent(diagonal, percent),
        None => width,
    }
}

// Millionths of a percent of a diagonal in ticks, as a width in grains.
fn grains_of_percent(diagonal: u64, percent: u32) -> u32
    requires { diagonal ≤ 2 ^ 40 }
    ensures value { result ≡ grains_of_percent diagonal percent }
    ensures most { result ≤ 12800 }
{
    let grains = rounded(i128::from(diagonal) * i128::from(percent), 25_600_000_000);
    grains.unsigned_abs().min(u128::from(GREATEST_WIDTH)) as u32
}
