//! Percentages of the further instructions.
ghost use Rattle.std.specs.Prelude.{◌≡◌};
ghost use Rattle.full_settings.specs.Percentages.{is_percentage};

// Whether a number, in millionths, is within 1000 of 0.
pub(crate) fn is_percentage(millionths: i64) -> bool
    ensures { result ≡ is_percentage millionths }
{
    -1_000_000_000 <= millionths && millionths <= 1_000_000_000
}
