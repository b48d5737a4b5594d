//! The exit status of several runs.
ghost use Rattle.std.specs.Prelude.{◌≡◌, max};

/// The exit status of two runs, one after the other: the greater of theirs.
pub fn greater_status(status: u8, other: u8) -> u8
    ensures { result ≡ max status other }
{
    status.max(other)
}
