//! Rows of pixels as bits, as Netpbm's P4 has them.
#![tactic(auto)]

ghost use Rattle.std.specs.Prelude.{◌≡◌};
ghost use Rattle.bit_rows.specs.Bits.{bytes_for};

/// How many bytes a row of Netpbm's P4 takes, for a number of columns.
#[inline]
pub fn packed_length(columns: usize) -> usize
    ensures { result ≡ bytes_for columns }
{
    columns.div_ceil(8)
}
