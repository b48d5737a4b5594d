//! Where a strip of a picture's rows ends.
ghost use Rattle.std.specs.Prelude.{◌≡◌, ◌≤◌};
ghost use Rattle.rows.specs.Pictures.{end_of};

/// The row after the last one that is written of a picture of `rows` rows: at most so many are, from `first` on, or all that are
/// left.
pub fn end_of(most_rows: Option<u32>, first: u32, rows: u32) -> u32
    ensures end { result ≡ end_of most_rows first rows }
    ensures from { first ≤ rows → first ≤ result }
    ensures within { result ≤ rows }
{
    match most_rows {
        None => rows,
        Some(most) => {
            if first < rows && most < rows - first {
                first + most
            } else {
                rows
            }
        }
    }
}
