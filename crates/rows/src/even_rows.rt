//! Rows of as many bytes each, written at once.
ghost use Rattle.std.specs.Prelude.{◌≡◌, ℕ, List, ◌+◌, ◌-◌, ◌*◌, ◌^◌, ◌<◌, ◌≤◌, length, IfOk};
ghost use Rattle.picture_out.specs.declared.form.Form.{Form};
ghost use Rattle.picture_out.specs.declared.inks.Ink.{Ink};
ghost use Rattle.rows.specs.Progress.{rows_text, AreEven, WritesCells};

use crate::writing::{Broken, whole_before};
use devices::{Sink, put_all};

/// Writes rows of `size` bytes each after `done` bytes, and answers how many bytes there are then. Row
/// `first` is the one that the picture begins with, and `at` the first of these.
pub fn write_rows<K: Sink>(
    first: u32,
    at: u32,
    size: u64,
    done: u64,
    bytes: &[u8],
    sink: &mut K,
) -> Result<u64, Broken>
    requires sinking { (K.state sink.old).faults < 2 ^ 64 - 1 }
    requires size_in { 0 < size }
    requires few { length bytes.now ≤ 2 ^ 36 }
    requires tall { length bytes.now ≤ 2 ^ 30 * size }
    requires at_in { at ≤ 2 ^ 30 }
    requires done_in { done ≤ 2 ^ 62 }
    ensures rows { (form : Form) (inks : List Ink) (rows : List (List ℕ)) → AreEven form inks at rows size →
        bytes.now ≡ rows_text form inks at rows →
        WritesCells form inks first at rows done (K.state sink.old) (K.state sink.new) result }
    ensures count { IfOk result (λ n. n ≡ done + length bytes.now) }
{
    match put_all(sink, bytes) {
        Ok(()) => Ok(done + bytes.len() as u64),
        Err(fault) => {
            let taken = fault.bytes();
            let whole = taken / size;
            let row = at + whole as u32;
            Err(Broken {
                row,
                whole: whole_before(row, first, done + whole * size),
                bytes: done + taken,
            })
        }
    }
}
