//! Rows made in place, on their seeds.
ghost use Rattle.std.specs.Prelude.{◌≡◌, ◌+◌, ◌-◌, ◌^◌, ◌<◌, ◌≤◌, List, [], ◌∷◌, ◌++◌, length};
ghost use Rattle.std.specs.Prelude.{min, replicate, IfOk, IfErr, OnOk, OnErr, Err, true, false, vec_len, vec_capacity};
ghost use Rattle.image_rows.specs.Changes.{Change, changes};
ghost use Rattle.image_rows.specs.Rows.{changed, stay, sized, ground, whole_row};
ghost use Rattle.image_rows.specs.Rows.{row_of, is_too_long, has_place, most_of, breaks_off, breaks_off_from};
ghost use Rattle.image_rows.specs.Endings.{ending_of};
ghost use Rattle.image_rows.specs.Views.{bytes_of, change_of, IsBegun, is_too_far, with_bytes, going_on};
ghost use Rattle.image_rows.specs.declared.ending.RowFault.TheVariants.{TooLong, Memory};

use crate::change::{FoundBytes, FoundChange, first_change};
use crate::compression::{Compression, RowLength};
use crate::ending::{Ending, RowFault};

/// Makes a plane of the row before, its seed, the plane of a row, by the data of this row.
///
/// Each byte of the data and of the row is looked at a bounded number of times. The plane is empty after an error.
pub fn decode_row(
    plane: &mut Vec<u8>,
    compression: Compression,
    size: RowLength,
    input: &[u8],
) -> Result<Ending, RowFault>
    ensures row { OnOk result (plane.new.items ≡ row_of size compression plane.old.items input.now) }
    ensures ending { IfOk result (λ e. e ≡ ending_of (breaks_off size compression input.now)) }
    ensures not_long { OnOk result (is_too_long size (whole_row compression plane.old.items input.now) ≡ false) }
    ensures long { result ≡ Err TooLong → is_too_long size (whole_row compression plane.old.items input.now) ≡ true }
    ensures memory { result ≡ Err Memory → vec_capacity plane.old < most_of size }
    ensures emptied { OnErr result (plane.new.items ≡ []) }
{
    match decode(plane, compression, size, input) {
        Ok(ending) => Ok(ending),
        Err(fault) => {
            plane.clear();
            Err(fault)
        }
    }
}

// Makes the row. An error leaves a part of it.
fn decode(
    plane: &mut Vec<u8>,
    compression: Compression,
    size: RowLength,
    input: &[u8],
) -> Result<Ending, RowFault>
    ensures row { OnOk result (plane.new.items ≡ row_of size compression plane.old.items input.now) }
    ensures ending { IfOk result (λ e. e ≡ ending_of (breaks_off size compression input.now)) }
    ensures not_long { OnOk result (is_too_long size (whole_row compression plane.old.items input.now) ≡ false) }
    ensures long { result ≡ Err TooLong → is_too_long size (whole_row compression plane.old.items input.now) ≡ true }
    ensures memory { result ≡ Err Memory → vec_capacity plane.old < most_of size }
{
    lay_ground(plane, compression);
    begin(plane, size)?;
    put_changes(plane, compression, size, input)
}

// Leaves the seed only to data that change it.
fn lay_ground(plane: &mut Vec<u8>, compression: Compression)
    ensures ground { plane.new.items ≡ ground compression plane.old.items }
    ensures capacity { vec_capacity plane.new ≡ vec_capacity plane.old }
{
    if !compression.is_delta() {
        plane.clear();
    }
}

// Cuts or fills what is there to the width.
fn begin(plane: &mut Vec<u8>, size: RowLength) -> Result<(), RowFault>
    ensures begun { OnOk result (plane.new.items ≡ sized size plane.old.items) }
    ensures sound { OnOk result (IsBegun size plane.new.items) }
    ensures capacity { vec_capacity plane.old ≤ vec_capacity plane.new }
    ensures long { result ≡ Err TooLong → is_too_long size plane.old.items ≡ true }
    ensures memory { result ≡ Err Memory → vec_capacity plane.old < most_of size }
{
    match size {
        RowLength::Fixed(width) => plane.resize(width, 0)?,
        RowLength::UpTo(most) => {
            if plane.len() > most {
                return Err(RowFault::TooLong);
            }
        }
    }
    Ok(())
}

// Puts the bytes of all changes.
fn put_changes(
    plane: &mut Vec<u8>,
    compression: Compression,
    size: RowLength,
    input: &[u8],
) -> Result<Ending, RowFault>
    requires { IsBegun size plane.old.items }
    ensures row { OnOk result (plane.new.items ≡ sized size (changed plane.old.items (changes compression input.now))) }
    ensures ending { IfOk result (λ e. e ≡ ending_of (breaks_off size compression input.now)) }
    ensures not_long { OnOk result (is_too_long size (changed plane.old.items (changes compression input.now)) ≡ false) }
    ensures long { result ≡ Err TooLong → is_too_long size (changed plane.old.items (changes compression input.now)) ≡ true }
    ensures memory { result ≡ Err Memory → vec_capacity plane.old < most_of size }
{
    let mut rest = input;
    let mut place = 0;
    while !rest.is_empty() {
        let change = first_change(compression, rest);
        if !size.has_place(place as u128 + change.skip) {
            return Ok(Ending::Whole);
        }
        place = put_change(plane, size, place, &change)?;
        if change.is_broken {
            return Ok(Ending::Broken);
        }
        rest = change.rest;
    }
    Ok(Ending::Whole)
}

// Puts the bytes of one change, as far as there is room. Answers the place after it.
fn put_change(
    plane: &mut Vec<u8>,
    size: RowLength,
    place: usize,
    change: &FoundChange<'_>,
) -> Result<usize, RowFault>
    requires begun { IsBegun size plane.old.items }
    requires within { place ≤ length plane.old.items }
    requires near { change.now.skip < 2 ^ 80 }
    requires few { length (bytes_of change.now.bytes) < 2 ^ 80 }
    requires room { has_place size (place + change.now.skip) ≡ true }
    ensures row { IfOk result (λ next. (more : List Change)
        → sized size (going_on plane.new.items next more)
        ≡ sized size (going_on plane.old.items place (change_of change.now ∷ more))) }
    ensures ending { IfOk result (λ next. (more : List Change) → breaks_off_from size next more
        ≡ breaks_off_from size
        (place + (stay change.now.skip (bytes_of change.now.bytes) + length (bytes_of change.now.bytes))) more) }
    ensures within { IfOk result (λ next. next ≤ length plane.new.items) }
    ensures sound { OnOk result (IsBegun size plane.new.items) }
    ensures capacity { vec_capacity plane.old ≤ vec_capacity plane.new }
    ensures long { result ≡ Err TooLong → (more : List Change)
        → is_too_long size (going_on plane.old.items place (change_of change.now ∷ more)) ≡ true }
    ensures memory { result ≡ Err Memory → vec_capacity plane.old < most_of size }
{
    if change.bytes.count() == 0 {
        return Ok(place);
    }
    put(plane, size, place as u128 + change.skip, &change.bytes)
}

// Puts bytes at a place, as far as there is room. Answers the place after them.
fn put(
    plane: &mut Vec<u8>,
    size: RowLength,
    at: u128,
    bytes: &FoundBytes<'_>,
) -> Result<usize, RowFault>
    requires begun { IsBegun size plane.old.items }
    requires near { at < 2 ^ 100 }
    requires room { has_place size at ≡ true }
    requires some { 0 < length (bytes_of bytes.now) }
    requires few { length (bytes_of bytes.now) < 2 ^ 80 }
    ensures row { IfOk result (λ end. plane.new.items ≡ with_bytes at end (bytes_of bytes.now) plane.old.items) }
    ensures end { IfOk result (λ end. end ≡ min (at + length (bytes_of bytes.now)) (most_of size)) }
    ensures capacity { vec_capacity plane.old ≤ vec_capacity plane.new }
    ensures not_far { OnOk result (is_too_far size (at + length (bytes_of bytes.now)) ≡ false) }
    ensures far { result ≡ Err TooLong → is_too_far size (at + length (bytes_of bytes.now)) ≡ true }
    ensures memory { result ≡ Err Memory → vec_capacity plane.old < most_of size }
{
    let end = end_of(size, at + bytes.count())?;
    lengthen(plane, end)?;
    bytes.put(&mut plane[at as usize..end]);
    Ok(end)
}

// Where bytes end that would go on up to this place.
fn end_of(size: RowLength, wanted: u128) -> Result<usize, RowFault>
    ensures end { IfOk result (λ end. end ≡ min wanted (most_of size)) }
    ensures not_far { OnOk result (is_too_far size wanted ≡ false) }
    ensures far { IfErr result (λ fault. (fault ≡ TooLong) × (is_too_far size wanted ≡ true)) }
{
    match size {
        RowLength::Fixed(width) => Ok(wanted.min(width as u128) as usize),
        RowLength::UpTo(most) => {
            if wanted > most as u128 {
                return Err(RowFault::TooLong);
            }
            Ok(wanted as usize)
        }
    }
}

// Fills a row with 0 up to a place.
fn lengthen(plane: &mut Vec<u8>, end: usize) -> Result<(), RowFault>
    ensures row { OnOk result (plane.new.items ≡ plane.old.items ++ replicate (end - length plane.old.items) 0) }
    ensures capacity { vec_capacity plane.old ≤ vec_capacity plane.new }
    ensures memory { IfErr result (λ fault. (fault ≡ Memory) × (vec_capacity plane.old < end)) }
{
    if end > plane.len() {
        plane.resize(end, 0)?;
    }
    Ok(())
}
