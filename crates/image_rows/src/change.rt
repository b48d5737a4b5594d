//! The changes that the data of a row say, one at a time.
ghost use Rattle.std.specs.Prelude.{◌≡◌, ◌+◌, ◌^◌, ◌<◌, ◌≤◌, length, get_or, take, drop, []};
ghost use Rattle.image_rows.specs.Changes.{first_change, literal, run, packed, delta, compressed, broken};
ghost use Rattle.image_rows.specs.Views.{bytes_of, reading_of};

use crate::compression::Compression;
use crate::numbers::number;

/// Bytes that are put.
#[derive(Clone, Copy)]
pub enum FoundBytes<'a> {
    /// As they are in the data.
    Literal(&'a [u8]),
    /// One byte, so many times.
    Run { byte: u8, count: u128 },
}

impl FoundBytes<'_> {
    /// How many they are.
    pub fn count(&self) -> u128
        ensures { result ≡ length (bytes_of self.now) }
    {
        match self {
            FoundBytes::Literal(bytes) => bytes.len() as u128,
            FoundBytes::Run { count, .. } => *count,
        }
    }

    /// Puts the first of them into the whole of a part of a row.
    pub fn put(&self, part: &mut [u8])
        requires { length part.old ≤ length (bytes_of self.now) }
        ensures { part.new ≡ take (length part.old) (bytes_of self.now) }
    {
        match self {
            FoundBytes::Literal(bytes) => part.copy_from_slice(&bytes[..part.len()]),
            FoundBytes::Run { byte, .. } => part.fill(*byte),
        }
    }
}

/// A change in a row, and the data after it.
#[derive(Clone, Copy)]
pub struct FoundChange<'a> {
    /// How many bytes stay as they are.
    pub skip: u128,
    /// The bytes after them.
    pub bytes: FoundBytes<'a>,
    /// Whether the data end before the change does.
    pub is_broken: bool,
    /// The data after it.
    pub rest: &'a [u8],
}

/// The first change that data say.
pub fn first_change<'a>(compression: Compression, input: &'a [u8]) -> FoundChange<'a>
    requires { 0 < length input.now }
    ensures change { reading_of result ≡ first_change compression (get_or input.now 0 0) (drop 1 input.now) }
    ensures shorter { length result.rest.now < length input.now }
    ensures near { result.skip < 2 ^ 80 }
    ensures few { length (bytes_of result.bytes) < 2 ^ 80 }
{
    let first = input[0];
    let rest = &input[1..];
    match compression {
        Compression::Unencoded => FoundChange {
            skip: 0,
            bytes: FoundBytes::Literal(input),
            is_broken: false,
            rest: &[],
        },
        Compression::RunLength => run(0, first as u128 + 1, rest),
        Compression::PackBits => packed(first, rest),
        Compression::DeltaRow => delta(first, rest),
        Compression::CompressedDelta => compressed(first, rest),
    }
}

// PackBits: up to 128 bytes, or a run of up to 128; 128 is nothing.
fn packed<'a>(first: u8, input: &'a [u8]) -> FoundChange<'a>
    ensures change { reading_of result ≡ packed first input.now }
    ensures shorter { length result.rest.now ≤ length input.now }
    ensures near { result.skip < 2 ^ 80 }
    ensures few { length (bytes_of result.bytes) < 2 ^ 80 }
{
    if first < 128 {
        return literal(0, first as u128 + 1, input);
    }
    if first == 128 {
        return FoundChange {
            skip: 0,
            bytes: FoundBytes::Literal(&[]),
            is_broken: false,
            rest: input,
        };
    }
    run(0, 257 - first as u128, input)
}

// A delta row: how many bytes stay, in 5 bits, and how many follow.
fn delta<'a>(first: u8, input: &'a [u8]) -> FoundChange<'a>
    ensures change { reading_of result ≡ delta first input.now }
    ensures shorter { length result.rest.now ≤ length input.now }
    ensures near { result.skip < 2 ^ 80 }
    ensures few { length (bytes_of result.bytes) < 2 ^ 80 }
{
    match number(31, first % 32, input) {
        None => broken(0),
        Some(skip) => literal(skip.value, first as u128 / 32 + 1, skip.rest),
    }
}

// A compressed delta row: how many bytes stay and how many follow, or how many stay and how long a run is.
fn compressed<'a>(first: u8, input: &'a [u8]) -> FoundChange<'a>
    ensures change { reading_of result ≡ compressed first input.now }
    ensures shorter { length result.rest.now ≤ length input.now }
    ensures near { result.skip < 2 ^ 80 }
    ensures few { length (bytes_of result.bytes) < 2 ^ 80 }
{
    if first < 128 {
        changed_bytes(first, input)
    } else {
        changed_run(first, input)
    }
}

// How many bytes stay, in 4 bits, and how many follow, in 3.
fn changed_bytes<'a>(first: u8, input: &'a [u8]) -> FoundChange<'a>
    requires { first < 128 }
    ensures change { reading_of result ≡ compressed first input.now }
    ensures shorter { length result.rest.now ≤ length input.now }
    ensures near { result.skip < 2 ^ 80 }
    ensures few { length (bytes_of result.bytes) < 2 ^ 80 }
{
    match number(15, first / 8, input) {
        None => broken(0),
        Some(skip) => match number(7, first % 8, skip.rest) {
            None => broken(skip.value),
            Some(count) => literal(skip.value, count.value + 1, count.rest),
        },
    }
}

// How many bytes stay, in 2 bits, and how long a run is, in 5.
fn changed_run<'a>(first: u8, input: &'a [u8]) -> FoundChange<'a>
    requires { 128 ≤ first }
    ensures change { reading_of result ≡ compressed first input.now }
    ensures shorter { length result.rest.now ≤ length input.now }
    ensures near { result.skip < 2 ^ 80 }
    ensures few { length (bytes_of result.bytes) < 2 ^ 80 }
{
    match number(3, first / 32 % 4, input) {
        None => broken(0),
        Some(skip) => match number(31, first % 32, skip.rest) {
            None => broken(skip.value),
            Some(count) => run(skip.value, count.value + 2, count.rest),
        },
    }
}

// The next bytes of the data.
fn literal<'a>(skip: u128, count: u128, input: &'a [u8]) -> FoundChange<'a>
    ensures change { reading_of result ≡ literal skip count input.now }
    ensures shorter { length result.rest.now ≤ length input.now }
    ensures skip { result.skip ≡ skip }
    ensures few { length (bytes_of result.bytes) < 2 ^ 80 }
{
    let there = count.min(input.len() as u128) as usize;
    FoundChange {
        skip,
        bytes: FoundBytes::Literal(&input[..there]),
        is_broken: (input.len() as u128) < count,
        rest: &input[there..],
    }
}

// The next byte of the data, so many times.
fn run<'a>(skip: u128, count: u128, input: &'a [u8]) -> FoundChange<'a>
    requires { count < 2 ^ 80 }
    ensures change { reading_of result ≡ run skip count input.now }
    ensures shorter { length result.rest.now ≤ length input.now }
    ensures skip { result.skip ≡ skip }
    ensures few { length (bytes_of result.bytes) < 2 ^ 80 }
{
    if input.is_empty() {
        return broken(skip);
    }
    FoundChange {
        skip,
        bytes: FoundBytes::Run {
            byte: input[0],
            count,
        },
        is_broken: false,
        rest: &input[1..],
    }
}

// The data end before a byte is known.
fn broken<'a>(skip: u128) -> FoundChange<'a>
    ensures change { reading_of result ≡ (broken skip, []) }
    ensures skip { result.skip ≡ skip }
    ensures no_bytes { length (bytes_of result.bytes) ≡ 0 }
    ensures none { length result.rest.now ≡ 0 }
{
    FoundChange {
        skip,
        bytes: FoundBytes::Literal(&[]),
        is_broken: true,
        rest: &[],
    }
}
