//! Parts of a letter's size.
ghost use Rattle.std.specs.Prelude.{◌≡◌, ◌<◌, ◌≤◌, ◌*◌, ◌^◌, pos, nat_abs, ◌*ℤ◌, true};
ghost use Rattle.lettering.specs.Bounds.{most_step};
ghost use Rattle.stick_font.specs.Labels as labels;

use exact::rounded;

// The greatest number of parts and the greatest size of which a share is computed in 64 bits, which is faster.
const MOST_SHORT_COUNT: i128 = 1 << 36;

const MOST_SHORT_SIZE: i64 = 1 << 24;

// `count` parts of a size, of which it has `parts`.
#[inline]
pub fn share(count: i128, size: i64, parts: u64) -> i128
    requires count_in { nat_abs count ≤ 2 ^ 84 }
    requires size_in { nat_abs size ≤ 2 ^ 40 }
    requires parts_above { 0 < parts }
    requires parts_in { parts ≤ 2 ^ 60 }
    requires enough { nat_abs count ≤ parts * 2 ^ 44 }
    ensures value { result ≡ labels.share count size parts }
    ensures most { nat_abs result ≤ 2 ^ 84 }
{
    if is_short(count, size) {
        i128::from(short_share(count as i64, size, parts))
    } else {
        long_share(count, size, parts)
    }
}

// Whether a number of parts and a size are small enough for 64 bits.
#[inline]
fn is_short(count: i128, size: i64) -> bool
    ensures count { result ≡ true → nat_abs count ≤ 2 ^ 36 }
    ensures size { result ≡ true → nat_abs size ≤ 2 ^ 24 }
{
    is_short_size(size) && -MOST_SHORT_COUNT <= count && count <= MOST_SHORT_COUNT
}

/// Whether a size is.
#[inline]
pub fn is_short_size(size: i64) -> bool
    ensures { result ≡ true → nat_abs size ≤ 2 ^ 24 }
{
    -MOST_SHORT_SIZE <= size && size <= MOST_SHORT_SIZE
}

/// The same as `share`, for a number of parts and a size that are small enough for 64 bits.
#[inline(always)]
pub fn short_share(count: i64, size: i64, parts: u64) -> i64
    requires count_in { nat_abs count ≤ 2 ^ 36 }
    requires size_in { nat_abs size ≤ 2 ^ 24 }
    requires parts_above { 0 < parts }
    requires parts_in { parts ≤ 2 ^ 60 }
    ensures value { result ≡ labels.share count size parts }
    ensures most { nat_abs result ≤ 2 ^ 60 }
{
    let parts = parts as i64;
    (2 * (count * size) + parts).div_euclid(2 * parts)
}

fn long_share(count: i128, size: i64, parts: u64) -> i128
    requires count_in { nat_abs count ≤ 2 ^ 84 }
    requires size_in { nat_abs size ≤ 2 ^ 40 }
    requires parts_above { 0 < parts }
    requires enough { nat_abs count ≤ parts * 2 ^ 44 }
    ensures value { result ≡ labels.share count size parts }
    ensures most { nat_abs result ≤ 2 ^ 84 }
{
    rounded(count * i128::from(size), i128::from(parts))
}

// How many parts `steps` steps are, each of `parts` times `step`.
#[inline]
pub fn stepped(parts: u8, step: i64, steps: i128) -> i128
    requires parts_in { parts ≤ 36 }
    requires step_in { nat_abs step ≤ most_step }
    requires steps_in { nat_abs steps ≤ 2 ^ 52 }
    ensures value { result ≡ pos parts *ℤ step *ℤ steps }
    ensures most { nat_abs result ≤ parts * most_step * nat_abs steps }
{
    i128::from(parts) * i128::from(step) * steps
}
