//! Sequences of UTF-8.
ghost use Rattle.std.specs.Prelude.{◌≡◌, ◌≤◌, ◌+◌, ◌-◌, ◌*◌, ◌∷◌};
ghost use Rattle.std.specs.Int.{is_in_range};
ghost use Rattle.character_sets.specs.Utf8.{sequence};

// The code point of the sequence of two to four bytes that a text begins with.
#[tactic(auto, unfolding(crate::specs::Utf8::sequence))]
pub(crate) fn sequence(first: u8, after: &[u8]) -> Option<u32>
    ensures { result ≡ sequence (first ∷ after.now) }
{
    match first {
        0xC2..=0xDF => two(first, after),
        0xE0..=0xEF => three(first, after),
        0xF0..=0xF4 => four(first, after),
        _ => None,
    }
}

#[tactic(auto, unfolding(crate::specs::Utf8::sequence))]
fn two(first: u8, after: &[u8]) -> Option<u32>
    requires least { 0xC2 ≤ first }
    requires most { first ≤ 0xDF }
    ensures { result ≡ sequence (first ∷ after.now) }
{
    let [second, ..] = after else {
        return None;
    };
    if !is_later(*second) {
        return None;
    }
    Some(more(u32::from(first - 0xC0), *second))
}

// A sequence for a code point below 0x800 is too long, and a surrogate has none.
#[tactic(auto, unfolding(crate::specs::Utf8::sequence))]
fn three(first: u8, after: &[u8]) -> Option<u32>
    requires least { 0xE0 ≤ first }
    requires most { first ≤ 0xEF }
    ensures { result ≡ sequence (first ∷ after.now) }
{
    let [second, third, ..] = after else {
        return None;
    };
    if !is_later(*second) || !is_later(*third) {
        return None;
    }
    match more(more(u32::from(first - 0xE0), *second), *third) {
        code @ (0x800..=0xD7FF | 0xE000..=0xFFFF) => Some(code),
        _ => None,
    }
}

// A sequence for a code point below 0x10000 is too long, and none goes past 0x10FFFF.
#[tactic(auto, unfolding(crate::specs::Utf8::sequence))]
fn four(first: u8, after: &[u8]) -> Option<u32>
    requires least { 0xF0 ≤ first }
    requires most { first ≤ 0xF4 }
    ensures { result ≡ sequence (first ∷ after.now) }
{
    let [second, third, fourth, ..] = after else {
        return None;
    };
    if !is_later(*second) || !is_later(*third) || !is_later(*fourth) {
        return None;
    }
    match more(
        more(more(u32::from(first - 0xF0), *second), *third),
        *fourth,
    ) {
        code @ 0x10000..=0x10FFFF => Some(code),
        _ => None,
    }
}

// Whether it may be a byte after the first one of a sequence.
fn is_later(byte: u8) -> bool
    ensures { result ≡ is_in_range 0x80 0xBF byte }
{
    0x80 <= byte && byte <= 0xBF
}

// The bits so far, and the six of a further byte.
fn more(bits: u32, byte: u8) -> u32
    requires bits_in { bits ≤ 0x7FFF }
    requires later { 0x80 ≤ byte }
    ensures { result ≡ 64 * bits + (byte - 0x80) }
{
    64 * bits + u32::from(byte - 0x80)
}
